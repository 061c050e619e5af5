//! Machines at work in threads: what `run` prints. That `replay` answers it is law `runs_are_replayed` of `plan_app`.

use super::answered_examples::PRESS;
use super::doubles::are_answered;

/// A machine that is alone: it runs a motor until a sensor shows, and takes a pose.
pub const HOIST: &str = "\
[[machine]]
name = \"hoist\"
places = [\"hook\", \"floor\"]
sensors = [\"up\", \"down\"]
poses = [{ name = \"high\", gives = {} }, { name = \"low\", gives = {} }]
program = [\"run raising until up\", \"pose high\", \"run lowering until down\", \"pose low\"]

[[motor]]
name = \"raising\"
machine = \"hoist\"

[[motor]]
name = \"lowering\"
machine = \"hoist\"
";

/// A press that shuts without moving, which nobody mends; and a loader that asks nothing.
pub const JUMPER: &str = "\
[[machine]]
name = \"loader\"

[[machine]]
name = \"press\"
poses = [{ name = \"shut\", gives = { interior = \"closed\" }, after_moving = true }]
program = [\"claim interior\", \"pose shut\", \"release interior\"]

[[zone]]
name = \"interior\"
host = \"press\"
guest = \"loader\"
";

/// What is printed of the machine that is alone.
const OF_HOIST: &str = "\
0: ./plan run --turns 4
=>
start,01
=>
# 1 machine took 4 turns each, in threads of their own, at one pace
# hoist: 0 calls done, 0 refused
# journals: one legal history of 0 calls
start,01
--
0: ./plan run --turns 10
=>
start,10,5
hoist,pose,low
=>
# 1 machine took 10 turns each, in threads of their own, at one pace
# hoist: 2 calls done, 0 refused
# journals: one legal history of 2 calls
start,10,5
hoist,pose,high
hoist,pose,low
--
1: ./plan run --turns 1
=>
=>
fault nostart
--
1: ./plan run --turns 1
=>
start,0
=>
fault badstart
--
1: ./plan run --turns 1000000
=>
start,012
=>
fault badstart
";

/// What is printed of the press.
const OF_JUMPER: &str = "\
1: ./plan run --turns 100
=>
start,
=>
# 2 machines took 100 turns each, in threads of their own, at one pace
# loader: 0 calls done, 0 refused
# press: 1 call done, 1 refused
# press: stopped by jump
# journals: one legal history of 2 calls
start,
press,claim,interior
press,pose,shut
";

/// What is printed of a plan that is none.
const OF_NONE: &str = "\
1: ./plan run --turns 1
=>
[[machine]]
start,
=>
fault plan line 1: machine 1: name: it is missing
";

/// The most machines, each in a thread of its own: each asks in each turn.
const OF_THIRTY: &str = "\
0: ./plan run --turns 4
=>
@30 [[machine]]
name = \"fan#\"
poses = [{ name = \"left\", gives = {} }, { name = \"right\", gives = {} }]
program = [\"pose left\", \"pose right\"]
@start,
=>
# 30 machines took 4 turns each, in threads of their own, at one pace
[..]
# fan30: 4 calls done, 0 refused
# journals: one legal history of 120 calls
start,
[..]
fan30,pose,left
[..]
";

/// A machine that asks in each turn.
const FAN: &str = "\
[[machine]]
name = \"fan\"
poses = [{ name = \"left\", gives = {} }, { name = \"right\", gives = {} }]
program = [\"pose left\", \"pose right\"]
";

/// A script takes 65,536 calls.
const OF_FAN: &str = "\
0: ./plan run --turns 65536
=>
start,
=>
[..]
fan,pose,left
fan,pose,right
--
1: ./plan run --turns 65537
=>
start,
=>
fault long
";

/// What threads did differs from run to run. The loader lets the interior go once it has taken its plate back: eight
/// times, when 104 calls are done, and more.
const OF_PRESS: &str = "\
0: ./plan run --turns 300
=>
start,10
=>
# 2 machines took 300 turns each, in threads of their own, at one pace
# loader: [..] calls done, [..] refused
# press: [..] calls done, [..] refused
# journals: one legal history of [..] calls
start,10
@8 [..]
loader,release,interior
@[..]
";

#[test]
fn tells_what_machines_did(rt: HostRuntime) {
    are_answered(&rt, rt.alloc(), HOIST, OF_HOIST);
    are_answered(&rt, rt.alloc(), JUMPER, OF_JUMPER);
    are_answered(&rt, rt.alloc(), "", OF_NONE);
    are_answered(&rt, rt.alloc(), "", OF_THIRTY);
    are_answered(&rt, rt.alloc(), FAN, OF_FAN);
    are_answered(&rt, rt.alloc(), PRESS, OF_PRESS);
}
