//! Machines of a plant at work in threads on all its words: what `run --words` prints. That `replay` answers each word's
//! script is law `plant_runs_are_replayed` of `plan_app`.

use super::at_work::JUMPER;
use super::doubles::are_answered;
use super::words_of_plants::presses;
use std::alloc::{AllocError, Global};

/// A plant of two machines, `west` and `east`, with eleven cells: ten that `west` hosts, which fill a word, and the last
/// one, which this machine hosts and the other one visits.
fn plant(alloc: Global, machines: &str, host: &str, guest: &str) -> Result<String, AllocError> {
    let mut text = String::from_str(alloc, machines)?;
    for cell in 1..=10 {
        write!(
            text,
            "[[zone]]\nname = \"c{cell}\"\nhost = \"west\"\nguest = \"east\"\n"
        )?;
    }
    write!(
        text,
        "[[zone]]\nname = \"c11\"\nhost = \"{host}\"\nguest = \"{guest}\"\n"
    )?;
    Ok(text)
}

/// Each takes a cell of one word, leaves it open, and waits for that of the other one.
const CROSSWISE: &str = "\
[[machine]]
name = \"west\"
places = [\"hook\"]
poses = [{ name = \"over_1\", gives = { c1 = \"openin\" } }]
program = [\"claim c1\", \"pose over_1\", \"claim c11\", \"release c11\", \"release c1\"]

[[machine]]
name = \"east\"
places = [\"tray\"]
poses = [{ name = \"over_11\", gives = { c11 = \"openin\" } }]
program = [\"claim c11\", \"pose over_11\", \"claim c1\", \"release c1\", \"release c11\"]
";

/// At one pace each word has one order of calls: a machine comes to the other's word in its third turn.
const OF_CROSSWISE: &str = "\
0: ./plan run --words --turns 4
=>
start,01,7
west,claim,c2
=>
# 2 machines took 4 turns each, in threads of their own, at one pace
# west: 2 calls done, 2 refused
# east: 2 calls done, 2 refused
# word 0: journals: one legal history of 4 calls
start,01,7
west,claim,c1
west,pose,over_1
east,claim,c1
east,claim,c1
# word 1: journals: one legal history of 4 calls
start,,7
east,claim,c11
east,pose,over_11
west,claim,c11
west,claim,c11
--
0: ./plan run --words --turns 1
=>
start,10
=>
# 2 machines took 1 turn each, in threads of their own, at one pace
# west: 1 call done, 0 refused
# east: 1 call done, 0 refused
# word 0: journals: one legal history of 1 call
start,10
west,claim,c1
# word 1: journals: one legal history of 1 call
start,
east,claim,c11
--
1: ./plan run --words --turns 1
=>
=>
fault nostart
--
1: ./plan run --words --turns 1
=>
start,0
=>
fault badstart
--
1: ./plan run --words --turns 1000000
=>
start,000
=>
fault badstart
--
1: ./plan run --words --turns 1
=>
start,0x
=>
fault badstart
--
1: ./plan run --words --turns 1
=>
[[zone]]
start,00
=>
fault plan line [..]: zone 12: [..]
--
2: ./plan run --words
2: ./plan run --words 5
2: ./plan run --words --turns
2: ./plan run --words --turns 0
2: ./plan run --words --turns 1000001
2: ./plan run --words --words 5
2: ./plan run --words --memory 5
2: ./plan run --words --turns 5 --page
2: ./plan run --words --turns 5 --words
2: ./plan run --turns 5 --words
2: ./plan run --turns --words 5
2: ./plan run --word 0 --words --turns 5
2: ./plan explore --words --turns 5
2: ./plan explore --words --memory 5
2: ./plan --words --turns 5
=>
start,00
=>
error: the first argument is [..]
";

/// A run, between a cell of one word and one of the other, is of both.
const LIFTING: &str = "\
[[machine]]
name = \"west\"
sensors = [\"up\"]
program = [\"claim c1\", \"run lifting until up\", \"claim c11\", \"release c1\", \"release c11\"]

[[machine]]
name = \"east\"

[[motor]]
name = \"lifting\"
machine = \"west\"

";

/// The run takes four turns, and no call.
const OF_LIFTING: &str = "\
0: ./plan run --words --turns 8
=>
start,
=>
# 2 machines took 8 turns each, in threads of their own, at one pace
# west: 4 calls done, 0 refused
# east: 0 calls done, 0 refused
# word 0: journals: one legal history of 2 calls
start,
west,claim,c1
west,release,c1
# word 1: journals: one legal history of 2 calls
start,
west,claim,c11
west,release,c11
--
0: ./plan run --words --turns 5
=>
start,
=>
# 2 machines took 5 turns each, in threads of their own, at one pace
# west: 1 call done, 0 refused
# east: 0 calls done, 0 refused
# word 0: journals: one legal history of 1 call
start,
west,claim,c1
# word 1: journals: one legal history of 0 calls
start,
";

/// A machine that claims a cell of the second word twice, which nobody mends.
const TWICE: &str = "\
[[machine]]
name = \"west\"
program = [\"claim c1\", \"claim c11\", \"claim c11\", \"release c11\", \"release c1\"]

[[machine]]
name = \"east\"

";

/// The second claim stops it.
const OF_TWICE: &str = "\
1: ./plan run --words --turns 100
=>
start,
=>
# 2 machines took 100 turns each, in threads of their own, at one pace
# west: 2 calls done, 1 refused
# west: stopped by already
# east: 0 calls done, 0 refused
# word 0: journals: one legal history of 1 call
start,
west,claim,c1
# word 1: journals: one legal history of 2 calls
start,
west,claim,c11
west,claim,c11
";

/// What threads did differs from run to run. Two presses have a word each, and plates come back on both.
const OF_PRESSES: &str = "\
0: ./plan run --words --turns 100
=>
start,100100
=>
# 6 machines took 100 turns each, in threads of their own, at one pace
# loader1: [..] calls done, [..] refused
# press1: [..] calls done, [..] refused
# crane1: 0 calls done, 0 refused
# loader2: [..] calls done, [..] refused
# press2: [..] calls done, [..] refused
# crane2: 0 calls done, 0 refused
# word 0: journals: one legal history of [..] calls
start,100
[..]
loader1,release,interior1
[..]
# word 1: journals: one legal history of [..] calls
start,100
[..]
loader2,release,interior2
[..]
";

/// A plant on one word is told as its plan, but for the word's number.
const OF_JUMPER: &str = "\
1: ./plan run --words --turns 100
=>
start,
=>
# 2 machines took 100 turns each, in threads of their own, at one pace
# loader: 0 calls done, 0 refused
# press: 1 call done, 1 refused
# press: stopped by jump
# word 0: journals: one legal history of 2 calls
start,
press,claim,interior
press,pose,shut
";

/// A document without machines; and a machine with more calls on a word than a script takes.
const OF_OTHERS: &str = "\
1: ./plan run --words --turns 1
=>
start,
=>
fault plan the document: there is no [[machine]]
--
1: ./plan run --words --turns 65537
=>
[[machine]]
name = \"fan\"
poses = [{ name = \"left\", gives = {} }, { name = \"right\", gives = {} }]
program = [\"pose left\", \"pose right\"]
start,
=>
fault long
";

#[test]
fn machines_wait_on_two_words(rt: HostRuntime) -> Result<(), AllocError> {
    let crosswise = plant(rt.alloc(), CROSSWISE, "east", "west")?;
    are_answered(&rt, rt.alloc(), crosswise.as_str(), OF_CROSSWISE);
    Ok(())
}

#[test]
fn a_machine_goes_through_two_words(rt: HostRuntime) -> Result<(), AllocError> {
    let lifting = plant(rt.alloc(), LIFTING, "west", "east")?;
    are_answered(&rt, rt.alloc(), lifting.as_str(), OF_LIFTING);
    let twice = plant(rt.alloc(), TWICE, "west", "east")?;
    are_answered(&rt, rt.alloc(), twice.as_str(), OF_TWICE);
    Ok(())
}

#[test]
fn presses_run_together(rt: HostRuntime) -> Result<(), AllocError> {
    let two = presses(rt.alloc(), 2)?;
    are_answered(&rt, rt.alloc(), two.as_str(), OF_PRESSES);
    are_answered(&rt, rt.alloc(), JUMPER, OF_JUMPER);
    are_answered(&rt, rt.alloc(), "", OF_OTHERS);
    Ok(())
}
