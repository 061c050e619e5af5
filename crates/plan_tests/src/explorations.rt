//! Explorations of a press and of a lift.

use super::answered_examples::PRESS;
use super::doubles::are_answered;
use plan_document::{ProgrammedPlan, plan_of};
use plan_rules::State;
use std::alloc::Global;

/// A loader and a press that ask nothing.
const SILENT: &str = "\
[[machine]]
name = \"loader\"
places = [\"hand\"]

[[machine]]
name = \"press\"
places = [\"die\"]
poses = [
  { name = \"load\", gives = { interior = \"openin\" }, after_moving = true },
  { name = \"unload\", gives = { interior = \"openout\" }, after_moving = true },
  { name = \"closed\", gives = { interior = \"closed\" }, after_moving = true },
  { name = \"travelling\", gives = { interior = \"moving\" } },
]

[[zone]]
name = \"interior\"
host = \"press\"
guest = \"loader\"
inward = [\"hand\", \"die\"]
outward = [\"die\", \"hand\"]
";

/// The lift brings a plate from below, where the ground is, to the gallery above, and another one down.
const LIFTING: &str = "\
[[machine]]
name = \"lift\"
places = [\"cabin\"]
poses = [
  { name = \"travelling\", gives = { lower = \"moving\", upper = \"moving\" } },
  { name = \"load_below\", gives = { lower = \"openin\", upper = \"closed\" }, after_moving = \
     true },
  { name = \"unload_above\", gives = { lower = \"closed\", upper = \"openout\" }, after_moving \
     = true },
  { name = \"unload_below\", gives = { lower = \"openout\", upper = \"closed\" }, after_moving \
     = true },
  { name = \"load_above\", gives = { lower = \"closed\", upper = \"openin\" }, after_moving = \
     true },
]
program = [
  \"claim lower\", \"claim upper\", \"pose travelling\", \"pose load_below\", \"yield lower\", \"take lower\",
  \"pose travelling\", \"pose unload_above\", \"give upper\", \"claim upper\", \"pose travelling\",
  \"pose load_above\", \"yield upper\", \"take upper\", \"pose travelling\", \"pose unload_below\",
  \"give lower\", \"release upper\",
]

[[machine]]
name = \"below\"
places = [\"ground\"]
program = [\"give lower\", \"take lower\", \"release lower\"]

[[machine]]
name = \"above\"
places = [\"gallery\"]
program = [\"take upper\", \"release upper\", \"give upper\"]

[[zone]]
name = \"lower\"
host = \"lift\"
guest = \"below\"
inward = [\"ground\", \"cabin\"]
outward = [\"cabin\", \"ground\"]

[[zone]]
name = \"upper\"
host = \"lift\"
guest = \"above\"
inward = [\"gallery\", \"cabin\"]
outward = [\"cabin\", \"gallery\"]
";

/// The plan of a document, with its programs. `None` if memory runs out.
pub fn plan_in(alloc: Global, document: &str) -> Option<ProgrammedPlan> {
    plan_of(alloc, document.as_bytes()).ok()
}

/// The opening with plates in these of the first two places.
pub fn opening_with(places: [bool; 2]) -> State {
    let mut full = [false; 16];
    full[0] = places[0];
    full[1] = places[1];
    State::start(full, 0)
}

/// Where the press with two plates comes to a standstill; and that with one it doesn't, whatever the stamp.
const OF_PRESS: &str = "\
1: ./plan explore
=>
start,11
=>
a standstill after 2 turns, and no fewer
loader waits: give interior: notowner press
press waits: pose load: placefull
turns:
  press asks: claim interior: done
  press asks: pose travelling: done
--
0: ./plan explore
=>
start,10,7
=>
no standstill in any order of turns before the last stamp: 15 situations
[..]
--
0: ./plan explore
=>
start,10,1048575
=>
no standstill in any order of turns before the last stamp: 15 situations
[..]
";

/// The same of the lift.
const OF_LIFT: &str = "\
1: ./plan explore
=>
start,011
=>
a standstill after 9 turns, and no fewer
lift waits: give upper: placefull
below waits: take lower: notowner lift
above waits: take upper: notowner lift
turns:
  lift asks: claim lower: done
  lift asks: claim upper: done
  lift asks: pose travelling: done
  lift asks: pose load_below: done
  lift asks: yield lower: done
  below asks: give lower: done
  lift asks: take lower: done
  lift asks: pose travelling: done
  lift asks: pose unload_above: done
--
0: ./plan explore
=>
start,010
=>
no standstill in any order of turns before the last stamp: 29 situations
[..]
";

/// Of those that ask nothing.
const OF_SILENT: &str = "\
1: ./plan explore
=>
start,00
=>
no standstill in any order of turns before the last stamp: 1 situation
loader asks nothing
press asks nothing
[..]
";

#[test]
fn stands_still_or_goes_on(rt: HostRuntime) {
    are_answered(&rt, rt.alloc(), PRESS, OF_PRESS);
    are_answered(&rt, rt.alloc(), LIFTING, OF_LIFT);
    are_answered(&rt, rt.alloc(), SILENT, OF_SILENT);
}
