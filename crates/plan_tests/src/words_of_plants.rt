//! What the program answers of a plant on several words: by the plan of one of them, and what all of them have.

use super::doubles::are_answered;
use std::alloc::{AllocError, Global};
use test_doubles::{count_parts, part};

/// A press with a loader and a crane of its own, and a number for `#`. Its six zones share a word, since each has a way
/// from the loader's hand, and no word has room for twelve.
const PRESS: &str = "\
[[machine]]
name = \"loader#\"
places = [\"hand#\"]
program = [\"give interior#\", \"take interior#\", \"release interior#\"]

[[machine]]
name = \"press#\"
places = [\"die#\"]
poses = [
  { name = \"load\", gives = { interior# = \"openin\" }, after_moving = true },
  { name = \"unload\", gives = { interior# = \"openout\" }, after_moving = true },
  { name = \"closed\", gives = { interior# = \"closed\" }, after_moving = true },
  { name = \"travelling\", gives = { interior# = \"moving\" } },
]
program = [
  \"claim interior#\", \"pose travelling\", \"pose load\", \"yield interior#\", \"take interior#\",
  \"pose travelling\", \"pose closed\", \"pose travelling\", \"pose unload\", \"give interior#\",
]

[[machine]]
name = \"crane#\"
places = [\"rack#\"]

[[zone]]
name = \"interior#\"
host = \"press#\"
guest = \"loader#\"
inward = [\"hand#\", \"die#\"]
outward = [\"die#\", \"hand#\"]

[[zone]]
name = \"north#\"
host = \"crane#\"
guest = \"loader#\"
inward = [\"hand#\", \"rack#\"]

[[zone]]
name = \"east#\"
host = \"crane#\"
guest = \"loader#\"
inward = [\"hand#\", \"rack#\"]

[[zone]]
name = \"south#\"
host = \"crane#\"
guest = \"loader#\"
inward = [\"hand#\", \"rack#\"]

[[zone]]
name = \"west#\"
host = \"crane#\"
guest = \"loader#\"
inward = [\"hand#\", \"rack#\"]

[[zone]]
name = \"roof#\"
host = \"crane#\"
guest = \"loader#\"
inward = [\"hand#\", \"rack#\"]

[[motor]]
name = \"ram#\"
machine = \"press#\"
holds = { interior# = \"moving\" }

[[motor]]
name = \"arm#\"
machine = \"loader#\"
holds = { interior# = \"any\" }

[[hazard]]
name = \"arm# crushed\"
motors = [\"ram#\", \"arm#\"]

";

/// A document with this many presses.
pub fn presses(alloc: Global, count: u32) -> Result<String, AllocError> {
    let mut text = String::new(alloc);
    for press in 1..=count {
        text.push_str(part(PRESS, "#", 0))?;
        for number in 1..count_parts(PRESS, "#") {
            write!(text, "{press}{}", part(PRESS, "#", number))?;
        }
    }
    Ok(text)
}

/// Two presses have a word each; their rams are of two words, which keep them apart from nothing of the other. Without
/// a word there are too many zones. On a word all machines of the other have nothing to do.
const ROWS: &str = "\
1: ./plan check
1: ./plan explore
=>
start,100100
=>
fault plan line [..]: zone 11: name: there are more than 10; plan words reads up to 40
--
0: ./plan words
=>
=>
2 words
word 0: a word of 44 bits
  6 zones: interior1 north1 east1 south1 west1 roof1
  3 places: hand1 die1 rack1
  4 poses: load unload closed travelling
word 1: a word of 44 bits
  6 zones: interior2 north2 east2 south2 west2 roof2
  3 places: hand2 die2 rack2
  4 poses: load unload closed travelling
arm1 crushed: kept apart by interior1 on word 0
arm2 crushed: kept apart by interior2 on word 1
--
1: ./plan words
=>
[[hazard]]
name = \"rams\"
motors = [\"ram1\", \"ram2\"]
start,100
=>
2 words
[..]
arm1 crushed: kept apart by interior1 on word 0
arm2 crushed: kept apart by interior2 on word 1
rams: NOT kept apart on any word
--
1: ./plan check --word 9
1: ./plan replay --word 9
1: ./plan explore --word 9 --page
1: ./plan header --word 9
1: ./plan draw --word 9
1: ./plan run --word 9 --turns 5
=>
start,100
=>
fault plan has no word 9: it has words 0 to 1
--
0: ./plan replay --word 1
=>
start,100
press2,claim,interior2
loader2,claim,interior2
watch,stop
press2,pose,travelling
=>
0 0 start 1
1 1 done
2 1 held press2
3 2 done
4 2 stopped
--
1: ./plan replay --word 1
=>
start,100
press1,claim,interior1
=>
0 0 start 1
record 1, field 3: no zone has this name
fault badrow 1
--
0: ./plan explore --word 1
0: ./plan explore --word 1 --memory 1
=>
start,100
=>
no standstill in any order of turns before the last stamp: 15 situations
loader1 asks nothing
press1 asks nothing
crane1 asks nothing
loader2 goes on for ever in each fair order: within k * 7 turns
press2 goes on for ever in each fair order: within k * 3 turns
crane2 asks nothing
plates move for ever in each fair order: within k * 6 turns
[..]
--
1: ./plan check --word 0
=>
=>
6 machines: loader1 press1 crane1 loader2 press2 crane2
6 zones: interior1 north1 east1 south1 west1 roof1
3 places: hand1 die1 rack1
4 poses: load unload closed travelling
a word of 44 bits
[..]
4 motors: ram1 arm1 ram2 arm2
arm1 crushed: kept apart by interior1
arm2 crushed: NOT kept apart: start 000 permits both
--
0: ./plan header --word 1
=>
=>
[..]#define PLAN_ZONE_INTERIOR2 0[..]#define PLAN_BITS 44[..]
--
0: ./plan header --word 1 --python
=>
=>
[..]interior2[..]
--
0: ./plan draw --word 0
=>
=>
<svg[..]interior1[..]</svg>
--
0: ./plan run --word 1 --turns 3
=>
start,100
=>
# 6 machines took 3 turns each[..]press2,claim,interior2[..]
--
0: ./plan run --word 1 --turns 3 --page
1: ./plan explore --word 1 --page
=>
start,000
=>
<![..]loader2[..]interior2[..]
";

/// One press is on one word, whose plan is the document's.
const OF_ONE_WORD: &str = "\
0: ./plan words
=>
start,100
=>
1 word
word 0: a word of 44 bits
  6 zones: interior1 north1 east1 south1 west1 roof1
  3 places: hand1 die1 rack1
  4 poses: load unload closed travelling
arm1 crushed: kept apart by interior1 on word 0
--
0: ./plan explore
0: ./plan explore --word 0
=>
start,100
=>
no standstill in any order of turns before the last stamp: 15 situations
loader1 goes on for ever in each fair order: within k * 7 turns
press1 goes on for ever in each fair order: within k * 3 turns
crane1 asks nothing
plates move for ever in each fair order: within k * 6 turns
[..]
--
1: ./plan replay --word 1
1: ./plan draw --word 1
=>
=>
fault plan has no word 1: it has word 0 alone
";

#[test]
fn answers_by_words(rt: HostRuntime) -> Result<(), AllocError> {
    let two = presses(rt.alloc(), 2)?;
    are_answered(&rt, rt.alloc(), two.as_str(), ROWS);
    let one = presses(rt.alloc(), 1)?;
    are_answered(&rt, rt.alloc(), one.as_str(), OF_ONE_WORD);
    Ok(())
}
