//! What the program answers of a plant on all its words together.

use super::doubles::are_answered;
use super::words_of_plants::presses;
use std::alloc::{AllocError, Global};

/// Two cranes. Each takes two bays, `a` and `k`, which are on two words, and leaves a bay that it hosts open.
const CRANES: &str = "\
[[machine]]
name = \"north\"
places = [\"north_hook\"]
poses = [{ name = \"above_a\", gives = { a = \"openin\" } }]
program = [\"claim a\", \"pose above_a\", \"claim k\", \"release k\", \"release a\"]

[[machine]]
name = \"south\"
places = [\"south_hook\"]
poses = [{ name = \"above_k\", gives = { k = \"openin\" } }]
";

/// Bay `k` first, and then `a`, as `north` doesn't.
const CROSSWISE: &str =
    "program = [\"claim k\", \"pose above_k\", \"claim a\", \"release a\", \"release k\"]\n";

/// Opens bay `k` alone, and then takes the bays as `north` does.
const IN_ORDER: &str = "\
program = [
  \"claim k\", \"pose above_k\", \"release k\", \"claim a\", \"claim k\", \"release k\", \"release a\",
]
";

/// The eleven bays: `a` to `j` fill a word.
const BAYS: &str = "abcdefghijk";

/// A hall of eleven bays under these cranes, of which `south` has this program.
fn hall(alloc: Global, program: &str) -> Result<String, AllocError> {
    let mut text = String::from_str(alloc, CRANES)?;
    text.push_str(program)?;
    for bay in BAYS.chars() {
        let (host, guest) = if bay == 'k' {
            ("south", "north")
        } else {
            ("north", "south")
        };
        write!(
            text,
            "[[zone]]\nname = \"{bay}\"\nhost = \"{host}\"\nguest = \"{guest}\"\n"
        )?;
    }
    Ok(text)
}

/// Each crane has a bay of one word, and waits for that of the other; no word shows that by itself.
const STANDING: &str = "\
1: ./plan explore --words
1: ./plan explore --memory 1 --words
=>
start,00
=>
a standstill after 4 turns, and no fewer
north waits: claim k: held south
south waits: claim a: held north
turns:
  north asks: claim a: done
  north asks: pose above_a: done
  south asks: claim k: done
  south asks: pose above_k: done
--
1: ./plan explore --word 0
=>
start,00
=>
no standstill in any order of turns before the last stamp: [..]
--
1: ./plan explore --word 1
=>
start,
=>
no standstill in any order of turns before the last stamp: [..]
--
1: ./plan explore --words
=>
start,0
=>
fault badstart
--
1: ./plan explore --words
=>
start,000
=>
fault badstart
--
1: ./plan explore --words
=>
start,02
=>
fault badstart
--
1: ./plan explore --words
=>
start,00,late
=>
fault badstart
--
1: ./plan explore --words
=>
=>
fault nostart
--
1: ./plan explore --words
=>
[[zone]]
start,00
=>
fault plan line [..]: zone 12: [..]
--
2: ./plan explore --words --words
2: ./plan explore --words --page
2: ./plan explore --word 0 --words
2: ./plan explore --memory 0 --words
2: ./plan check --words
2: ./plan --words
=>
start,00
=>
error: the first argument is [..]
";

/// In one order there is none: 31 situations, counted by hand. But each crane may be passed over where the other one
/// has bay `a` again and again. The bays of each line are of its own word.
const GOING: &str = "\
1: ./plan explore --words
1: ./plan explore --memory 1 --words
=>
start,00
press,claim,a
=>
no standstill in any order of turns before the last stamp: 31 situations
north goes on for ever if it isn't passed over for ever: within [..] turns
  a fair order in which it starves: first
[..]
  and then again and again
  north could go on: claim a: done
  south asks: claim a: done
  north waits: claim a: held south
  south asks: claim k: done
[..]
south goes on for ever if it isn't passed over for ever: within [..] turns
  a fair order in which it starves: first
[..]
  and then again and again
[..]
in an order that is fair with bound k, each machine that could go on at k turns on end goes on;
a machine isn't passed over for ever if it goes on wherever it could at k turns, on end or not
";

/// Two presses share nothing, so each is told apart: a digit for each place, three for each word. Without a plate a
/// press stands still, whatever the other one does.
const OF_TWO: &str = "\
0: ./plan explore --words
=>
start,100100
=>
apart from all others: loader1, press1, crane1
no standstill in any order of turns before the last stamp: 15 situations
loader1 goes on for ever in each fair order: within k * 7 turns
press1 goes on for ever in each fair order: within k * 3 turns
crane1 asks nothing
plates move for ever in each fair order: within k * 6 turns
in an order that is fair with bound k, each machine that could go on at k turns on end goes on;
a machine isn't passed over for ever if it goes on wherever it could at k turns, on end or not
apart from all others: loader2, press2, crane2
no standstill in any order of turns before the last stamp: 15 situations
loader2 goes on for ever in each fair order: within k * 7 turns
press2 goes on for ever in each fair order: within k * 3 turns
crane2 asks nothing
plates move for ever in each fair order: within k * 6 turns
in an order that is fair with bound k, each machine that could go on at k turns on end goes on;
a machine isn't passed over for ever if it goes on wherever it could at k turns, on end or not
--
1: ./plan explore --words
=>
start,100
=>
fault badstart
--
1: ./plan explore --words
=>
start,100000,12
=>
apart from all others: loader1, press1, crane1
no standstill in any order of turns before the last stamp: 15 situations
loader1 goes on for ever in each fair order: within k * 7 turns
press1 goes on for ever in each fair order: within k * 3 turns
crane1 asks nothing
plates move for ever in each fair order: within k * 6 turns
in an order that is fair with bound k, each machine that could go on at k turns on end goes on;
a machine isn't passed over for ever if it goes on wherever it could at k turns, on end or not
apart from all others: loader2, press2, crane2
a standstill after 4 turns, and no fewer
loader2 waits: give interior2: noplate
press2 waits: take interior2: notowner loader2
turns:
  press2 asks: claim interior2: done
  press2 asks: pose travelling: done
  press2 asks: pose load: done
  press2 asks: yield interior2: done
--
1: ./plan explore --words
=>
start,000100
=>
apart from all others: loader1, press1, crane1
a standstill after 4 turns, and no fewer
[..]
apart from all others: loader2, press2, crane2
no standstill in any order of turns before the last stamp: 15 situations
[..]
--
1: ./plan explore --words
=>
start,000000
=>
apart from all others: loader1, press1, crane1
a standstill after 4 turns, and no fewer
loader1 waits: give interior1: noplate
press1 waits: take interior1: notowner loader1
turns:
[..]
apart from all others: loader2, press2, crane2
a standstill after 4 turns, and no fewer
loader2 waits: give interior2: noplate
press2 waits: take interior2: notowner loader2
turns:
[..]
";

/// Together three have 3,375, which are more than one megabyte holds; apart each has 15.
const OF_THREE: &str = "\
0: ./plan explore --memory 1 --words
=>
start,100100100
=>
apart from all others: loader1, press1, crane1
[..]
apart from all others: loader2, press2, crane2
[..]
apart from all others: loader3, press3, crane3
no standstill in any order of turns before the last stamp: 15 situations
[..]
";

/// One press is on one word, and all words together are that one.
const OF_ONE: &str = "\
0: ./plan explore --words
=>
start,100
=>
no standstill in any order of turns before the last stamp: 15 situations
[..]
";

/// Turners around a hub, which share nothing with the press: of their group there are more situations than one megabyte
/// holds. None of them waits, so none stands still.
const LARGE_GROUP: &str = "\
1: ./plan explore --memory 1 --words
=>
[[machine]]
name = \"hub\"
@10 [[machine]]
name = \"m#\"
poses = [{ name = \"turn\", gives = { z# = \"moving\" } }, { name = \"rest\", gives = { z# = \"closed\" } }]
program = [\"claim z#\", \"pose turn\", \"pose rest\", \"release z#\"]
[[zone]]
name = \"z#\"
host = \"m#\"
guest = \"hub\"
@start,100
=>
fault large: hub, m1, [..], m9, m10: more than 2000 situations; nothing stands still in any order of turns
";

/// Without the press all machines are one group. Where the hub claims each zone too, the search for a standstill ends at
/// the limit. A bar waits for all its units; where it then claims a zone that it has, all wait for ever.
const LARGE_PLANT: &str = "\
1: ./plan explore --memory 1 --words
=>
[[machine]]
name = \"hub\"
@11 [[machine]]
name = \"m#\"
poses = [{ name = \"turn\", gives = { z# = \"moving\" } }, { name = \"rest\", gives = { z# = \"closed\" } }]
program = [\"claim z#\", \"pose turn\", \"pose rest\", \"release z#\"]
[[zone]]
name = \"z#\"
host = \"m#\"
guest = \"hub\"
@start,
=>
fault large: more than 2000 situations; nothing stands still in any order of turns
--
1: ./plan explore --memory 1 --words
=>
[[machine]]
name = \"hub\"
program = [@11 \"claim z#\", \"release z#\", @]
@11 [[machine]]
name = \"m#\"
poses = [{ name = \"turn\", gives = { z# = \"moving\" } }, { name = \"rest\", gives = { z# = \"openin\" } }]
program = [\"claim z#\", \"pose turn\", \"pose rest\", \"release z#\"]
[[zone]]
name = \"z#\"
host = \"m#\"
guest = \"hub\"
@start,
=>
fault large: more than 2000 situations; nothing stands still in fewer than [..] turns
--
1: ./plan explore --memory 1 --words
=>
[[machine]]
name = \"bar\"
program = [@11 \"await z#\", @@11 \"release z#\", @]
@11 [[machine]]
name = \"unit#\"
poses = [{ name = \"clear\", gives = { z# = \"openin\" } }]
program = [\"claim z#\", \"pose clear\", \"yield z#\"]
[[zone]]
name = \"z#\"
host = \"unit#\"
guest = \"bar\"
@start,
=>
fault large: more than 2000 situations; nothing stands still in any order of turns
--
1: ./plan explore --memory 1 --words
=>
[[machine]]
name = \"bar\"
program = [@11 \"await z#\", @\"claim z1\"]
@11 [[machine]]
name = \"unit#\"
poses = [{ name = \"clear\", gives = { z# = \"openin\" } }]
program = [\"claim z#\", \"pose clear\", \"yield z#\"]
[[zone]]
name = \"z#\"
host = \"unit#\"
guest = \"bar\"
@start,
=>
a standstill after 44 turns, and no fewer
bar waits: claim z1: already
@11 unit# waits: claim z#: held bar
@turns:
[..]
";

#[test]
fn cranes_wait_for_each_other(rt: HostRuntime) -> Result<(), AllocError> {
    let crosswise = hall(rt.alloc(), CROSSWISE)?;
    are_answered(&rt, rt.alloc(), crosswise.as_str(), STANDING);
    let in_order = hall(rt.alloc(), IN_ORDER)?;
    are_answered(&rt, rt.alloc(), in_order.as_str(), GOING);
    Ok(())
}

#[test]
fn presses_go_on_together(rt: HostRuntime) -> Result<(), AllocError> {
    let two = presses(rt.alloc(), 2)?;
    are_answered(&rt, rt.alloc(), two.as_str(), OF_TWO);
    let three = presses(rt.alloc(), 3)?;
    are_answered(&rt, rt.alloc(), three.as_str(), OF_THREE);
    let one = presses(rt.alloc(), 1)?;
    are_answered(&rt, rt.alloc(), one.as_str(), OF_ONE);
    Ok(())
}

#[test]
fn large_groups_are_named(rt: HostRuntime) -> Result<(), AllocError> {
    let press = presses(rt.alloc(), 1)?;
    are_answered(&rt, rt.alloc(), press.as_str(), LARGE_GROUP);
    are_answered(&rt, rt.alloc(), "", LARGE_PLANT);
    Ok(())
}
