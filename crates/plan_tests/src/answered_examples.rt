//! Example plans: what is said of them, and the answers to their scripts.

use super::doubles::are_answered;

/// Two machines at a press.
pub const PRESS: &str = "\
# Two machines at a press: one loads it and takes the plates out.
[[machine]]
name = \"loader\"
places = [\"hand\"]
program = [\"give interior\", \"take interior\", \"release interior\"]

[[machine]]
name = \"press\"
places = [\"die\"]
poses = [
  { name = \"load\", gives = { interior = \"openin\" }, after_moving = true },
  { name = \"unload\", gives = { interior = \"openout\" }, after_moving = true },
  { name = \"closed\", gives = { interior = \"closed\" }, after_moving = true },
  { name = \"travelling\", gives = { interior = \"moving\" } },
]
program = [
  \"claim interior\", \"pose travelling\", \"pose load\", \"yield interior\", \"take interior\",
  \"pose travelling\", \"pose closed\", \"pose travelling\", \"pose unload\", \"give interior\",
]

[[zone]]
name = \"interior\"
host = \"press\"
guest = \"loader\"
inward = [\"hand\", \"die\"]
outward = [\"die\", \"hand\"]
";

/// Its report, whether a script follows or not; scripts of it, with the answers. A script takes 65,536 records, and all
/// answers are written before a fault: those to 300 records are longer than a writer may take at once.
const OF_PRESS: &str = "\
0: ./plan check
=>
=>
2 machines: loader press
1 zone: interior
2 places: hand die
4 poses: load unload closed travelling
a word of 28 bits
bit 0, 5 bits: zone interior
bit 5, 1 bit: place hand
bit 6, 1 bit: place die
bit 7, 20 bits: stamp
bit 27, 1 bit: stop
rows: each call that is done has its row
--
0: ./plan check
=>
start,10
press,claim,interior
loader,claim,interior
press,pose,load
press,pose,travelling
press,pose,load
press,yield,interior
loader,give,interior
press,take,interior
watch,inquire,interior
press,pose,travelling
press,pose,closed
watch,stop
press,pose,travelling
watch,resume
press,pose,travelling
press,pose,unload
press,give,interior
loader,take,interior
loader,release,interior
watch,inquire,interior
loader,pose,load
=>
2 machines: loader press
1 zone: interior
2 places: hand die
4 poses: load unload closed travelling
a word of 28 bits
bit 0, 5 bits: zone interior
bit 5, 1 bit: place hand
bit 6, 1 bit: place die
bit 7, 20 bits: stamp
bit 27, 1 bit: stop
rows: each call that is done has its row
--
0: ./plan replay
=>
start,10
press,claim,interior
loader,claim,interior
press,pose,load
press,pose,travelling
press,pose,load
press,yield,interior
loader,give,interior
press,take,interior
watch,inquire,interior
press,pose,travelling
press,pose,closed
watch,stop
press,pose,travelling
watch,resume
press,pose,travelling
press,pose,unload
press,give,interior
loader,take,interior
loader,release,interior
watch,inquire,interior
loader,pose,load
=>
0 0 start 1
1 1 done
2 1 held press
3 1 jump
4 2 done
5 3 done
6 4 done
7 5 done
8 6 done
9 6 zone press 0 openin
10 7 done
11 8 done
12 9 done
13 9 stopped
14 10 done
15 11 done
16 12 done
17 13 done
18 14 done
19 15 done
20 15 zone free 0 openout
21 15 nopose
--
0: ./plan replay
=>
start,00
@65536 watch,resume
@=>
0 0 start 0
[..]
65536 0 notstopped
--
1: ./plan replay
=>
start,00
@65537 watch,resume
@=>
0 0 start 0
[..]
65536 0 notstopped
fault long
--
1: ./plan replay
=>
start,00
@300 watch,inquire,interior
@press,claim,door
=>
0 0 start 0
@300 # 0 zone free 0 closed
@record 301, field 3: no zone has this name
fault badrow 301
--
1: ./plan replay
=>
=>
fault nostart
--
1: ./plan replay
=>
start,
=>
fault badstart
--
1: ./plan replay
=>
start,101
=>
fault badstart
--
1: ./plan replay
=>
start,1x
=>
fault badstart
--
1: ./plan replay
=>
start,11,1048576
=>
fault badstart
--
1: ./plan replay
=>
start,11,7,
=>
fault badstart
--
0: ./plan replay
=>
start,11,1048575
watch,stop
=>
0 1048575 start 2
1 1048575 worn
--
1: ./plan replay
=>
start,00
press,claim,door
=>
0 0 start 0
record 1, field 3: no zone has this name
fault badrow 1
--
1: ./plan replay
=>
start,00
press,claim
=>
0 0 start 0
record 1, field 3: a name is missing
fault badrow 1
--
1: ./plan replay
=>
start,00
press,pose,open
=>
0 0 start 0
record 1, field 3: no pose has this name
fault badrow 1
--
1: ./plan replay
=>
start,00
robot,claim,interior
=>
0 0 start 0
record 1, field 1: no machine has this name
fault badrow 1
--
1: ./plan replay
=>
start,00
press,claim,interior,
=>
0 0 start 0
record 1, field 4: a record has at most three fields
fault badrow 1
--
1: ./plan replay
=>
start,00
press
=>
0 0 start 0
record 1, field 2: a verb is missing
fault badrow 1
--
1: ./plan replay
=>
start,00
watch,stop
press,clam
=>
0 0 start 0
1 1 done
record 2, field 2: this isn't a verb; known: stop, resume, and with a name claim, give, yield, take, release, \
    inquire, pose, advance
fault badrow 2
--
1: ./plan replay
=>
start,00
watch,stop,interior
=>
0 0 start 0
record 1, field 2: this isn't a verb that takes a name; known: claim, give, yield, take, release, inquire, pose, advance
fault badrow 1
--
0: ./plan replay
=>
start,00

watch,claim,interior
loader,stop
=>
0 0 start 0
1 0 notparty
2 0 notparty
--
0: ./plan replay
=>
start,00
watch,resume
loader,pose,load
=>
0 0 start 0
1 0 notstopped
2 0 nopose
--
1: ./plan explore
=>
=>
fault nostart
--
1: ./plan explore
=>
start,1
=>
fault badstart
";

/// A press whose loader may claim the interior before the press has claimed it back.
pub const STANDS: &str = "\
[[machine]]
name = \"loader\"
places = [\"hand\"]
program = [\"claim interior\", \"give interior\", \"take interior\", \"release interior\"]

[[machine]]
name = \"press\"
places = [\"die\"]
poses = [
  { name = \"load\", gives = { interior = \"openin\" }, after_moving = true },
  { name = \"unload\", gives = { interior = \"openout\" }, after_moving = true },
  { name = \"closed\", gives = { interior = \"closed\" }, after_moving = true },
  { name = \"travelling\", gives = { interior = \"moving\" } },
]
program = [
  \"claim interior\", \"pose travelling\", \"pose load\", \"release interior\", \"take interior\",
  \"pose travelling\", \"pose closed\", \"pose travelling\", \"pose unload\", \"give interior\",
]

[[zone]]
name = \"interior\"
host = \"press\"
guest = \"loader\"
inward = [\"hand\", \"die\"]
outward = [\"die\", \"hand\"]
";

/// Where it comes to a standstill.
const STANDSTILL: &str = "\
1: ./plan explore
=>
start,10
=>
a standstill after 15 turns, and no fewer
loader waits: give interior: wrongway
press waits: claim interior: held loader
turns:
  press asks: claim interior: done
  press asks: pose travelling: done
  press asks: pose load: done
  press asks: release interior: done
  loader asks: claim interior: done
  loader asks: give interior: done
  press asks: take interior: done
  press asks: pose travelling: done
  press asks: pose closed: done
  press asks: pose travelling: done
  press asks: pose unload: done
  press asks: give interior: done
  loader asks: take interior: done
  loader asks: release interior: done
  loader asks: claim interior: done
";

/// Other plans, with scripts and starts.
const OTHERS: &str = "\
0: ./plan replay
=>
[[machine]]
name = \"left\"
poses = [{ name = \"open\", gives = { table = \"openin\" } }]

[[machine]]
name = \"right\"
poses = [{ name = \"open\", gives = { rack = \"openin\" } }]

[[zone]]
name = \"table\"
host = \"left\"
guest = \"right\"

[[zone]]
name = \"rack\"
host = \"right\"
guest = \"left\"

start,
left,claim,table
right,claim,rack
right,pose,open
watch,inquire,table
watch,inquire,rack
left,pose,open
watch,inquire,table
=>
0 0 start 0
1 1 done
2 2 done
3 3 done
4 3 zone left 0 closed
5 3 zone right 0 openin
6 4 done
7 4 zone left 0 openin
=>
Two machines, each with a pose of the same name: each takes its own.
--
1: ./plan explore
=>
[[machine]]
name = \"loader\"
places = [\"hand\"]

[[machine]]
name = \"press\"
places = [\"die\"]
poses = [{ name = \"load\", gives = { interior = \"openin\" } }]
program = [\"claim interior\", \"take interior\"]

[[zone]]
name = \"interior\"
host = \"press\"
guest = \"loader\"
inward = [\"hand\", \"die\"]
start,10
=>
a standstill after 1 turn, and no fewer
press waits: take interior: noplate
turns:
  press asks: claim interior: done
=>
A press that waits for a plate, alone.
--
0: ./plan explore
=>
[[machine]]
name = \"a\"
start,
=>
no standstill in any order of turns before the last stamp: 1 situation
a asks nothing
in an order that is fair with bound k, each machine that could go on at k turns on end goes on;
a machine isn't passed over for ever if it goes on wherever it could at k turns, on end or not
--
1: ./plan explore
=>
=>
fault plan the document: there is no [[machine]]
--
1: ./plan explore
=>
start,10
=>
fault plan the document: there is no [[machine]]
";

/// A press that a loader feeds from a source, its hand, and empties into a sink, its tray.
const THROUGH: &str = "\
[[machine]]
name = \"loader\"
places = [\"hand\", \"tray\"]
sources = [\"hand\"]
sinks = [\"tray\"]
program = [\"advance hand\", \"give interior\", \"take interior\", \"release interior\", \"advance tray\"]

[[machine]]
name = \"press\"
places = [\"die\"]
poses = [
  { name = \"load\", gives = { interior = \"openin\" }, after_moving = true },
  { name = \"unload\", gives = { interior = \"openout\" }, after_moving = true },
  { name = \"closed\", gives = { interior = \"closed\" }, after_moving = true },
  { name = \"travelling\", gives = { interior = \"moving\" } },
]
program = [\"claim interior\", \"pose travelling\", \"pose load\", \"yield interior\", \"take interior\",
  \"pose travelling\", \"pose closed\", \"pose travelling\", \"pose unload\", \"give interior\"]

[[zone]]
name = \"interior\"
host = \"press\"
guest = \"loader\"
inward = [\"hand\", \"die\"]
outward = [\"die\", \"tray\"]
";

/// Plates come and go: what is refused on the way, and that they move for ever though none is taken back.
const OF_THROUGH: &str = "\
0: ./plan check
=>
=>
2 machines: loader press
1 zone: interior
3 places: hand tray die
4 poses: load unload closed travelling
a word of 29 bits
bit 0, 5 bits: zone interior
bit 5, 1 bit: place hand
bit 6, 1 bit: place tray
bit 7, 1 bit: place die
bit 8, 20 bits: stamp
bit 28, 1 bit: stop
rows: each call that is done has its row
--
0: ./plan replay
=>
start,000
loader,advance,tray
loader,advance,hand
loader,advance,hand
press,advance,hand
loader,advance,die
press,advance,die
watch,stop
loader,advance,hand
watch,resume
press,claim,interior
press,pose,travelling
press,pose,load
press,yield,interior
loader,give,interior
loader,advance,hand
press,take,interior
press,pose,travelling
press,pose,unload
press,give,interior
loader,take,interior
loader,advance,tray
loader,advance,tray
=>
0 0 start 0
1 0 noplate
2 1 done
3 1 placefull
4 1 notparty
5 1 notparty
6 1 notparty
7 2 done
8 2 stopped
9 3 done
10 4 done
11 5 done
12 6 done
13 7 done
14 8 done
15 9 done
16 10 done
17 11 done
18 12 done
19 13 done
20 14 done
21 15 done
22 15 noplate
--
0: ./plan explore
=>
start,000
=>
no standstill in any order of turns before the last stamp: 27 situations
loader goes on for ever in each fair order: within k * 7 turns
press goes on for ever in each fair order: within k * 5 turns
plates move for ever in each fair order: within k * 6 turns
in an order that is fair with bound k, each machine that could go on at k turns on end goes on;
a machine isn't passed over for ever if it goes on wherever it could at k turns, on end or not
";

#[test]
fn answers_scripts(rt: HostRuntime) {
    are_answered(&rt, rt.alloc(), PRESS, OF_PRESS);
    are_answered(&rt, rt.alloc(), STANDS, STANDSTILL);
    are_answered(&rt, rt.alloc(), THROUGH, OF_THROUGH);
    are_answered(&rt, rt.alloc(), "", OTHERS);
}
