//! The largest documents of plans that are accepted, and the smallest that are refused.

use super::doubles::are_answered;

/// Machines, poses, places, lines of a program and zones: as many as there may be, and one more. Zones have two bits;
/// those that poses move and open have four. Ten machines come to 1,048,576 situations, of which 991 take at most four
/// turns, and 1,902 more five.
const COUNTS: &str = "\
0: ./plan check
=>
@30 [[machine]]
name = \"m#\"
@=>
30 machines: m1 m2[..]
--
1: ./plan check
1: ./plan words
=>
@31 [[machine]]
name = \"m#\"
@=>
fault plan line 62: machine 31: name: there are more than 30
--
0: ./plan check
=>
[[machine]]
name = \"m\"
poses = [@64 { name = \"x#\", gives = {} }, @]
=>
[..]
64 poses: x1 x2[..]
--
1: ./plan check
=>
[[machine]]
name = \"m\"
poses = [@65 { name = \"x#\", gives = {} }, @]
=>
fault plan line 3: machine m: pose 65: name: there are more than 64
--
0: ./plan check
=>
[[machine]]
name = \"a\"
poses = [@32 { name = \"x#\", gives = {} }, @]
[[machine]]
name = \"b\"
poses = [@32 { name = \"x#\", gives = {} }, @]
=>
[..]
64 poses: x1 x2[..]
--
1: ./plan check
=>
[[machine]]
name = \"a\"
poses = [@33 { name = \"x#\", gives = {} }, @]
[[machine]]
name = \"b\"
poses = [@33 { name = \"x#\", gives = {} }, @]
=>
fault plan line 6: machine b: pose 32: name: there are more than 64
--
0: ./plan check
=>
[[machine]]
name = \"m\"
places = [@16 \"p#\", @]
=>
[..]
16 places: p1 p2[..]
--
1: ./plan check
=>
[[machine]]
name = \"m\"
places = [@17 \"p#\", @]
=>
fault plan line 3: machine m: places: there are more than 16
--
0: ./plan check
=>
[[machine]]
name = \"m\"
poses = [{ name = \"x\", gives = {} }]
program = [@255 \"pose x\", @]
=>
[..]
1 pose: x
[..]
--
1: ./plan check
=>
[[machine]]
name = \"m\"
poses = [{ name = \"x\", gives = {} }]
program = [@256 \"pose x\", @]
=>
fault plan line 4: machine m: program: it has more than 255 lines
--
1: ./plan check
=>
[[machine]]
name = \"a\"
[[machine]]
name = \"b\"
@11 [[zone]]
name = \"z#\"
host = \"a\"
guest = \"b\"
@=>
fault plan line 46: zone 11: name: there are more than 10; plan words reads up to 40
--
0: ./plan check
=>
[[machine]]
name = \"a\"
places = [@3 \"p#\", @]
poses = [
  { name = \"moving\", gives = { @9 z# = \"moving\", @z10 = \"moving\" } },
  { name = \"open\", gives = { @9 z# = \"openin\", @z10 = \"openin\" } },
]
[[machine]]
name = \"b\"
@10 [[zone]]
name = \"z#\"
host = \"a\"
guest = \"b\"
@=>
[..]
a word of 64 bits
[..]
--
0: ./plan check
=>
[[machine]]
name = \"a\"
places = [@16 \"p#\", @]
[[machine]]
name = \"b\"
@10 [[zone]]
name = \"z#\"
host = \"a\"
guest = \"b\"
@=>
[..]
a word of 57 bits
[..]
--
1: ./plan check
=>
[[machine]]
name = \"a\"
places = [@4 \"p#\", @]
poses = [
  { name = \"moving\", gives = { @9 z# = \"moving\", @z10 = \"moving\" } },
  { name = \"open\", gives = { @9 z# = \"openin\", @z10 = \"openin\" } },
]
[[machine]]
name = \"b\"
@10 [[zone]]
name = \"z#\"
host = \"a\"
guest = \"b\"
@=>
fault plan wide: 10 zones and 4 places need 65 bits, and 64 fit: leave out 1 bit (a place has 1, a zone 2 to 5), or try plan words
--
1: ./plan check
=>
[[machine]]
name = \"a\"
places = [@13 \"p#\", @]
poses = [
  { name = \"moving\", gives = { @7 z# = \"moving\", @z8 = \"moving\" } },
  { name = \"open\", gives = { @7 z# = \"openin\", @z8 = \"openin\" } },
]
[[machine]]
name = \"b\"
@8 [[zone]]
name = \"z#\"
host = \"a\"
guest = \"b\"
@=>
fault plan wide: 8 zones and 13 places need 66 bits, and 64 fit: leave out 2 bits (a place has 1, a zone 2 to 5), or try plan words
--
1: ./plan check
=>
[[machine]]
name = \"a\"
places = [@16 \"p#\", @]
poses = [
  { name = \"moving\", gives = { @9 z# = \"moving\", @z10 = \"moving\" } },
  { name = \"open\", gives = { @9 z# = \"openin\", @z10 = \"openin\" } },
]
[[machine]]
name = \"b\"
@10 [[zone]]
name = \"z#\"
host = \"a\"
guest = \"b\"
@=>
fault plan wide: 10 zones and 16 places need 77 bits, and 64 fit: leave out 13 bits (a place has 1, a zone 2 to 5), or try plan words
--
1: ./plan explore
=>
[[machine]]
name = \"hub\"
@10 [[machine]]
name = \"m#\"
poses = [{ name = \"turn\", gives = { z# = \"moving\" } }, { name = \"rest\", gives = { z# = \"closed\" } }]
program = [\"claim z#\", \"pose turn\", \"pose rest\", \"release z#\"]
[[zone]]
name = \"z#\"
host = \"m#\"
guest = \"hub\"
@start,
=>
fault large: more than 1000000 situations; nothing stands still in fewer than 20 turns
--
1: ./plan explore --memory 1
=>
[[machine]]
name = \"hub\"
@10 [[machine]]
name = \"m#\"
poses = [{ name = \"turn\", gives = { z# = \"moving\" } }, { name = \"rest\", gives = { z# = \"closed\" } }]
program = [\"claim z#\", \"pose turn\", \"pose rest\", \"release z#\"]
[[zone]]
name = \"z#\"
host = \"m#\"
guest = \"hub\"
@start,
=>
fault large: more than 2000 situations; nothing stands still in fewer than 4 turns
";

/// A comment fills the document.
const BYTES: &str = "\
0: ./plan check
=>
[[machine]]
name = \"m\"
# @65511 x@=>
1 machine: m
[..]
--
1: ./plan check
=>
[[machine]]
name = \"m\"
# @65512 x@=>
fault plan long: it has more than 65536 bytes
";

/// A pose gives all eight zones, and a motor needs them; zones are named by words of scripts.
const ZONES: &str = "\
0: ./plan check
=>
[[machine]]
name = \"a\"
poses = [{ name = \"x\", gives = { @7 z# = \"moving\", @z8 = \"moving\" } }]
[[machine]]
name = \"b\"
@8 [[zone]]
name = \"z#\"
host = \"a\"
guest = \"b\"
@[[motor]]
name = \"ram\"
machine = \"a\"
holds = { @7 z# = \"moving\", @z8 = \"moving\" }
=>
[..]
1 motor: ram
--
0: ./plan check
=>
[[machine]]
name = \"a\"
[[machine]]
name = \"b\"
[[zone]]
name = \"watch\"
host = \"a\"
guest = \"b\"
[[zone]]
name = \"free\"
host = \"a\"
guest = \"b\"
[[zone]]
name = \"start\"
host = \"a\"
guest = \"b\"
[[zone]]
name = \"pose\"
host = \"b\"
guest = \"a\"
[[zone]]
name = \"claim\"
host = \"b\"
guest = \"a\"
=>
[..]
5 zones: watch free start pose claim
[..]
";

#[test]
fn accepts_the_largest(rt: HostRuntime) {
    are_answered(&rt, rt.alloc(), "", COUNTS);
    are_answered(&rt, rt.alloc(), "", BYTES);
    are_answered(&rt, rt.alloc(), "", ZONES);
}
