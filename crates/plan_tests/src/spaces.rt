//! Zones that list their guests: what `plan` answers of a press with two robots, and each fault of such a zone, in words.

use super::doubles::are_answered;

/// A press between a loader and an unloader, up to line 14, and its poses, which speak of two sides.
const MACHINES: &str = "\
[[machine]]
name = \"loader\"
places = [\"hand\"]
[[machine]]
name = \"press\"
places = [\"die\"]
poses = [
  { name = \"load\", gives = { in = \"openin\", out = \"closed\" } },
  { name = \"unload\", gives = { in = \"closed\", out = \"openout\" } },
  { name = \"travelling\", gives = { in = \"moving\", out = \"moving\" } },
]
[[machine]]
name = \"unloader\"
places = [\"tray\"]
";

/// What the two sides are, with their motors, and what a script of the press is answered.
const ANSWERED: &str = "\
0: ./plan check
=>
[[zone]]
name = \"interior\"
host = \"press\"
guests = [
  { name = \"in\", guest = \"loader\", inward = [\"hand\", \"die\"] },
  { name = \"out\", guest = \"unloader\", outward = [\"die\", \"tray\"] },
]
[[motor]]
name = \"loading\"
machine = \"loader\"
holds = { in = \"any\" }
[[motor]]
name = \"unloading\"
machine = \"unloader\"
holds = { out = \"any\" }
[[hazard]]
name = \"robots meet\"
motors = [\"loading\", \"unloading\"]
=>
3 machines: loader press unloader
2 zones: in out
3 places: hand die tray
3 poses: load unload travelling
a word of 32 bits
bit 0, 8 bits: space interior
bit 0, 5 bits: zone in
bit 5, 3 bits: zone out
bit 8, 1 bit: place hand
bit 9, 1 bit: place die
bit 10, 1 bit: place tray
bit 11, 20 bits: stamp
bit 31, 1 bit: stop
rows: some calls that are done may have none, and are answered more slowly
2 motors: loading unloading
robots meet: kept apart by interior
--
0: ./plan check
=>
[[zone]]
name = \"interior\"
host = \"press\"
guests = [
  { name = \"in\", guest = \"loader\", inward = [\"hand\", \"die\"] },
]
[[zone]]
name = \"out\"
host = \"press\"
guest = \"unloader\"
=>
3 machines: loader press unloader
2 zones: in out
3 places: hand die tray
3 poses: load unload travelling
a word of 33 bits
bit 0, 5 bits: space interior
bit 0, 5 bits: zone in
bit 5, 4 bits: zone out
[..]
--
0: ./plan replay
=>
[[zone]]
name = \"interior\"
host = \"press\"
guests = [
  { name = \"in\", guest = \"loader\", inward = [\"hand\", \"die\"] },
  { name = \"out\", guest = \"unloader\", outward = [\"die\", \"tray\"] },
]
start,100
press,claim,out
press,claim,in
loader,claim,in
unloader,claim,in
press,pose,travelling
press,release,in
press,pose,load
press,yield,out
press,yield,in
unloader,claim,out
unloader,inquire,out
loader,give,in
press,yield,in
press,release,out
press,pose,unload
press,take,out
press,take,in
press,pose,unload
press,give,out
loader,inquire,in
loader,claim,in
unloader,release,out
unloader,take,out
unloader,release,out
loader,claim,in
watch,inquire,in
watch,inquire,out
=>
0 0 start 1
1 1 done
2 1 already
3 1 held press
4 1 notparty
5 2 done
6 2 shut moving
7 3 done
8 3 shut closed
9 4 done
10 4 held loader
11 4 zone loader 0 closed
12 5 done
13 5 platein in
14 5 platein out
15 5 platein in
16 5 noplate
17 6 done
18 7 done
19 8 done
20 8 zone unloader 0 closed
21 8 held unloader
22 8 platein out
23 9 done
24 10 done
25 10 shut closed
26 10 zone free 0 closed
27 10 zone free 0 openout
";

/// Zones that list their guests, each with its fault.
const FAULTS: &str = "\
1: ./plan check
=>
[[zone]]
name = \"interior\"
host = \"press\"
guest = \"loader\"
guests = [{ name = \"in\", guest = \"loader\" }]
=>
fault plan line 18: zone interior: \"guest\" isn't a key here; known: name, host, guests
--
1: ./plan check
=>
[[zone]]
name = \"interior\"
host = \"press\"
guests = [{ name = \"in\", guest = \"loader\" }]
outward = [\"die\", \"hand\"]
=>
fault plan line 19: zone interior: \"outward\" isn't a key here; known: name, host, guests
--
1: ./plan check
=>
[[zone]]
host = \"press\"
guests = []
=>
fault plan line 15: zone 1: name: it is missing
--
1: ./plan check
=>
[[zone]]
name = \"interior\"
guests = []
=>
fault plan line 15: zone interior: host: it is missing
--
1: ./plan check
=>
[[zone]]
name = \"interior\"
host = \"press\"
guests = []
=>
fault plan line 18: zone interior: guests: there is no guest
--
1: ./plan check
=>
[[zone]]
name = \"interior\"
host = \"press\"
guests = \"loader\"
=>
fault plan line 18: zone interior: guests: it takes a list of tables
--
1: ./plan check
=>
[[zone]]
name = \"interior\"
host = \"press\"
guests = [\"loader\"]
=>
fault plan line 18: zone interior: guests: it takes a list of tables
--
1: ./plan check
=>
[[zone]]
name = \"interior\"
host = \"press\"
guests = [
  { name = \"in\", guest = \"loader\" },
  { name = \"out\", guest = \"unloader\", host = \"press\" },
]
=>
fault plan line 20: zone interior: side out: \"host\" isn't a key here; known: name, guest, inward, outward
--
1: ./plan check
=>
[[zone]]
name = \"interior\"
host = \"press\"
guests = [
  { name = \"in\", guest = \"loader\" },
  { guest = \"unloader\" },
]
=>
fault plan line 20: zone interior: side 2: name: it is missing
--
1: ./plan check
=>
[[zone]]
name = \"interior\"
host = \"press\"
guests = [
  { name = \"in\" },
]
=>
fault plan line 19: zone interior: side in: guest: it is missing
--
1: ./plan check
=>
[[zone]]
name = \"Interior\"
host = \"press\"
guests = [
  { name = \"In\", guest = \"loader\" },
]
=>
fault plan line 16: zone 1: name: \"Interior\" isn't a name: a letter, then letters, digits or underscores, lower case, at \
    most 32
--
1: ./plan check
=>
[[zone]]
name = \"interior\"
host = \"press\"
guests = [
  { name = \"In\", guest = \"loader\" },
]
=>
fault plan line 19: zone interior: side 1: name: \"In\" isn't a name: a letter, then letters, digits or underscores, lower \
    case, at most 32
--
1: ./plan check
=>
[[zone]]
name = \"in\"
host = \"press\"
guests = [
  { name = \"in\", guest = \"loader\" },
]
=>
fault plan line 19: zone in: side 1: name: \"in\" is defined twice, first on line 16
--
1: ./plan check
=>
[[zone]]
name = \"interior\"
host = \"press\"
guests = [
  { name = \"in\", guest = \"loader\" },
  { name = \"in\", guest = \"unloader\" },
]
=>
fault plan line 20: zone interior: side 2: name: \"in\" is defined twice, first on line 19
--
1: ./plan check
=>
[[zone]]
name = \"interior\"
host = \"press\"
guests = [
  { name = \"in\", guest = \"loader\" },
  { name = \"out\", guest = \"unloader\" },
]
[[zone]]
name = \"out\"
host = \"press\"
guest = \"unloader\"
=>
fault plan line 23: zone 2: name: \"out\" is defined twice, first on line 20
--
1: ./plan check
=>
[[zone]]
name = \"interior\"
host = \"press\"
guests = [{ name = \"in\", guest = \"loader\" }]
[[zone]]
name = \"interior\"
host = \"press\"
guest = \"unloader\"
=>
fault plan line 20: zone 2: name: \"interior\" is defined twice, first on line 16
--
1: ./plan check
=>
[[zone]]
name = \"in\"
host = \"press\"
guest = \"loader\"
[[zone]]
name = \"out\"
host = \"press\"
guests = [{ name = \"in\", guest = \"loader\" }]
=>
fault plan line 22: zone out: side 1: name: \"in\" is defined twice, first on line 16
--
1: ./plan check
=>
[[zone]]
name = \"in\"
host = \"press\"
guest = \"loader\"
[[zone]]
name = \"in\"
host = \"press\"
guests = [{ name = \"out\", guest = \"unloader\" }]
=>
fault plan line 20: zone 2: name: \"in\" is defined twice, first on line 16
--
1: ./plan check
=>
[[zone]]
name = \"interior\"
host = \"pres\"
guests = [{ name = \"in\", guest = \"loader\" }]
=>
fault plan line 17: zone interior: host: no machine is named \"pres\"
--
1: ./plan check
=>
[[zone]]
name = \"interior\"
host = \"press\"
guests = [
  { name = \"in\", guest = \"loader\" },
  { name = \"out\", guest = \"unload\" },
]
=>
fault plan line 20: zone interior: side out: guest: no machine is named \"unload\"
--
1: ./plan check
=>
[[zone]]
name = \"interior\"
host = \"press\"
guests = [
  { name = \"in\", guest = \"loader\" },
  { name = \"out\", guest = \"press\" },
]
=>
fault plan line 20: zone interior: side out: guest: the host is its own guest
--
1: ./plan check
=>
[[zone]]
name = \"interior\"
host = \"press\"
guests = [
  { name = \"in\", guest = \"loader\" },
  { name = \"out\", guest = \"unloader\", outward = [\"die\", \"hand\"] },
]
=>
fault plan line 20: zone interior: side out: outward: it leads to \"hand\", which isn't a place of the guest, \"unloader\"
--
1: ./plan check
=>
[[zone]]
name = \"interior\"
host = \"press\"
guests = [
  { name = \"in\", guest = \"loader\" },
  { name = \"out\", guest = \"loader\" },
]
=>
fault plan line 20: zone interior: side out: guest: \"loader\" is a guest of the zone already
--
1: ./plan check
=>
[[machine]]
name = \"gate\"
poses = [{ name = \"open\", gives = { near = \"openin\", far = \"openin\" } },
  { name = \"turn\", gives = { near = \"openin\",
    far = \"moving\" } }]
[[zone]]
name = \"way\"
host = \"gate\"
guests = [{ name = \"near\", guest = \"loader\" }, { name = \"far\", guest = \"unloader\" }]
[[zone]]
name = \"in\"
host = \"press\"
guest = \"loader\"
[[zone]]
name = \"out\"
host = \"press\"
guest = \"unloader\"
=>
fault plan line 19: machine gate: pose turn: gives: \"near\" and \"far\" are one space: a pose moves both or neither, and \
    gives both a posture or neither
--
1: ./plan check
=>
[[machine]]
name = \"gate\"
poses = [{ name = \"open\",
  gives = { near = \"openin\" } }]
[[zone]]
name = \"way\"
host = \"gate\"
guests = [{ name = \"near\", guest = \"loader\" }, { name = \"far\", guest = \"unloader\" }]
[[zone]]
name = \"in\"
host = \"press\"
guest = \"loader\"
[[zone]]
name = \"out\"
host = \"press\"
guest = \"unloader\"
=>
fault plan line 18: machine gate: pose open: gives: \"near\" and \"far\" are one space: a pose moves both or neither, and \
    gives both a posture or neither
";

#[test]
fn answers_of_spaces(rt: HostRuntime) {
    are_answered(&rt, rt.alloc(), MACHINES, ANSWERED);
}

#[test]
fn tells_faults_of_spaces(rt: HostRuntime) {
    are_answered(&rt, rt.alloc(), MACHINES, FAULTS);
}
