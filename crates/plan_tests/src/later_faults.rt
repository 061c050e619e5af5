//! Each fault of a zone, and of what comes after the machines and the zone that it names, in words.

use super::doubles::are_answered;

/// Two machines, up to line 6.
const MACHINES: &str = "\
[[machine]]
name = \"a\"
places = [\"p\"]
[[machine]]
name = \"b\"
places = [\"q\"]
";

/// What comes after them, each with its fault.
const LATER: &str = "\
1: ./plan check
=>
zone = 1
=>
fault plan line 7: machine b: \"zone\" isn't a key here; known: name, places, sources, sinks, poses, sensors, program
--
1: ./plan check
=>
[[zone]]
name = \"z\"
=>
fault plan line 7: zone z: host: it is missing
--
1: ./plan check
=>
[[zone]]
name = \"z\"
host = \"pres\"
guest = \"b\"
=>
fault plan line 9: zone z: host: no machine is named \"pres\"
--
1: ./plan check
=>
[[zone]]
name = \"z\"
host = \"a\"
guest = \"c\"
=>
fault plan line 10: zone z: guest: no machine is named \"c\"
--
1: ./plan check
=>
[[zone]]
name = \"z\"
host = \"a\"
guest = \"a\"
=>
fault plan line 10: zone z: guest: the host is its own guest
";

/// Zones, motors and hazards, the last without a name: its number is told if six, eight and nine come before it.
const NAMELESS: &str = "\
1: ./plan check
=>
@6 [[zone]]
name = \"z#\"
host = \"a\"
guest = \"b\"
@[[zone]]
=>
fault plan line 31: zone 7: name: it is missing
--
1: ./plan check
=>
@8 [[zone]]
name = \"z#\"
host = \"a\"
guest = \"b\"
@[[zone]]
=>
fault plan line 39: zone 9: name: it is missing
--
1: ./plan check
=>
@9 [[zone]]
name = \"z#\"
host = \"a\"
guest = \"b\"
@[[zone]]
=>
fault plan line 43: zone 10: name: it is missing
--
1: ./plan check
=>
@6 [[motor]]
name = \"r#\"
machine = \"a\"
@[[motor]]
=>
fault plan line 25: motor 7: name: it is missing
--
1: ./plan check
=>
@8 [[motor]]
name = \"r#\"
machine = \"a\"
@[[motor]]
=>
fault plan line 31: motor 9: name: it is missing
--
1: ./plan check
=>
@9 [[motor]]
name = \"r#\"
machine = \"a\"
@[[motor]]
=>
fault plan line 34: motor 10: name: it is missing
--
1: ./plan check
=>
@6 [[hazard]]
name = \"h#\"
motors = [\"r\", \"s\"]
@[[hazard]]
=>
fault plan line 25: hazard 7: name: it is missing
--
1: ./plan check
=>
@8 [[hazard]]
name = \"h#\"
motors = [\"r\", \"s\"]
@[[hazard]]
=>
fault plan line 31: hazard 9: name: it is missing
--
1: ./plan check
=>
@9 [[hazard]]
name = \"h#\"
motors = [\"r\", \"s\"]
@[[hazard]]
=>
fault plan line 34: hazard 10: name: it is missing
";

/// The machines, and a zone of the first, up to line 10.
const WITH_ZONE: &str = "\
[[machine]]
name = \"a\"
places = [\"p\"]
[[machine]]
name = \"b\"
places = [\"q\"]
[[zone]]
name = \"z\"
host = \"a\"
guest = \"b\"
";

/// What comes after the machines and the zone, each with its fault.
const LAST: &str = "\
1: ./plan check
=>
inward = [\"q\"]
=>
fault plan line 11: zone z: inward: it takes two places: from which one, and to which
--
1: ./plan check
=>
inward = [\"q\", \"r\"]
=>
fault plan line 11: zone z: inward: no place is named \"r\"
--
1: ./plan check
=>
inward = [\"p\", \"q\"]
=>
fault plan line 11: zone z: inward: it leads from \"p\", which isn't a place of the guest, \"b\"
--
1: ./plan check
=>
inward = [\"q\", \"q\"]
=>
fault plan line 11: zone z: inward: it leads to \"q\", which isn't a place of the host, \"a\"
--
1: ./plan check
=>
outward = [\"q\", \"p\"]
=>
fault plan line 11: zone z: outward: it leads from \"q\", which isn't a place of the host, \"a\"
--
1: ./plan check
=>
outward = [\"p\", \"p\"]
=>
fault plan line 11: zone z: outward: it leads to \"p\", which isn't a place of the guest, \"b\"
--
1: ./plan check
=>
inwards = [\"p\", \"q\"]
=>
fault plan line 11: zone z: \"inwards\" isn't a key here; known: name, host, guest, inward, outward
--
1: ./plan check
=>
[[zone]]
name = \"z\"
host = \"a\"
guest = \"b\"
=>
fault plan line 12: zone 2: name: \"z\" is defined twice, first on line 8
--
1: ./plan check
=>
[[machine]]
name = \"c\"
poses = [{ name = \"x\", gives = { z = \"closed\" } }]
=>
fault plan line 13: machine c: pose x: gives: the machine doesn't host \"z\"
--
1: ./plan check
=>
[[machine]]
name = \"c\"
poses = [{ name = \"x\", gives = { z = \"shut\" } }]
=>
fault plan line 13: machine c: pose x: gives: \"shut\" isn't a posture; known: closed, moving, openin, openout
--
1: ./plan check
=>
[[machine]]
name = \"c\"
program = [\"claim\"]
=>
fault plan line 13: machine c: program: \"claim\" isn't a step: claim, give, yield, take or release with a zone, \
    advance with a place, pose with a \
pose, await with a sensor or a zone, or run with motors, until and a sensor
--
1: ./plan check
=>
[[machine]]
name = \"c\"
program = [\"inquire z\"]
=>
fault plan line 13: machine c: program: \"inquire z\" isn't a step: claim, give, yield, take or release with a zone, \
    advance with a place, pose with a \
pose, await with a sensor or a zone, or run with motors, until and a sensor
--
1: ./plan check
=>
[[machine]]
name = \"c\"
program = [\"claim y\"]
=>
fault plan line 13: machine c: program: no zone is named \"y\"
--
1: ./plan check
=>
[[machine]]
name = \"c\"
program = [\"pose y\"]
=>
fault plan line 13: machine c: program: the machine has no pose \"y\"
--
1: ./plan check
=>
[[machine]]
name = \"c\"
program = [\"claim w or stop on held heldd\"]
[[zone]]
name = \"w\"
host = \"c\"
guest = \"a\"
=>
fault plan line 13: machine c: program: \"heldd\" isn't a refusal to stop on; known: held, shut, notowner, platein, \
    noplate, \
placefull, wrongway, stopped
--
1: ./plan check
=>
[[machine]]
name = \"c\"
program = [\"claim w or stop on worn\"]
[[zone]]
name = \"w\"
host = \"c\"
guest = \"a\"
=>
fault plan line 13: machine c: program: \"worn\" stops the machine anyway: waiting never mends it
--
1: ./plan check
=>
[[machine]]
name = \"c\"
program = [\"claim w or stop on held shut held\"]
[[zone]]
name = \"w\"
host = \"c\"
guest = \"a\"
=>
fault plan line 13: machine c: program: \"held\" is named twice
--
1: ./plan check
=>
[[machine]]
name = \"c\"
program = [\"claim w or stop on\"]
[[zone]]
name = \"w\"
host = \"c\"
guest = \"a\"
=>
fault plan line 13: machine c: program: \"claim w or stop on\" names no refusal to stop on
--
1: ./plan check
=>
[[machine]]
name = \"c\"
program = [\"claim w or stop on \"]
[[zone]]
name = \"w\"
host = \"c\"
guest = \"a\"
=>
fault plan line 13: machine c: program: \"claim w or stop on \" names no refusal to stop on
--
1: ./plan check
=>
[[machine]]
name = \"c\"
program = [\"claim y or stop on worn\"]
[[zone]]
name = \"w\"
host = \"c\"
guest = \"a\"
=>
fault plan line 13: machine c: program: no zone is named \"y\"
--
1: ./plan check
=>
[[machine]]
name = \"c\"
program = [\"await w or stop on held\"]
[[zone]]
name = \"w\"
host = \"c\"
guest = \"a\"
=>
fault plan line 13: machine c: program: \"await w or stop on held\" isn't a call, and only a call stops on refusals
--
1: ./plan check
=>
[[machine]]
name = \"c\"
sensors = [\"s\"]
program = [\"run ram until s or stop on held\"]
[[zone]]
name = \"w\"
host = \"c\"
guest = \"a\"
=>
fault plan line 14: machine c: program: \"run ram until s or stop on held\" isn't a call, and only a call stops on \
    refusals
--
1: ./plan check
=>
[[machine]]
name = \"c\"
sensors = [\"z\"]
=>
fault plan line 13: machine c: sensors: \"z\" is the name of a zone, too
--
1: ./plan check
=>
[[machine]]
name = \"c\"
sensors = [\"s\"]
program = [\"await t\"]
=>
fault plan line 14: machine c: program: no zone, and no sensor of the machine, is named \"t\"
--
1: ./plan check
=>
[[machine]]
name = \"c\"
program = [\"await z\"]
=>
fault plan line 13: machine c: program: \"await z\" is never done: the machine is neither host nor guest of the zone
--
1: ./plan check
=>
[[machine]]
name = \"c\"
sensors = [\"s\"]
program = [\"run ram until t\"]
=>
fault plan line 14: machine c: program: no sensor of the machine is named \"t\"
--
1: ./plan check
=>
[[machine]]
name = \"c\"
sensors = [\"s\"]
program = [\"run ram until s\"]
=>
fault plan line 14: machine c: program: no motor of the machine is named \"ram\"
--
1: ./plan check
=>
[[machine]]
name = \"c\"
program = [
  \"claim w\", \"release w\",
  \"claim y\", \"claim x\",
]
[[zone]]
name = \"w\"
host = \"c\"
guest = \"a\"
=>
fault plan line 15: machine c: program: no zone is named \"y\"
--
1: ./plan check
=>
[[machine]]
name = \"c\"
program = [
  \"claim z\",
  \"claim y\",
]
=>
fault plan line 14: machine c: program: \"claim z\" is never done: the machine is neither host nor guest of the zone
--
1: ./plan check
=>
[[machine]]
name = \"c\"
places = [\"r\"]
program = [\"take y\", \"give y\"]
[[zone]]
name = \"y\"
host = \"c\"
guest = \"a\"
inward = [\"p\", \"r\"]
=>
fault plan line 14: machine c: program: \"give y\" is never done: the machine gives no plates through the zone
--
1: ./plan check
=>
[[machine]]
name = \"c\"
places = [\"r\"]
program = [\"give y\", \"take y\"]
[[zone]]
name = \"y\"
host = \"c\"
guest = \"a\"
outward = [\"r\", \"p\"]
=>
fault plan line 14: machine c: program: \"take y\" is never done: the machine takes no plates through the zone
--
1: ./plan check
=>
[[machine]]
name = \"c\"
poses = [{ name = \"d_x\", gives = {} }]
[[machine]]
name = \"c_d\"
poses = [{ name = \"x\", gives = {} }]
=>
fault plan line 16: machine c_d: pose 1: name: for C it is \"c_d_x\", and so is another pose's
--
1: ./plan check
=>
[[machine]]
name = \"c\"
sensors = [\"w\", \"d_x\"]
[[machine]]
name = \"c_d\"
sensors = [\"w\", \"x\"]
=>
fault plan line 16: machine c_d: sensors: for C it is \"c_d_x\", and so is another sensor's
--
1: ./plan check
=>
outward = [
  \"p\",
  \"r\",
]
=>
fault plan line 13: zone z: outward: no place is named \"r\"
--
1: ./plan check
=>
outward = [
  \"q\",
  \"p\",
]
=>
fault plan line 12: zone z: outward: it leads from \"q\", which isn't a place of the host, \"a\"
--
1: ./plan check
=>

[[zone]]
name = \"y\"
host = \"b\"
guest = \"a\"
inward = [\"q\", \"p\"]
=>
fault plan line 16: zone y: inward: it leads from \"q\", which isn't a place of the guest, \"a\"
--
1: ./plan check
=>
[[machine]]
name = \"c\"
[[machine.poses]]
name = \"x\"
gives.z = \"shut\"
=>
fault plan line 15: machine c: pose x: gives: \"shut\" isn't a posture; known: closed, moving, openin, openout
--
1: ./plan check
=>
[[machine]]
name = \"c\"
poses = [{ name = \"x\", gives = {
  z = \"moving\"
} }]
=>
fault plan line 14: machine c: pose x: gives: the machine doesn't host \"z\"
";

/// A program with 255 lines, and one with more: its line 256 is line 269 of the document.
const LONG: &str = "\
1: ./plan explore
=>
[[machine]]
name = \"c\"
program = [
@255   \"claim y\",
@]
[[zone]]
name = \"y\"
host = \"c\"
guest = \"a\"
start,00
=>
a standstill after 1 turn, and no fewer
c waits: claim y: already
turns:
  c asks: claim y: done
--
1: ./plan explore
1: ./plan replay
=>
[[machine]]
name = \"c\"
program = [
@256   \"claim y\",
@]
[[zone]]
name = \"y\"
host = \"c\"
guest = \"a\"
start,00
=>
fault plan line 269: machine c: program: it has more than 255 lines
";

#[test]
fn tells_later_faults(rt: HostRuntime) {
    are_answered(&rt, rt.alloc(), MACHINES, LATER);
    are_answered(&rt, rt.alloc(), MACHINES, NAMELESS);
    are_answered(&rt, rt.alloc(), WITH_ZONE, LAST);
    are_answered(&rt, rt.alloc(), WITH_ZONE, LONG);
}
