//! Each fault of a document, in words: of its tables, its machines and their poses, and of what is no TOML.

use super::doubles::are_answered;

/// Documents, each with its fault.
const ROWS: &str = "\
1: ./plan check
=>
=>
fault plan the document: there is no [[machine]]
--
1: ./plan check
=>
machines = 1
=>
fault plan line 1: the document: \"machines\" isn't a key here; known: machine, zone, motor, hazard
--
1: ./plan check
=>
machine = 1
=>
fault plan line 1: the document: machine: it takes a list of tables; begin each with [[machine]]
--
1: ./plan check
=>
machine = [1]
=>
fault plan line 1: the document: machine: it takes a list of tables; begin each with [[machine]]
--
1: ./plan check
=>
[machine]
name = \"a\"
=>
fault plan line 1: the document: machine: it takes a list of tables; begin each with [[machine]]
--
1: ./plan check
=>
[[machine]]
=>
fault plan line 1: machine 1: name: it is missing
--
1: ./plan check
=>
[[machine]]
name = 1
=>
fault plan line 2: machine 1: name: it takes a text; put quotes round it
--
1: ./plan check
=>
[[machine]]
names = \"a\"
=>
fault plan line 2: machine 1: \"names\" isn't a key here; known: name, places, sources, sinks, poses, sensors, program
--
1: ./plan check
=>
[[machine]]
name = \"A\"
=>
fault plan line 2: machine 1: name: \"A\" isn't a name: a letter, then letters, digits or underscores, lower case, at \
    most 32
--
1: ./plan check
=>
[[machine]]
name = \"watch\"
=>
fault plan line 2: machine 1: name: \"watch\" is a word of scripts, and names no machine
--
1: ./plan check
=>
[[machine]]
name = \"resume\"
=>
fault plan line 2: machine 1: name: \"resume\" is a word of scripts, and names no machine
--
1: ./plan check
=>
[[machine]]
name = \"a\"
[[machine]]
name = \"a\"
=>
fault plan line 4: machine 2: name: \"a\" is defined twice, first on line 2
--
1: ./plan check
=>
[[machine]]
name = \"a\"
places = \"p\"
=>
fault plan line 3: machine a: places: it takes a list of texts, such as [\"hand\", \"die\"]
--
1: ./plan check
=>
[[machine]]
name = \"a\"
places = [\"p\", \"p\"]
=>
fault plan line 3: machine a: places: \"p\" is defined twice, first on line 3
--
1: ./plan check
=>
[[machine]]
name = \"a\"
places = [\"p\"]
sources = [\"p\"]
sinks = [\"p\", \"q\"]
[[machine]]
name = \"b\"
places = [\"q\"]
=>
fault plan line 5: machine a: sinks: the machine doesn't keep \"q\"
--
1: ./plan check
=>
[[machine]]
name = \"a\"
places = [\"p\", \"q\"]
sources = [\"p\"]
program = [\"advance p\", \"advance q\"]
=>
fault plan line 5: machine a: program: \"advance q\" is never done: the place is no source and no sink of the machine
--
1: ./plan check
=>
[[machine]]
name = \"a\"
program = [\"advance p\"]
=>
fault plan line 3: machine a: program: no place is named \"p\"
--
1: ./plan check
=>
[[machine]]
name = \"advance\"
=>
fault plan line 2: machine 1: name: \"advance\" is a word of scripts, and names no machine
--
1: ./plan check
=>
[[machine]]
name = \"a\"
poses = 1
=>
fault plan line 3: machine a: poses: it takes a list of tables
--
1: ./plan check
=>
[[machine]]
name = \"a\"
poses = [{ name = \"x\" }]
=>
fault plan line 3: machine a: pose x: gives: it is missing
--
1: ./plan check
=>
[[machine]]
name = \"a\"
poses = [{ name = \"x\", gives = 1 }]
=>
fault plan line 3: machine a: pose x: gives: it takes a table, such as { interior = \"closed\" }
--
1: ./plan check
=>
[[machine]]
name = \"a\"
poses = [{ name = \"x\", gives = {}, after_moving = 1 }]
=>
fault plan line 3: machine a: pose x: after_moving: it takes true or false
--
1: ./plan check
=>
[[machine]]
name = \"a\"
poses = [{ name = \"x\", gives = { z = \"shut\" } }]
=>
fault plan line 3: machine a: pose x: gives: no zone is named \"z\"
";

/// Documents of several lines, each with its fault, and what it shows.
const PLACED: &str = "\
1: ./plan check
=>
# [[machine]]

[[machine]] # name = \"a\"
name = \"a\"

# The second one.
[[machine]]

name = \"a\"
=>
fault plan line 9: machine 2: name: \"a\" is defined twice, first on line 4
=>
Comments and blank lines come before.
--
1: ./plan check
=>
\u{feff}# CRLF\r
\r
[[machine]]\r
places = []\r
name = true\r
=>
fault plan line 5: machine 1: name: it takes a text; put quotes round it
=>
Lines end by CRLF, and a byte order mark comes first.
--
1: ./plan check
=>
[[machine]]
name = \"\"\"
a\"\"\"
program = ['''
[[machine]]''', \"]\", # \"
]
[[machine]]
\"name\" = \"a\"
=>
fault plan line 8: machine 2: name: \"a\" is defined twice, first on line 2
=>
A text of several lines hides a head; a key is in quotes.
--
1: ./plan check
=>
[[machine]]
name = \"a\"

[[machine]]
places = []

[[machine]]
name = \"b\"
=>
fault plan line 4: machine 2: name: it is missing
=>
A key is missing, and the next row has it: the line is the head's.
--
1: ./plan check
=>
[[machine]]
name = \"a\"
places = []

programs = [
]
=>
fault plan line 5: machine a: \"programs\" isn't a key here; known: name, places, sources, sinks, poses, sensors, program
=>
A key is unknown, and stands below known ones.
--
1: ./plan check
=>
[[machine]]
name = \"a\"

[plant]
name = \"a\"
=>
fault plan line 4: the document: \"plant\" isn't a key here; known: machine, zone, motor, hazard
--
1: ./plan check
=>
[[machine]]
name = \"a\"
places = [
  \"p\", # \"p\"
  \"q\",
  \"p\",
]
=>
fault plan line 6: machine a: places: \"p\" is defined twice, first on line 4
=>
A list has several lines: the line is the text's.
--
1: ./plan check
=>
[[machine]]
name = \"a\"
places = [
  \"p\",
  1,
]
=>
fault plan line 3: machine a: places: it takes a list of texts, such as [\"hand\", \"die\"]
--
1: ./plan check
=>
[[machine]]
name = \"a\"
poses = [
  { name = \"x\", gives = {} },

  # The second one.
  { name = \"y\", gives = {} },
  { name = \"x\", gives = {} },
]
=>
fault plan line 8: machine a: pose 3: name: \"x\" is defined twice, first on line 4
=>
Poses stand in a list.
--
1: ./plan check
=>
[[machine]]
name = \"a\"
poses = [{ name = \"x\", gives = {} }, {
    name = \"y\",
    gives = {},
    after_moving = \"]\",
  },
]
=>
fault plan line 6: machine a: pose y: after_moving: it takes true or false
--
1: ./plan check
=>
[[machine]]
name = \"a\"
poses = [
  { name = \"x\", gives = {} },
  { name = \"y\" },
]
=>
fault plan line 5: machine a: pose y: gives: it is missing
--
1: ./plan check
=>
[[machine]]
name = \"a\"
poses = [
  {
    name = \"x\",
    give = {},
  },
]
=>
fault plan line 6: machine a: pose x: \"give\" isn't a key here; known: name, gives, after_moving
--
1: ./plan check
=>
[[machine]]
name = \"a\"
[[machine.poses]]
name = \"x\"
gives = {}

[[machine]]
name = \"b\"
[[machine.poses]]
name = \"x\"
gives = {}
[[machine.poses]]
name = \"y\"
[machine.poses.gives]
y = \"closed\"
=>
fault plan line 15: machine b: pose y: gives: no zone is named \"y\"
=>
Poses have heads, or keys with dots.
--
1: ./plan check
=>
machine = [
  { name = \"a\" },
  { name = \"b\", program = [\"\"] },
]
=>
fault plan line 3: machine b: program: \"\" isn't a step: claim, give, yield, take or release with a zone, advance \
with a place, pose with a pose, await with a sensor or a zone, or run with motors, until and a sensor
=>
All machines stand in a list.
--
1: ./plan check
=>
[[machine]]\r
\r
name = \r
=>
fault plan line 3: this isn't TOML: invalid value, expected a string, number, boolean, date-time, array or inline table
=>
What is no TOML.
--
1: ./plan check
=>
[[machine]]
name = \"a\"
name = \"b\"
=>
fault plan line 3: this isn't TOML: duplicate key
";

/// Machines and poses, the last without a name: its number is told if six, eight and nine come before it.
const NAMELESS: &str = "\
1: ./plan check
=>
@6 [[machine]]
name = \"m#\"
@[[machine]]
=>
fault plan line 13: machine 7: name: it is missing
--
1: ./plan check
=>
@8 [[machine]]
name = \"m#\"
@[[machine]]
=>
fault plan line 17: machine 9: name: it is missing
--
1: ./plan check
=>
@9 [[machine]]
name = \"m#\"
@[[machine]]
=>
fault plan line 19: machine 10: name: it is missing
--
1: ./plan check
=>
[[machine]]
name = \"a\"
poses = [@6 { name = \"x#\", gives = {} }, @{ gives = {} }]
=>
fault plan line 3: machine a: pose 7: name: it is missing
--
1: ./plan check
=>
[[machine]]
name = \"a\"
poses = [@8 { name = \"x#\", gives = {} }, @{ gives = {} }]
=>
fault plan line 3: machine a: pose 9: name: it is missing
--
1: ./plan check
=>
[[machine]]
name = \"a\"
poses = [@9 { name = \"x#\", gives = {} }, @{ gives = {} }]
=>
fault plan line 3: machine a: pose 10: name: it is missing
";

#[test]
fn tells_faults(rt: HostRuntime) {
    are_answered(&rt, rt.alloc(), "", ROWS);
    are_answered(&rt, rt.alloc(), "", PLACED);
    are_answered(&rt, rt.alloc(), "", NAMELESS);
}
