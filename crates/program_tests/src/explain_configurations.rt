//! Configurations as people write them: texts that are no TOML, the keys `start`, `stamp` and `schedule`. Bars separate
//! the rows; in a row arrows separate the text, in which each character stands for a byte, its explanation, and what
//! that shows.

/// Configurations, each with its explanation; empty for one that isn't refused.
pub const CONFIGURATIONS: &str = "\
    start = \"0100000000\"\nschedule = \"tfT\"\n => |\
    stamp = 7\n => config missing: there is no key start, such as start = \"0000000000\"\n|\
    \u{20}=> config missing: there is no key start, such as start = \"0000000000\"\n|\
    start = \"0100000000\"\nshedule = \"t\"\n \
        => config unknown: line 2: \"shedule\" is no key here; did you mean \"schedule\"?\n|\
    start = \"0100000000\"\nstamp = -1\n \
        => config range: line 2: stamp is out of range: it takes 0 to 1048575\n|\
    \u{ef}\u{bb}\u{bf}\r\nstart = \"0100000000\"\r\n\r\nstamp = 1048576\r\n \
        => config range: line 4: stamp is out of range: it takes 0 to 1048575\n|\
    start = 1100000000\n \
        => config kind: line 1: start takes a text of ten digits; put quotes round them\n|\
    start = \"0100000000\"\nstamp = \"3\"\n \
        => config kind: line 2: stamp takes a whole number, without quotes\n|\
    start = \"0100000000\"\nstamp.raw = 1\n \
        => config kind: line 2: stamp takes a whole number, without quotes\n|\
    schedule = 3\nstart = \"0100000000\"\n \
        => config kind: line 1: schedule takes a text; put quotes round the letters\n|\
    start = \"0000110000\"\n \
        => config start: line 1: \"0000110000\" has plates in both p5 and p6; the press holds one\n|\
    # start\n'start' = \"\"\"\n0111111100\"\"\"\n \
        => config start: line 2: \"0111111100\" has 7 plates; a start has at most six\n|\
    stamp = 5 # start\nstart = \"010000000\"\n \
        => config start: line 2: \"010000000\" has 9 bytes; a start has ten digits 0 or 1, one for each of p1 \
        to p10\n|\
    start = \"0100000000\"\nschedule = \"t f\"\n \
        => config letter: line 2: character 2 of the schedule, \" \", is no letter: known are f t r p d c w \
        and their capitals\n \
        => A character that is no letter: its number in the schedule, and its line.|\
    start = \"0100000000\"\nschedule = \"tf\u{c3}\u{bc}\"\n \
        => config letter: line 2: character 3 of the schedule, \"\\u{fc}\", is no letter: known are f t r p d \
        c w and their capitals\n|\
    start = \"0100000000\"\nschedule = 'tf\\t'\n \
        => config letter: line 2: character 3 of the schedule, \"\\\\\", is no letter: known are f t r p d c \
        w and their capitals\n|\
    start = \"0100000000\"\nschedule = \"\"\"\ntf\ntf\"\"\"\n \
        => config letter: line 3: character 3 of the schedule, \"\\n\", is no letter: known are f t r p d c w \
        and their capitals\n|\
    start = \"0100000000\"\nschedule = \"\"\"\n  tf\"\"\"\n \
        => config letter: line 3: character 1 of the schedule, \" \", is no letter: known are f t r p d c w \
        and their capitals\n|\
    start = \"0100000000\"\nschedule = \"\"\"\\\n  tf\\\n\n  tx\"\"\"\n \
        => config letter: line 5: character 4 of the schedule, \"x\", is no letter: known are f t r p d c w \
        and their capitals\n|\
    start = \"0100000000\"\r\nschedule = '''\r\ntfv'''\r\n \
        => config letter: line 3: character 3 of the schedule, \"v\", is no letter: known are f t r p d c w \
        and their capitals\n|\
    start = \"0100000000\"\nstart = \"0100000000\"\n \
        => config text: line 2: it is no TOML: duplicate key\n \
        => No TOML.|\
    start = \"0100000000\"\n[turn]\ntol = 3\n[turn]\n \
        => config text: line 4: it is no TOML: duplicate key\n|\
    start: \"0100000000\"\n => config text: line 1: it is no TOML: key with no value, expected `=`\n|\
    start = 0100000000\n \
        => config text: line 1: it is no TOML: invalid value, expected a string, number, boolean, date-time, \
        array or inline table; start takes a text of ten digits; put quotes round them\n|\
    start = \"0100000000\"\nstamp = 007\n \
        => config text: line 2: it is no TOML: invalid value, expected a string, number, boolean, date-time, \
        array or inline table; stamp takes a whole number, without quotes\n|\
    start = \"0100000000\"\nschedule = \"tf\nstamp = 3\n \
        => config text: line 2: it is no TOML: invalid string; schedule takes a text; put quotes round the \
        letters\n|\
    start = \"0100000000\"\nschedule = \"\"\"\ntf\ntf\n \
        => config text: line 5: it is no TOML: invalid string; the value of \"schedule\" begins on line 2\n|\
    start = \"0100000000\"\n[turn]\nraw = [0, 4000\ntol = 3\n \
        => config text: line 4: it is no TOML: missing comma between array elements, expected `,` or `]`; the \
        value of \"raw\" begins on line 3\n|\
    start = \"0100000000\"\nturn = {\n  tol = 3\n  raw = [0, 4000]\n}\n \
        => config text: line 4: it is no TOML: missing comma between key-value pairs, expected `,` or `}`; \
        the value of \"tol\" begins on line 3\n|\
    start = \"0100000000\"\nschedule = \"t\u{ff}\"\n => config text: line 2: it is no TOML: invalid UTF-8\n|\
    # \r\nstart = \"0100000000\" # \r\n# \rschedule = \"t\u{ff}\"\n \
        => config text: line 3: it is no TOML: invalid UTF-8\n \
        => A carriage return alone ends no line.";
