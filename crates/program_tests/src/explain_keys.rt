//! Keys that are unknown where they stand.

/// Configurations, each with its explanation.
pub const KEYS: &str = "\
    start = \"0100000000\"\nt = 3\n \
        => config unknown: line 2: \"t\" is no key here; known are: start stamp schedule arm1 arm2 rotation \
        turn gripper\n \
        => The line is that of the key, not of a word or a text in which it stands.|\
    start = \"0100000000\"\nschedule = '''\nt = 3\n'''\nt = 3\n \
        => config unknown: line 5: \"t\" is no key here; known are: start stamp schedule arm1 arm2 rotation \
        turn gripper\n|\
    # l = 5\nstart = \"0100000000\" # l = 5\n[turn]\nl = 5\n \
        => config unknown: line 4: \"l\" is no key here; known are: raw tol points\n|\
    start = \"0100000000\"\r\n\r\nturn.tl = 5\r\n \
        => config unknown: line 3: \"tl\" is no key here; did you mean \"tol\"?\n|\
    start = \"0100000000\"\nturn = {tl = 5}\n \
        => config unknown: line 2: \"tl\" is no key here; did you mean \"tol\"?\n|\
    start = \"0100000000\"\nturn = { # tl\n  raw = [0, 4000, # tl\n  ],\n  tl = 5 }\n \
        => config unknown: line 5: \"tl\" is no key here; did you mean \"tol\"?\n|\
    start = \"0100000000\"\n\"st\\u00e4mp\" = 3\n \
        => config unknown: line 2: \"st\\u{e4}mp\" is no key here; did you mean \"stamp\"?\n|\
    start = \"0100000000\"\n[ Turn ]\ntol = 3\n \
        => config unknown: line 2: \"Turn\" is no key here; did you mean \"turn\"?\n|\
    start = \"0100000000\"\n[turn]\nspeed = 1\n[colour]\n \
        => config unknown: line 3: \"speed\" is no key here; known are: raw tol points\n \
        => The first in the text is named. In an array of tables no keys are looked at.|\
    start = \"0100000000\"\n[[turn]]\nspeed = 1\n[colour]\n \
        => config unknown: line 4: \"colour\" is no key here; known are: start stamp schedule arm1 arm2 \
        rotation turn gripper\n|\
    raw = [0, 4000]\nstart = \"0100000000\"\n \
        => config unknown: line 1: raw is a key of a section; move it below a section's head, such as [arm1]\n \
        => Keys at another level.|\
    start = \"0100000000\"\n[turn]\ntol = 5\nstamp = 7\n \
        => config unknown: line 4: stamp stands in the section turn; move it above the first section\n|\
    start = \"0100000000\"\n[arm1]\narm2.tol = 5\n \
        => config unknown: line 3: arm2 stands in the section arm1; its own head is [arm2]\n";
