//! Scripts as people write them. Bars separate the rows; in a row arrows separate the script, in which each character
//! stands for a byte, its explanation, and what it shows.

/// Scripts, each with its explanation; empty for one that isn't refused.
pub const SCRIPTS: &str = "\
    start,0000000000\npress,claim,z3\n => |\
    start,0000000000\r\npress,claim,z3 => |\
    start2,0000000000\nwatch,stop\n => |\
    start,0000000000\npress, claim,z3\n \
        => record 1, line 2, field 2: \" claim\" is no verb: it begins with a blank; did you mean \"claim\"?\n|\
    start,0000000000\n\n\npress,clam,z3\n \
        => record 1, line 4, field 2: \"clam\" is no verb; did you mean \"claim\"?\n|\
    start,0000000000\nPress,claim,z3\n \
        => record 1, line 2, field 1: \"Press\" is no machine: words are lower case; did you mean \"press\"?\n|\
    start,0000000000\npress,claim,z7\n \
        => record 1, line 2, field 3: \"z7\" is no zone; known are: z1 z2 z3 z4 z5 z6\n|\
    start,0000000000\npress,claim\n \
        => record 1, line 2, field 2: \"claim\" needs a zone after it, z1 to z6\n|\
    start,0000000000\nwatch,stop\n \
        => record 1, line 2, field 2: \"stop\" needs a script that begins with start2, not with start\n|\
    start,0000000000\n# a comment\n \
        => record 1, line 2, field 1: \"# a comment\": a script has no comments; delete the line\n|\
    start,0\n \
        => record 0, line 1, field 2: \"0\" has 1 of ten digits; a spreadsheet drops zeros at the front, so \
        make the field a text\n|\
    \u{20}=> record 0, line 1: there is none; a script begins with a start, such as start,0000000000\n|\
    start,0000000000\r\npress,clam,z3\r\n \
        => record 1, line 2, field 2: \"clam\" is no verb; did you mean \"claim\"?\n \
        => Other line ends, empty lines, quoted line ends, byte order marks: which line is named.|\
    start,0000000000\r\n\r\n\r\npress,clam,z3\r\n \
        => record 1, line 4, field 2: \"clam\" is no verb; did you mean \"claim\"?\n|\
    start,0000000000\r\npress,claim,z3\r\npress,clam,z3\r\n \
        => record 2, line 3, field 2: \"clam\" is no verb; did you mean \"claim\"?\n|\
    start,0000000000\rpress,clam,z3\r \
        => record 1, line 2, field 2: \"clam\" is no verb; did you mean \"claim\"?\n|\
    \r\n\nstart,0\n \
        => record 0, line 3, field 2: \"0\" has 1 of ten digits; a spreadsheet drops zeros at the front, so \
        make the field a text\n|\
    \u{ef}\u{bb}\u{bf}start,0000000000\npress,clam,z3\n \
        => record 1, line 2, field 2: \"clam\" is no verb; did you mean \"claim\"?\n|\
    \u{ef}\u{bb}\u{bf}\n\nstart,0\n \
        => record 0, line 3, field 2: \"0\" has 1 of ten digits; a spreadsheet drops zeros at the front, so \
        make the field a text\n|\
    start,0000000000\npress,\"cla\nim\",z3\n \
        => record 1, line 2, field 2: \"cla\\nim\" is no verb: it goes past the end of a line; is a quote \
        left open?; did you mean \"claim\"?\n|\
    start,0000000000\npress,claim,\"z3\r\n\",more\n \
        => record 1, line 3, field 4: \"more\"; a call has at most three fields\n|\
    start,0000000000\npress,\"claim,z3\nrobot,claim,z3\n \
        => record 1, line 2, field 2: \"claim,z3\\nrobot,claim,z3\\n\" is no verb: it goes past the end of a \
        line; is a quote left open?; known are: claim give yield take release inquire pose advance stop resume\n|\
    start,0100000000,0000005\n =>  => Starts.|\
    start2,0100000000,1048575\n => |\
    start,1111111000,9\n \
        => record 0, line 1, field 2: \"1111111000\" has 7 plates; a start has at most six\n|\
    start,1111111000,1048575\n \
        => record 0, line 1, field 2: \"1111111000\" has 7 plates; a start has at most six\n|\
    start,0000110000,0000005\n \
        => record 0, line 1, field 2: \"0000110000\" has plates in both p5 and p6; the press holds one\n|\
    start,1111111000,1048576\n \
        => record 0, line 1, field 3: \"1048576\"; a stamp has one to seven digits and is from 0 to 1048575\n|\
    start,0100000000,00000005\n \
        => record 0, line 1, field 3: \"00000005\"; a stamp has one to seven digits and is from 0 to 1048575\n|\
    start,0100000000,\n \
        => record 0, line 1, field 3: \"\": it is empty; a comma too many makes an empty field; a stamp has \
        one to seven digits and is from 0 to 1048575\n|\
    start,2111111000,9\n \
        => record 0, line 1, field 2: \"2111111000\"; the places are ten digits 0 or 1, one for each of p1 to \
        p10\n|\
    press,claim,z3\n \
        => record 0, line 1, field 1: \"press\" begins a call, but a script begins with a start, such as \
        start,0000000000\n|\
    # a comment\nstart,0000000000\n \
        => record 0, line 1, field 1: \"# a comment\": a script has no comments; delete the line\n|\
    Start,0000000000\n \
        => record 0, line 1, field 1: \"Start\" is no word that begins a script: words are lower case; did \
        you mean \"start\"?; a script begins with a start, such as start,0000000000\n|\
    start,0000000000,5,6\n => record 0, line 1, field 4: \"6\"; a start has at most three fields\n|\
    start2\n \
        => record 0, line 1: the places are missing: ten digits 0 or 1, one for each of p1 to p10\n|\
    start,\n \
        => record 0, line 1, field 2: \"\": it is empty; a comma too many makes an empty field; the places \
        are ten digits 0 or 1, one for each of p1 to p10\n|\
    start,010000000\n \
        => record 0, line 1, field 2: \"010000000\" has 9 of ten digits; a spreadsheet drops zeros at the \
        front, so make the field a text\n|\
    start,01000000000\n \
        => record 0, line 1, field 2: \"01000000000\" has 11 digits; there are ten places, p1 to p10\n|\
    Machine,Verb\nstart,0000000000\n \
        => record 0, line 1, field 1: \"Machine\": a script has no header; delete the line\n|\
    start,0000000000\nbelt,claim,z1\n \
        => record 1, line 2, field 1: \"belt\" is no machine; known are: feed table robot press deposit crane \
        watch\n \
        => What is wrong with a machine, a verb, and what stands after the verb.|\
    start,0000000000\nstart2,0000000000\n \
        => record 1, line 2, field 1: \"start2\" begins a script; it stands in record 0 alone\n|\
    start,0000000000\npress,claim,z3\nstart,0000000000\n \
        => record 2, line 3, field 1: \"start\" begins a script; it stands in record 0 alone\n|\
    start,0000000000\npress\n => record 1, line 2: a verb is missing after the machine, such as claim\n|\
    start,0000000000\npress,grab,z3\n \
        => record 1, line 2, field 2: \"grab\" is no verb; known are: claim give yield take release inquire \
        pose advance stop resume\n|\
    start,0000000000\nwatch,resume\n \
        => record 1, line 2, field 2: \"resume\" needs a script that begins with start2, not with start\n|\
    start2,0000000000\nwatch,resume,z1\n \
        => record 1, line 2, field 3: \"z1\"; no field follows this verb\n|\
    start,0000000000\nrobot,advance,\n \
        => record 1, line 2, field 3: \"\": it is empty; a comma too many makes an empty field; no field \
        follows this verb\n|\
    start,0000000000\nrobot,pose\n \
        => record 1, line 2, field 2: \"pose\" needs a pose after it, such as middle\n|\
    start,0000000000\nrobot,pose,midle\n \
        => record 1, line 2, field 3: \"midle\" is no pose; did you mean \"middle\"?\n|\
    start,0000000000\nrobot,pose,up\n \
        => record 1, line 2, field 3: \"up\" is no pose; known are: turning loading unloading travelling \
        middle low top running landing halted offering standing\n|\
    start,0000000000\npress,claim,z3,z4\n \
        => record 1, line 2, field 4: \"z4\"; a call has at most three fields\n|\
    start,0000000000\npress;claim;z3\n \
        => record 1, line 2, field 1: \"press;claim;z3\" is no machine: a comma separates fields, not a \
        semicolon; known are: feed table robot press deposit crane watch\n \
        => What catches the eye, and how much of a field is shown: 40 characters, or bytes if it isn't UTF-8.|\
    start,0000000000\npress\tclaim\tz3\n \
        => record 1, line 2, field 1: \"press\\tclaim\\tz3\" is no machine: a comma separates fields, not a \
        tab; known are: feed table robot press deposit crane watch\n|\
    start,0000000000\npress claim z3\n \
        => record 1, line 2, field 1: \"press claim z3\" is no machine: a comma separates fields, not a \
        blank; known are: feed table robot press deposit crane watch\n|\
    start,0000000000\npress,claim,z3 \n \
        => record 1, line 2, field 3: \"z3 \" is no zone: it ends with a blank; did you mean \"z3\"?\n|\
    start,0000000000\nrobot,pose,Travelling\n \
        => record 1, line 2, field 3: \"Travelling\" is no pose: words are lower case; did you mean \
        \"travelling\"?\n|\
    start,0000000000\nrobot,pose,travelling                              \n \
        => record 1, line 2, field 3: \"travelling                              \" is no pose: it ends with a \
        blank; did you mean \"travelling\"?\n|\
    start,0000000000\nrobot,pose,travelling                               \n \
        => record 1, line 2, field 3: \"travelling                              ..\" is no pose: it ends with \
        a blank; known are: turning loading unloading travelling middle low top running landing halted \
        offering standing\n|\
    start,0000000000\npress,\"cla\rim\",z3\n \
        => record 1, line 2, field 2: \"cla\\rim\" is no verb: it goes past the end of a line; is a quote \
        left open?; did you mean \"claim\"?\n|\
    start,0000000000\naaaaaaaaaaaaaaaaaaaaaaaaaaaaaaaaaaaaaaaa,claim,z3\n \
        => record 1, line 2, field 1: \"aaaaaaaaaaaaaaaaaaaaaaaaaaaaaaaaaaaaaaaa\" is no machine; known are: \
        feed table robot press deposit crane watch\n|\
    start,0000000000\naaaaaaaaaaaaaaaaaaaaaaaaaaaaaaaaaaaaaaaaa,claim,z3\n \
        => record 1, line 2, field 1: \"aaaaaaaaaaaaaaaaaaaaaaaaaaaaaaaaaaaaaaaa..\" is no machine; known \
        are: feed table robot press deposit crane watch\n|\
    start,0000000000\npr\u{c3}\u{a9}ss,claim,z3\n \
        => record 1, line 2, field 1: \"pr\\u{e9}ss\" is no machine; did you mean \"press\"?\n \
        => Bytes that aren't ASCII, or 0.|\
    start,0000000000\n\u{ef}\u{bb}\u{bf}press,claim,z3\n \
        => record 1, line 2, field 1: \"\\u{feff}press\" is no machine: it begins with a byte order mark; did \
        you mean \"press\"?\n|\
    #\u{0} \u{0}a\u{0}\n \
        => record 0, line 1, field 1: \"#\\u{0} \\u{0}a\\u{0}\": a script has no comments; delete the line\n|\
    S\u{0}t\u{0}a\u{0}r\u{0}t\u{0},\u{0} \
        => record 0, line 1, field 1: \"S\\u{0}t\\u{0}a\\u{0}r\\u{0}t\\u{0}\" is no word that begins a \
        script: it has bytes 0; is the file UTF-16? Save it as UTF-8; known are: start start2; a script \
        begins with a start, such as start,0000000000\n|\
    start,0000000000\n\u{ff}aaaaaaaaaaaaaaaaaaaaaaaaaaaaaaaaaaaaaaa,claim,z3\n \
        => record 1, line 2, field 1: \"\\xffaaaaaaaaaaaaaaaaaaaaaaaaaaaaaaaaaaaaaaa\" is no machine; known \
        are: feed table robot press deposit crane watch\n \
        => Bytes that aren't UTF-8.|\
    start,0000000000\n\u{ff}aaaaaaaaaaaaaaaaaaaaaaaaaaaaaaaaaaaaaaaa,claim,z3\n \
        => record 1, line 2, field 1: \"\\xffaaaaaaaaaaaaaaaaaaaaaaaaaaaaaaaaaaaaaaa..\" is no machine; known \
        are: feed table robot press deposit crane watch\n|\
    start,0000000000\npress,claim,z\u{ff}\n \
        => record 1, line 2, field 3: \"z\\xff\" is no zone; known are: z1 z2 z3 z4 z5 z6\n|\
    \u{ff}\u{fe}s\0t\0 => record 0, line 1: the script seems to be UTF-16; save it as UTF-8\n";
