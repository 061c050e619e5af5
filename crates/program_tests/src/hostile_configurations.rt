//! Configurations as people and tools send them: other line ends and encodings, zero bytes, other formats.

/// Whole configurations, in which each character stands for a byte, each with its judgement, and what stands in a group
/// of them.
pub const SENT: &str = "\
    \u{20}=> config missing => None, or one that says nothing.|\
    \n => config missing|\
    \r\n\r\n => config missing|\
    \u{20}\t => config missing|\
    # start = \"0000000000\" => config missing|\
    [turn]\ntol = 3 => config missing|\
    colour = 1 => config unknown|\
    [turn]\ntol = 3\nstart = \"0000000000\"\n => config unknown|\
    start = \"0000000000\"\r\nstamp = 1\r\n[turn]\r\ntol = 3\r\n => well 0000000000 1, \
        => Line ends of Windows, also within a text, and with none at the end.|\
    # no plates\r\nstart = \"0000000000\" # none\r\n\r\nstamp = 1 => well 0000000000 1,|\
    start = \"0000000000\"\r\nschedule = \"\"\"\r\nF\\\r\n  F\"\"\"\r\n \
        => well 0000000000 0 feed! feed!,|\
    start = \"0000000000\"\r\nschedule = '''\r\nF\r\nF'''\r\n => config letter|\
    start = \"0000000000\"\rstamp = 1\r => config text => A return alone ends no line.|\
    start = \"0000000000\"\n\r => config text|\
    # no plates\rstart = \"0000000000\" => config text|\
    \u{ef}\u{bb}\u{bf} => config missing => A byte order mark is dropped at the very beginning alone.|\
    \u{ef}\u{bb}\u{bf}start = \"0000000000\"\r\n => well 0000000000 0,|\
    \u{ef}\u{bb}\u{bf}\r\n[turn]\r\ntol = 3\r\n => config missing|\
    \u{ef}\u{bb}\u{bf}\u{ef}\u{bb}\u{bf}start = \"0000000000\" => config text|\
    \n\u{ef}\u{bb}\u{bf}start = \"0000000000\" => config text|\
    start = \"0000000000\"\u{ef}\u{bb}\u{bf} => config text|\
    start = \"\u{ef}\u{bb}\u{bf}0000000000\" => config start|\
    start = \"0000000000\" # \u{ef}\u{bb}\u{bf} => well 0000000000 0,|\
    \u{0} => config text => Zero bytes, and other characters that don't print.|\
    start = \"0000000000\"\n\u{0} => config text|\
    start = \"0000000000\" # \u{0} => config text|\
    start = \"000000000\u{0}\" => config text|\
    start = '000000000\u{0}' => config text|\
    start\u{0} = \"0000000000\" => config text|\
    start = \"000000000\\u0000\" => config start|\
    start = \"0000000000\"\r\n\u{1a} => config text|\
    start = \"0000000000\" # \u{7f} => config text|\
    start = \"0000000000\"\u{c} => config text|\
    start = \"000000000\t\" => config start|\
    \tstart\t=\t\"0000000000\"\t#\t => well 0000000000 0,|\
    start = \"0000000000\"\u{c2}\u{a0} => config text => Blanks, quotes, digits and letters that only look alike.|\
    start = \"0000000000\"\u{e2}\u{80}\u{a8} => config text|\
    start = \u{e2}\u{80}\u{9c}0000000000\u{e2}\u{80}\u{9d} => config text|\
    start = \"000000000\u{ef}\u{bc}\u{90}\" => config start|\
    start = \"000000000\u{d9}\u{a0}\" => config start|\
    \"st\u{d0}\u{b0}rt\" = \"0000000000\" => config unknown|\
    start = 0000000000 => config text => The start without quotes, with others, or in them and more.|\
    start = 1111100010 => config kind|\
    start = 0b1111100010 => config kind|\
    start = 0 => config kind|\
    start = 5 => config kind|\
    start = true => config kind|\
    start = [\"0000000000\"] => config kind|\
    start = {} => config kind|\
    [start] => config kind|\
    [[start]] => config kind|\
    start => config text|\
    start = => config text|\
    start = \"00 => config text|\
    start = \"0000000000 => config text|\
    start = \"\" => config start|\
    start = \"000\" => config start|\
    start = \"0000110000\" => config start|\
    start = \"0000110000\"\nstamp = -1 => config range|\
    start = '0000000000' => well 0000000000 0,|\
    start = \"0000000000\\n\" => config start|\
    start = \"\\u0030000000000\" => well 0000000000 0,|\
    start = \"\"\"\n0000000000\"\"\" => well 0000000000 0,|\
    start = \"\"\"0000000000\n\"\"\" => config start|\
    start,0000000000\npress,claim,z3\n => config text => Scripts and other formats.|\
    {\"start\": \"0000000000\"} => config text|\
    start: \"0000000000\" => config text|\
    start = \"0000000000\"; => config text|\
    start = \"0000000000\",\nstamp = 1 => config text|\
    // no plates\nstart = \"0000000000\" => config text|\
    \u{ff} => config text \
        => UTF-16, with its mark and without; parts of a mark, a letter of Latin-1, a zero in two bytes, a half of a \
        pair, no character; a character that is cut, and the whole of it.|\
    colour = 1\n\u{ff} => config text|\
    start = \"0000000000\"\n\u{ff} => config text|\
    \u{ff}\u{fe}s\0t\0a\0r\0t\0 => config text|\
    \u{fe}\u{ff}\0s\0t\0a\0r\0t => config text|\
    s\0t\0a\0r\0t\0 => config text|\
    \u{ef}\u{bb}start = \"0000000000\" => config text|\
    start = \"0000000000\" # \u{e9} => config text|\
    start = \"0000000000\" # \u{c0}\u{80} => config text|\
    start = \"0000000000\" # \u{ed}\u{a0}\u{80} => config text|\
    start = \"0000000000\" # \u{f4}\u{90}\u{80}\u{80} => config text|\
    start = \"0000000000\" # \u{e2}\u{82} => config text|\
    start = \"0000000000\" # \u{e2}\u{82}\u{ac} => well 0000000000 0,";
