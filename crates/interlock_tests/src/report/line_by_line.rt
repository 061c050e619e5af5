//! Scripts that are answered while they are read.

use crate::report::doubles::{FlushedLines, PartReader};
use cell_replay::replay;
use std::alloc::Global;
use std::cell::Cell;

/// A script, with a bar between the parts in which it is read, and how many lines are flushed
/// before each part and before the end.
type Row = (&'static str, &'static [usize]);

const ROWS: &[Row] = &[
    // A record at a time. The line of a record is written before the record after the next is read.
    (
        "start,0000000000\n|press,claim,z3\n|robot,claim,z3\n|press,release,z3\n",
        &[0, 0, 1, 2, 3],
    ),
    // Two records at a time.
    (
        "start,0000000000\npress,claim,z3\n|robot,claim,z3\npress,release,z3\n|watch,inquire,z3\nwatch,inquire,z3\n",
        &[0, 1, 3, 5],
    ),
    // A part that ends within a record.
    (
        "start,0000000000\nwatch,inquire,z1\nwatch,inquire,z1\nwat|ch,inquire,z1\n",
        &[0, 2, 3],
    ),
    // Blank lines, and other line ends.
    (
        "start,0000000000\nwatch,inquire,z1\nwatch,inquire,z1\n\n\n|\n|watch,inquire,z1\n",
        &[0, 2, 2, 3],
    ),
    (
        "start,0000000000\r\nwatch,inquire,z1\r\n|\r\n|watch,inquire,z1\rwatch,inquire,z1\r",
        &[0, 1, 1, 3],
    ),
    // A byte order mark.
    (
        "\u{feff}start,0000000000\nwatch,inquire,z1\n|watch,inquire,z1\n",
        &[0, 1, 2],
    ),
    // Quotes: a record may have several lines.
    (
        "start,0000000000\nwatch,inquire,z1\n\"wa|tch\",inquire,z1\n",
        &[0, 1, 2],
    ),
    (
        "start,0000000000\nwatch,inquire,z1\nwatch,inquire,z1\n\"a\nb\n|\",c\n",
        &[0, 2, 3],
    ),
    // A refused record ends the script; the record after it was read already.
    (
        "start,0000000000\n|press\n|watch,inquire,z1\n|watch,inquire,z1\n",
        &[0, 0, 1],
    ),
    // No record.
    ("\n", &[0, 0]),
];

/// Whether these numbers of lines are flushed before the parts of a script.
fn is_answered_meanwhile(alloc: Global, script: &str, flushed: &[usize]) -> bool {
    let lines = Cell::new(0usize);
    let mut reader = PartReader::new(alloc, script, &lines);
    let mut writer = FlushedLines::new(&lines);
    let got = replay(alloc, &mut reader, &mut writer);
    got.is_ok() && reader.noted.as_slice() == flushed
}

#[test]
fn answers_line_by_line(rt: HostRuntime) {
    for (script, flushed) in ROWS {
        assert!(rt;
            is_answered_meanwhile(rt.alloc(), script, flushed),
            "{script}"
        );
    }
}
