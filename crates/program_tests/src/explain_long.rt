//! Inputs that are too long, by their bytes and by what they say.

use super::explain_served::is_told;
use std::alloc::Global;
use test_doubles::part;

/// Inputs that are one byte, or one record or letter, too long. Each has words, a text, a part that follows it again
/// and again, its end, and its explanation, with arrows between them: two scripts, and two configurations.
const ROWS: &str = "\
    explain => start,0000000000\n => \n =>  => the script is too long: it has more than 4194304 bytes; split it\n|\
    explain => start,0000000000\n => press,advance\n =>  \
        => the script is too long: it has more than 65536 records after record 0; split it\n|\
    explain sim => start = \"0100000000\"\n => \n =>  => config long: it has more than 2097152 bytes\n|\
    explain sim => start = \"0100000000\"\nschedule = ' => t => '\n \
        => config range: line 2: schedule is too long: it takes at most 1000000 letters\n";

/// How often each part follows.
const COUNTS: [usize; 4] = [4_194_288, 65_537, 2_097_132, 1_000_001];

/// Whether the input of a row, whose part follows this number of times, gets its explanation.
fn is_row(alloc: Global, row: &str, count: usize) -> bool {
    match part(row, " => ", 2).repeat(alloc, count) {
        Ok(text) => {
            let input = (
                part(row, " => ", 1),
                text.as_str().as_bytes(),
                part(row, " => ", 3),
            );
            is_told(
                alloc,
                part(row, " => ", 0),
                input,
                "1",
                part(row, " => ", 4),
            )
        }
        Err(_) => false,
    }
}

#[test]
fn explains_long_inputs(rt: HostRuntime) {
    for number in 0..4usize {
        let row = part(ROWS, "|", number);
        assert!(rt; is_row(rt.alloc(), row, COUNTS[number]), "{row}");
    }
}
