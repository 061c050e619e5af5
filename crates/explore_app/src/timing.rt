//! How long the program took.

use std::io;
use std::io::Write;
use std::time::{Clock, Instant};
use text_io::{Page, write_text};

/// Writes to `progress` how long it is since work began, in seconds and thousandths, such as `took
/// 0.250 s`. Where the clock can't be read it writes nothing.
pub fn tell_time<C: Clock, P: Write>(clock: &C, begun: io::Result<Instant>, progress: &mut P) {
    let Ok(begun) = begun else {
        return;
    };
    let Ok(taken) = begun.elapsed(clock) else {
        return;
    };
    let seconds = taken.as_secs();
    let thousandths = taken.subsec_millis();
    let mut page = Page::new();
    if writeln!(page, "took {seconds}.{thousandths:03} s").is_ok() {
        let _ = write_text(progress, page.as_bytes());
    }
}
