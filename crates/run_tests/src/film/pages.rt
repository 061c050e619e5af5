//! Pages, whose lines stand between a head and a tail, and pictures: they are those that plain Rust makes.

use super::doubles::run;
use super::expected::FILMS;
use std::alloc::{AllocError, Global};
use test_doubles::{count_parts, part};

/// Adds the configuration of a row.
fn push_config(text: &mut String, row: &str) -> Result<(), AllocError> {
    let (others, start) = (part(row, " => ", 1), part(row, " => ", 2));
    let repeats = part(row, " => ", 3);
    write!(text, "{others}start = \"{start}\"\nschedule = \"")?;
    for number in 0..count_parts(repeats, ";") {
        push_repeat(text, part(repeats, ";", number))?;
    }
    text.push_str("\"\n")
}

/// Adds letters as often as a part says.
fn push_repeat(text: &mut String, repeat: &str) -> Result<(), AllocError> {
    let letters = part(repeat, " ", 1);
    let count: u32 = part(repeat, " ", 0).parse().unwrap_or(0);
    for _ in 0..count {
        text.push_str(letters)?;
    }
    Ok(())
}

/// Cuts a page into its head, the text of the element of the lines, and its tail.
pub fn parts_of(page: &str) -> Option<(&str, &str, &str)> {
    let (head, rest) = page.split_once("<script id=\"lines\" type=\"text/plain\">\n")?;
    let (lines, tail) = rest.split_once("</script>\n")?;
    Some((head, lines, tail))
}

/// Whether a page begins and ends as a page does.
pub fn is_whole(page: &str) -> bool {
    page.starts_with("<!doctype html>\n") && page.ends_with("</script>\n</html>\n")
}

/// The 64-bit checksum FNV-1a of bytes.
fn checksum_of(bytes: &[u8]) -> u64 {
    let mut sum = 0xcbf2_9ce4_8422_2325u64;
    for byte in bytes {
        sum = (sum ^ u64::from(*byte)).wrapping_mul(0x0100_0000_01b3);
    }
    sum
}

/// Whether a text has figures that begin so.
fn has_figures(alloc: Global, text: &str, wanted: &str) -> bool {
    let sum = checksum_of(text.as_bytes());
    let lines = text.lines().count();
    let last = text.lines().last().unwrap_or("");
    match format!(in alloc; "{} bytes, {sum:x}, {lines} lines, {last}", text.len()) {
        Ok(figures) => figures.as_str().starts_with(wanted),
        Err(_) => false,
    }
}

/// Whether bytes are a whole page with these lines, or a picture; or with figures that begin so.
fn shows(alloc: Global, bytes: &[u8], wanted: &str) -> bool {
    let Ok(text) = str::from_utf8(bytes) else {
        return false;
    };
    match parts_of(text) {
        Some((_, lines, _)) => {
            is_whole(text) && (lines == wanted || has_figures(alloc, lines, wanted))
        }
        None => has_figures(alloc, text, wanted),
    }
}

/// Whether the program films a row so.
fn is_filmed(alloc: Global, row: &str) -> bool {
    let mut config = String::new(alloc);
    let mut written = Vec::new(alloc);
    let is_made = push_config(&mut config, row).is_ok();
    let line = part(row, " => ", 0);
    let status = run(alloc, line, &mut config.as_str().as_bytes(), &mut written);
    is_made && status == 0 && shows(alloc, written.as_slice(), part(row, " => ", 4))
}

// That each page has the same head and tail is the clause of `film_configured`.
#[test]
fn films_the_examples(rt: HostRuntime) {
    for number in 0..count_parts(FILMS, "|") {
        let row = part(FILMS, "|", number);
        assert!(rt; is_filmed(rt.alloc(), row), "{}", part(row, " => ", 5));
    }
}
