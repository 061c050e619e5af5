//! Runs of the program in which one allocation fails, whichever it is.

use super::doubles::run;
use super::pages::{is_whole, parts_of};
use std::alloc::Global;

/// Room for a page.
const ROOM: usize = 60_000;

// As plain Rust writes them.
const LINES: &str = "\
start;80000000;claim entry,,900,0;claim entry,0,0;turn to table,0,0,300,0,0;\
claim first,1000;claim entry,,,0;raise to fetch,0,900,0
f;claim exit;claim z6;done;10082000000;
P;;claim z3;busy;;
f;;claim z1;shut closed;;
";

// Worked out by hand: there was no room for the feed belt's call, so it has stopped.
const WITHOUT_ROOM: &str = "\
start;80000000;claim entry,,900,0;claim entry,0,0;turn to table,0,0,300,0,0;\
claim first,1000;claim entry,,,0;raise to fetch,0,900,0
f;claim entry!memory;claim z6;memory;;
P;;claim z3;busy;;
f;;;;;
";

// Whether a text is a whole page with some of these lines, or the help.
fn is_answer(written: &str, is_help: bool) -> bool {
    match parts_of(written) {
        Some((_, found, _)) => {
            !is_help && is_whole(written) && (found == LINES || found == WITHOUT_ROOM)
        }
        None => is_help && written.ends_with("or no memory.\n"),
    }
}

// Whether the whole answer is written with status 0, or with status 1 nothing but that memory ran
// out. With status 255 there was none for the words.
fn is_right(alloc: Global, line: &str, is_help: bool) -> bool {
    let mut input = "start = \"0100000000\"\nschedule = \"fPf\"\n".as_bytes();
    let mut room = [0u8; ROOM];
    let mut writer = &mut room[..];
    let status = run(alloc, line, &mut input, &mut writer);
    let left = writer.len();
    let Ok(written) = str::from_utf8(&room[..ROOM.saturating_sub(left)]) else {
        return false;
    };
    match status {
        0 => is_answer(written, is_help),
        1 => written == "fault memory\n",
        255 => written.is_empty(),
        _ => false,
    }
}

#[test]
fn serves_without_memory(rt: HostRuntime) {
    assert!(rt;
        is_right(rt.alloc(), "./film", false) && is_right(rt.alloc(), "./film --help", true)
    );
}
