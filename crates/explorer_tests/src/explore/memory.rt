//! Runs of the program in which one allocation fails, whichever it is.

use super::doubles::{GivenClock, run_unseen};
use explore_app::serve::serve_all;
use std::alloc::Global;
use std::thread::Threads;
use test_doubles::{count_parts, part};

/// Room for a text.
const ROOM: usize = 2_000;

/// Words, the status where memory lasts, and the last line of what is written then. A bar separates the rows.
const ROWS: &str = "\
./explore => 1 => schedule = \"fffttttttppppppppppppppppppppppppppppppddddftrrpdccc\"\n|\
./explore --help => 0 => With --all it is 0 whatever was found of the starts.\n";

const LINE: &str = "plates 0 starts 1: 1 stand still after 21 to 21 turns\n";

// Whether with the status that is wanted a text with this end is written, or with status 1 nothing but that memory
// ran out. With status 255 there was none for the words.
fn is_right(status: u8, written: &[u8], wanted: u8, end: &str) -> bool {
    (status == wanted && written.ends_with(end.as_bytes()))
        || (status == 1 && written == "fault memory\n".as_bytes())
        || (status == 255 && written.is_empty())
}

fn is_served<T: Threads + Sync>(rt: &T, alloc: Global, row: &str) -> bool {
    let wanted = if part(row, " => ", 1) == "0" { 0 } else { 1 };
    let mut reader = "start = \"0000000000\"\n".as_bytes();
    let mut room = [0u8; ROOM];
    let mut writer = &mut room[..];
    let status = run_unseen(rt, alloc, part(row, " => ", 0), &mut reader, &mut writer);
    let left = writer.len();
    let end = part(row, " => ", 2);
    is_right(status, &room[..ROOM.saturating_sub(left)], wanted, end)
}

#[test]
fn serves_without_memory(rt: HostRuntime) {
    for number in 0..count_parts(ROWS, "|") {
        let row = part(ROWS, "|", number);
        assert!(rt; is_served(&rt, rt.alloc(), row), "{row}");
    }
}

#[test]
fn serves_all_without_memory(rt: HostRuntime) {
    let clock = GivenClock::new(None, None);
    let mut room = [0u8; ROOM];
    let mut writer = &mut room[..];
    let mut progress = &mut [0u8; 100][..];
    let status = serve_all(&rt, &clock, rt.alloc(), 0, &mut writer, &mut progress);
    let left = writer.len();
    assert!(rt; is_right(status, &room[..ROOM.saturating_sub(left)], 0, LINE));
}
