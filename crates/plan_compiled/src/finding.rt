//! The row of a call: where its rows begin, and the one that a word matches.
ghost use Rattle.std.specs.Prelude.{◌≡◌, IsTrue, IsNone, IfSome};
ghost use Rattle.plan_compiled.specs.Complete as complete;
ghost use Rattle.plan_compiled.specs.Rows as rows_said;

use crate::covering::Span;
use crate::row::Row;
use plan_types::Call;

/// How many slots a machine has: 16 for each call about a zone, 64 for poses, one for a stop and for a resume, and 16
/// for advances.
const SLOTS: usize = 162;

/// How many slots there are, of thirty machines and the watch.
pub const SLOTS_OF_ALL: usize = SLOTS * 31;

/// The most rows of a call.
const MOST_ROWS: u8 = 16;

/// Where `starts` says where a call's rows begin.
#[inline(always)]
pub fn slot(machine: u8, call: Call) -> usize
    ensures { result ≡ complete.slot machine call }
{
    let own = match call {
        Call::Claim(zone) => usize::from(zone),
        Call::Give(zone) => 16 + usize::from(zone),
        Call::Yield(zone) => 32 + usize::from(zone),
        Call::Take(zone) => 48 + usize::from(zone),
        Call::Release(zone) => 64 + usize::from(zone),
        Call::SetPose(pose) => 80 + usize::from(pose),
        Call::Stop => 144,
        Call::Resume | Call::Inquire(_) => 145,
        Call::Advance(place) => 146 + usize::from(place),
    };
    SLOTS * usize::from(machine) + own
}

/// The index of the row of a call that a word matches: `None` if the call has none.
#[inline(always)]
pub(crate) fn row_for(
    rows: &[Row],
    starts: &[u16],
    word: u64,
    machine: u8,
    call: Call,
) -> Option<usize>
    ensures own { IfSome result (λ i. complete.IsRowOf rows.now machine call i) }
    ensures is_met { IfSome result (λ i.
        IsTrue (rows_said.matches (complete.row_at rows.now i).part word)) }
    ensures none { IsNone result → ¬ complete.HasRow rows.now starts.now word machine call }
{
    let at = slot(machine, call);
    if at >= starts.len() {
        return None;
    }
    let first = usize::from(starts[at]);
    for tried in 0..MOST_ROWS {
        let index = first + usize::from(tried);
        if index >= rows.len() {
            return None;
        }
        if !rows[index].is_for(machine, call) {
            return None;
        }
        if rows[index].part().matches(word) {
            return Some(index);
        }
    }
    None
}

/// The first rows of a call, at most sixteen.
pub(crate) fn own_rows(rows: &[Row], starts: &[u16], machine: u8, call: Call) -> Span
    ensures { complete.AreOwnRows rows.now starts.now machine call result }
{
    let none = Span { first: 0, count: 0 };
    let at = slot(machine, call);
    if at >= starts.len() {
        return none;
    }
    let first = usize::from(starts[at]);
    if first >= rows.len() {
        return none;
    }
    for tried in 0..MOST_ROWS {
        let count = usize::from(tried);
        if first + count >= rows.len() {
            return Span { first, count };
        }
        if !rows[first + count].is_for(machine, call) {
            return Span { first, count };
        }
    }
    Span {
        first,
        count: usize::from(MOST_ROWS),
    }
}
