//! Whether two answers, two entries or two states are the same.
ghost use Rattle.std.specs.Prelude.{◌≡◌, ◌↔◌, IsTrue};

use cell_rules::State;
use cell_types::{Answer, Call, Entry, Refusal};

#[inline(always)]
fn is_same_refusal(a: &Refusal, b: &Refusal) -> bool
    ensures { IsTrue result ↔ (a.now ≡ b.now) }
{
    *a == *b
}

/// Whether two answers are the same.
#[inline(always)]
pub fn is_same_answer(a: &Answer, b: &Answer) -> bool
    ensures { IsTrue result ↔ (a.now ≡ b.now) }
{
    match (a, b) {
        (Answer::Refused(a), Answer::Refused(b)) => is_same_refusal(a, b),
        _ => *a == *b,
    }
}

#[inline(always)]
fn is_same_call(a: &Call, b: &Call) -> bool
    ensures { IsTrue result ↔ (a.now ≡ b.now) }
{
    *a == *b
}

/// Whether two entries are the same.
// Inline, as what it calls: it is asked of each entry.
#[inline(always)]
pub fn is_same_entry(a: &Entry, b: &Entry) -> bool
    ensures { IsTrue result ↔ (a.now ≡ b.now) }
{
    a.stamp == b.stamp && is_same_call(&a.call, &b.call) && is_same_answer(&a.answer, &b.answer)
}

/// Whether two states are the same: their zones, their full places, their stamps, and whether they
/// are stopped.
pub fn is_same_state(a: &State, b: &State) -> bool
    ensures { IsTrue result ↔ (a.now ≡ b.now) }
{
    a == b
}
