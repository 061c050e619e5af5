//! Which frames of a run a picture shows.

ghost use Rattle.std.specs.Prelude.{◌≡◌, ◌<◌, length, IfSome};
ghost use Rattle.std.specs.Option.{option_copied};
ghost use Rattle.cell_notes.specs.Asks.{is_done_reply};
ghost use Rattle.cell_picture.specs.Columns as columns;
ghost use Rattle.cell_picture.specs.Parts as parts;

use cell_notes::{Turn, TurnCall};
use cell_plant::Frame;
use cell_rules::Answered;
use cell_types::{Answer, Call, Machine, Reply, Zone};

/// The number of values in a column, less one.
const INTERVALS: usize = 100;

/// From one plate that the feed belt takes to the next, the last such two of the run. With fewer
/// than two such plates it is the whole run.
#[tactic(auto, unfolding(crate::specs::Parts::shown_part))]
pub(crate) fn shown_part(frames: &[Frame]) -> &[Frame]
    ensures { result.now ≡ parts.shown_part frames.now }
{
    let Some(next) = last_take(frames) else {
        return frames;
    };
    let earlier = &frames[..next];
    let Some(first) = last_take(earlier) else {
        return frames;
    };
    &earlier[first..]
}

/// The place of the last frame in which the feed belt has just taken a plate, if there is one.
#[tactic(auto, using(crate::proofs::Takes::no_take, crate::proofs::Takes::one_frame_more))]
fn last_take(frames: &[Frame]) -> Option<usize>
    ensures value { result ≡ parts.last_take frames.now }
    ensures within { IfSome result (λ place. place < length frames.now) }
{
    let mut latest = None;
    for (at, frame) in frames.iter().enumerate() {
        if takes_plate(frame) {
            latest = Some(at);
        }
    }
    latest
}

/// The frame of the value with this number: 100 equal ways lead from the first frame to the last.
/// `None` if there is no frame.
#[tactic(auto, unfolding(crate::specs::Columns::frame_at))]
pub(crate) fn frame_at(part: &[Frame], number: usize) -> Option<&Frame>
    ensures { option_copied result ≡ columns.frame_at part.now number }
{
    let length = part.len().saturating_sub(1);
    part.get(length.saturating_mul(number) / INTERVALS)
}

/// Whether the feed belt has just taken a plate from the crane.
#[tactic(auto, unfolding(crate::specs::Parts::takes_plate))]
fn takes_plate(frame: &Frame) -> bool
    ensures { result ≡ parts.takes_plate frame.now }
{
    is_feed(frame.turn) && took_plate(frame.asked)
}

/// Whether a turn is the feed belt's.
fn is_feed(turn: Option<Turn>) -> bool
    ensures { result ≡ parts.is_feed turn }
{
    match turn {
        Some(turn) => turn.machine == Machine::Feed,
        None => false,
    }
}

/// Whether a plate was taken out of the sixth zone.
fn took_plate(asked: TurnCall) -> bool
    ensures { result ≡ parts.took_plate asked }
{
    match asked {
        Some((call, answered)) => is_take(call) && is_done(answered),
        None => false,
    }
}

/// Whether a call takes a plate out of the sixth zone.
fn is_take(call: Call) -> bool
    ensures { result ≡ parts.is_take call }
{
    matches!(call, Call::Take(Zone::Z6))
}

/// Whether a call was done.
fn is_done(answered: Answered) -> bool
    ensures { result ≡ is_done_reply answered }
{
    matches!(answered, Ok(Reply::Settled(Answer::Done, _)))
}
