//! The bits that a Done call writes.
ghost use Rattle.std.specs.Prelude.{◌≡◌, ◌≢◌, ◌+◌, ◌<◌, ◌^◌, Some, IsTrue};
ghost use Rattle.cell_types.specs.declared.answer.Answer.TheVariants.{Done};
ghost use Rattle.cell_rules.specs.ModelState.{ModelState};
ghost use Rattle.cell_rules.specs.Sound.{IsSound};
ghost use Rattle.cell_rules.specs.Reply.{reply, next};
ghost use Rattle.cell_rules.specs.FirstVersion.{has_call};
ghost use Rattle.cell_word.specs.Layout.{packed};
ghost use Rattle.cell_word.specs.Patterns.{with_written};
ghost use Rattle.cell_word.specs.Laws.{IsOffStamp};
ghost use Rattle.cell_types.specs.declared.call.Call.TheVariants as calls;
ghost use Rattle.cell_word.specs.Changes as changes;
ghost use Rattle.cell_word.specs.Parties as parties;

use crate::parties::{Party, party_of, row_given, row_received};
use crate::patterns::{Pattern, mark_pattern};
use crate::pose_guards::{hosted_zones, posed_at};
use cell_types::{Call, Machine, Place, Pose, Posture, Transfer, Zone, own_move};

/// What a give writes: the plate is in the zone, and the zone belongs to the other party.
#[inline(always)]
pub(crate) fn give_pattern(zone: Zone, party: Party, row: Transfer) -> Pattern
    ensures { result ≡ changes.give_pattern (parties.machine_of zone party) zone (Some row) }
{
    let other = Pattern::owned_by(zone, party.opposite());
    Pattern::place(row.from, false).and(Pattern::flag(zone, true).and(other))
}

fn give_pattern_for(zone: Zone, party: Party) -> Pattern
    ensures { result ≡ changes.written (parties.machine_of zone party) (calls.Give zone) }
{
    match row_given(zone, party) {
        Some(row) => give_pattern(zone, party, row),
        None => Pattern::ANYTHING,
    }
}

#[inline(always)]
pub(crate) fn take_pattern(zone: Zone, party: Party) -> Pattern
    ensures { result ≡ changes.written (parties.machine_of zone party) (calls.Take zone) }
{
    match row_received(zone, party) {
        Some(row) => Pattern::flag(zone, false).and(Pattern::place(row.to, true)),
        None => Pattern::ANYTHING,
    }
}

#[inline(always)]
pub(crate) fn posture_pattern(posed: Option<(Zone, Posture)>) -> Pattern
    ensures { result ≡ changes.posture_pattern posed }
{
    match posed {
        Some((zone, posture)) => Pattern::posture(zone, posture),
        None => Pattern::ANYTHING,
    }
}

#[inline(always)]
fn move_pattern(way: Option<(Place, Place)>) -> Pattern
    ensures { result ≡ changes.move_pattern way }
{
    match way {
        Some((from, to)) => Pattern::place(from, false).and(Pattern::place(to, true)),
        None => Pattern::ANYTHING,
    }
}

/// The zones of a belt are closed after a plate has come to its end.
#[inline(always)]
fn halt_pattern(machine: Machine) -> Pattern
    ensures { result ≡ changes.halt_pattern machine }
{
    match machine {
        Machine::Feed => Pattern::posture(Zone::Z6, Posture::Closed),
        Machine::Deposit => {
            let z5 = Pattern::posture(Zone::Z5, Posture::Closed);
            Pattern::posture(Zone::Z4, Posture::Closed).and(z5)
        }
        _ => Pattern::ANYTHING,
    }
}

/// What a machine's work writes.
#[inline(always)]
pub(crate) fn advance_pattern(machine: Machine) -> Pattern
    ensures { result ≡ changes.written machine calls.Advance }
{
    move_pattern(own_move(machine)).and(halt_pattern(machine))
}

fn pose_pattern(machine: Machine, pose: Pose) -> Pattern
    ensures { result ≡ changes.written machine (calls.SetPose pose) }
{
    let (one, other) = hosted_zones(machine);
    posture_pattern(posed_at(machine, pose, one)).and(posture_pattern(posed_at(
        machine, pose, other,
    )))
}

/// What the watch writes to stop the cell, or to let it go on; no other machine does.
#[inline(always)]
fn mark_becomes(machine: Machine, stopped: bool) -> Pattern
    ensures { result ≡ changes.mark_becomes machine stopped }
{
    if machine == Machine::Watch {
        mark_pattern(stopped)
    } else {
        Pattern::ANYTHING
    }
}

/// What a call of a machine writes.
fn written_by(machine: Machine, call: Call) -> Pattern
    ensures { result ≡ changes.written machine call }
{
    match call {
        Call::Claim(zone) => match party_of(machine, zone) {
            Some(party) => Pattern::owned_by(zone, party),
            None => Pattern::ANYTHING,
        },
        Call::Give(zone) => match party_of(machine, zone) {
            Some(party) => give_pattern_for(zone, party),
            None => Pattern::ANYTHING,
        },
        Call::Yield(zone) => match party_of(machine, zone) {
            Some(party) => Pattern::owned_by(zone, party.opposite()),
            None => Pattern::ANYTHING,
        },
        Call::Take(zone) => match party_of(machine, zone) {
            Some(party) => take_pattern(zone, party),
            None => Pattern::ANYTHING,
        },
        Call::Release(zone) => match party_of(machine, zone) {
            Some(_) => Pattern::owner(zone, None),
            None => Pattern::ANYTHING,
        },
        Call::SetPose(pose) => pose_pattern(machine, pose),
        Call::Advance => advance_pattern(machine),
        Call::Inquire(_) => Pattern::ANYTHING,
        Call::Stop => mark_becomes(machine, true),
        Call::Resume => mark_becomes(machine, false),
    }
}

/// The bits of a word that a machine's Done call clears, and those that it sets; besides, the call
/// adds one to the stamp. Both are zero for a call that is never Done, such as an inquiry.
pub fn masks(machine: Machine, call: Call) -> (u64, u64)
    ensures change { (state : ModelState) → IsSound state → reply state machine call ≡ Done
        → packed (next state machine call)
        ≡ with_written (packed state) result.0 result.1 + 2 ^ 40 }
    ensures off_stamp { IsOffStamp result.0 × IsOffStamp result.1 }
    ensures below_stamp { IsTrue (has_call call) → (result.0 < 2 ^ 40) × (result.1 < 2 ^ 40) }
    ensures never { ((state : ModelState) → IsSound state → reply state machine call ≢ Done)
        → result ≡ (0, 0) }
{
    let written = written_by(machine, call);
    (written.mask, written.wanted)
}
