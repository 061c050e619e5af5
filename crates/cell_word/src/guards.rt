//! The guards of the calls about a zone, in the order of the refusals, and what the calls write.
ghost use Rattle.std.specs.Prelude.{◌≡◌, ℕ, ◌∷◌, [], Some, IfOk};
ghost use Rattle.cell_types.specs.declared.call.Call.TheVariants as calls;
ghost use Rattle.cell_types.specs.declared.machine.Machine.TheVariants as machines;
ghost use Rattle.cell_word.specs.Guards as guards;
ghost use Rattle.cell_word.specs.Changes as changes;
ghost use Rattle.cell_word.specs.Parties as parties;

use crate::changes::{give_pattern, take_pattern};
use crate::codes::STAMP_BIT;
use crate::parties::{Party, ZoneBits, party_of, row_given};
use crate::patterns::{Guard, Pattern, mark_pattern};
use crate::pose_guards::{advance, set_pose};
use cell_rules::LAST_STAMP;
use cell_types::{Call, Machine, Place, Posture, Refusal, Transfer, Zone};

#[inline(always)]
fn worn_guard() -> Guard
    ensures { result ≡ guards.worn }
{
    Pattern::stamp(LAST_STAMP).refuses(Refusal::Worn)
}

#[inline(always)]
pub(crate) fn no_room_guard(place: Place) -> Guard
    ensures { result ≡ guards.no_room_at place }
{
    Pattern::place(place, true).refuses(Refusal::PlaceFull)
}

/// The cell must not be stopped.
#[inline(always)]
fn require_running(word: u64) -> Result<(), Refusal>
    ensures { result ≡ guards.checked word (guards.stopped ∷ []) }
{
    mark_pattern(true).refuses(Refusal::Stopped).check(word)
}

/// A stamp has to be left. One comparison finds that out where the cell isn't stopped.
#[inline(always)]
pub(crate) fn require_stamp(word: u64) -> Result<(), Refusal>
    ensures { result ≡ guards.checked word (guards.worn ∷ []) }
{
    if word >> STAMP_BIT < u64::from(LAST_STAMP) {
        return Ok(());
    }
    worn_guard().check(word)
}

/// The caller has to be a party of the zone. Returns which one it is.
#[inline(always)]
fn require_party(machine: Machine, zone: Zone) -> Result<Party, Refusal>
    ensures stranger { (word : ℕ)
        → guards.checked word (guards.stranger machine zone ∷ []) ≡ guards.went_on result }
    ensures party { IfOk result (λ party. machine ≡ parties.machine_of zone party) }
{
    party_of(machine, zone).ok_or(Refusal::NotParty)
}

/// The caller has to hold the zone.
#[inline(always)]
pub(crate) fn require_held(at: ZoneBits, party: Party) -> Result<(), Refusal>
    ensures { result ≡ guards.checked at.word (guards.held_guards at.zone party) }
{
    if at.is_owned_by(party) {
        return Ok(());
    }
    let other = party.opposite();
    if at.is_free() {
        return Err(Refusal::NotOwner(None));
    }
    if at.is_owned_by(other) {
        return Err(Refusal::NotOwner(Some(other.machine(at.zone))));
    }
    Ok(())
}

/// No plate may be in the zone.
#[inline(always)]
pub(crate) fn require_clear(at: ZoneBits) -> Result<(), Refusal>
    ensures { result ≡ guards.checked at.word (guards.plate_in at.zone ∷ []) }
{
    if at.has_plate() {
        return Err(Refusal::PlateInZone(at.zone));
    }
    Ok(())
}

/// The caller has to hold the zone, and no plate may be in it.
#[inline(always)]
fn require_held_and_clear(at: ZoneBits, party: Party) -> Result<(), Refusal>
    ensures { result ≡ guards.checked at.word (guards.held_and_clear_guards at.zone party) }
{
    require_held(at, party)?;
    require_clear(at)
}

/// The zone must not have this posture.
#[inline(always)]
fn require_not_in(at: ZoneBits, posture: Posture) -> Result<(), Refusal>
    ensures { result ≡ guards.checked at.word (guards.shut at.zone posture ∷ []) }
{
    if at.is(posture) {
        return Err(Refusal::Shut(posture));
    }
    Ok(())
}

/// Feed may not leave z1 while it runs with a plate at its end.
#[inline(always)]
fn require_not_in_use(at: ZoneBits, machine: Machine) -> Result<(), Refusal>
    ensures { result ≡ guards.checked at.word (guards.in_use machine at.zone ∷ []) }
{
    if machine == Machine::Feed && at.zone == Zone::Z1 {
        return Pattern::posture(Zone::Z6, Posture::Moving)
            .and(Pattern::place(Place::FeedEnd, true))
            .refuses(Refusal::InUse)
            .check(at.word);
    }
    Ok(())
}

/// A zone may be left if it doesn't move, isn't in use, and a stamp is left.
#[inline(always)]
fn require_leavable(at: ZoneBits, machine: Machine) -> Result<(), Refusal>
    ensures { result ≡ guards.checked at.word (guards.leaving_guards machine at.zone) }
{
    require_not_in(at, Posture::Moving)?;
    require_not_in_use(at, machine)?;
    require_stamp(at.word)
}

/// A plate may be moved if its place is full, its new place empty, and a stamp is left.
#[inline(always)]
pub(crate) fn require_movable(word: u64, from: Place, to: Place) -> Result<(), Refusal>
    ensures { result ≡ guards.checked word (guards.way_guards from to) }
{
    Pattern::place(from, false)
        .refuses(Refusal::NoPlate)
        .check(word)?;
    no_room_guard(to).check(word)?;
    require_stamp(word)
}

/// The zone has to be free.
#[inline(always)]
fn require_free(at: ZoneBits, party: Party) -> Result<(), Refusal>
    ensures { result ≡ guards.checked at.word (guards.free_guards at.zone party) }
{
    let other = party.opposite();
    if at.is_owned_by(party) {
        return Err(Refusal::AlreadyMine);
    }
    if at.is_owned_by(other) {
        return Err(Refusal::Held(other.machine(at.zone)));
    }
    Ok(())
}

/// The zone has to be free, and open to a guest.
#[inline(always)]
fn require_enterable(at: ZoneBits, party: Party) -> Result<(), Refusal>
    ensures { result ≡ guards.checked at.word (guards.entering_guards at.zone party) }
{
    match party {
        Party::Host => require_free(at, Party::Host),
        Party::Guest => {
            require_free(at, Party::Guest)?;
            require_not_in(at, Posture::Closed)?;
            require_not_in(at, Posture::Moving)
        }
    }
}

#[inline(always)]
pub(crate) fn claim(word: u64, machine: Machine, zone: Zone) -> Result<Pattern, Refusal>
    ensures { result ≡ guards.unless (guards.first_refusal word (guards.claim_guards machine zone))
        (changes.written machine (calls.Claim zone)) }
{
    let party = require_party(machine, zone)?;
    require_running(word)?;
    let at = ZoneBits { word, zone };
    require_enterable(at, party)?;
    require_stamp(word)?;
    Ok(Pattern::owned_by(zone, party))
}

/// The zone has to be in the posture in which this party gives. Returns the row of transfers.
#[inline(always)]
fn require_giving(at: ZoneBits, party: Party) -> Result<Transfer, Refusal>
    ensures way { guards.checked at.word (guards.giving_guards at.zone party)
        ≡ guards.went_on result }
    ensures row { IfOk result (λ row.
        guards.row_given (parties.machine_of at.zone party) at.zone ≡ Some row) }
{
    match row_given(at.zone, party) {
        Some(row) => {
            if at.is(party.giving_posture()) {
                Ok(row)
            } else {
                Err(Refusal::WrongWay)
            }
        }
        None => Err(Refusal::WrongWay),
    }
}

#[inline(always)]
pub(crate) fn give(word: u64, machine: Machine, zone: Zone) -> Result<Pattern, Refusal>
    ensures { result ≡ guards.unless (guards.first_refusal word (guards.give_guards machine zone))
        (changes.written machine (calls.Give zone)) }
{
    let party = require_party(machine, zone)?;
    require_running(word)?;
    let at = ZoneBits { word, zone };
    require_held_and_clear(at, party)?;
    let row = require_giving(at, party)?;
    require_movable(word, row.from, row.to)?;
    Ok(give_pattern(zone, party, row))
}

#[inline(always)]
pub(crate) fn hand_over(word: u64, machine: Machine, zone: Zone) -> Result<Pattern, Refusal>
    ensures { result ≡ guards.unless (guards.first_refusal word (guards.yield_guards machine zone))
        (changes.written machine (calls.Yield zone)) }
{
    let party = require_party(machine, zone)?;
    let at = ZoneBits { word, zone };
    require_held_and_clear(at, party)?;
    require_not_in(at, Posture::Closed)?;
    require_leavable(at, machine)?;
    Ok(Pattern::owned_by(zone, party.opposite()))
}

#[inline(always)]
pub(crate) fn take(word: u64, machine: Machine, zone: Zone) -> Result<Pattern, Refusal>
    ensures { result ≡ guards.unless (guards.first_refusal word (guards.take_guards machine zone))
        (changes.written machine (calls.Take zone)) }
{
    let party = require_party(machine, zone)?;
    require_held(ZoneBits { word, zone }, party)?;
    Pattern::flag(zone, false)
        .refuses(Refusal::NoPlate)
        .check(word)?;
    require_stamp(word)?;
    Ok(take_pattern(zone, party))
}

#[inline(always)]
pub(crate) fn release(word: u64, machine: Machine, zone: Zone) -> Result<Pattern, Refusal>
    ensures { result ≡ guards.unless
        (guards.first_refusal word (guards.release_guards machine zone))
        (changes.written machine (calls.Release zone)) }
{
    let party = require_party(machine, zone)?;
    let at = ZoneBits { word, zone };
    require_held_and_clear(at, party)?;
    require_leavable(at, machine)?;
    Ok(Pattern::owner(zone, None))
}

/// The caller has to be the watch.
#[inline(always)]
fn require_watch(machine: Machine) -> Result<(), Refusal>
    ensures stranger { (word : ℕ)
        → result ≡ guards.checked word (guards.not_watch machine ∷ []) }
    ensures watch { IfOk result (λ _. machine ≡ machines.Watch) }
{
    if machine == Machine::Watch {
        Ok(())
    } else {
        Err(Refusal::NotParty)
    }
}

/// The cell has to be stopped.
#[inline(always)]
fn require_stopped(word: u64) -> Result<(), Refusal>
    ensures { result ≡ guards.checked word (guards.not_stopped ∷ []) }
{
    mark_pattern(false).refuses(Refusal::NotStopped).check(word)
}

#[inline(always)]
pub(crate) fn stop(word: u64, machine: Machine) -> Result<Pattern, Refusal>
    ensures { result ≡ guards.unless (guards.first_refusal word (guards.stop_guards machine))
        (changes.written machine calls.Stop) }
{
    require_watch(machine)?;
    require_running(word)?;
    require_stamp(word)?;
    Ok(mark_pattern(true))
}

#[inline(always)]
pub(crate) fn resume(word: u64, machine: Machine) -> Result<Pattern, Refusal>
    ensures { result ≡ guards.unless (guards.first_refusal word (guards.resume_guards machine))
        (changes.written machine calls.Resume) }
{
    require_watch(machine)?;
    require_stopped(word)?;
    require_stamp(word)?;
    Ok(mark_pattern(false))
}

/// What a call writes into a word, or the refusal of the first of its guards that refuses the word.
#[inline(always)]
pub(crate) fn check(word: u64, machine: Machine, call: Call) -> Result<Pattern, Refusal>
    ensures { result ≡ guards.unless (guards.first_refusal word (guards.guards_of machine call))
        (changes.written machine call) }
{
    match call {
        Call::Claim(zone) => claim(word, machine, zone),
        Call::Give(zone) => give(word, machine, zone),
        Call::Yield(zone) => hand_over(word, machine, zone),
        Call::Take(zone) => take(word, machine, zone),
        Call::Release(zone) => release(word, machine, zone),
        Call::SetPose(pose) => set_pose(word, machine, pose),
        Call::Advance => advance(word, machine),
        Call::Inquire(_) => Ok(Pattern::ANYTHING),
        Call::Stop => stop(word, machine),
        Call::Resume => resume(word, machine),
    }
}
