//! The guards of poses, and of work, and what these calls write.
ghost use Rattle.std.specs.Prelude.{◌≡◌, ℕ, ◌∷◌, ◌++◌, []};
ghost use Rattle.cell_types.specs.declared.call.Call.TheVariants as calls;
ghost use Rattle.cell_types.specs.declared.machine.Machine.TheVariants as machines;
ghost use Rattle.cell_types.specs.declared.posture.Posture.TheVariants.{OpenIn};
ghost use Rattle.cell_rules.specs.ModelState.{ModelState};
ghost use Rattle.cell_rules.specs.Refusals as refusals;
ghost use Rattle.cell_rules.specs.Reply.{next};
ghost use Rattle.cell_rules.specs.Sound.{IsSound};
ghost use Rattle.cell_word.specs.Changes as changes;
ghost use Rattle.cell_word.specs.Guards as guards;
ghost use Rattle.cell_word.specs.Layout.{packed};

use crate::changes::{advance_pattern, posture_pattern};
use crate::guards::{no_room_guard, require_clear, require_held, require_movable, require_stamp};
use crate::parties::{Party, ZoneBits};
use crate::patterns::{Pattern, mark_pattern, word_after_check};
use cell_types::{Machine, Place, Pose, Posture, Refusal, Zone, host, posture_in, transfer};

/// The zones that a machine hosts.
#[inline(always)]
pub(crate) fn hosted_zones(machine: Machine) -> (Option<Zone>, Option<Zone>)
    ensures { result ≡ guards.hosted_zones machine }
{
    match machine {
        Machine::Table => (Some(Zone::Z1), Some(Zone::Z2)),
        Machine::Press => (Some(Zone::Z3), None),
        Machine::Deposit => (Some(Zone::Z4), Some(Zone::Z5)),
        Machine::Feed => (Some(Zone::Z6), None),
        _ => (None, None),
    }
}

/// A zone and the posture that a pose gives it.
#[inline(always)]
pub(crate) fn posed_at(machine: Machine, pose: Pose, zone: Option<Zone>) -> Option<(Zone, Posture)>
    ensures { result ≡ guards.posed_at machine pose zone }
{
    let zone = zone?;
    Some((zone, posture_in(machine, pose, zone)?))
}

/// A zone that gets another posture has to be its host's.
#[inline(always)]
fn require_held_unless_in(at: ZoneBits, posture: Posture) -> Result<(), Refusal>
    ensures { result ≡ guards.checked at.word (guards.owner_guards at.zone posture) }
{
    if at.is(posture) {
        return Ok(());
    }
    require_held(at, Party::Host)
}

#[inline(always)]
fn require_owned_zone(word: u64, posed: Option<(Zone, Posture)>) -> Result<(), Refusal>
    ensures { result ≡ guards.checked word (guards.on_posed guards.owner_guards posed) }
{
    match posed {
        Some((zone, posture)) => require_held_unless_in(ZoneBits { word, zone }, posture),
        None => Ok(()),
    }
}

/// A zone that gets another posture has to be free of plates.
#[inline(always)]
fn require_clear_unless_in(at: ZoneBits, posture: Posture) -> Result<(), Refusal>
    ensures { result ≡ guards.checked at.word (guards.plate_guards at.zone posture) }
{
    if at.is(posture) {
        return Ok(());
    }
    require_clear(at)
}

#[inline(always)]
fn require_clear_zone(word: u64, posed: Option<(Zone, Posture)>) -> Result<(), Refusal>
    ensures { result ≡ guards.checked word (guards.on_posed guards.plate_guards posed) }
{
    match posed {
        Some((zone, posture)) => require_clear_unless_in(ZoneBits { word, zone }, posture),
        None => Ok(()),
    }
}

/// The zone has to have this posture.
#[inline(always)]
#[tactic(auto, using(crate::proofs::Turning::require_in))]
pub(crate) fn require_in(at: ZoneBits, posture: Posture, refusal: Refusal) -> Result<(), Refusal>
    ensures { result ≡ guards.checked at.word (guards.posture_guards at.zone posture refusal) }
{
    if at.is(posture) { Ok(()) } else { Err(refusal) }
}

fn is_moving_pose(pose: Pose) -> bool
    ensures { result ≡ refusals.is_moving_pose pose }
{
    pose == Pose::Turning || pose == Pose::Travelling || pose == Pose::Running
}

/// Table and press take a pose only from one that moves, unless the new pose moves too.
#[inline(always)]
fn require_no_jump(
    word: u64,
    machine: Machine,
    pose: Pose,
    posed: Option<(Zone, Posture)>,
) -> Result<(), Refusal>
    ensures { result
        ≡ guards.checked word (guards.on_posed (guards.jump_guards machine pose) posed) }
{
    let passes_through_moving = machine == Machine::Table || machine == Machine::Press;
    if !passes_through_moving || is_moving_pose(pose) {
        return Ok(());
    }
    match posed {
        Some((zone, _)) => require_in(ZoneBits { word, zone }, Posture::Moving, Refusal::Jump),
        None => Ok(()),
    }
}

/// The place has to be empty if its zone becomes open inward.
#[inline(always)]
#[tactic(auto, using(crate::proofs::Turning::require_room))]
fn require_room(at: ZoneBits, place: Place) -> Result<(), Refusal>
    ensures { result ≡ guards.checked at.word (guards.room_guards at.zone place) }
{
    if at.is(Posture::OpenIn) {
        return Ok(());
    }
    no_room_guard(place).check(at.word)
}

/// All places inside the zone have to be empty if it becomes open inward.
#[inline(always)]
fn require_room_inside(at: ZoneBits) -> Result<(), Refusal>
    ensures { result ≡ guards.checked at.word (guards.opening_guards at.zone OpenIn) }
{
    if at.zone == Zone::Z3 {
        require_room(at, Place::PressIn)?;
        return require_room(at, Place::PressOut);
    }
    match transfer(at.zone, Posture::OpenIn) {
        Some(row) => require_room(at, row.to),
        None => Ok(()),
    }
}

#[inline(always)]
fn require_room_to_open(word: u64, posed: Option<(Zone, Posture)>) -> Result<(), Refusal>
    ensures { result ≡ guards.checked word (guards.on_posed guards.opening_guards posed) }
{
    match posed {
        Some((zone, Posture::OpenIn)) => require_room_inside(ZoneBits { word, zone }),
        _ => Ok(()),
    }
}

/// A belt doesn't run with a plate at its end; feed may if it owns z1.
#[inline(always)]
fn require_end_clear_to_run(word: u64, machine: Machine, pose: Pose) -> Result<(), Refusal>
    ensures { result ≡ guards.checked word (guards.run_guards machine pose) }
{
    if pose != Pose::Running {
        return Ok(());
    }
    match machine {
        Machine::Deposit => no_room_guard(Place::DepEnd).check(word),
        Machine::Feed => {
            let at_end = Pattern::place(Place::FeedEnd, true);
            at_end
                .and(Pattern::owner(Zone::Z1, None))
                .refuses(Refusal::PlaceFull)
                .check(word)?;
            at_end
                .and(Pattern::owner(Zone::Z1, Some(host(Zone::Z1))))
                .refuses(Refusal::PlaceFull)
                .check(word)
        }
        _ => Ok(()),
    }
}

/// The machine has the pose: it gives a posture to the first zone that the machine hosts.
#[inline(always)]
fn require_pose(posed: Option<(Zone, Posture)>) -> Result<(), Refusal>
    ensures { (word : ℕ) → result ≡ guards.checked word (guards.no_pose posed ∷ []) }
{
    match posed {
        Some(_) => Ok(()),
        None => Err(Refusal::NoPose),
    }
}

/// While the cell is stopped no pose may move.
fn require_running_to_move(word: u64, pose: Pose) -> Result<(), Refusal>
    ensures { result ≡ guards.checked word (guards.moves_while_stopped pose ∷ []) }
{
    if mark_pattern(true).stands_in(word) && is_moving_pose(pose) {
        return Err(Refusal::Stopped);
    }
    Ok(())
}

/// The zones that get another posture have to be their host's, and free of plates.
#[inline(always)]
fn require_owned_clear_zones(
    word: u64,
    one: Option<(Zone, Posture)>,
    other: Option<(Zone, Posture)>,
) -> Result<(), Refusal>
    ensures { result ≡ guards.checked word (guards.on_posed guards.owner_guards one
        ++ (guards.on_posed guards.owner_guards other
        ++ (guards.on_posed guards.plate_guards one
        ++ guards.on_posed guards.plate_guards other))) }
{
    require_owned_zone(word, one)?;
    require_owned_zone(word, other)?;
    require_clear_zone(word, one)?;
    require_clear_zone(word, other)
}

/// Table and press may not jump from pose to pose, each zone that becomes open inward needs room,
/// and no belt may run with a plate at its end.
#[inline(always)]
fn require_allowed_pose(
    word: u64,
    machine: Machine,
    pose: Pose,
    one: Option<(Zone, Posture)>,
    other: Option<(Zone, Posture)>,
) -> Result<(), Refusal>
    ensures { result ≡ guards.checked word (guards.on_posed (guards.jump_guards machine pose) one
        ++ (guards.on_posed (guards.jump_guards machine pose) other
        ++ (guards.on_posed guards.opening_guards one
        ++ (guards.on_posed guards.opening_guards other
        ++ guards.run_guards machine pose)))) }
{
    require_no_jump(word, machine, pose, one)?;
    require_no_jump(word, machine, pose, other)?;
    require_room_to_open(word, one)?;
    require_room_to_open(word, other)?;
    require_end_clear_to_run(word, machine, pose)
}

/// A machine that hosts zones, as a type. So each has its own copy of the code for poses, in which the
/// compiler knows its zones.
trait Host {
    ghost use Rattle.cell_types.specs.declared.machine.Machine.{Machine};

    ghost MACHINE: { Machine };

    const MACHINE: Machine;
}

struct Feed;

impl Host for Feed {
    ghost use Rattle.cell_types.specs.declared.machine.Machine.TheVariants as machines;

    ghost MACHINE = { machines.Feed };

    const MACHINE: Machine = Machine::Feed;
}

struct Table;

impl Host for Table {
    ghost use Rattle.cell_types.specs.declared.machine.Machine.TheVariants as machines;

    ghost MACHINE = { machines.Table };

    const MACHINE: Machine = Machine::Table;
}

struct Press;

impl Host for Press {
    ghost use Rattle.cell_types.specs.declared.machine.Machine.TheVariants as machines;

    ghost MACHINE = { machines.Press };

    const MACHINE: Machine = Machine::Press;
}

struct Deposit;

impl Host for Deposit {
    ghost use Rattle.cell_types.specs.declared.machine.Machine.TheVariants as machines;

    ghost MACHINE = { machines.Deposit };

    const MACHINE: Machine = Machine::Deposit;
}

/// Why a pose of this machine is refused at a word, or what it writes.
#[inline(always)]
fn set_pose_of<H: Host>(word: u64, pose: Pose) -> Result<Pattern, Refusal>
    ensures { result ≡ guards.unless (guards.first_refusal word (guards.pose_guards H.MACHINE pose))
        (changes.written H.MACHINE (calls.SetPose pose)) }
{
    let machine = H::MACHINE;
    let (one, other) = hosted_zones(machine);
    let one = posed_at(machine, pose, one);
    let other = posed_at(machine, pose, other);
    require_pose(one)?;
    require_running_to_move(word, pose)?;
    require_owned_clear_zones(word, one, other)?;
    require_allowed_pose(word, machine, pose, one, other)?;
    require_stamp(word)?;
    Ok(posture_pattern(one).and(posture_pattern(other)))
}

/// Why a pose is refused at a word, or what it writes.
#[inline(always)]
pub(crate) fn set_pose(word: u64, machine: Machine, pose: Pose) -> Result<Pattern, Refusal>
    ensures { result ≡ guards.unless (guards.first_refusal word (guards.pose_guards machine pose))
        (changes.written machine (calls.SetPose pose)) }
{
    match machine {
        Machine::Feed => set_pose_of::<Feed>(word, pose),
        Machine::Table => set_pose_of::<Table>(word, pose),
        Machine::Press => set_pose_of::<Press>(word, pose),
        Machine::Deposit => set_pose_of::<Deposit>(word, pose),
        Machine::Robot | Machine::Crane | Machine::Watch => Err(Refusal::NoPose),
    }
}

/// The word of a sound state after a pose of this machine.
fn word_after_pose_of<H: Host>(word: u64, pose: Pose) -> u64
    requires { (state : ModelState) × IsSound state × (packed state ≡ word) }
    ensures { (state : ModelState) → IsSound state → packed state ≡ word
        → result ≡ packed (next state H.MACHINE (calls.SetPose pose)) }
{
    word_after_check(word, set_pose_of::<H>(word, pose))
}

/// The word of a sound state after a pose.
#[inline(always)]
pub(crate) fn word_after_pose(word: u64, machine: Machine, pose: Pose) -> u64
    requires { (state : ModelState) × IsSound state × (packed state ≡ word) }
    ensures { (state : ModelState) → IsSound state → packed state ≡ word
        → result ≡ packed (next state machine (calls.SetPose pose)) }
{
    match machine {
        Machine::Feed => word_after_pose_of::<Feed>(word, pose),
        Machine::Table => word_after_pose_of::<Table>(word, pose),
        Machine::Press => word_after_pose_of::<Press>(word, pose),
        Machine::Deposit => word_after_pose_of::<Deposit>(word, pose),
        Machine::Robot | Machine::Crane | Machine::Watch => word,
    }
}

/// Why the work of the feed belt is refused at a word, or what it writes.
#[inline(always)]
fn advance_feed(word: u64) -> Result<Pattern, Refusal>
    ensures { result ≡ guards.unless
        (guards.first_refusal word (guards.advance_guards machines.Feed))
        (changes.written machines.Feed calls.Advance) }
{
    let z6 = ZoneBits {
        word,
        zone: Zone::Z6,
    };
    require_in(z6, Posture::Moving, Refusal::NotAtWork)?;
    require_movable(word, Place::FeedEntry, Place::FeedEnd)?;
    Ok(advance_pattern(Machine::Feed))
}

/// Why the work of the deposit belt is refused at a word, or what it writes.
#[inline(always)]
fn advance_deposit(word: u64) -> Result<Pattern, Refusal>
    ensures { result ≡ guards.unless
        (guards.first_refusal word (guards.advance_guards machines.Deposit))
        (changes.written machines.Deposit calls.Advance) }
{
    let z4 = ZoneBits {
        word,
        zone: Zone::Z4,
    };
    let z5 = ZoneBits {
        word,
        zone: Zone::Z5,
    };
    require_in(z4, Posture::Moving, Refusal::NotAtWork)?;
    require_in(z5, Posture::Moving, Refusal::NotAtWork)?;
    require_movable(word, Place::DepEntry, Place::DepEnd)?;
    Ok(advance_pattern(Machine::Deposit))
}

/// Why the work of the press is refused at a word, or what it writes.
#[inline(always)]
fn advance_press(word: u64) -> Result<Pattern, Refusal>
    ensures { result ≡ guards.unless
        (guards.first_refusal word (guards.advance_guards machines.Press))
        (changes.written machines.Press calls.Advance) }
{
    let z3 = ZoneBits {
        word,
        zone: Zone::Z3,
    };
    require_held(z3, Party::Host)?;
    require_in(z3, Posture::Closed, Refusal::NotAtWork)?;
    require_movable(word, Place::PressIn, Place::PressOut)?;
    Ok(advance_pattern(Machine::Press))
}

/// Why the work of a machine is refused at a word, or what it writes.
#[inline(always)]
pub(crate) fn advance(word: u64, machine: Machine) -> Result<Pattern, Refusal>
    ensures { result ≡ guards.unless (guards.first_refusal word (guards.advance_guards machine))
        (changes.written machine calls.Advance) }
{
    match machine {
        Machine::Feed => advance_feed(word),
        Machine::Deposit => advance_deposit(word),
        Machine::Press => advance_press(word),
        Machine::Table | Machine::Robot | Machine::Crane | Machine::Watch => Err(Refusal::NoPose),
    }
}
