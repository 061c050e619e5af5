//! Motors by the bits of a plan's word: one mask, one comparison.
ghost use Rattle.std.specs.Prelude.{◌≡◌, ℕ, ◌+◌, ◌*◌, ◌/◌, ◌%◌, ◌<◌, ◌≤◌, ◌^◌, ◌↔◌, IsTrue, length};
ghost use Rattle.plan_rules.specs.State.{one_if};
ghost use Rattle.plan_types.specs.Table.{PlanTable, zone_count, place_count};
ghost use Rattle.plan_rules.specs.declared.state.State.{State};
ghost use Rattle.plan_types.specs.Below.{any_below};
ghost use Rattle.plan_types.specs.Table.{owner_bits, posture_bits, postures_of};
ghost use Rattle.plan_types.specs.Table.{shape_bits, zone_shape};
ghost use Rattle.plan_word.specs.declared.layout.Field.TheVariants.{Zone};
ghost use Rattle.plan_word.specs.Layout.{bits_of, counts_of};
ghost use Rattle.plan_word.specs.Packed as packing;
ghost use Rattle.plan_word.specs.Packed.{packed};
ghost use Rattle.plan_word.specs.OfPlan.{IsOfPlan};
ghost use Rattle.plan_motors.specs.Motor.{Permits};
ghost use Rattle.plan_motors.specs.Mask as masks;

use crate::entering::enters;
use crate::motor::Motor;
use plan_rules::ZoneState;
use plan_types::{Plan, Posture, Postures, ZoneShape};
use plan_word::laws::words_are_laid_out;
use plan_word::{Field, Layout, can_have, code_of, zone_code};

/// Which bits of a plan's word a motor looks at, and what they have to be.
#[derive(Clone, Copy, Debug, PartialEq, Eq)]
pub struct MotorMask {
    /// The bits.
    pub mask: u64,
    /// What they have to be.
    pub pattern: u64,
}

/// The word with a number in some bits above all that are set.
fn with_bits(word: u64, lowest: u32, width: u32, value: u64) -> u64
    requires below { word < 2 ^ lowest }
    requires fits { value < 2 ^ width }
    requires lowest_in_word { lowest < 64 }
    requires all_in_word { lowest + width ≤ 64 }
    ensures value { result ≡ word + value * 2 ^ lowest }
    ensures below { result < 2 ^ (lowest + width) }
{
    word | value << lowest
}

/// Whether the posture that is needed is none that the zone's field tells, so no state of the plan has it.
fn is_never(shape: ZoneShape, posture: Option<Posture>) -> bool
    ensures { result ≡ masks.is_never shape posture }
{
    match posture {
        None => false,
        Some(posture) => !can_have(shape.postures(), posture),
    }
}

fn holds_near(plan: &Plan, motor: &Motor, zone: u8, other: u8) -> bool
    ensures { result ≡ masks.holds_near plan.now motor.now zone other }
{
    plan.same_space(other, zone) && motor.zone_need(other).holds
}

/// Whether a motor has to hold a zone of a space.
#[tactic(auto, using(plan_types::proofs::lemmas::Below::any_below_more))]
fn holds_in(plan: &Plan, motor: &Motor, zone: u8) -> bool
    ensures { result ≡ masks.holds_in plan.now motor.now zone }
{
    let mut holds = false;
    for other in 0..plan.zone_count() {
        holds = holds || holds_near(plan, motor, zone, other);
    }
    holds
}

fn never_near(plan: &Plan, layout: &Layout, motor: &Motor, zone: u8, other: u8) -> bool
    requires { layout.now ≡ counts_of plan.now }
    ensures { result ≡ masks.never_near plan.now motor.now zone other }
{
    plan.same_space(other, zone) && is_never(layout.shape(other), motor.zone_need(other).posture)
}

/// Whether a zone of a space never has the posture that a motor needs.
#[tactic(auto, using(plan_types::proofs::lemmas::Below::any_below_more))]
fn lacks_posture(plan: &Plan, layout: &Layout, motor: &Motor, zone: u8) -> bool
    requires { layout.now ≡ counts_of plan.now }
    ensures { result
        ≡ any_below (masks.never_near plan.now motor.now zone) (zone_count plan.now) }
{
    let mut never = false;
    for other in 0..plan.zone_count() {
        never = never || never_near(plan, layout, motor, zone, other);
    }
    never
}

/// Whether a space is never as a motor needs it.
fn never_in(plan: &Plan, layout: &Layout, motor: &Motor, zone: u8) -> bool
    requires { layout.now ≡ counts_of plan.now }
    ensures { result ≡ masks.never_in plan.now motor.now zone }
{
    let entering = enters(plan, motor.machine, zone);
    lacks_posture(plan, layout, motor, zone) || holds_in(plan, motor, zone) && !entering
}

/// All bits of a space's owner in a zone's field: none, unless it is the first one of its space.
fn all_owners(shape: ZoneShape) -> u64
    ensures all { result ≡ masks.all_owners shape }
    ensures fits { result < 2 ^ owner_bits shape.guests }
{
    match shape.guests {
        0 => 0,
        1 | 2 => 0b11,
        3..=6 => 0b111,
        _ => 0b1111,
    }
}

fn owner_mask(shape: ZoneShape, holds: bool, never: bool) -> u64
    ensures mask { result ≡ masks.owner_mask shape holds never }
    ensures fits { result < 2 ^ owner_bits shape.guests }
{
    if never {
        if shape.guests == 1 {
            all_owners(shape)
        } else {
            0
        }
    } else if holds {
        all_owners(shape)
    } else {
        0
    }
}

fn posture_mask(postures: Postures, posture: Option<Posture>) -> u64
    ensures mask { result ≡ masks.posture_mask postures posture }
    ensures fits { result < 2 ^ posture_bits postures }
{
    match (posture, postures) {
        (None, _) | (_, Postures::Shut) => 0,
        (Some(_), Postures::Two(_)) => 0b1,
        (Some(_), Postures::All) => 0b11,
    }
}

/// The bits of a zone, from those of its space's owner and of its posture.
fn zone_bits_of(shape: ZoneShape, owner: u64, posture: u64) -> u64
    requires owner { owner < 2 ^ owner_bits shape.guests }
    requires posture { posture < 2 ^ posture_bits (postures_of shape) }
    ensures bits { result ≡ masks.bits_with shape owner posture }
    ensures fits { result < 2 ^ shape_bits shape }
{
    let width = shape.postures().bits();
    let start = shape.bits() - width;
    with_bits(owner, u32::from(start), u32::from(width), posture)
}

fn zone_mask(plan: &Plan, layout: &Layout, motor: &Motor, zone: u8) -> u64
    requires { layout.now ≡ counts_of plan.now }
    ensures mask { result ≡ masks.zone_mask plan.now motor.now zone }
    ensures fits { result < 2 ^ bits_of layout.now (Zone zone) }
{
    let shape = layout.shape(zone);
    let holds = holds_in(plan, motor, zone);
    let owner = owner_mask(shape, holds, never_in(plan, layout, motor, zone));
    let posture = posture_mask(shape.postures(), motor.zone_need(zone).posture);
    zone_bits_of(shape, owner, posture)
}

/// What a zone's field has of a machine that owns its space.
fn owner_part(plan: &Plan, layout: &Layout, zone: u8, machine: u8) -> u64
    requires { layout.now ≡ counts_of plan.now }
    ensures part { result ≡ packing.owner_part plan.now zone (Some machine) }
    ensures fits { result < 2 ^ owner_bits (zone_shape plan.now zone).guests }
{
    let owned = ZoneState {
        owner: Some(machine),
        flag: false,
        posture: Posture::Closed,
    };
    zone_code(plan, layout, zone, owned)
}

fn owner_pattern(shape: ZoneShape, owner: u64, holds: bool, never: bool) -> u64
    requires { owner < 2 ^ owner_bits shape.guests }
    ensures pattern { result ≡ masks.owner_pattern shape owner holds never }
    ensures fits { result < 2 ^ owner_bits shape.guests }
{
    if never {
        all_owners(shape)
    } else if holds {
        owner
    } else {
        0
    }
}

fn posture_pattern(postures: Postures, posture: Option<Posture>) -> u64
    ensures pattern { result ≡ masks.posture_pattern postures posture }
    ensures fits { result < 2 ^ posture_bits postures }
{
    match posture {
        None => 0,
        Some(posture) => code_of(postures, posture),
    }
}

fn zone_pattern(plan: &Plan, layout: &Layout, motor: &Motor, zone: u8) -> u64
    requires { layout.now ≡ counts_of plan.now }
    ensures pattern { result ≡ masks.zone_pattern plan.now motor.now zone }
    ensures fits { result < 2 ^ bits_of layout.now (Zone zone) }
{
    let shape = layout.shape(zone);
    let part = owner_part(plan, layout, zone, motor.machine);
    let holds = holds_in(plan, motor, zone);
    let owner = owner_pattern(shape, part, holds, never_in(plan, layout, motor, zone));
    let posture = posture_pattern(shape.postures(), motor.zone_need(zone).posture);
    zone_bits_of(shape, owner, posture)
}

fn place_pattern(need: Option<bool>) -> u64
    ensures pattern { result ≡ masks.place_pattern need }
    ensures fits { result < 2 }
{
    match need {
        Some(full) => u64::from(full),
        None => 0,
    }
}

fn mask_of(plan: &Plan, layout: &Layout, motor: &Motor) -> u64
    requires layout { layout.now ≡ counts_of plan.now }
    ensures { result ≡ masks.mask_of plan.now motor.now }
{
    let mut mask = 0;
    for zone in 0..plan.zone_count() {
        let bits = zone_mask(plan, layout, motor, zone);
        mask = layout.with(mask, Field::Zone(zone), bits);
    }
    for place in 0..plan.place_count() {
        let bit = u64::from(motor.place_need(place).is_some());
        mask = layout.with(mask, Field::Place(place), bit);
    }
    mask
}

fn pattern_of(plan: &Plan, layout: &Layout, motor: &Motor) -> u64
    requires layout { layout.now ≡ counts_of plan.now }
    ensures { result ≡ masks.pattern_of plan.now motor.now }
{
    let mut pattern = 0;
    for zone in 0..plan.zone_count() {
        let bits = zone_pattern(plan, layout, motor, zone);
        pattern = layout.with(pattern, Field::Zone(zone), bits);
    }
    for place in 0..plan.place_count() {
        let bit = place_pattern(motor.place_need(place));
        pattern = layout.with(pattern, Field::Place(place), bit);
    }
    pattern
}

impl MotorMask {
    /// The bits that a motor looks at, in the words of a plan.
    pub fn of(plan: &Plan, motor: &Motor) -> MotorMask
        ensures mask { result.mask ≡ masks.mask_of plan.now motor.now }
        ensures pattern { result.pattern ≡ masks.pattern_of plan.now motor.now }
        ensures permits { (state : State) → IsOfPlan plan.now state
            → (IsTrue (masks.allows result (packed plan.now state)) ↔ Permits plan.now state motor.now) }
    {
        words_are_laid_out();
        let layout = Layout::of(plan);
        MotorMask {
            mask: mask_of(plan, &layout, motor),
            pattern: pattern_of(plan, &layout, motor),
        }
    }

    /// Whether a word lets the motor run, if it is the word of a state of the plan.
    pub fn allows(&self, word: u64) -> bool
        ensures { result ≡ masks.allows self.now word }
    {
        word & self.mask == self.pattern
    }
}

/// A mask by its number; one that lets its motor run if there is no such mask.
fn mask_at(several: &[MotorMask], number: usize) -> MotorMask
    ensures { result ≡ masks.mask_at several.now number }
{
    if number < several.len() {
        several[number]
    } else {
        MotorMask {
            mask: 0,
            pattern: 0,
        }
    }
}

/// Which of these motors, at most 64, a word lets run: bit k tells it of the motor with the k-th mask.
pub fn permitted_motors(several: &[MotorMask], word: u64) -> u64
    requires few { length several.now ≤ 64 }
    ensures bits { (k : ℕ) → k < length several.now
        → result / 2 ^ k % 2 ≡ one_if (masks.allows (masks.mask_at several.now k) word) }
    ensures above { result < 2 ^ length several.now }
{
    let mut permitted = 0;
    for number in 0..several.len() {
        let bit = u64::from(mask_at(several, number).allows(word));
        permitted = with_bits(permitted, number as u32, 1, bit);
    }
    permitted
}

/// Whether the state of a word permits a motor. `MotorMask::of` may be made once for each motor.
pub fn is_permitted_in(plan: &Plan, motor: &Motor, word: u64) -> bool
    ensures { (state : State) → IsOfPlan plan.now state → packed plan.now state ≡ word
        → (IsTrue result ↔ Permits plan.now state motor.now) }
{
    MotorMask::of(plan, motor).allows(word)
}
