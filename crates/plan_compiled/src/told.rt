//! Whether a word is that of a state of the plan, found by a table of what each zone's bits tell.
ghost use Rattle.std.specs.Prelude.{◌≡◌, ◌/◌, ◌%◌, ◌<◌, ◌≤◌, ◌^◌, ℕ, IsTrue};
ghost use Rattle.plan_types.specs.Table.{zone_count, place_count};
ghost use Rattle.plan_types.specs.Plan.{IsPlan};
ghost use Rattle.plan_rules.specs.PlainLaws.{IsPlain};
ghost use Rattle.plan_rules.specs.State.{one_if};
ghost use Rattle.plan_word.specs.declared.layout.Field.TheVariants.{Zone};
ghost use Rattle.plan_word.specs.Layout.{bits_of, counts_of};
ghost use Rattle.plan_word.specs.Reading.{place_told};
ghost use Rattle.plan_compiled.specs.Ends.{IsEnd, AreEnds, IsTable, TakenBelow};

use crate::plain::{is_plain, zone_alone};
use plan_types::{MAX_ZONES, Plan};
use plan_word::{Field, Layout, is_lawful_zone, zone_code};

/// A zone may not have the code, or the table doesn't tell.
const BARRED: u32 = 1 << 31;

/// Of each code of a zone: the place that a plate in the zone comes to, as a set bit, if there is one; or `BARRED`.
#[repr(C)]
#[derive(Clone, Copy, Debug)]
pub struct Ends {
    /// How many bits a code has.
    pub bits: u32,
    /// Of each code.
    pub ends: [u32; 32],
}

fn end_of(plan: &Plan, layout: &Layout, zone: u8, code: u64) -> u32
    requires layout { layout.now ≡ counts_of plan.now }
    requires plain { IsPlain plan.now }
    ensures { IsEnd plan.now zone code result }
{
    let at = zone_alone(plan, layout, zone, code);
    if zone_code(plan, layout, zone, at) != code || !is_lawful_zone(plan, zone, at) {
        return BARRED;
    }
    match plan.transfer(zone, at.posture) {
        Some(way) if at.flag && way.to < 16 => 1 << way.to,
        _ => 0,
    }
}

fn ends_of(plan: &Plan, layout: &Layout, zone: u8) -> Ends
    requires layout { layout.now ≡ counts_of plan.now }
    requires plain { IsPlain plan.now }
    ensures ends { AreEnds plan.now zone result.ends }
    ensures few { result.bits ≤ 5 }
    ensures bits { result.bits ≡ bits_of (counts_of plan.now) (Zone zone) }
{
    let mut ends = [0; 32];
    for code in 0..32 {
        ends[code] = end_of(plan, layout, zone, code as u64);
    }
    let bits = u32::from(layout.bits_of(Field::Zone(zone)));
    Ends { bits, ends }
}

/// The ends of all zones. Of a plan in which a zone joins another it bars each code.
pub(crate) fn table_of(plan: &Plan, layout: &Layout) -> [Ends; MAX_ZONES]
    requires { layout.now ≡ counts_of plan.now }
    ensures { IsTable plan.now (zone_count plan.now) result }
{
    let none = Ends {
        bits: 0,
        ends: [BARRED; 32],
    };
    let zones = plan.zone_count();
    let mut table = [none; MAX_ZONES];
    if !is_plain(plan) {
        return table;
    }
    for zone in 0..zones {
        table[usize::from(zone)] = ends_of(plan, layout, zone);
    }
    table
}

/// The number in the lowest bits of a word, as an index.
#[inline(always)]
fn lowest(rest: u64, bits: u32) -> usize
    requires { bits ≤ 5 }
    ensures value { result ≡ rest % 2 ^ bits }
    ensures few { result < 32 }
{
    (rest % (1 << bits)) as usize
}

/// Whether the zones and places of a word are those of a state of the plan.
#[inline(always)]
pub(crate) fn are_sound(plan: &Plan, table: &[Ends], word: u64, places: u64) -> bool
    requires plan { IsPlan plan.now }
    requires table { IsTable plan.now (zone_count plan.now) table.now }
    requires below { places < 65536 }
    requires places { (q : ℕ) → q < place_count plan.now
        → places / 2 ^ q % 2 ≡ one_if (place_told plan.now word q) }
    ensures { IsTrue result → (taken : ℕ) × TakenBelow plan.now word (zone_count plan.now) taken }
{
    let mut taken = places as u32 | BARRED;
    let mut rest = word;
    for zone in 0..usize::from(plan.zone_count()) {
        let bits = table[zone].bits;
        let end = table[zone].ends[lowest(rest, bits)];
        if taken & end != 0 {
            return false;
        }
        taken |= end;
        rest >>= bits;
    }
    true
}
