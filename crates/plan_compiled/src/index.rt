//! All rows of a plan, and where those of each call begin, in memory of a fixed size.
ghost use Rattle.std.specs.Prelude.{◌≡◌};
ghost use Rattle.std.specs.List.{All};
ghost use Rattle.plan_rules.specs.PlainLaws.{IsPlain};
ghost use Rattle.plan_word.specs.Layout.{counts_of};
ghost use Rattle.plan_compiled.specs.Rows.{IsRight};

use crate::drafts::draft;
use crate::finding::{SLOTS_OF_ALL, slot};
use crate::needs::may_ask;
use crate::plain::is_plain;
use crate::right::{Asked, row_of};
use crate::row::Row;
use plan_types::{Call, Plan, Posture};
use plan_word::Layout;

/// How many rows a compiled plan has room for. Those that find no room are left out.
pub const ROWS_OF_ALL: usize = 512;

/// The calls about a zone, in the order of their rows.
const ZONE_CALLS: u8 = 5;

/// How many machines have slots, with the watch.
const CALLERS: u8 = 31;

/// The rows so far, with rows that no word matches after them.
#[derive(Drop)]
pub(crate) struct Index {
    /// Where the rows of each call begin.
    pub starts: [u16; SLOTS_OF_ALL],
    /// The rows.
    pub rows: [Row; ROWS_OF_ALL],
    /// How many there are.
    pub count: u16,
}

impl Index {
    /// Appends a row, if there is room.
    fn push(&mut self, plan: &Plan, row: Row)
        requires row { IsRight plan.now row }
        requires right { All (IsRight plan.now) self.old.rows }
        ensures { All (IsRight plan.now) self.new.rows }
    {
        let _ = plan;
        let at = usize::from(self.count);
        if at < ROWS_OF_ALL {
            self.rows[at] = row;
            self.count += 1;
        }
    }

    /// The rows of a call begin here.
    fn start(&mut self, machine: u8, call: Call)
        ensures { self.new.rows ≡ self.old.rows }
    {
        let at = slot(machine, call);
        if at < SLOTS_OF_ALL {
            self.starts[at] = self.count;
        }
    }
}

/// A call about a zone by its number in `ZONE_CALLS`.
fn zone_call(number: u8, zone: u8) -> Call {
    match number {
        0 => Call::Claim(zone),
        1 => Call::Give(zone),
        2 => Call::Yield(zone),
        3 => Call::Take(zone),
        _ => Call::Release(zone),
    }
}

/// Whether a pose opens a zone inward.
fn opens_ways(plan: &Plan, call: Call) -> bool {
    match call {
        Call::SetPose(pose) => plan
            .pose(pose)
            .gives
            .iter()
            .any(|posture| *posture == Some(Posture::OpenIn)),
        _ => false,
    }
}

/// Whether a call may be done without room, too: a pose that finds a zone open, and an advance from a sink.
fn goes_without_room(plan: &Plan, call: Call) -> bool {
    matches!(call, Call::Advance(_)) || opens_ways(plan, call)
}

/// Appends the row of a draft, if it is right.
fn push_row(plan: &Plan, layout: &Layout, index: &mut Index, asked: Asked, picks: u8)
    requires layout { layout.now ≡ counts_of plan.now }
    requires plain { IsPlain plan.now }
    requires right { All (IsRight plan.now) index.old.rows }
    ensures { All (IsRight plan.now) index.new.rows }
{
    let Some(part) = draft(plan, layout, asked, picks) else {
        return;
    };
    if let Some(row) = row_of(plan, layout, asked, part) {
        index.push(plan, row);
    }
}

fn push_halves(plan: &Plan, layout: &Layout, index: &mut Index, asked: Asked)
    requires layout { layout.now ≡ counts_of plan.now }
    requires plain { IsPlain plan.now }
    requires right { All (IsRight plan.now) index.old.rows }
    ensures { All (IsRight plan.now) index.new.rows }
{
    for picks in 0..8 {
        push_row(plan, layout, index, asked, picks);
    }
}

/// Appends the rows of a call.
fn push_rows(plan: &Plan, layout: &Layout, index: &mut Index, machine: u8, call: Call)
    requires layout { layout.now ≡ counts_of plan.now }
    requires plain { IsPlain plan.now }
    requires right { All (IsRight plan.now) index.old.rows }
    ensures { All (IsRight plan.now) index.new.rows }
{
    if !may_ask(plan, machine, call) {
        return;
    }
    let room = Asked {
        machine,
        call,
        room: true,
    };
    push_halves(plan, layout, index, room);
    if goes_without_room(plan, call) {
        let shut = Asked {
            machine,
            call,
            room: false,
        };
        push_halves(plan, layout, index, shut);
    }
}

/// Appends the rows of a call, and says where they begin.
fn index_call(plan: &Plan, layout: &Layout, index: &mut Index, machine: u8, call: Call)
    requires layout { layout.now ≡ counts_of plan.now }
    requires plain { IsPlain plan.now }
    requires right { All (IsRight plan.now) index.old.rows }
    ensures { All (IsRight plan.now) index.new.rows }
{
    index.start(machine, call);
    push_rows(plan, layout, index, machine, call);
}

fn index_zone(plan: &Plan, layout: &Layout, index: &mut Index, machine: u8, zone: u8)
    requires layout { layout.now ≡ counts_of plan.now }
    requires plain { IsPlain plan.now }
    requires right { All (IsRight plan.now) index.old.rows }
    ensures { All (IsRight plan.now) index.new.rows }
{
    for number in 0..ZONE_CALLS {
        index_call(plan, layout, index, machine, zone_call(number, zone));
    }
}

fn index_zones(plan: &Plan, layout: &Layout, index: &mut Index, machine: u8)
    requires layout { layout.now ≡ counts_of plan.now }
    requires plain { IsPlain plan.now }
    requires right { All (IsRight plan.now) index.old.rows }
    ensures { All (IsRight plan.now) index.new.rows }
{
    for zone in 0..plan.zone_count() {
        index_zone(plan, layout, index, machine, zone);
    }
}

fn index_poses(plan: &Plan, layout: &Layout, index: &mut Index, machine: u8)
    requires layout { layout.now ≡ counts_of plan.now }
    requires plain { IsPlain plan.now }
    requires right { All (IsRight plan.now) index.old.rows }
    ensures { All (IsRight plan.now) index.new.rows }
{
    for pose in 0..64 {
        index_call(plan, layout, index, machine, Call::SetPose(pose));
    }
}

fn index_places(plan: &Plan, layout: &Layout, index: &mut Index, machine: u8)
    requires layout { layout.now ≡ counts_of plan.now }
    requires plain { IsPlain plan.now }
    requires right { All (IsRight plan.now) index.old.rows }
    ensures { All (IsRight plan.now) index.new.rows }
{
    for place in 0..plan.place_count() {
        index_call(plan, layout, index, machine, Call::Advance(place));
    }
}

fn index_machine(plan: &Plan, layout: &Layout, index: &mut Index, machine: u8)
    requires layout { layout.now ≡ counts_of plan.now }
    requires plain { IsPlain plan.now }
    requires right { All (IsRight plan.now) index.old.rows }
    ensures { All (IsRight plan.now) index.new.rows }
{
    index_zones(plan, layout, index, machine);
    index_poses(plan, layout, index, machine);
    index_call(plan, layout, index, machine, Call::Stop);
    index_call(plan, layout, index, machine, Call::Resume);
    index_places(plan, layout, index, machine);
}

/// All rows of a plan, and where those of each call begin. A plan in which a zone joins another has none.
pub(crate) fn index_of(plan: &Plan, layout: &Layout) -> Index
    requires { layout.now ≡ counts_of plan.now }
    ensures { All (IsRight plan.now) result.rows }
{
    let mut index = Index {
        starts: [u16::MAX; SLOTS_OF_ALL],
        rows: [Row::none(); ROWS_OF_ALL],
        count: 0,
    };
    if !is_plain(plan) {
        return index;
    }
    for machine in 0..CALLERS {
        index_machine(plan, layout, &mut index, machine);
    }
    index
}
