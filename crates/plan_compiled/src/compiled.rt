//! A compiled plan: its rows, and calls by them.
ghost use Rattle.std.specs.Prelude.{◌≡◌, ◌≢◌, ◌+◌, ◌<◌, ◌≤◌, ◌↔◌, Some, IsNone, IsSome, IsTrue, IfSome};
ghost use Rattle.std.specs.List.{All};
ghost use Rattle.plan_types.specs.declared.answer.Answer.TheVariants.{Done};
ghost use Rattle.plan_rules.specs.declared.state.State.{State};
ghost use Rattle.plan_rules.specs.State.{last_stamp};
ghost use Rattle.plan_rules.specs.Reply.{reply, next};
ghost use Rattle.plan_rules.specs.PlainLaws.{IsPlain};
ghost use Rattle.plan_word.specs.Layout.{counts_of};
ghost use Rattle.plan_word.specs.OfPlan.{IsOfPlan};
ghost use Rattle.plan_word.specs.Packed.{packed};
ghost use Rattle.plan_word.specs.Layout.{start_of};
ghost use Rattle.plan_word.specs.declared.layout.Field.TheVariants.{Stamp};
ghost use Rattle.plan_compiled.specs.Complete.{HasRow, IsComplete};
ghost use Rattle.plan_compiled.specs.Rows.{IsRight};

use crate::every_row::has_every_row;
use crate::finding::{SLOTS_OF_ALL, row_for};
use crate::index::{Index, ROWS_OF_ALL, index_of};
use crate::row::Row;
use crate::told::{Ends, are_sound, table_of};
use plan_rules::LAST_STAMP;
use plan_types::{Answer, Call, MAX_ZONES, Plan};
use plan_word::{Layout, step_state_word, step_word};
use std::marker::Model;

/// The lowest bit of the stamp.
fn stamp_bit_of(layout: &Layout) -> u32
    ensures bit { result ≡ start_of layout.now Stamp }
    ensures fits { result + 20 ≤ 64 }
{
    u32::from(layout.width()) - 21
}

/// A plan, compiled. It takes no memory beyond itself, and C can keep it, if only [`Compiled::new`] makes it.
///
/// Where a plan has more than [`ROWS_OF_ALL`] rows, those that find no room are left out. A call that lacks its row is
/// answered as rightly, but not as fast, and [`Compiled::is_complete`] says no. A plan in which a zone joins the one
/// before it has no rows.
#[repr(C)]
#[derive(Debug, Drop)]
pub struct Compiled {
    plan: Plan,
    layout: Layout,
    stamp_bit: u32,
    place_bit: u32,
    ends: [Ends; MAX_ZONES],
    starts: [u16; SLOTS_OF_ALL],
    rows: [Row; ROWS_OF_ALL],
}

impl Model for Compiled {
    ghost use Rattle.plan_compiled.specs.Compiled.{CompiledPlan, plan_in, kept, kept_back, IsCompiled};

    ghost Value = { CompiledPlan };

    ghost view = { plan_in };

    ghost invariant = { IsCompiled };

    ghost inverse = { kept };

    ghost inverse_ok = { kept_back };
}

impl Compiled {
    /// Compiles a plan.
    pub fn new(plan: Plan) -> Compiled
        ensures { result.table ≡ plan }
    {
        let layout = Layout::of(&plan);
        let _ = plan.machines();
        let Index { starts, rows, .. } = index_of(&plan, &layout);
        let ends = table_of(&plan, &layout);
        let stamp_bit = stamp_bit_of(&layout);
        let place_bit = stamp_bit - u32::from(plan.place_count());
        Compiled {
            plan,
            layout,
            stamp_bit,
            place_bit,
            ends,
            starts,
            rows,
        }
    }

    /// The plan.
    pub fn plan(&self) -> &Plan
        ensures { result.now ≡ self.now.table }
    {
        &self.plan
    }

    /// The layout of the plan's word.
    pub fn layout(&self) -> Layout
        ensures { result ≡ counts_of self.now.table }
    {
        self.layout
    }

    /// The rows, and after the last one rows that no word matches.
    pub fn rows(&self) -> &[Row]
        ensures rows { result.now ≡ self.now.rows }
        ensures right { All (IsRight self.now.table) result.now }
    {
        &self.rows
    }

    /// Where the rows of each call begin, by its `slot`.
    pub fn starts(&self) -> &[u16]
        ensures { result.now ≡ self.now.starts }
    {
        &self.starts
    }

    /// The word after a call that is done, found by the call's rows: `None` if none of them is as the word needs it.
    #[inline(always)]
    fn done_word(&self, word: u64, machine: u8, call: Call) -> Option<u64>
        ensures done { (state : State) → IsOfPlan self.now.table state
            → packed self.now.table state ≡ word
            → IfSome result (λ new. (reply self.now.table state machine call ≡ Done)
            × (new ≡ packed self.now.table (next self.now.table state machine call))) }
        ensures found { (state : State) → IsOfPlan self.now.table state
            → packed self.now.table state ≡ word → state.stamp < last_stamp
            → HasRow self.now.rows self.now.starts word machine call → IsSome result }
    {
        let stamp = (word >> self.stamp_bit) % (1 << 20);
        if stamp >= u64::from(LAST_STAMP) {
            return None;
        }
        let Some(index) = row_for(&self.rows, &self.starts, word, machine, call) else {
            return None;
        };
        let part = self.rows[index].part();
        Some(part.written(word).wrapping_add(1 << self.stamp_bit))
    }

    /// Whether a row answers a call on a word, so that it is done at once.
    pub fn has_row(&self, word: u64, machine: u8, call: Call) -> bool
        ensures done { (state : State) → IsOfPlan self.now.table state
            → packed self.now.table state ≡ word
            → IsTrue result → reply self.now.table state machine call ≡ Done }
        ensures found { (state : State) → IsOfPlan self.now.table state
            → packed self.now.table state ≡ word → state.stamp < last_stamp
            → HasRow self.now.rows self.now.starts word machine call → IsTrue result }
    {
        self.done_word(word, machine, call).is_some()
    }

    /// Whether each call that is done, in each state of the plan with a stamp left, has its row. Says no also if a pose
    /// opens two zones inward, and of each plan in which a zone joins the one before it.
    pub fn is_complete(&self) -> bool
        ensures rows { IsTrue result → IsComplete self.now.table self.now.rows self.now.starts }
        ensures plain { IsTrue result → IsPlain self.now.table }
    {
        has_every_row(&self.plan, &self.layout, &self.rows, &self.starts)
    }

    #[inline(never)]
    fn step_slowly(&self, word: u64, machine: u8, call: Call) -> (Answer, u64)
        requires { (state : State) × IsOfPlan self.now.table state × (packed self.now.table state ≡ word) }
        ensures { (state : State) → IsOfPlan self.now.table state → packed self.now.table state ≡ word
            → result ≡ (
              reply self.now.table state machine call,
              packed self.now.table (next self.now.table state machine call),
            ) }
    {
        step_state_word(&self.plan, &self.layout, word, machine, call)
    }

    /// Makes a call on the word of a state of the plan. Returns the interlock's answer and the word of the state after
    /// it: the same word unless the answer is Done.
    #[inline(always)]
    pub fn step_state_word(&self, word: u64, machine: u8, call: Call) -> (Answer, u64)
        requires { (state : State) × IsOfPlan self.now.table state × (packed self.now.table state ≡ word) }
        ensures { (state : State) → IsOfPlan self.now.table state → packed self.now.table state ≡ word
            → result ≡ (
              reply self.now.table state machine call,
              packed self.now.table (next self.now.table state machine call),
            ) }
    {
        match self.done_word(word, machine, call) {
            Some(new) => (Answer::Done, new),
            None => {
                // The pair was written field by field. It is read so too: reading it whole would be slower.
                let (answer, new) = self.step_slowly(word, machine, call);
                (answer, new)
            }
        }
    }

    /// Whether a word is that of a state. If not, it may be so nevertheless.
    #[inline(always)]
    fn is_state_word(&self, word: u64) -> bool
        ensures { IsTrue result → (state : State) × IsOfPlan self.now.table state
            × (packed self.now.table state ≡ word) }
    {
        if word >> self.stamp_bit >> 21 != 0 {
            return false;
        }
        let places = (word >> self.place_bit) % 65536;
        are_sound(&self.plan, &self.ends, word, places)
    }

    /// `step_word`, for the words that `is_state_word` doesn't find.
    #[inline(never)]
    fn step_any(&self, word: u64, machine: u8, call: Call) -> Option<(Answer, u64)>
        ensures some { (state : State) → IsOfPlan self.now.table state → packed self.now.table state ≡ word
            → result ≡ Some (
              reply self.now.table state machine call,
              packed self.now.table (next self.now.table state machine call),
            ) }
        ensures none { IsNone result
            ↔ ((state : State) → IsOfPlan self.now.table state → packed self.now.table state ≢ word) }
    {
        step_word(&self.plan, &self.layout, word, machine, call)
    }

    /// Makes a call on a word. Returns the interlock's answer and the word of the state after it: the same word unless
    /// the answer is Done. `None` if the word is of no state of the plan.
    #[inline(always)]
    pub fn step_word(&self, word: u64, machine: u8, call: Call) -> Option<(Answer, u64)>
        ensures some { (state : State) → IsOfPlan self.now.table state → packed self.now.table state ≡ word
            → result ≡ Some (
              reply self.now.table state machine call,
              packed self.now.table (next self.now.table state machine call),
            ) }
        ensures none { IsNone result
            ↔ ((state : State) → IsOfPlan self.now.table state → packed self.now.table state ≢ word) }
    {
        if self.is_state_word(word) {
            Some(self.step_state_word(word, machine, call))
        } else {
            let (answer, new) = self.step_any(word, machine, call)?;
            Some((answer, new))
        }
    }
}
