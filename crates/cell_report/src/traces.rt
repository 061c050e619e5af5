//! Makes the calls of the entries again, in order.
ghost use Rattle.std.specs.Prelude.{◌++◌, ◌∷◌, [], ℕ, List, IsTrue, IfOk, IfSome};
ghost use Rattle.cell_report.specs.declared.ordered.Noted.{Noted};
ghost use Rattle.cell_types.specs.Journals.{journal_of};
ghost use Rattle.cell_report.specs.Order.{all_noted, in_order};
ghost use Rattle.cell_report.specs.Merged.{run_of};
ghost use Rattle.cell_report.specs.Traces.{IsTrace, Repeats};

use crate::ordered::Noted;
use crate::rests::{Merge, Run};
use crate::sinks::EventSink;
use cell_rules::{State, apply};
use cell_types::Journals;
use std::alloc::{AllocError, Global};

/// The trace of entries that are taken one by one, in the order of an audit. A sink has the
/// events, up to the first entry that doesn't fit.
#[derive(Drop)]
pub struct Trace {
    /// The stamps of the Done entries.
    pub stamps: Vec<u32>,
    /// The greatest of a given stamp and those of the entries.
    pub top: u32,
    /// The state after the events.
    pub state: State,
    /// The stamp of the first entry that doesn't fit.
    pub misfit: Option<u32>,
}

impl Trace {
    /// The trace of no entries, from a start and a stamp. The sink forgets what it has.
    pub fn new<K: EventSink>(alloc: Global, start: &State, least: u32, sink: &mut K) -> Trace
        ensures { IsTrace (K.holds sink.new) start.now least [] result }
    {
        sink.clear();
        Trace {
            stamps: Vec::new(alloc),
            top: least,
            state: *start,
            misfit: None,
        }
    }

    // Takes an entry. Returns whether the same entry would fit again, and change nothing.
    #[inline(always)]
    fn take<K: EventSink>(
        &mut self,
        start: &State,
        noted: &Noted,
        sink: &mut K,
    ) -> Result<bool, AllocError>
        ensures trace { IfOk result (λ _. (least : ℕ) → (before : List Noted)
            → IsTrace (K.holds sink.old) start.now least before self.old
            → IsTrace (K.holds sink.new) start.now least (before ++ noted.now ∷ []) self.new) }
        ensures repeats { IfOk result (λ repeats. IsTrue repeats
            → Repeats start.now noted.now self.new) }
    {
        let is_done = noted.is_done();
        self.top = self.top.max(noted.entry.stamp);
        if is_done {
            self.stamps.push(noted.entry.stamp)?;
        }
        if self.misfit.is_some() {
            return Ok(false);
        }
        let answer = apply(&mut self.state, noted.machine, noted.entry.call);
        if !noted.fits(start, &answer) {
            self.misfit = Some(noted.entry.stamp);
            return Ok(false);
        }
        sink.keep(noted.machine, &noted.entry, 1)?;
        Ok(!is_done)
    }

    // Takes a run. Once its entry has fitted and changed nothing, the interlock isn't asked again.
    fn take_run<K: EventSink>(
        &mut self,
        start: &State,
        run: &Run<'_>,
        sink: &mut K,
    ) -> Result<(), AllocError>
        ensures { IfOk result (λ _. (least : ℕ) → (before : List Noted)
            → IsTrace (K.holds sink.old) start.now least before self.old
            → IsTrace (K.holds sink.new) start.now least (before ++ run_of run.now) self.new) }
    {
        let noted = Noted {
            machine: run.machine,
            entry: *run.entry,
            in_turn: true,
        };
        for taken in 0..run.count {
            if self.take(start, &noted, sink)? {
                return sink.keep(run.machine, run.entry, run.count - taken - 1);
            }
        }
        Ok(())
    }

    /// The trace of all entries of journals, if none has been taken yet; `None` if one of them isn't
    /// in turn.
    pub fn follow_merged<K: EventSink>(
        self,
        start: &State,
        journals: &Journals,
        sink: &mut K,
    ) -> Result<Option<Trace>, AllocError>
        ensures { let ordered = in_order (all_noted (journal_of journals.now)) in
            IfOk result (λ merged. IfSome merged (λ trace. (least : ℕ)
            → IsTrace (K.holds sink.old) start.now least [] self
            → IsTrace (K.holds sink.new) start.now least ordered trace)) }
    {
        let mut trace = self;
        let mut left = Merge::new(journals);
        while let Some(run) = left.next_run() {
            if !run.in_turn {
                return Ok(None);
            }
            trace.take_run(start, &run, sink)?;
        }
        Ok(Some(trace))
    }

    /// The trace of sorted entries, if none has been taken yet.
    pub fn follow_sorted<K: EventSink>(
        self,
        start: &State,
        sorted: &[Noted],
        sink: &mut K,
    ) -> Result<Trace, AllocError>
        ensures { IfOk result (λ trace. (least : ℕ)
            → IsTrace (K.holds sink.old) start.now least [] self
            → IsTrace (K.holds sink.new) start.now least sorted.now trace) }
    {
        let mut trace = self;
        for noted in sorted {
            trace.take(start, noted, sink)?;
        }
        Ok(trace)
    }
}
