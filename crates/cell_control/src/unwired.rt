//! A machine off its line, between two interlocks.
ghost use Rattle.std.specs.Prelude.{◌≡◌, ◌↔◌, None, [], true};
ghost use Rattle.cell_rules.specs.History.{own_events};
ghost use Rattle.cell_rules.specs.Restamping.{IsSameFor};

use crate::controller::Controller;
use crate::fault::CtlFault;
use crate::program::Program;
use crate::wired::Wired;
use cell_rules::laws::states_are_sound;
use cell_rules::{Line, State};
use cell_types::Machine;
use std::marker::Model;

/// A machine between two interlocks: its controller in the middle of its program, off its line.
///
/// It keeps the state that the machine has left. It may go on by a new line if what the machine
/// knows of that state is so in the state that the new interlock opens with.
#[derive(Drop)]
pub struct Unwired<P: Program> {
    pub(crate) controller: Controller<P>,
    pub(crate) machine: Machine,
    pub(crate) left: State,
}

impl<P: Program> Model for Unwired<P> {
    ghost use Rattle.cell_control.specs.Wiring.{Unwiring, IsUnwired};

    ghost Value = { Unwiring P P.Progress };

    ghost view = { λ u. record {
      program = u.controller.program;
      progress = u.controller.progress;
      stopped = u.controller.stopped;
      left = u.left;
    } };

    ghost invariant = { λ u. IsUnwired (P.steps u.controller.program) u.machine u.left
        u.controller.stopped u.controller.progress };
}

impl<P: Program> Unwired<P> {
    /// A machine at the start of its program, by the full places of this state.
    pub fn at_start(program: P, machine: Machine, opening: &State) -> Unwired<P>
        requires own { machine ≡ (P.steps program).machine }
        ensures program { result.program ≡ program }
        ensures progress { result.progress ≡ (P.steps program).start opening.now }
        ensures running { result.stopped ≡ None }
        ensures left { result.left ≡ opening.now }
    {
        states_are_sound(opening);
        Unwired {
            controller: Controller::new(opening, program),
            machine,
            left: *opening,
        }
    }

    /// The state that it has left.
    pub fn last_state(&self) -> State
        ensures { result ≡ self.now.left }
    {
        self.left
    }

    /// What has stopped the machine; `None` while it runs.
    pub fn stopped_by(&self) -> Option<CtlFault>
        ensures { result ≡ self.now.stopped }
    {
        self.controller.stopped_by()
    }

    /// Its step in its program, with its notes.
    pub fn progress(&self) -> P::Progress
        ensures { result ≡ self.now.progress }
    {
        self.controller.progress()
    }

    /// Whether it may go on in an interlock that opens with this state: owner, flag and posture of
    /// each zone that the machine owned are the same, the postures of the zones that it hosts, and
    /// its own places.
    pub fn may_go_on(&self, opening: &State) -> bool
        ensures { (result ≡ true) ↔ IsSameFor (P.steps self.now.program).machine self.now.left opening.now }
    {
        self.left.is_same_for(self.machine, opening)
    }

    /// Goes on where it was, by a line that is the machine's and has settled no call yet. If a fault
    /// has stopped it, it stays so.
    pub fn wire<L: Line>(self, line: L) -> Wired<P, L>
        requires own { L.machine line ≡ (P.steps self.program).machine }
        requires same { IsSameFor (P.steps self.program).machine self.left (L.opening line) }
        requires settled_none { own_events (L.seen line) (L.machine line) ≡ [] }
        ensures program { result.program ≡ self.program }
        ensures progress { result.progress ≡ self.progress }
        ensures stopped { result.stopped ≡ self.stopped }
        ensures line { result.line ≡ line }
    {
        let Unwired {
            controller,
            machine: _,
            left: _,
        } = self;
        Wired::of(controller, line)
    }
}
