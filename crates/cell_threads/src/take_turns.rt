//! A worker's turns, over any line.
ghost use Rattle.std.specs.Prelude.{◌≡◌};
ghost use Rattle.cell_notes.specs.Notes.{no_counts};
ghost use Rattle.cell_unit.specs.Statuses.{status_of as status_by};
ghost use Rattle.cell_unit.specs.Sides.{UnitIsReady, unit_rig, unit_side, unit_table};
ghost use Rattle.cell_threads.specs.Workers.{HasEnded, worker_moment};

use crate::gate::Gate;
use cell_control::{Part, Program};
use cell_notes::{Counts, Status};
use cell_rules::Line;
use cell_unit::{MachineUnit, status_of};

/// How a worker ended.
#[derive(Clone, Copy)]
pub(crate) struct Ending {
    /// Its counts of turns and replies.
    pub counts: Counts,
    /// The status of its machine.
    pub status: Status,
}

/// Takes a machine's turns over a line: at most `turns`, each once the gate lets it begin, and none
/// after a turn that has stopped the machine.
pub(crate) fn take_turns<P: Program, B: Part<Sense = P::Sense, Act = P::Act>, L: Line, G: Gate>(
    unit: &mut MachineUnit<P, B>,
    line: &mut L,
    gate: &G,
    turns: u32,
) -> Ending
    requires own { L.machine line.old ≡ (unit_table P.steps unit.old).machine }
    requires ready { UnitIsReady P.steps unit.old (L.opening line.old) (L.seen line.old) }
    ensures ended { HasEnded (record { opening = L.opening; seen = L.seen; asks = L.asks })
        (unit_table P.steps unit.old) (unit_rig B.rig B.make unit.old)
        (G.may_answer gate.now (L.machine line.old)) turns
        (worker_moment line.old (unit_side B.state unit.old) no_counts)
        (worker_moment line.new (unit_side B.state unit.new) result.counts) result.status }
    ensures own { L.machine line.new ≡ L.machine line.old }
{
    let machine = line.machine();
    let mut counts = Counts::none();
    for turn in 0..turns {
        if unit.controller.stopped_by().is_some() {
            return ending_of(unit, counts);
        }
        if !gate.pass(machine, turn) {
            return Ending {
                counts,
                status: Status::GateLimit,
            };
        }
        counts = counts.with(unit.turn(line));
    }
    ending_of(unit, counts)
}

// How a worker ends that its gate has let through.
fn ending_of<P: Program, B: Part<Sense = P::Sense, Act = P::Act>>(
    unit: &MachineUnit<P, B>,
    counts: Counts,
) -> Ending
    ensures counts { result.counts ≡ counts }
    ensures status { result.status ≡ status_by unit.now.controller.stopped }
{
    Ending {
        counts,
        status: status_of(unit.controller.stopped_by()),
    }
}
