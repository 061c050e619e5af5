//! A turn of a schedule, over a bench.
ghost use Rattle.std.specs.Prelude.{◌≡◌, ◌≢◌, None, IsOk, IfOk, OnErr};
ghost use Rattle.cell_rules.specs.BenchView.{desk_of};
ghost use Rattle.cell_notes.specs.Notes.{HasRoom, HasSpare, notes_of};
ghost use Rattle.cell_unit.specs.Sides.{UnitIsReady, unit_program, unit_side, unit_table};
ghost use Rattle.cell_unit.specs.UnitTurns.{TakesBenchTurn, Untouched};

use crate::fault::SimFault;
use crate::unit::MachineUnit;
use cell_control::{Part, Program};
use cell_notes::{Notebook, TurnCall};
use cell_rules::Bench;
use cell_types::Machine;

/// One turn of a machine over a bench, noted in the machine's notebook. A machine that has stopped
/// does nothing, and nothing is noted. Answers what was asked.
///
/// `Memory` if out of memory for a journal's entry. Its room is made before the turn, so nothing
/// has changed. A machine that has stopped, or whose journal has room, never fails so.
pub fn take_bench_turn<P: Program, B: Part<Sense = P::Sense, Act = P::Act>>(
    bench: &mut Bench,
    notebook: &mut Notebook,
    unit: &mut MachineUnit<P, B>,
    machine: Machine,
    busy: bool,
) -> Result<TurnCall, SimFault>
    requires machine { (unit_table P.steps unit.old).machine ≡ machine }
    requires ready { UnitIsReady P.steps unit.old (desk_of bench.old).opening (desk_of bench.old).history }
    requires room { HasRoom notebook.old.counts }
    ensures turn { IfOk result (TakesBenchTurn P.steps B.rig B.make B.state busy
        bench.old bench.new unit.old unit.new notebook.old notebook.new) }
    ensures failed { OnErr result (Untouched
        (desk_of bench.old) (desk_of bench.new) (unit_side B.state unit.old) (unit_side B.state unit.new)
        (notes_of notebook.old) (notes_of notebook.new)) }
    ensures succeeds { HasSpare notebook.old → IsOk result }
    ensures stopped { (unit_side B.state unit.old).stopped ≢ None → IsOk result }
    ensures ready { UnitIsReady P.steps unit.new (desk_of bench.new).opening (desk_of bench.new).history }
    ensures program { unit_program unit.new ≡ unit_program unit.old }
    ensures make { B.make unit.new.part ≡ B.make unit.old.part }
{
    if unit.controller.stopped_by().is_some() {
        return Ok(None);
    }
    notebook.make_room()?;
    bench.seat(machine, busy);
    let asked = unit.turn(bench);
    notebook.note(asked)?;
    Ok(asked)
}
