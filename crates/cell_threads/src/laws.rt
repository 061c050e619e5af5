//! Laws of the turns of a worker, whichever its machine. Each is a function that does nothing: its
//! contract is the law.
ghost use Rattle.cell_unit.specs.Sides.{unit_rig, unit_table};
ghost use Rattle.cell_threads.specs.Laws.{TurnsAreTaken, WorkersEnd, WorkersTellTurns};
ghost use Rattle.cell_threads.specs.PromiseExamples.{PromisesAreTold, ReadyIsTold};
ghost use Rattle.cell_threads.specs.SixTold.{AnySixAreTold, AnyWatchedAreTold};
ghost use Rattle.cell_threads.specs.TeamExamples.{TeamsAreTold};

use crate::gate::Gate;
use crate::six_of::SixOf;
use crate::watching::Watching;
use crate::worker::Worker;
use cell_control::{Part, Program};
use cell_unit::MachineUnit;

/// With no turns, or with a gate that lets it begin none, a worker stays where it was. It takes no
/// more turns than it may, and none that its gate refuses. Each turn has at most one answer; if it
/// is settled, the journal has it. Each turn loses at most `tries` exchanges. In its first turn it
/// makes its step's call or none.
pub fn workers_tell_turns<P: Program, B: Part<Sense = P::Sense, Act = P::Act>>(
    _unit: &MachineUnit<P, B>,
)
    ensures { WorkersTellTurns (unit_table P.steps _unit.now) (unit_rig B.rig B.make _unit.now) }
{}

/// A worker's status is that of the fault that has stopped its machine. If none has, it is fine or
/// its gate refused. A literal journal has these counts.
pub fn workers_end<P: Program, B: Part<Sense = P::Sense, Act = P::Act>>(_unit: &MachineUnit<P, B>)
    ensures { WorkersEnd (unit_table P.steps _unit.now) (unit_rig B.rig B.make _unit.now) }
{}

/// A stopped machine takes no turn, nor does a machine that its gate refuses. After a busy call a
/// step waits; without memory for an entry the machine stops. A machine whose motors demand what
/// nothing meets stops.
pub fn turns_are_taken<P: Program, B: Part<Sense = P::Sense, Act = P::Act>>(
    _unit: &MachineUnit<P, B>,
)
    ensures { TurnsAreTaken (unit_table P.steps _unit.now) (unit_rig B.rig B.make _unit.now) }
{}

/// Examples of what six workers and a watch leave: whose field is whose, what a record tells of what
/// each gave back, how a worker may end, who is started, and the texts of the faults of runs.
#[tactic(auto, using(crate::proofs::TeamRows::teams_are_told))]
pub fn teams_are_told()
    ensures { TeamsAreTold }
{}

/// What a record says of any six workers, whatever the tries, the turns and the gate: each gave back
/// what it promises, by its machine's fresh pass; the record has what they left, and tells one legal
/// history. The same with a watch.
pub fn any_six_are_told<W1, W2, W3, W4, W5, W6, H, G>(
    _workers: &SixOf<W1, W2, W3, W4, W5, W6>,
    _watch: &H,
    _gate: &G,
)
where
    W1: Worker,
    W2: Worker,
    W3: Worker,
    W4: Worker,
    W5: Worker,
    W6: Worker,
    H: Watching,
    G: Gate,
    ensures six { AnySixAreTold W1.gives_back W2.gives_back W3.gives_back W4.gives_back W5.gives_back
        W6.gives_back (G.may_answer _gate.now) }
    ensures watched { AnyWatchedAreTold W1.gives_back W2.gives_back W3.gives_back W4.gives_back
        W5.gives_back W6.gives_back (G.may_answer _gate.now) H.watches }
{}

/// Examples of six workers that are ready, each by its machine's pass, and of six of which one isn't;
/// and what the promise of a worker says.
#[tactic(auto, using(crate::proofs::PromiseRows::promise_rows))]
pub fn promises_are_told()
    ensures ready { ReadyIsTold }
    ensures promises { PromisesAreTold }
{}
