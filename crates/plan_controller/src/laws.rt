//! Laws of controllers, each the contract of a function that does nothing.
ghost use Rattle.std.specs.Prelude.{Bool, ℕ};
ghost use Rattle.plan_types.specs.declared.answer.Refusal.{Refusal};
ghost use Rattle.plan_types.specs.declared.posture.Posture.{Posture};
ghost use Rattle.plan_controller.specs.declared.faults.Faults.{Faults};
ghost use Rattle.plan_controller.specs.Laws.{FaultsGrow, FaultsStop, FaultsStopTurns};
ghost use Rattle.plan_controller.specs.Laws.{LinesAreOfSteps, NamesAreWaitedFor, OwnersGoOn};
ghost use Rattle.plan_controller.specs.Laws.{PlacesGoRound, RunsAreDriven, SensorsHaveBits};
ghost use Rattle.plan_controller.specs.Turns.{Control, InStepGoesOn, RoundsBeginAnywhere};

/// A controller at its first step is in place, whatever its line has seen.
pub fn rounds_begin_anywhere()
    ensures { RoundsBeginAnywhere }
{}

/// A controller at a step where its machine is in step with the opening is in place, while none of the machine's calls
/// is done.
pub fn who_is_in_step_goes_on()
    ensures { InStepGoesOn }
{}

/// After each step comes the next one, and after the last the first.
pub fn places_go_round()
    ensures { (c : Control) → PlacesGoRound c }
{}

/// Each sensor shows by its own bit, whatever the others show.
pub fn sensors_have_bits()
    ensures { (i low high : ℕ) → SensorsHaveBits i low high }
{}

/// An inquiry leads on the machine that owns the zone, whichever it is, and no other.
pub fn owners_go_on()
    ensures { (m : ℕ) (plate : Bool) (q : Posture) → OwnersGoOn m plate q }
{}

/// A refusal that names a machine, a zone or a posture is one to wait for, whatever it names, and one fault of a line.
pub fn names_are_waited_for()
    ensures { NamesAreWaitedFor }
{}

/// A refusal that is a fault at a line stops its machine there, whatever it names; another one that others' calls may
/// mend leaves it at its line.
pub fn faults_stop()
    ensures outcomes { (r : Refusal) (faults : Faults) → FaultsStop r faults }
    ensures turns { FaultsStopTurns }
{}

/// Faults with one more have that one, and else the same.
pub fn faults_grow()
    ensures { (faults : Faults) → FaultsGrow faults }
{}

/// A step's line has its call, its zone and its motors.
pub fn lines_are_of_steps()
    ensures { LinesAreOfSteps }
{}

/// While sensors are read, a run has exactly its motors on until its sensor shows, and then none.
pub fn runs_are_driven()
    ensures { RunsAreDriven }
{}
