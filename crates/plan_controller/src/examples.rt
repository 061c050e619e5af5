//! What literal answers and sensors lead to.
ghost use Rattle.plan_controller.specs.Examples.{OutcomesAreRight, TurnsAreRight};
ghost use Rattle.plan_controller.specs.FaultExamples.{FaultsAreRight};

/// What literal answers lead to, and which literal sensors show.
pub fn outcomes_are_right()
    ensures { OutcomesAreRight }
{}

/// Which refusals are waited out at lines with literal faults.
pub fn faults_are_right()
    ensures { FaultsAreRight }
{}

/// Literal turns of small programs.
pub fn turns_are_right()
    ensures { TurnsAreRight }
{}
