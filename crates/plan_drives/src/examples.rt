//! Literal facts and programs of the press and of the lift of `plan_types`, with the motors of `plan_motors`.
ghost use Rattle.plan_drives.specs.Examples.{FactsAreRight, ProgramsAreRight, CoursesAreRight};
ghost use Rattle.plan_drives.specs.Examples.{ResumesAreRight};

/// What literal calls tell their machine.
pub fn facts_are_right()
    ensures { FactsAreRight }
{}

/// Literal programs that are accepted, and others: which of their motors lacks what.
pub fn programs_are_right()
    ensures { ProgramsAreRight }
{}

/// How far literal histories take a machine in its program.
pub fn courses_are_right()
    ensures { CoursesAreRight }
{}

/// Which machine is in step with a literal state at a line of its program, and which isn't.
pub fn resumes_are_right()
    ensures { ResumesAreRight }
{}
