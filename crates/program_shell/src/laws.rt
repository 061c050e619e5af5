//! Laws of programs' shells, each the contract of a function that does nothing.

ghost use Rattle.program_shell.specs.ShellExamples.{RunsAreMet, RunsMean, ShellIsMet};

/// Examples: the exit statuses, a fault's line, and which words ask for the version, and for help.
pub fn shell_is_met()
    ensures { ShellIsMet }
{}

/// Examples: what `serve` of a program may say of a run, by its exit status, and of a text that was
/// printed.
pub fn runs_are_met()
    ensures { RunsAreMet }
{}

/// What is said of a run is said of its own input and output, and what is said of a print of its text.
pub fn runs_mean()
    ensures { RunsMean }
{}
