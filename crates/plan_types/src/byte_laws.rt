//! Laws, each the contract of a function that does nothing.
ghost use Rattle.plan_types.specs.ByteExamples.{BytesAreRight};

/// The press, the lift, zones with one way, and tables in which all numbers are different have these literal bytes.
/// Each pose of the press and of the lift has a row for ten zones; one with nine or eleven isn't whole.
pub fn bytes_are_right()
    ensures { BytesAreRight }
{}
