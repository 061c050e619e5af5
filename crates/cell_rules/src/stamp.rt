//! The limit of the stamp, which counts the changes of a state.

/// The last stamp. No call is Done at it.
pub const LAST_STAMP: u32 = 1_048_575;
