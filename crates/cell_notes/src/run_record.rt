//! What every run gives back, whether in turns or by threads, for reports and audits.

use crate::counts::Counts;
use crate::status::Status;
use cell_rules::State;
use cell_types::Journals;

/// The record of a run. The arrays are in the order of `Machine::ALL`. The axes are in the order
/// press, first arm, second arm, robot rotation, table height, table rotation, crane, gripper.
#[derive(Debug, Drop)]
pub struct RunRecord {
    /// The state that the run began with.
    pub start: State,
    /// Each machine's counts.
    pub counts: [Counts; 7],
    /// Each machine's status at the end.
    pub status: [Status; 7],
    /// Each machine's calls that were settled.
    pub journals: Journals,
    /// The state at the end, if it is known.
    pub end: Option<State>,
    /// The positions of the axes at the end, in tenths of a millimetre or of a degree.
    pub axes: [i32; 8],
}
