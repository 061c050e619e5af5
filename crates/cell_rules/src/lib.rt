//! The sequential interlock.
#![tactic(auto)]

mod answers;
pub mod bench;
mod changes;
pub mod heard;
pub mod laws;
pub mod line;
pub mod maps;
pub mod places;
mod poses;
mod refusals;
mod same_for;
mod sound;
pub mod stamp;
pub mod start_digits;
pub mod state;
pub mod zones;

pub use answers::{answer, apply};
pub use bench::Bench;
pub use heard::{Answered, Heard, LineFault};
pub use line::{Line, Survey};
pub use places::Places;
pub use stamp::LAST_STAMP;
pub use start_digits::{PLACES, read_places};
pub use state::{MAX_PLATES, StartFault, State};
pub use zones::{ZoneState, Zones};
