//! The parts of the plant: what a controller moves, and what its sensors show. Lengths are in
//! tenths of a millimetre, angles in tenths of a degree.

pub mod crane;
pub mod deposit;
pub mod feed;
pub mod press;
pub mod robot;
pub mod table;

pub use crane::CranePart;
pub use deposit::DepositPart;
pub use feed::FeedPart;
pub use press::PressPart;
pub use robot::RobotPart;
pub use table::TablePart;
