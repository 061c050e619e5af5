//! Plans with names, and calls and answers by these names.
#![tactic(auto)]

pub mod answers;
pub mod calls;
pub mod history;
pub mod laws;
pub mod named_plan;
pub mod names;
pub mod opening;
pub mod reason;
pub mod replay;
pub mod request;
pub mod script;
pub mod start;
pub mod words;

pub use csv_rows::{MAX_RECORDS, Outcome, ScriptFault};
pub use history::script_of;
pub use named_plan::NamedPlan;
pub use names::{MAX_NAMES, Names};
pub use opening::start_of_script;
pub use replay::answer_script;
pub use script::ScriptAnswers;
