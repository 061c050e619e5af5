//! The names of the production cell and its tables: machines, the zones that they share, the places
//! of plates, postures and poses, the calls of the interlock and their answers.
#![tactic(auto)]

pub mod answer;
pub mod call;
pub mod journal;
pub mod laws;
pub mod machine;
pub mod place;
pub mod pose;
pub mod posture;
pub mod reply;
pub mod tables;
mod words;
pub mod zone;

pub use answer::{Answer, Event, Refusal, owner_word_of};
pub use call::Call;
pub use journal::{Entry, Journals};
pub use machine::Machine;
pub use place::Place;
pub use pose::Pose;
pub use posture::Posture;
pub use reply::Reply;
pub use tables::{guest, host, keeper, own_move, posture_in, transfer};
pub use zone::{Transfer, Zone};
