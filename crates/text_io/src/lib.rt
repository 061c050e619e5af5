//! Bytes in and out: reads up to a limit, writes a text whole or a prefix of it, and a text of
//! limited length that allocates nothing.
#![tactic(auto)]

pub mod block;
pub mod input;
pub mod laws;
pub mod output;
pub mod page;

pub use block::Block;
pub use input::{InputFault, read_up_to};
pub use output::{WriteFault, flush, write_bytes, write_counted, write_text};
pub use page::Page;
