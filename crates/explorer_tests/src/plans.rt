//! Plans with as many machines as there may be, and long ways.

mod groups;
mod relay;
