//! Numbered draws: a number below 2^64 by seed, stream and number, in any order.
#![tactic(auto)]

mod choice;
mod draws;
mod source;
mod streams;

pub use choice::{every_number_is_picked, pick};
pub use draws::Draws;
pub use source::DrawSource;
pub use streams::Streams;
