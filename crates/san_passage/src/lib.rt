//! First passage: when a condition first holds in a stable marking of a run, and over many runs.
#![tactic(auto)]

mod codes;
mod condition;
mod passage;
mod running;
mod text;
mod totals;
mod words;
mod worker;

pub use codes::NO_SUCH_PLACE;
pub use condition::AtLeast;
pub use passage::{Passage, first_passage};
pub use running::passages;
pub use text::passages_text;
pub use totals::Passages;
pub use words::first_words;
pub use worker::Seeds;
