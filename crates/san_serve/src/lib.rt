//! What the programs that read a text have in common: the text is accepted or refused, it is read to
//! its end and served, and a line tells what went wrong.
#![tactic(auto)]

mod acceptance;
mod bound;
mod codes;
mod notes;
mod serve;
mod task;

pub use acceptance::{Accepted, NotAccepted, accept};
pub use bound::{Bound, model_bound};
pub use codes::{TEXT_TOO_LONG, TOO_MANY_ACTS, TOO_MANY_LEAVES, TOO_MANY_PLACES};
pub use notes::{conclude, end_with};
pub use serve::{serve_noted, serve_text_noted};
pub use task::{Served, Task};
