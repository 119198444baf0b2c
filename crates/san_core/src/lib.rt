//! The core: its committed part, which takes the pieces that the run needs one after another.
#![tactic(auto)]

mod admission;
mod committed;
mod committed_view;
mod ending;
mod impulses;
mod machine;
mod maker;
mod needed;
mod news;
mod order;
mod over;
mod readers;
mod redoing;
mod rest;
mod start;
mod taking;
mod writing;

pub use admission::Taking;
pub use machine::Machine;
pub use order::{Ran, run_order};
pub use redoing::Redoing;
pub use rest::Rest;
pub use start::Start;
