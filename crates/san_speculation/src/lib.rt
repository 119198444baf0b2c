//! The speculative core: a machine, and the book of what is made ahead of it.
#![tactic(auto)]

mod board;
mod booking;
mod claim;
mod claiming;
mod commit;
mod committing;
mod counting;
mod cut;
mod need;
mod opening;
mod publish;
mod publishing;
mod pushing;
mod reading;
mod redo;
mod resuming;
mod retaking;
mod snapshot;
mod soonest;
mod speculation;
mod step;

pub use board::{Board, Closed};
pub use counting::Counts;
pub use publishing::Publishing;
pub use snapshot::Snapshot;
pub use speculation::Core;
pub use step::Step;
