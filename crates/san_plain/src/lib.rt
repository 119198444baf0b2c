//! The sequential run of a network, shown as its report: a line for each completion, one for the
//! ending, one for each reward.
#![tactic(auto)]

mod account;
mod cells;
mod counted;
mod impulses;
mod measured;
mod rated;
mod rates;
mod run;

pub use measured::measure;
pub use run::{Run, Unwritten};
