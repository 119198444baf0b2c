//! Which piece each leaf comes to next, over a machine and what is made ahead of it.
#![tactic(auto)]

mod plan;
mod planning;
mod waiting;

pub use plan::Plan;
pub use planning::next_plan;
