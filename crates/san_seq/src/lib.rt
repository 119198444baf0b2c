//! The sequential run of a model: one step at a time, or the whole trajectory.
//!
//! What a step costs, with n leaves in the network:
//!
//! | Part of it | Costs |
//! |---|---|
//! | the next instantaneous activity | a test of the leaf that completed last, and for each place that has another value than at the last stable point one of each leaf with an arc whose weight this crosses, or with a gate that names it, up to the first that has something; where few leaves are awake, of these in place of the band's, which takes log n each; before the first timer fires, a test of each leaf |
//! | renewal | that of each leaf whose timers hang on such an arc or gate |
//! | the timer that is due first | looked up; log n for each leaf whose least timer has changed |
//! | the last stable marking | a copy of each value that has changed |
//! | which leaves are asleep | a test of each leaf that was renewed, and log n where it falls asleep |
//! | a completion | a copy of its leaf's cells, and for each of them that has changed a flag, a test of each weight of timers' arcs there, and a flag for each leaf of those that are crossed; log n where the leaf wakes |
#![tactic(auto)]

mod bands;
mod completion;
mod concern;
mod laws;
mod next;
mod renewal;
mod rows;
mod seq;
mod stale;
mod state;
mod step;
mod steps;
mod wakes;

pub use laws::{
    a_run_comes_to_its_end, events_are_the_first, events_are_the_laws, events_come_in_time,
};
pub use seq::Seq;
pub use steps::{Stable, Stepped, Trajectory};
