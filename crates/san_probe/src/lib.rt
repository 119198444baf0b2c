//! Stored measures: a number that a user's function gives for each marking, summed over a run, and
//! conditions on markings.
#![tactic(auto)]

mod gauge;
mod measured;
mod until;

pub use gauge::{Gauge, Measure, Reading};
pub use measured::{Watched, watch};
pub use until::{Asking, Condition, Until};
