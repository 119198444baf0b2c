//! Delays of timed activities: for a draw and a view of a marking, and the longest over all draws.
//! Each kind of distribution has a file of its own.
#![tactic(auto)]

mod delays;
mod det;
mod geometric;
mod laws;
mod tables;
#[cfg(test)]
mod tests;
mod uniform;
mod weighted;

pub use delays::{delay, longest};
pub use geometric::MAX_PARTS;
pub use laws::{geometric_delays_end, longest_delay_is_reached};
pub use san_expr::{Dist, Trap};
pub use tables::DelayTables;
pub use weighted::MAX_ENTRIES;
