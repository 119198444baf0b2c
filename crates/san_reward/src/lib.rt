//! The running sums of a run's rewards: rates for whole stretches of ticks, impulses at the present
//! time, and what each reward is worth at the end.
#![tactic(auto)]

mod bounds;
mod cells;
mod copy;
mod examples;
mod laws;
mod leaves;
mod present;
mod rate;
mod same;
mod tally;
mod worth;
mod zeros;

pub use examples::{a_fault_in_a_reward, three_rewards};
pub use laws::{
    a_tally_counts_its_networks_rewards, an_opened_tally_is_of_its_network,
    impulses_are_those_of_the_event, worths_are_small,
};
pub use san_base::{Rated, rated};
pub use tally::Tally;
pub use worth::Worth;
