//! The sums of many runs' numbers: of each reward how many there are, their sum, the sum of their
//! squares, the least and the greatest.
#![tactic(auto)]

mod batch;
mod places;
mod summary;

pub use batch::{Batch, MAX_RUNS};
pub use summary::{MAX_SQUARED, Squares, Summary};
