//! What the words of a command line order.
#![tactic(auto)]

mod argument;
mod command;
mod matches;
mod options;
mod orders;
mod values;
mod words;

pub use options::{NumberOption, NumberRange};
pub use orders::{BatchOrders, FirstOrders, Heard, HeardBatch, HeardFirst, Made, Orders};
pub use words::{hear, hear_batch, hear_first, hear_plain};
