//! The order of needs: which piece of which leaf comes next, and what a taken piece changes of that.
//!
//! | Call of `Order`, of n leaves | Steps | Memory |
//! |---|---|---|
//! | `open`, `copy` | n, and n times the logarithm of n | the order's lists, of n leaves |
//! | `need`, `is_unsettled`, `is_stale` | the logarithm of n | none |
//! | `time`, `is_going` | 1 | none |
//! | `took` | the logarithm of n for the leaf and for each leaf of each written place | none |
//! | `same` | n times the logarithm of n | none |
#![tactic(auto)]

mod laws;
mod marks;
mod need;
mod order;
mod timers;

pub use laws::{
    a_block_changes_the_order, a_renewal_changes_the_order, a_taken_piece_changes_the_order,
};
pub use need::{Need, Taken};
pub use order::Order;
