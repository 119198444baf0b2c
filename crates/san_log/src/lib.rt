//! What a piece of work read of the places that several leaves share: the first value of each.
//!
//! | Call of `ReadLog` | Steps, of n entries | Memory |
//! |---|---|---|
//! | `new` | 1 | 8 bytes for each place of its room |
//! | `note`, `get` | n | none |
//! | `entry`, `len` | 1 | none |
//! | `agrees` | n | none |
#![tactic(auto)]

mod log;

pub use log::ReadLog;
