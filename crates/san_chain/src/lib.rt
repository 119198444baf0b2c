//! Pieces that go on one from another: a chain of what a leaf made ahead.
//!
//! | Call of `Chain` | Steps, of n pieces | Memory |
//! |---|---|---|
//! | `new`, `len`, `head`, `end`, `at` | 1 | none |
//! | `push` | 1, or a move of all | none where `spare` is 1 or more |
//! | `reserve` | 1, or a move of all | room for one more |
//! | `pop_front` | n | none |
//! | `cut` | the number of pieces cut | none |
#![tactic(auto)]

mod chain;

pub use chain::Chain;
