//! The timestamped versions of a shared place: what each reader sees of them, over its committed
//! value.
//!
//! | Call of `Line` | Steps, of n versions | Memory |
//! |---|---|---|
//! | `open`, `set` | 1 | none |
//! | `at` | the logarithm of n, and the reader's own later versions at its time | none |
//! | `later` | the logarithm of n, and the own versions above the time | none |
//! | `put` | the logarithm of n, and a move of what comes behind | none where `spare` is 1 or more |
//! | `reserve` | 1, or a move of all | room for one more |
//! | `withdraw`, `remove`, `commit` | n | none |
#![tactic(auto)]

mod line;
mod version;

pub use line::Line;
pub use version::Version;
