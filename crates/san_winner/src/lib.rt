//! The least of a fixed number of keys, kept by a tree of matches: a key is set in steps as many as
//! the tree is high, and the least is at hand; and sets of numbers with their least one.
#![tactic(auto)]

mod flags;
mod matches;
mod winners;

pub use flags::Flags;
pub use matches::MAX_KEYS;
pub use san_base::NoMemory;
pub use winners::Winners;
