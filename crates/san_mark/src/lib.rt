//! What a piece of work knows of its leaf's cells: a value for each cell that was assigned or read.
//!
//! | Call of `Overlay` | Steps, of n cells | Memory |
//! |---|---|---|
//! | `new` | n | 8 bytes a cell |
//! | `of`, `get`, `set`, `as_slice` | 1 | none |
//! | `clear`, `take_over` | n | none |
#![tactic(auto)]

mod overlay;

pub use overlay::Overlay;
