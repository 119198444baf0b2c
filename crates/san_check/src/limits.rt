//! What a text may ask for at most.

use san_base::MAX_HORIZON;

/// The entries of a table of delays.
pub(crate) const MAX_ENTRIES: usize = 64;

/// The copies of a replicate.
pub(crate) const MAX_COPIES: u64 = 4096;

/// The greatest number of a geometric delay.
pub(crate) const MAX_GEOMETRIC: u64 = 1000;

/// The greatest number of a word, a place, a cell or a copy; no text that is read comes near.
pub(crate) const MAX_COUNT: u32 = 4_294_967_295;

/// The tick at which the longest interval of a reward ends, which it doesn't have.
pub(crate) const MAX_END: u64 = MAX_HORIZON + 1;
