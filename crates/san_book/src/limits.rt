//! The limits of a core and of its journal.

/// The steps of a journal from which on no leaf is claimed any more.
pub const MAX_STEPS_TO_CLAIM: u64 = 1_048_576;

/// The events after which a core rests.
pub const MAX_STRETCH_EVENTS: u64 = 4_096;

/// The pieces after which a core rests.
pub const MAX_STRETCH_PIECES: u64 = 65_536;

/// The pieces that one step commits at most.
pub const MAX_COMMIT: u32 = 64;

/// The steps that no journal of a stretch comes to have more of.
pub const MAX_JOURNAL: u64 = 1_400_000;
