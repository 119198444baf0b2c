//! The codes of the refusals that are found before a text is parsed and after its model is checked.

/// E01: more bytes than a model text may have.
pub const TEXT_TOO_LONG: u32 = 1;

/// E50: more leaves than a network may have.
pub const TOO_MANY_LEAVES: u32 = 50;

/// E51: more places than a network may have.
pub const TOO_MANY_PLACES: u32 = 51;

/// E52: more activities than a network may have.
pub const TOO_MANY_ACTS: u32 = 52;
