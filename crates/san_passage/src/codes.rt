//! The code of the refusal that is found after a text is accepted.

/// E56: the network has no place of the number that is looked at.
pub const NO_SUCH_PLACE: u32 = 56;
