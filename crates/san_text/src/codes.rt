//! The codes of the faults of tokens and of the grammar.

/// A byte begins no token.
pub(crate) const BAD_BYTE: u32 = 3;

/// A number is above the greatest one.
pub(crate) const NUMBER_TOO_LARGE: u32 = 4;

/// A name or keyword is longer than a name may be.
pub(crate) const NAME_TOO_LONG: u32 = 5;

/// A token isn't legal where it stands, or the text ends too early.
pub(crate) const ILLEGAL_TOKEN: u32 = 6;

/// A brace is opened inside too many others.
pub(crate) const TOO_MANY_BRACES: u32 = 7;

/// An expression has too many tokens.
pub(crate) const EXPRESSION_TOO_LONG: u32 = 8;

/// The version is none of those that are read.
pub(crate) const UNKNOWN_VERSION: u32 = 9;
