//! The value of a reward's term.

/// The value of a reward's term.
#[derive(Clone, Copy, Debug, PartialEq, Eq)]
pub enum Rated {
    Value(i64),
    /// It traps, or is out of its bounds.
    Fault,
}
