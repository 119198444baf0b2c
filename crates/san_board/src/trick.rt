//! What a board for tests may do to a call.

/// What is done to one call of a board; one that doesn't fit the call leaves it straight.
#[derive(Clone, Copy, Debug, PartialEq, Eq)]
pub enum Trick {
    /// The core's own answer.
    Straight,
    /// A read answers this value, and a snapshot has it everywhere.
    Stale(u32),
    /// A piece is late.
    TooLate,
    /// There is no memory.
    NoRoom,
    /// Nothing is claimed, cut or committed.
    Idle,
    /// The run has ended.
    Leave,
}
