//! What the pieces of work that a leaf makes ahead are known by: their kinds, stamps and chains.

ghost use Rattle.std.specs.Prelude.{◌≡◌};

use crate::numbers::{ActId, LeafId, Tick};

/// What a piece does: a timer's activity completes, instantaneous activities complete, or the
/// leaf's timers are renewed.
#[derive(Clone, Copy, Debug, PartialEq, Eq)]
pub enum Kind {
    Fire(ActId),
    Settle,
    Refresh,
}

/// Where a reader of timestamped values stands: its time, its leaf, and the number of its piece.
/// With `all` it sees what other leaves write at this time too.
#[derive(Clone, Copy, Debug, PartialEq, Eq)]
pub struct Stamp {
    pub time: Tick,
    pub leaf: LeafId,
    pub pos: u64,
    pub all: bool,
}

/// What stands in a chain: it goes from one state to another.
pub trait Linked: Drop {
    type State;

    ghost base: { Self → Self.State };

    ghost end: { Self → Self.State };

    /// The state that it begins with.
    fn base(&self) -> &Self::State
        ensures { result.now ≡ base self.now };

    /// The state that it leaves.
    fn end(&self) -> &Self::State
        ensures { result.now ≡ end self.now };
}
