//! What is done to a core.

use san_base::{Kind, LeafId, PlaceId, Tick};

/// What a worker did to a core, or the caller, who is worker 0. A call that changes nothing is no step.
#[derive(Clone, Copy, Debug, PartialEq, Eq)]
pub enum Step {
    /// Took the planned piece of a leaf upon itself.
    Claim {
        worker: u32,
    },
    /// Read a value for the claimed piece.
    Read {
        worker: u32,
        place: PlaceId,
        value: u32,
    },
    /// Put the claimed piece at the end of its leaf's chain.
    Publish {
        worker: u32,
        kind: Kind,
        time: Tick,
    },
    /// Gave its claim up, as the chain had changed.
    Late {
        worker: u32,
    },
    /// Threw away the end of a leaf's chain, from the first piece that read another value.
    Cut {
        worker: u32,
        leaf: LeafId,
    },
    /// Committed so many pieces, one after another.
    Commit {
        worker: u32,
        pieces: u32,
    },
    /// Made the needed piece anew and committed it.
    Redo {
        worker: u32,
    },
}
