//! What an order of needs answers, and what it needs of a taken piece.

use san_base::{ActId, Kind, LeafId, PlaceId, Tick};

/// The piece that comes next: a leaf's own instantaneous completions, the renewal of its timers, or
/// the completion of an activity at the tick at which its timer is due; or none.
#[derive(Clone, Copy, Debug, PartialEq, Eq)]
pub enum Need {
    Settle(LeafId),
    Refresh(LeafId),
    Fire(LeafId, ActId, Tick),
    End,
}

/// What an order has to know of a piece that was taken: its kind and time in ticks, the places that
/// it wrote, the leaf's least timer after it, and whether it ended for its length alone.
#[derive(Debug, Drop)]
pub struct Taken {
    pub kind: Kind,
    pub time: Tick,
    pub written: Vec<PlaceId>,
    pub due: Option<(Tick, ActId)>,
    pub more: bool,
}
