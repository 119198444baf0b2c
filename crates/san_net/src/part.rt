//! The parts of a network: its leaves with their slots, and its rewards.

ghost use Rattle.std.specs.Prelude.{◌≡◌};
ghost use Rattle.san_net.specs.Laid.{place_of};

use crate::atomic::Atomic;
use san_base::{ActId, LeafId, Name, PlaceId, Same, Shared, Tick};
use sqlite_items::Items;

/// The rewards of the network with the most of them.
pub const MAX_REWARDS: usize = 64;

/// The place of the network that a leaf's cell is, and whether other leaves have it too.
#[derive(Clone, Copy, Debug, PartialEq, Eq)]
pub enum Slot {
    Private(PlaceId),
    Shared(PlaceId),
}

/// A leaf of a network: its number, the number of its first activity, its atomic, a place for each
/// cell.
#[derive(Drop)]
pub struct Part {
    pub leaf: LeafId,
    pub first: ActId,
    pub atomic: Shared<Atomic>,
    pub slots: Items<Slot>,
}

/// The ticks over which a reward counts, from the first to before the second.
#[derive(Clone, Copy, Debug, PartialEq, Eq)]
pub enum Span {
    Over(Tick, Tick),
    /// The sum is shown with the number of ticks.
    Mean(Tick, Tick),
    /// The end of one tick.
    At(Tick),
}

/// A reward on all instances of an atomic.
#[derive(Debug, Drop)]
pub struct Reward {
    pub name: Name,
    pub atomic: u32,
    pub span: Span,
}

impl Slot {
    /// The place, private or shared.
    pub fn place(&self) -> PlaceId
        ensures { result.0 ≡ place_of self.now }
    {
        match self {
            Slot::Private(place) | Slot::Shared(place) => *place,
        }
    }
}

impl Same for Slot {
    fn same(&self, other: &Slot) -> bool {
        self == other
    }
}

impl Same for Span {
    fn same(&self, other: &Span) -> bool {
        self == other
    }
}

impl Same for Reward {
    fn same(&self, other: &Reward) -> bool {
        self.name.same(&other.name) && self.atomic == other.atomic && self.span == other.span
    }
}

impl Same for Part {
    fn same(&self, other: &Part) -> bool {
        self.leaf == other.leaf
            && self.first == other.first
            && self.atomic.get().same(other.atomic.get())
            && self.slots.same(&other.slots)
    }
}
