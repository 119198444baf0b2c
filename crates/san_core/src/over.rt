//! How a core stops.

ghost use Rattle.std.specs.Prelude.{◌≡◌, ℕ, IfSome, List};
ghost use Rattle.std.specs.Option.{option_map};
ghost use Rattle.san_law.specs.Step.{events_left, limit_by};
ghost use Rattle.san_core.specs.inner.Admits.{over_in};
ghost use Rattle.san_core.specs.inner.Stops.{TrapsAmong, TrapsIn, ending_by};

use san_base::{ActId, Ending, LeafId, Limits, Stop, Tick, Trap};

/// By a limit, or by a trap of a leaf's activity, which has this number in the leaf, and this one in
/// the network.
#[derive(Clone, Copy, Debug, PartialEq, Eq)]
pub(crate) enum Over {
    Unstable,
    Events,
    Trapped(LeafId, u32, ActId, Trap),
}

/// When a core stopped, and how.
#[derive(Clone, Copy, Debug, PartialEq, Eq)]
pub(crate) struct Halt {
    pub(crate) time: Tick,
    pub(crate) over: Over,
}

impl Halt {
    /// The ending, in the network's numbers.
    pub(crate) fn ending(&self) -> Ending
        ensures { (firsts : List ℕ) → TrapsAmong firsts self.now.over → result ≡ ending_by firsts
            self.now.time.0 (over_in self.now.over) }
    {
        match self.over {
            Over::Unstable => Ending::Stop(Stop::Unstable(self.time)),
            Over::Events => Ending::Stop(Stop::Events(self.time)),
            Over::Trapped(_, _, act, trap) => Ending::Stop(Stop::Trap(trap, self.time, act)),
        }
    }
}

/// What the event limit says of one more completion.
pub(crate) fn events_left(limits: &Limits, count: u64) -> Option<Over>
    ensures is { option_map over_in result ≡ events_left limits.now.events count }
    ensures of { (leaf first : ℕ) → IfSome result (TrapsIn leaf first) }
{
    if count < limits.events {
        None
    } else {
        Some(Over::Events)
    }
}

/// Which limit stops a further completion: of the burst first, then of the events.
pub(crate) fn limit_by(limits: &Limits, burst: u64, count: u64) -> Option<Over>
    ensures is { option_map over_in result ≡ limit_by limits.now.burst limits.now.events burst count }
    ensures of { (leaf first : ℕ) → IfSome result (TrapsIn leaf first) }
{
    if burst < u64::from(limits.burst) {
        events_left(limits, count)
    } else {
        Some(Over::Unstable)
    }
}
