//! Where a machine rests, so that another goes on from there.

ghost use Rattle.std.specs.Prelude.{◌≡◌, None, drop};
ghost use Rattle.san_base.specs.declared.limits.Limits as bounds;
ghost use Rattle.san_law.specs.Pieces.{pieces};
ghost use Rattle.san_net.specs.Runs.{limits_in, net_at};
ghost use Rattle.san_core.specs.Committed.{StartsRun};
ghost use Rattle.san_core.specs.Machines.{net_in};

use crate::machine::Machine;
use crate::start::Start;
use san_base::Event;

/// The events since the last start, and the start from which the run goes on.
#[derive(Drop)]
pub struct Rest {
    pub events: Vec<Event>,
    pub start: Start,
}

impl Machine {
    /// Hands out the events, and the committed part as a start of the same run: its pieces are the
    /// rest of the run's. A run of other limits with the same horizon, burst and number of events
    /// goes on from it too. It takes no memory.
    pub fn resume(self) -> Rest
        requires { self.held.core.stop ≡ None }
        ensures events { result.events.items ≡ self.events }
        ensures start { result.start ≡ self.held }
        ensures starts { (limits : bounds.Limits) → limits_in limits ≡ limits_in self.limits
            → StartsRun (net_at self.network self.seed limits) self.network result.start }
        ensures pieces { pieces (net_in self) result.start.core
            ≡ drop self.taken (pieces (net_in self) self.start.core) }
    {
        self.flat.get().is_network();
        let Machine { held, events, .. } = self;
        Rest {
            events,
            start: held.into_start(),
        }
    }
}
