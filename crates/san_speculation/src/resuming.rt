//! Where a core rests, so that another goes on from there.

ghost use Rattle.std.specs.Prelude.{◌≡◌, None, drop};
ghost use Rattle.san_base.specs.declared.limits.Limits as bounds;
ghost use Rattle.san_core.specs.Committed.{StartsRun};
ghost use Rattle.san_core.specs.Machines.{net_in};
ghost use Rattle.san_law.specs.Pieces.{pieces};
ghost use Rattle.san_net.specs.Runs.{limits_in, net_at};

use crate::speculation::Core;
use san_core::Rest;

impl Core {
    /// Hands out the committed events, and the committed part as a start of the same run: its pieces
    /// are the rest of the run's. What was made ahead is thrown away. A run of other limits with the
    /// same horizon, burst and number of events goes on from it too. It takes no memory.
    pub fn resume(self) -> Rest
        requires { self.machine.held.core.stop ≡ None }
        ensures events { result.events.items ≡ self.machine.events }
        ensures start { result.start ≡ self.machine.held }
        ensures starts { (limits : bounds.Limits) → limits_in limits ≡ limits_in self.machine.limits
            → StartsRun (net_at self.machine.network self.machine.seed limits) self.machine.network
            result.start }
        ensures pieces { pieces (net_in self.machine) result.start.core
            ≡ drop self.machine.taken (pieces (net_in self.machine) self.machine.start.core) }
    {
        let Core { machine, .. } = self;
        machine.resume()
    }
}
