//! The end of a machine's run.

ghost use Rattle.std.specs.Prelude.{◌≡◌, IfOk, Some};
ghost use Rattle.san_law.specs.Pieces.{outcome_of_core};
ghost use Rattle.san_core.specs.Machines.{core_in, net_in};
ghost use Rattle.san_core.specs.Nets.{outcome_in};
ghost use Rattle.san_core.specs.Redone.{IsSameRun};
ghost use Rattle.san_core.specs.inner.Stops.{ended_in};

use crate::machine::Machine;
use san_base::{Ending, NoMemory, Tick};
use san_turn::Need;
use std::alloc::Global;

/// A stop, or the horizon where the order needs nothing.
fn ended(stopped: Option<Ending>, need: Need, horizon: Tick) -> Option<Ending>
    ensures { result ≡ ended_in stopped need horizon }
{
    match stopped {
        Some(ending) => Some(ending),
        None => match need {
            Need::End => Some(Ending::End(horizon)),
            Need::Settle(_) | Need::Refresh(_) | Need::Fire(_, _, _) => None,
        },
    }
}

impl Machine {
    /// When and how the run ended; none while it goes on.
    pub fn outcome(&self) -> Option<Ending>
        ensures { result
            ≡ outcome_in self.now.network (outcome_of_core (net_in self.now) (core_in self.now)) }
    {
        ended(self.held.stopped(), self.held.need(), self.limits.horizon)
    }

    /// Takes the needed pieces until the run has ended. Without memory it has taken some of them.
    pub fn finish(&mut self, alloc: Global) -> Result<Ending, NoMemory>
        ensures run { IsSameRun self.old self.new }
        ensures ended { IfOk result (λ e. Some e
            ≡ outcome_in self.new.network (outcome_of_core (net_in self.new) (core_in self.new))) }
    {
        'pieces: loop {
            if let Some(ending) = self.outcome() {
                return Ok(ending);
            }
            self.take_needed(alloc)?;
        }
    }
}
