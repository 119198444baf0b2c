//! A whole run, one needed piece after another in one thread.

ghost use Rattle.std.specs.Prelude.{◌≡◌, IfOk, Some, map};
ghost use Rattle.san_base.specs.Limits.{IsInRange};
ghost use Rattle.san_law.specs.Opening.{opening_core};
ghost use Rattle.san_law.specs.Pieces.{outcome_of_core};
ghost use Rattle.san_law.specs.Rates.{with_rates};
ghost use Rattle.san_net.specs.Runs.{net_at};
ghost use Rattle.san_reward.specs.Running.{no_rates};
ghost use Rattle.san_core.specs.Machines.{core_in, net_in};
ghost use Rattle.san_core.specs.Nets.{outcome_in};
ghost use Rattle.san_core.specs.Whole.{IsWholeRun};

use crate::machine::Machine;
use crate::start::Start;
use san_base::{Ending, Event, Limits, NoMemory, Shared};
use san_net::Flat;
use san_reward::Tally;
use std::alloc::Global;

/// A whole run: its events in order, when and how it ended, and what its rewards have counted.
#[derive(Drop)]
pub struct Ran {
    pub events: Vec<Event>,
    pub ending: Ending,
    pub tally: Tally,
}

impl Machine {
    /// The whole run of a machine that began with the run and has ended.
    fn into_ran(self, ending: Ending) -> Ran
        requires first { self.start.core
            ≡ with_rates (map no_rates self.network.parts) (opening_core (net_in self)) }
        requires ended { Some ending
            ≡ outcome_in self.network (outcome_of_core (net_in self) (core_in self)) }
        ensures { IsWholeRun (net_in self) self.network result.events.items result.ending result.tally }
    {
        self.flat.get().is_network();
        self.held.has_a_stop_before_the_end();
        let Machine { held, events, .. } = self;
        Ran {
            events,
            ending,
            tally: held.into_tally(),
        }
    }
}

/// The run of a network from its initial values, by the needed piece each time: its events and its
/// ending are those of the steps of the run, and its rewards are worth the same.
pub fn run_order(
    alloc: Global,
    flat: &Shared<Flat>,
    seed: u64,
    limits: Limits,
) -> Result<Ran, NoMemory>
    requires { IsInRange limits }
    ensures { IfOk result (λ r. IsWholeRun (net_at flat.now seed limits) flat.now r.events.items
        r.ending r.tally) }
{
    let start = Start::first(alloc, flat.get(), limits)?;
    let mut machine = Machine::open(alloc, flat.share()?, seed, limits, start)?;
    let ending = machine.finish(alloc)?;
    Ok(machine.into_ran(ending))
}
