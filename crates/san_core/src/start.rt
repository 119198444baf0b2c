//! Where a run begins, or goes on.

ghost use Rattle.std.specs.Prelude.{◌≡◌, ◌≤◌, ℕ, IfOk, map, take};
ghost use Rattle.san_base.specs.Limits.{IsInRange};
ghost use Rattle.san_law.specs.Network as network;
ghost use Rattle.san_law.specs.Opening.{opening_core};
ghost use Rattle.san_law.specs.Rates.{with_rates};
ghost use Rattle.san_leaf.specs.Pieces.{opened_state};
ghost use Rattle.san_net.specs.Network.{net_of};
ghost use Rattle.san_reward.specs.Running.{no_rates};
ghost use Rattle.san_core.specs.Committed.{StartsRun};
ghost use Rattle.san_net.specs.Runs.{net_at};

use crate::committed::Committed;
use san_base::{LeafId, Limits, NoMemory, Shared};
use san_leaf::{LeafState, first_state};
use san_net::Flat;
use san_reward::Tally;
use san_turn::Order;
use std::alloc::Global;
use std::marker::Model;

/// The committed part from which a run goes on: the leaves' states, the values of the shared places,
/// the order of needs, the tally, the burst, and how many events there were before.
#[derive(Drop)]
pub struct Start {
    pub states: Vec<Shared<LeafState>>,
    pub shared: Vec<u32>,
    pub order: Order,
    pub tally: Tally,
    pub burst: u32,
    pub events: u64,
}

impl Model for Start {
    ghost use Rattle.std.specs.Prelude.{None};
    ghost use Rattle.san_core.specs.Committed.{CommittedValue};
    ghost use Rattle.san_core.specs.inner.Held.{committed_by};

    ghost Value = { CommittedValue };

    ghost view = { λ s. committed_by s.states.items s.shared.items s.order s.tally s.burst s.events
        None };
}

/// The leaves' states before their first pieces.
fn first_states(alloc: Global, flat: &Flat) -> Result<Vec<Shared<LeafState>>, NoMemory>
    ensures { IfOk result (λ v. v.items ≡ map opened_state flat.now.parts) }
{
    let mut states = Vec::new(alloc);
    'leaves: for leaf in 0..flat.leaves() {
        let state = first_state(alloc, flat.part(LeafId(leaf)).get())?;
        states.push(Shared::new(alloc, state)?)?;
    }
    Ok(states)
}

/// The initial values of the shared places.
fn first_shared(alloc: Global, flat: &Flat) -> Result<Vec<u32>, NoMemory>
    ensures { IfOk result (λ v. v.items ≡ take flat.now.shared flat.now.initial) }
{
    let mut shared = flat.initial_marking(alloc)?;
    shared.truncate(flat.shared() as usize);
    Ok(shared)
}

/// One more owner of each state.
fn share_all(
    alloc: Global,
    states: &[Shared<LeafState>],
) -> Result<Vec<Shared<LeafState>>, NoMemory>
    ensures { IfOk result (λ v. v.items ≡ states.now) }
{
    let mut shares = Vec::with_capacity(alloc, states.len())?;
    'states: for state in states {
        shares.push(state.share()?)?;
    }
    Ok(shares)
}

impl Start {
    /// The start of a run at time 0, from the network's initial values.
    pub fn first(alloc: Global, flat: &Flat, limits: Limits) -> Result<Start, NoMemory>
        requires { IsInRange limits }
        ensures core { IfOk result (λ s. (draw : ℕ → ℕ → ℕ) (bounds : network.Limits) → s.core
            ≡ with_rates (map no_rates flat.now.parts) (opening_core (net_of flat.now draw
            bounds))) }
        ensures starts { IfOk result (λ s. (seed : ℕ) → StartsRun (net_at flat.now seed limits)
            flat.now s) }
    {
        flat.is_network();
        Ok(Start {
            states: first_states(alloc, flat)?,
            shared: first_shared(alloc, flat)?,
            order: Order::open(alloc, flat, limits.horizon)?,
            tally: Tally::open(alloc, flat, limits.horizon)?,
            burst: 0,
            events: 0,
        })
    }

    /// An equal start.
    pub fn copy(&self, alloc: Global) -> Result<Start, NoMemory>
        ensures { IfOk result (λ s. s ≡ self.now) }
    {
        Ok(Start {
            states: share_all(alloc, &self.states)?,
            shared: self.shared.to_vec(alloc)?,
            order: self.order.copy(alloc)?,
            tally: self.tally.copy(alloc)?,
            burst: self.burst,
            events: self.events,
        })
    }

    /// The committed part of a core that begins here.
    pub(crate) fn committed(self) -> Committed
        ensures { result ≡ self }
    {
        Committed {
            leaves: self.states,
            shared: self.shared,
            order: self.order,
            tally: self.tally,
            burst: self.burst,
            count: self.events,
            halt: None,
        }
    }
}
