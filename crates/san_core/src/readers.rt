//! What a machine holds, and whose run it follows.

ghost use Rattle.std.specs.Prelude.{◌≡◌, ◌<◌, ◌↔◌, IsTrue, None, length};
ghost use Rattle.san_law.specs.Core.{leaf_of};

use crate::machine::Machine;
use crate::start::Start;
use san_base::{LeafId, Limits, Shared, all_same};
use san_leaf::{LeafState, same_state};
use san_net::Flat;
use san_turn::Order;

/// Whether two lists have the same states.
fn same_states(a: &[Shared<LeafState>], b: &[Shared<LeafState>]) -> bool
    ensures { IsTrue result ↔ (a.now ≡ b.now) }
{
    if a.len() != b.len() {
        return false;
    }
    for (at, state) in a.iter().enumerate() {
        if !same_state(state.get(), b[at].get()) {
            return false;
        }
    }
    true
}

impl Start {
    /// Whether both are equal.
    pub fn same(&self, other: &Start) -> bool
        ensures { IsTrue result ↔ (self.now ≡ other.now) }
    {
        self.burst == other.burst
            && self.events == other.events
            && all_same(&self.shared, &other.shared)
            && same_states(&self.states, &other.states)
            && self.order.same(&other.order)
            && self.tally.same(&other.tally)
    }
}

impl Machine {
    /// The network.
    pub fn network(&self) -> &Flat
        ensures { result.now ≡ self.now.network }
    {
        self.flat.get()
    }

    /// The seed.
    pub fn seed(&self) -> u64
        ensures { result ≡ self.now.seed }
    {
        self.seed
    }

    /// The limits.
    pub fn limits(&self) -> Limits
        ensures { result ≡ self.now.limits }
    {
        self.limits
    }

    /// How many pieces it took since its start.
    pub fn taken(&self) -> u64
        ensures { result ≡ self.now.taken }
    {
        self.taken
    }

    /// The committed values of the shared places.
    pub fn shared(&self) -> &[u32]
        ensures { result.now ≡ self.now.held.core.shared }
    {
        self.held.shared.as_slice()
    }

    /// The committed state of a leaf.
    pub fn state(&self, leaf: LeafId) -> &Shared<LeafState>
        requires { leaf.0 < length self.now.held.core.leaves }
        ensures { result.now ≡ leaf_of self.now.held.core leaf.0 }
    {
        &self.held.leaves[leaf.0 as usize]
    }

    /// The order of needs, while the run goes on.
    pub fn order(&self) -> &Order
        requires { self.now.held.core.stop ≡ None }
        ensures { result.now.order ≡ self.now.held.core.order }
    {
        self.held.order()
    }

    /// Whether it follows the run of a network with a seed and limits, from this start on.
    pub fn is_of(&self, flat: &Flat, seed: u64, limits: &Limits, start: &Start) -> bool
        ensures { IsTrue result ↔ ((self.now.network ≡ flat.now) × (self.now.seed ≡ seed)
            × (self.now.limits ≡ limits.now) × (self.now.start ≡ start.now)) }
    {
        self.seed == seed
            && self.limits == *limits
            && self.start.same(start)
            && self.flat.get().same(flat)
    }
}
