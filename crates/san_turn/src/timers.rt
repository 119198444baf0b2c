//! The leaves' least timers, with the least of them all at hand.

ghost use Rattle.std.specs.Option.{option_map};
ghost use Rattle.std.specs.Prelude.{◌≡◌, ◌↔◌, ◌<◌, ◌+◌, ◌-◌, ℕ, List, Option, IfOk, IsTrue, None, length, map, replicate, slice_index, slice_index_or, slice_set};
ghost use Rattle.san_law.specs.Renewal.{least_from};
ghost use Rattle.san_turn.specs.inner.Timed.{due_in, with_due};

use san_base::{ActId, LeafId, NoMemory, Tick, all_same};
use san_net::Flat;
use san_winner::Winners;
use std::alloc::{AllocError, Global};
use std::marker::Model;

/// A timer: when it is due, its leaf, and its activity by the network's number.
#[derive(Clone, Copy, Debug)]
pub(crate) struct Due {
    pub(crate) time: Tick,
    pub(crate) leaf: LeafId,
    pub(crate) act: ActId,
}

/// Each leaf's least timer, with the numbers of the leaves' first activities. Activities are kept
/// by the network's numbers.
#[derive(Debug, Drop)]
pub(crate) struct Timers {
    keys: Winners,
    firsts: Vec<u32>,
    acts: Vec<u32>,
}

impl Model for Timers {
    ghost use Rattle.std.specs.Prelude.{◌≡◌, ◌<◌, ◌^◌, length};
    ghost use Rattle.san_turn.specs.inner.Timed.{AreTimers, TimersValue, timed};

    ghost Value = { TimersValue };

    ghost view = { λ t.
        record { dues = timed t.firsts.items t.acts.items 0 t.keys; firsts = t.firsts.items } };

    ghost invariant = { λ t. AreTimers t.keys t.firsts.items t.acts.items };
}

/// An activity's number in the network, which is not below that of its leaf's first one.
fn number_of(first: u32, act: u32) -> u32
    ensures { result ≡ first + (act - first) }
{
    if act < first { first } else { act }
}

/// The numbers of the leaves' first activities.
fn firsts_of(alloc: Global, flat: &Flat) -> Result<Vec<u32>, AllocError>
    ensures { IfOk result (λ v. v.items ≡ map (λ p. p.first.0) flat.now.parts) }
{
    let mut firsts = Vec::new(alloc);
    'leaves: for leaf in 0..flat.leaves() {
        let part = flat.part(LeafId(leaf)).get();
        firsts.push(part.first.0)?;
    }
    Ok(firsts)
}

impl Timers {
    /// No leaf has a timer.
    pub(crate) fn open(alloc: Global, flat: &Flat) -> Result<Timers, NoMemory>
        ensures { IfOk result (λ t. t ≡ record {
          dues = replicate (length flat.now.parts) None;
          firsts = map (λ p. p.first.0) flat.now.parts;
        }) }
    {
        let keys = Winners::open(alloc, flat.leaves() as usize)?;
        let firsts = firsts_of(alloc, flat)?;
        let acts = firsts.to_vec(alloc)?;
        Ok(Timers { keys, firsts, acts })
    }

    /// The number of leaves.
    pub(crate) fn len(&self) -> usize
        ensures { result ≡ length self.now.dues }
    {
        self.keys.len()
    }

    /// The least timer, for equal times the first leaf's.
    #[tactic(auto, using(crate::proofs::Timed::least_below))]
    pub(crate) fn least(&self) -> Option<Due>
        ensures { result ≡ option_map (due_in self.now.firsts) (least_from 0 self.now.dues) }
    {
        match self.keys.least() {
            None => None,
            Some((time, leaf)) => Some(Due {
                time: Tick(time),
                leaf: LeafId(leaf as u32),
                act: ActId(number_of(self.firsts[leaf], self.acts[leaf])),
            }),
        }
    }

    /// A leaf's least timer, its activity by its number in the leaf.
    fn get(&self, leaf: usize) -> Option<(u64, u32)>
        requires { leaf < length self.now.dues }
        ensures { result ≡ slice_index_or self.now.dues leaf None }
    {
        match self.keys.get(leaf) {
            None => None,
            Some(time) => Some((time, self.acts[leaf].saturating_sub(self.firsts[leaf]))),
        }
    }

    /// Sets a leaf's least timer.
    pub(crate) fn set(&mut self, leaf: LeafId, due: Option<(Tick, ActId)>)
        requires { leaf.0 < length self.old.dues }
        ensures { self.new ≡ with_due self.old leaf.0 due }
    {
        match due {
            None => self.keys.set(leaf.0 as usize, None),
            Some((time, act)) => {
                self.acts[leaf.0 as usize] = act.0;
                self.keys.set(leaf.0 as usize, Some(time.0));
            }
        }
    }

    /// Equal timers.
    pub(crate) fn copy(&self, alloc: Global) -> Result<Timers, NoMemory>
        ensures { IfOk result (λ t. t ≡ self.now) }
    {
        let mut keys = Winners::open(alloc, self.keys.len())?;
        'leaves: for leaf in 0..self.keys.len() {
            keys.set(leaf, self.keys.get(leaf));
        }
        let firsts = self.firsts.to_vec(alloc)?;
        let acts = self.acts.to_vec(alloc)?;
        Ok(Timers { keys, firsts, acts })
    }

    /// Whether both have the same least timer for each leaf.
    fn same_dues(&self, other: &Timers) -> bool
        requires { length self.now.dues ≡ length other.now.dues }
        ensures { IsTrue result ↔ (self.now.dues ≡ other.now.dues) }
    {
        'leaves: for leaf in 0..self.len() {
            if self.get(leaf) != other.get(leaf) {
                return false;
            }
        }
        true
    }

    /// Whether both are equal.
    pub(crate) fn same(&self, other: &Timers) -> bool
        ensures { IsTrue result ↔ (self.now ≡ other.now) }
    {
        self.len() == other.len() && all_same(&self.firsts, &other.firsts) && self.same_dues(other)
    }
}
