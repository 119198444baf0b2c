//! A fixed number of keys with the least of them at hand.

ghost use Rattle.std.specs.Prelude.{◌≡◌, ◌<◌, ◌≤◌, length, IfOk, slice_index_or, slice_set, replicate, None};
ghost use Rattle.san_winner.specs.declared.matches.TheConstants.{MAX_KEYS};
ghost use Rattle.san_winner.specs.Least.{least_from, least_between};

use crate::matches::{Won, between, key_at, no_keys, no_winners, put, root};
use san_base::NoMemory;
use std::alloc::Global;
use std::marker::Model;

/// A fixed number of indices, each with a key or none.
#[derive(Debug, Drop)]
pub struct Winners {
    keys: Vec<Option<u64>>,
    nodes: Vec<Won>,
    size: usize,
}

impl Model for Winners {
    ghost use Rattle.std.specs.Prelude.{ℕ, List, Option};
    ghost use Rattle.san_winner.specs.Least.{TreeStands};

    ghost Value = { List (Option ℕ) };

    ghost view = { λ s. s.keys.items };

    ghost invariant = { λ s. TreeStands s.size s.keys.items s.nodes.items };
}

impl Winners {
    /// The least key and its index, of equal keys the first.
    #[tactic(auto, using(crate::proofs::TreeLemmas::top))]
    pub fn least(&self) -> Option<(u64, usize)>
        ensures { result ≡ least_from 0 self.now }
    {
        root(self.nodes.as_slice())
    }

    /// The least key and its index from `lo` to before `hi`.
    #[tactic(auto, using(crate::proofs::TreeLemmas::part))]
    pub fn least_between(&self, lo: usize, hi: usize) -> Option<(u64, usize)>
        requires lo { lo ≤ hi }
        requires hi { hi ≤ length self.now }
        ensures { result ≡ least_between lo hi self.now }
    {
        between(self.nodes.as_slice(), self.size, lo, hi)
    }

    /// The key at an index, if it has one.
    pub fn get(&self, at: usize) -> Option<u64>
        requires at { at < length self.now }
        ensures { result ≡ slice_index_or self.now at None }
    {
        key_at(self.keys.as_slice(), at)
    }

    /// The number of indices.
    pub fn len(&self) -> usize
        ensures { result ≡ length self.now }
    {
        self.keys.len()
    }

    /// Gives an index a key, or takes it.
    pub fn set(&mut self, at: usize, key: Option<u64>)
        requires at { at < length self.old }
        ensures { self.new ≡ slice_set self.old at key }
    {
        self.keys[at] = key;
        put(self.nodes.as_mut_slice(), self.size, at, key);
    }

    /// `count` indices without keys.
    pub fn open(alloc: Global, count: usize) -> Result<Winners, NoMemory>
        requires count { count < MAX_KEYS }
        ensures { IfOk result (λ s. s ≡ replicate count None) }
    {
        let mut size = 1;
        'doubling: while size < count {
            size += size;
        }
        let keys = no_keys(alloc, count)?;
        let nodes = no_winners(alloc, size + size)?;
        Ok(Winners { keys, nodes, size })
    }
}
