//! What many runs come to.

ghost use Rattle.std.specs.Prelude.{◌≡◌, ◌∷◌, ◌++◌, [], ℕ, List, IfOk};
ghost use Rattle.san_summary.specs.Batches.{CanAdd, CanJoin, Outcome, sums_of};

use crate::places::{count_all, join_all};
use crate::summary::{Summary, none};
use san_base::NoMemory;
use std::alloc::Global;
use std::marker::Model;

/// The most runs that are summed up.
pub const MAX_RUNS: u32 = 10_000;

/// What many runs come to: how many there are, how many of them stopped, and a summary for each
/// reward of the numbers of those runs that have one.
#[derive(Drop)]
pub struct Batch {
    pub runs: u32,
    pub stopped: u32,
    pub rewards: Vec<Summary>,
}

impl Model for Batch {
    ghost use Rattle.san_summary.specs.Batches.{Sums};

    ghost Value = { Sums };

    ghost view = { λ b. record { runs = b.runs; stopped = b.stopped; rewards = b.rewards.items } };
}

impl Batch {
    /// Of no run, for so many rewards.
    pub fn empty(alloc: Global, rewards: usize) -> Result<Batch, NoMemory>
        ensures { IfOk result (λ b. b ≡ sums_of rewards []) }
    {
        let mut summaries = Vec::with_capacity(alloc, rewards)?;
        'rewards: for _ in 0..rewards {
            summaries.push(none())?;
        }
        Ok(Batch {
            runs: 0,
            stopped: 0,
            rewards: summaries,
        })
    }

    /// Adds a run: whether it stopped, and for each reward its number, if it has one.
    pub fn add(&mut self, stopped: bool, numbers: &[Option<i128>])
        requires { CanAdd self.old numbers.now }
        ensures { (many : ℕ) (os : List Outcome) → self.old ≡ sums_of many os
            → self.new ≡ sums_of many (os ++ record { stopped = stopped; numbers = numbers.now } ∷ []) }
    {
        count_all(&mut self.rewards, numbers);
        self.runs += 1;
        self.stopped += u32::from(stopped);
    }

    /// Adds what further runs come to.
    pub fn join(&mut self, other: &Batch)
        requires { CanJoin self.old other.now }
        ensures { (many : ℕ) (os ps : List Outcome) → self.old ≡ sums_of many os
            → other.now ≡ sums_of many ps → self.new ≡ sums_of many (os ++ ps) }
    {
        join_all(&mut self.rewards, other.rewards.as_slice());
        self.runs += other.runs;
        self.stopped += other.stopped;
    }
}
