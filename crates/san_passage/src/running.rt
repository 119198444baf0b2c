//! The passages of many runs, in several threads.

ghost use Rattle.std.specs.Prelude.{◌≡◌, Bool, List, ℕ, ◌<◌, ◌≤◌, ◌+◌, ◌-◌, ◌^◌, IfOk, length};
ghost use Rattle.san_base.specs.Limits.{IsInRange};
ghost use Rattle.san_base.specs.declared.limits.TheConstants.{MAX_WORKERS};
ghost use Rattle.san_share.specs.Shares.{first_of};
ghost use Rattle.san_summary.specs.declared.batch.TheConstants.{MAX_RUNS};
ghost use Rattle.san_probe.specs.Markings.{IsMarkingOf};
ghost use Rattle.san_passage.specs.Totals.{passages_of};
ghost use Rattle.san_passage.specs.inner.Joined.{AreShares, IsShare};

use crate::totals::Passages;
use crate::worker::{Seeds, work};
use san_base::{Limits, NoMemory};
use san_net::Flat;
use san_probe::{Asking, Condition};
use std::alloc::Global;
use std::thread;
use std::thread::Threads;

/// Joins what the workers came to.
fn join_all<C: Asking + Condition + Copy>(
    flat: &Flat,
    seeds: Seeds,
    limits: Limits,
    each: u32,
    condition: C,
    shares: &[Result<Passages, NoMemory>],
) -> Result<Passages, NoMemory>
    requires runs { seeds.runs ≤ MAX_RUNS }
    requires shares { AreShares flat.now limits (C.holds condition) seeds.first
        seeds.runs each shares.now }
    ensures { IfOk result (IsShare flat.now limits (C.holds condition) seeds.first
        (first_of each seeds.runs (length shares.now))) }
{
    let mut all = Passages::none();
    'shares: for share in shares {
        match share {
            Ok(share) => all = all.and(*share),
            Err(error) => return Err(*error),
        }
    }
    Ok(all)
}

/// What the passages of runs up to a marking in which a condition holds come to, made by so many
/// workers at the same time, each of which asks a copy of the condition. Run k has the first seed plus
/// k, for k from 0 on.
pub fn passages<R: Threads + Sync, C: Asking + Condition + Copy + Sync>(
    rt: &R,
    alloc: Global,
    flat: &Flat,
    seeds: Seeds,
    limits: Limits,
    workers: u32,
    condition: C,
) -> Result<Passages, NoMemory>
    requires range { IsInRange limits }
    requires runs { (1 ≤ seeds.runs) × (seeds.runs ≤ MAX_RUNS) }
    requires workers { (1 ≤ workers) × (workers ≤ MAX_WORKERS) }
    requires last { seeds.first + seeds.runs ≤ 2 ^ 64 }
    requires callable { (m : List ℕ) → IsMarkingOf (length flat.now.initial) m
        → C.accepts condition m }
    requires answers { (m : List ℕ) → IsMarkingOf (length flat.now.initial) m → (holds : Bool)
        → C.answers condition m holds → holds ≡ C.holds condition m }
    ensures { IfOk result (λ p. p ≡ passages_of flat.now limits (C.holds condition)
        seeds.first seeds.runs) }
{
    let each = seeds.runs.div_ceil(workers);
    let shares = thread::map_indices(
        rt,
        alloc,
        workers as usize,
        &|worker| work(alloc, flat, seeds, limits, each, worker, condition),
    )?;
    join_all(flat, seeds, limits, each, condition, shares.as_slice())
}
