//! Many runs in several threads.

ghost use Rattle.std.specs.Prelude.{◌≡◌, ◌<◌, ◌≤◌, ◌+◌, ◌-◌, ◌^◌, IfOk, length};
ghost use Rattle.san_base.specs.Limits.{IsInRange};
ghost use Rattle.san_base.specs.declared.limits.TheConstants.{MAX_WORKERS};
ghost use Rattle.san_summary.specs.declared.batch.TheConstants.{MAX_RUNS};
ghost use Rattle.san_batch.specs.Outcomes.{batch_of};
ghost use Rattle.san_batch.specs.inner.Shares.{AreShares, IsBatch};
ghost use Rattle.san_share.specs.Shares.{first_of};

use crate::worker::work;
use san_base::{Limits, NoMemory};
use san_net::Flat;
use san_summary::Batch;
use std::alloc::Global;
use std::thread;
use std::thread::Threads;

/// Joins what the workers came to.
fn join_all(
    alloc: Global,
    flat: &Flat,
    seed: u64,
    runs: u32,
    limits: Limits,
    each: u32,
    shares: &[Result<Batch, NoMemory>],
) -> Result<Batch, NoMemory>
    requires runs { runs ≤ MAX_RUNS }
    requires few { length shares.now ≤ MAX_WORKERS }
    requires shares { AreShares flat.now limits seed runs each shares.now }
    ensures { IfOk result (IsBatch flat.now limits seed (first_of each runs (length shares.now))) }
{
    let mut all = Batch::empty(alloc, flat.rewards().len())?;
    'shares: for share in shares {
        match share {
            Ok(share) => all.join(share),
            Err(error) => return Err(*error),
        }
    }
    Ok(all)
}

/// What so many runs come to, with seeds from one on, made by so many workers at the same time. Run k
/// has the seed plus k, for k from 0 on. A reward's number is its sum, or the sum that its mean is
/// of; a run that stopped has none.
pub fn batch<R: Threads + Sync>(
    rt: &R,
    alloc: Global,
    flat: &Flat,
    seed: u64,
    runs: u32,
    limits: Limits,
    workers: u32,
) -> Result<Batch, NoMemory>
    requires range { IsInRange limits }
    requires runs { (1 ≤ runs) × (runs ≤ MAX_RUNS) }
    requires workers { (1 ≤ workers) × (workers ≤ MAX_WORKERS) }
    requires last { seed + runs ≤ 2 ^ 64 }
    ensures { IfOk result (λ b. b ≡ batch_of flat.now limits seed runs) }
{
    let each = runs.div_ceil(workers);
    let shares = thread::map_indices(
        rt,
        alloc,
        workers as usize,
        &|worker| work(alloc, flat, seed, runs, limits, each, worker),
    )?;
    join_all(alloc, flat, seed, runs, limits, each, shares.as_slice())
}
