//! The runs of one worker.

ghost use Rattle.std.specs.Prelude.{◌≡◌, ◌<◌, ◌≤◌, ◌+◌, ◌-◌, ◌^◌, IfOk};
ghost use Rattle.san_base.specs.Limits.{IsInRange};
ghost use Rattle.san_base.specs.declared.limits.TheConstants.{MAX_WORKERS};
ghost use Rattle.san_summary.specs.declared.batch.TheConstants.{MAX_RUNS};
ghost use Rattle.san_batch.specs.inner.Shares.{IsBatch};
ghost use Rattle.san_share.specs.Shares.{first_of};

use crate::outcome::Lists;
use san_base::{Limits, NoMemory};
use san_net::Flat;
use san_share::first_of;
use san_summary::Batch;
use std::alloc::Global;

/// What so many runs come to, with seeds from one on.
pub(crate) fn sum_up(
    alloc: Global,
    flat: &Flat,
    seed: u64,
    runs: u32,
    limits: Limits,
) -> Result<Batch, NoMemory>
    requires range { IsInRange limits }
    requires runs { runs ≤ MAX_RUNS }
    requires last { seed + runs ≤ 2 ^ 64 }
    ensures { IfOk result (IsBatch flat.now limits seed runs) }
{
    let mut batch = Batch::empty(alloc, flat.rewards().len())?;
    let mut lists = Lists::new(alloc);
    'runs: for k in 0..runs {
        let stopped = lists.run(alloc, flat, seed + u64::from(k), limits)?;
        batch.add(stopped, lists.numbers.as_slice());
    }
    Ok(batch)
}

/// What a worker's runs come to.
pub(crate) fn work(
    alloc: Global,
    flat: &Flat,
    seed: u64,
    runs: u32,
    limits: Limits,
    each: u32,
    worker: usize,
) -> Result<Batch, NoMemory>
    requires range { IsInRange limits }
    requires runs { runs ≤ MAX_RUNS }
    requires each { each ≤ MAX_RUNS }
    requires worker { worker < MAX_WORKERS }
    requires last { seed + runs ≤ 2 ^ 64 }
    ensures { IfOk result (IsBatch flat.now limits (seed + first_of each runs worker)
        (first_of each runs (worker + 1) - first_of each runs worker)) }
{
    let first = first_of(worker, each, runs);
    let end = first_of(worker + 1, each, runs);
    if first >= end {
        // behind the last run there may be no seed
        return Batch::empty(alloc, flat.rewards().len());
    }
    sum_up(alloc, flat, seed + u64::from(first), end - first, limits)
}
