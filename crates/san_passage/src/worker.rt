//! The runs of one worker.

ghost use Rattle.std.specs.Prelude.{◌≡◌, Bool, List, ℕ, ◌<◌, ◌≤◌, ◌+◌, ◌-◌, ◌^◌, IfOk, length};
ghost use Rattle.san_base.specs.Limits.{IsInRange};
ghost use Rattle.san_base.specs.declared.limits.TheConstants.{MAX_WORKERS};
ghost use Rattle.san_share.specs.Shares.{first_of};
ghost use Rattle.san_summary.specs.declared.batch.TheConstants.{MAX_RUNS};
ghost use Rattle.san_probe.specs.Markings.{IsMarkingOf};
ghost use Rattle.san_passage.specs.inner.Joined.{IsShare};

use crate::passage::first_passage;
use crate::totals::Passages;
use san_base::{Limits, NoMemory};
use san_net::Flat;
use san_probe::{Asking, Condition, Until};
use san_share::first_of;
use std::alloc::Global;

/// Seeds of runs: one behind another from a first one on.
#[derive(Clone, Copy, Debug, PartialEq, Eq)]
pub struct Seeds {
    pub first: u64,
    pub runs: u32,
}

/// The passages of the runs with so many seeds from one on.
pub(crate) fn sum_up<F: Asking, M: Condition>(
    alloc: Global,
    flat: &Flat,
    seed: u64,
    runs: u32,
    limits: Limits,
    until: &Until<F, M>,
) -> Result<Passages, NoMemory>
    requires range { IsInRange limits }
    requires runs { runs ≤ MAX_RUNS }
    requires last { seed + runs ≤ 2 ^ 64 }
    requires places { until.now.1 ≡ length flat.now.initial }
    ensures { IfOk result (IsShare flat.now limits (M.holds until.now.0) seed runs) }
{
    let mut all = Passages::none();
    'runs: for k in 0..runs {
        let passage = first_passage(alloc, flat, seed + u64::from(k), limits, until)?;
        all = all.with(passage);
    }
    Ok(all)
}

/// The passages of a worker's runs, up to a marking in which a condition holds.
pub(crate) fn work<C: Asking + Condition + Copy>(
    alloc: Global,
    flat: &Flat,
    seeds: Seeds,
    limits: Limits,
    each: u32,
    worker: usize,
    condition: C,
) -> Result<Passages, NoMemory>
    requires range { IsInRange limits }
    requires runs { seeds.runs ≤ MAX_RUNS }
    requires each { each ≤ MAX_RUNS }
    requires worker { worker < MAX_WORKERS }
    requires last { seeds.first + seeds.runs ≤ 2 ^ 64 }
    requires callable { (m : List ℕ) → IsMarkingOf (length flat.now.initial) m
        → C.accepts condition m }
    requires answers { (m : List ℕ) → IsMarkingOf (length flat.now.initial) m → (holds : Bool)
        → C.answers condition m holds → holds ≡ C.holds condition m }
    ensures { IfOk result (IsShare flat.now limits (C.holds condition) (seeds.first + first_of each seeds.runs worker)
        (first_of each seeds.runs (worker + 1) - first_of each seeds.runs worker)) }
{
    let first = first_of(worker, each, seeds.runs);
    let end = first_of(worker + 1, each, seeds.runs);
    if first >= end {
        // behind the last run there may be no seed
        return Ok(Passages::none());
    }
    let until = Until::new(condition, condition, flat.places());
    sum_up(
        alloc,
        flat,
        seeds.first + u64::from(first),
        end - first,
        limits,
        &until,
    )
}
