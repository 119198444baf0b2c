//! The first run of a worker.

ghost use Rattle.std.specs.Prelude.{◌≡◌, ◌≤◌};
ghost use Rattle.san_base.specs.declared.limits.TheConstants.{MAX_WORKERS};
ghost use Rattle.san_share.specs.Shares.{first_of};

/// The most runs that a worker has.
const MAX_EACH: u32 = 1_000_000;

/// The number of a worker's first run, where each has so many; behind the last run it is the number of
/// runs.
pub fn first_of(worker: usize, each: u32, runs: u32) -> u32
    requires worker { worker ≤ MAX_WORKERS }
    requires few { each ≤ MAX_EACH }
    ensures value { result ≡ first_of each runs worker }
    ensures within { result ≤ runs }
{
    (worker as u32 * each).min(runs)
}
