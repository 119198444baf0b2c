//! A core that has done nothing yet.

ghost use Rattle.std.specs.Prelude.{◌≡◌, ◌≤◌, IfOk, None, map, replicate, suc};
ghost use Rattle.san_base.specs.Limits.{IsInRange};
ghost use Rattle.san_base.specs.declared.limits.TheConstants.{MAX_WORKERS};
ghost use Rattle.san_core.specs.Committed.{StartsRun};
ghost use Rattle.san_net.specs.Runs.{net_at};
ghost use Rattle.san_speculation.specs.Speculating.{EveryInterleaving, claim_in, opened_core};

use crate::soonest::unknown;
use crate::speculation::Core;
use san_ahead::Ahead;
use san_base::{LeafId, Limits, NoMemory, Shared};
use san_core::{Machine, Start};
use san_net::Flat;
use std::alloc::Global;

/// No claim of the caller, nor of the workers.
fn no_claims(alloc: Global, workers: u32) -> Result<Vec<Option<LeafId>>, NoMemory>
    requires { workers ≤ MAX_WORKERS }
    ensures { IfOk result (λ v. map claim_in v.items ≡ replicate (suc workers) None) }
{
    let mut claims = Vec::new(alloc);
    'all: for _ in 0..workers + 1 {
        claims.push(None)?;
    }
    Ok(claims)
}

impl Core {
    /// A core over a start of the run, for the caller and so many workers: nothing is made ahead or
    /// claimed, and no step is done. Whatever steps are done to it, what it has committed follows the
    /// run, and its book is in order.
    pub fn open(
        alloc: Global,
        flat: Shared<Flat>,
        seed: u64,
        limits: Limits,
        start: Start,
        workers: u32,
    ) -> Result<Core, NoMemory>
        requires limits { IsInRange limits }
        requires start { StartsRun (net_at flat seed limits) flat start }
        requires workers { workers ≤ MAX_WORKERS }
        ensures opened { IfOk result (λ c. c ≡ opened_core flat seed limits start workers) }
        ensures every_interleaving { IfOk result (λ c. EveryInterleaving flat seed limits start workers) }
    {
        flat.get().is_network();
        let ahead = Ahead::open(alloc, flat.get().leaves(), &start.shared)?;
        let claims = no_claims(alloc, workers)?;
        let soonest = unknown(alloc, ahead.leaves())?;
        let machine = Machine::open(alloc, flat, seed, limits, start)?;
        Ok(Core {
            machine,
            ahead,
            claims,
            journal: Vec::new(alloc),
            rollbacks: 0,
            soonest,
        })
    }
}
