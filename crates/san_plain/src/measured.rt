//! A run without its report: how it ended, and what its rewards came to.

ghost use Rattle.std.specs.Prelude.{◌≡◌, Some, length, IfOk, OnOk};
ghost use Rattle.san_base.specs.Limits.{IsInRange};
ghost use Rattle.san_plain.specs.Measures.{AreSmallWorths, measured_of, worths_from};
ghost use Rattle.san_report.specs.Closings.{worths_by};

use crate::counted::CountedRun;
use san_base::{Ending, Limits, NoMemory};
use san_net::Flat;
use san_report::worth_at;
use san_reward::{Tally, Worth};
use std::alloc::Global;

/// Puts the worths of all rewards into a list, in place of what stood there.
fn put_worths(
    worths: &mut Vec<Option<Worth>>,
    flat: &Flat,
    tally: &Tally,
    ending: Ending,
) -> Result<(), NoMemory>
    requires { length tally.now.spans ≡ length flat.now.rewards }
    ensures { OnOk result (worths.new.items ≡ worths_from flat.now.rewards 0
        (worths_by tally.now ending)) }
{
    flat.is_network();
    worths.clear();
    'each: for at in 0..flat.rewards().len() {
        worths.push(worth_at(tally, ending, at as u32))?;
    }
    Ok(())
}

/// Runs to the end. The worths of the rewards take the place of what stood in the list; of a run that
/// stopped there is none.
pub fn measure(
    alloc: Global,
    flat: &Flat,
    seed: u64,
    limits: Limits,
    worths: &mut Vec<Option<Worth>>,
) -> Result<Ending, NoMemory>
    requires { IsInRange limits }
    ensures measured { IfOk result (λ e. measured_of (record {
      network = flat.now;
      seed = seed;
      limits = limits;
    }) ≡ Some (record { ending = e; worths = worths.new.items })) }
    ensures small { OnOk result (AreSmallWorths worths.new.items) }
{
    flat.is_network();
    let mut run = CountedRun::open(alloc, flat, seed, limits)?;
    'steps: loop {
        match run.step() {
            Ok(_) => {}
            Err(ending) => {
                put_worths(worths, flat, run.account.tally(), ending)?;
                return Ok(ending);
            }
        }
    }
}
