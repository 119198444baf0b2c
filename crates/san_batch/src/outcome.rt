//! One run of a batch: whether it stopped, and its rewards' numbers.

ghost use Rattle.std.specs.Prelude.{◌≡◌, ℕ, IfOk, OnOk, length, map, slice_index_or, None};
ghost use Rattle.san_base.specs.Limits.{IsInRange};
ghost use Rattle.san_summary.specs.Batches.{IsSmallNumber};
ghost use Rattle.san_batch.specs.Outcomes.{number_of, outcome_of, stops};

use san_base::{Ending, Limits, NoMemory};
use san_net::Flat;
use san_plain::measure;
use san_reward::Worth;
use std::alloc::Global;

/// Whether a run stopped before its horizon.
fn stops(ending: Ending) -> bool
    ensures { result ≡ stops ending }
{
    match ending {
        Ending::End(_) => false,
        Ending::Stop(_) => true,
    }
}

/// The number of a reward: its sum, or the sum that its mean is of.
fn number_of(worth: Option<Worth>) -> Option<i128>
    ensures { result ≡ number_of worth }
{
    match worth {
        Some(Worth::Sum(sum)) => Some(sum),
        Some(Worth::Mean(sum, _)) => Some(sum),
        Some(Worth::Fault) => None,
        Some(Worth::Beyond) => None,
        None => None,
    }
}

/// Puts the numbers of worths into a list, in place of what stood there.
fn put_numbers(numbers: &mut Vec<Option<i128>>, worths: &[Option<Worth>]) -> Result<(), NoMemory>
    ensures { OnOk result (numbers.new.items ≡ map number_of worths.now) }
{
    numbers.clear();
    for worth in worths {
        numbers.push(number_of(*worth))?;
    }
    Ok(())
}

/// What is used again for each run of a worker.
#[derive(Drop)]
pub(crate) struct Lists {
    worths: Vec<Option<Worth>>,
    pub(crate) numbers: Vec<Option<i128>>,
}

impl Lists {
    pub(crate) fn new(alloc: Global) -> Lists {
        Lists {
            worths: Vec::new(alloc),
            numbers: Vec::new(alloc),
        }
    }

    /// Runs to the end, and tells whether the run stopped. The numbers of its rewards take the place
    /// of the last run's.
    pub(crate) fn run(
        &mut self,
        alloc: Global,
        flat: &Flat,
        seed: u64,
        limits: Limits,
    ) -> Result<bool, NoMemory>
        requires { IsInRange limits }
        ensures outcome { IfOk result (λ stopped. outcome_of flat.now limits seed
            ≡ record { stopped = stopped; numbers = self.new.numbers.items }) }
        ensures sized { OnOk result (length self.new.numbers.items ≡ length flat.now.rewards) }
        ensures small { OnOk result ((r : ℕ) → IsSmallNumber (slice_index_or self.new.numbers.items r
            None)) }
    {
        let ending = measure(alloc, flat, seed, limits, &mut self.worths)?;
        put_numbers(&mut self.numbers, self.worths.as_slice())?;
        Ok(stops(ending))
    }
}
