//! A run whose rewards are counted event by event.

ghost use Rattle.std.specs.Prelude.{◌≡◌, List, IfOk};
ghost use Rattle.san_base.specs.Limits.{IsInRange};
ghost use Rattle.san_law.specs.State.{State};
ghost use Rattle.san_law.specs.Step as law;
ghost use Rattle.san_plain.specs.Reports.{Opened};
ghost use Rattle.san_net.specs.Laid.{IsNetwork};
ghost use Rattle.san_plain.specs.inner.Progress.{IsOpened, IsStanding, RunsOut, RunStands, StepsTo};
ghost use Rattle.san_plain.specs.inner.Progress.{opened_by};

use crate::account::RewardAccount;
use san_base::{Ending, Event, Limits, NoMemory};
use san_net::Flat;
use san_seq::{Seq, Stepped};
use std::alloc::Global;

/// A run under way, with what its rewards came to so far.
#[derive(Drop)]
pub(crate) struct CountedRun<'a> {
    pub(crate) flat: &'a Flat,
    pub(crate) limits: Limits,
    pub(crate) seq: Seq<'a>,
    pub(crate) account: RewardAccount<'a>,
    /// The number of events so far.
    pub(crate) count: u64,
}

/// How a run came out.
#[derive(Clone, Copy)]
pub(crate) struct Outcome {
    /// The last event, with its number.
    pub(crate) last: Option<(u64, Event)>,
    pub(crate) ending: Ending,
}

impl<'a> CountedRun<'a> {
    /// Takes all memory of a run.
    pub(crate) fn open(
        alloc: Global,
        flat: &'a Flat,
        seed: u64,
        limits: Limits,
    ) -> Result<CountedRun<'a>, NoMemory>
        requires { IsInRange limits }
        ensures opened { IfOk result (λ c. IsOpened c) }
        ensures by { IfOk result (λ c. opened_by c
            ≡ record { network = flat.now; seed = seed; limits = limits }) }
    {
        let seq = Seq::open(alloc, flat, seed, limits)?;
        let account = RewardAccount::open(alloc, flat, limits.horizon)?;
        Ok(CountedRun {
            flat,
            limits,
            seq,
            account,
            count: 0,
        })
    }

    /// Takes a step: an event is counted, an ending is answered.
    pub(crate) fn step(&mut self) -> Result<Event, Ending>
        requires { IsStanding self.old }
        ensures { (o : Opened) (es : List law.Event) (s : State) → RunStands o es s self.old
            → StepsTo o es s result self.old self.new }
    {
        match self.seq.step() {
            Stepped::Event(event) => {
                self.account.count(event, self.seq.marking());
                self.count += 1;
                Ok(event)
            }
            Stepped::End => Err(Ending::End(self.limits.horizon)),
            Stepped::Stopped(stop) => Err(Ending::Stop(stop)),
        }
    }

    /// Runs to the end.
    pub(crate) fn run_out(&mut self) -> Outcome
        requires opened { IsOpened self.old }
        requires known { IsNetwork self.old.flat.now }
        ensures { RunsOut (opened_by self.old) result self.new }
    {
        let mut last = None;
        'steps: loop {
            let number = self.count;
            match self.step() {
                Ok(event) => last = Some((number, event)),
                Err(ending) => return Outcome { last, ending },
            }
        }
    }
}
