//! What the passages of many runs come to.

ghost use Rattle.std.specs.Prelude.{◌≡◌, ◌+◌, ◌*◌, ◌^◌, ◌<◌, ◌≤◌};
ghost use Rattle.san_summary.specs.declared.batch.TheConstants.{MAX_RUNS};
ghost use Rattle.san_passage.specs.Totals.{earlier, later, no_passages, with_passage};
ghost use Rattle.san_passage.specs.inner.Joined.{AreFew, earliest, joined, latest};

use crate::passage::Passage;
use san_base::Tick;

/// What the passages of many runs come to: how many runs reached the condition, how many didn't up to
/// their horizon, how many stopped before; and the sum of the ticks of those that reached it, with
/// the least and the greatest.
#[derive(Clone, Copy, Debug, PartialEq, Eq)]
pub struct Passages {
    pub reached: u32,
    pub never: u32,
    pub stopped: u32,
    pub sum: u128,
    pub least: Option<Tick>,
    pub greatest: Option<Tick>,
}

fn earlier(time: Tick, other: Option<Tick>) -> Option<Tick>
    ensures { result ≡ earlier time other }
{
    match other {
        None => Some(time),
        Some(other) => Some(Tick(time.0.min(other.0))),
    }
}

fn later(time: Tick, other: Option<Tick>) -> Option<Tick>
    ensures { result ≡ later time other }
{
    match other {
        None => Some(time),
        Some(other) => Some(Tick(time.0.max(other.0))),
    }
}

fn earliest(one: Option<Tick>, other: Option<Tick>) -> Option<Tick>
    ensures { result ≡ earliest one other }
{
    match one {
        None => other,
        Some(time) => earlier(time, other),
    }
}

fn latest(one: Option<Tick>, other: Option<Tick>) -> Option<Tick>
    ensures { result ≡ latest one other }
{
    match one {
        None => other,
        Some(time) => later(time, other),
    }
}

impl Passages {
    /// Of no run.
    pub(crate) fn none() -> Passages
        ensures { result ≡ no_passages }
    {
        Passages {
            reached: 0,
            never: 0,
            stopped: 0,
            sum: 0,
            least: None,
            greatest: None,
        }
    }

    /// With one run's passage more.
    pub(crate) fn with(self, passage: Passage) -> Passages
        requires few { self.reached + (self.never + self.stopped) < MAX_RUNS }
        requires sum { self.sum ≤ MAX_RUNS * 2 ^ 64 }
        ensures value { result ≡ with_passage self passage }
        ensures sum { result.sum ≤ self.sum + 2 ^ 64 }
    {
        match passage {
            Passage::At(time, _) => Passages {
                reached: self.reached + 1,
                sum: self.sum + u128::from(time.0),
                least: earlier(time, self.least),
                greatest: later(time, self.greatest),
                ..self
            },
            Passage::Never => Passages {
                never: self.never + 1,
                ..self
            },
            Passage::Stopped(_) => Passages {
                stopped: self.stopped + 1,
                ..self
            },
        }
    }

    /// With those of other runs.
    pub(crate) fn and(self, others: Passages) -> Passages
        requires first { AreFew MAX_RUNS self }
        requires second { AreFew MAX_RUNS others }
        ensures { result ≡ joined self others }
    {
        Passages {
            reached: self.reached + others.reached,
            never: self.never + others.never,
            stopped: self.stopped + others.stopped,
            sum: self.sum + others.sum,
            least: earliest(self.least, others.least),
            greatest: latest(self.greatest, others.greatest),
        }
    }
}
