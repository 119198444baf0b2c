//! What a reward is worth.

ghost use Rattle.std.specs.Prelude.{◌≡◌};
ghost use Rattle.san_law.specs.Reward.{sum_worth};
ghost use Rattle.san_net.specs.Network.{span_in};
ghost use Rattle.san_reward.specs.Worth.{worth_of};

use san_net::Span;

/// What a reward is worth over a run that came to its horizon.
#[derive(Clone, Copy, Debug, PartialEq, Eq)]
pub enum Worth {
    Sum(i128),
    /// The sum, and the number of ticks that it is over.
    Mean(i128, u64),
    /// A term that counts traps or is out of its bounds.
    Fault,
    /// The interval ends behind the horizon's tick.
    Beyond,
}

/// A reward's sum as its interval asks for it.
pub(crate) fn worth_by(span: Span, sum: Option<i128>) -> Worth
    ensures { result ≡ worth_of (sum_worth (span_in span) sum) }
{
    match sum {
        None => Worth::Fault,
        Some(sum) => match span {
            Span::Mean(from, to) => Worth::Mean(sum, to.0.saturating_sub(from.0)),
            _ => Worth::Sum(sum),
        },
    }
}
