//! The present rates of a reward, and how its sum accrues.

ghost use Rattle.san_base.specs.declared.limits.TheConstants.{MAX_HORIZON, MAX_TICKS};
ghost use Rattle.std.specs.Prelude.{◌≡◌, ◌<◌, ◌≤◌, ◌^◌, ℕ, length, map, unsigned_abs};
ghost use Rattle.san_law.specs.Reward.{is_within, plus, zero_sum};
ghost use Rattle.san_law.specs.Tally.{sums_from};
ghost use Rattle.san_net.specs.Network.{span_in};
ghost use Rattle.san_reward.specs.Running.{counted_at};
ghost use Rattle.san_reward.specs.Smallness.{IsAtMost};
ghost use Rattle.san_reward.specs.inner.Present.{amount, counted_on, fault, accrued, overlap, present_at};
ghost use Rattle.std.specs.Prelude.{◌+◌, All, slice_index_or};
ghost use Rattle.san_reward.specs.inner.Bounds.{MAX_AMOUNT, MAX_PRESENT, MAX_SUM};

use san_net::Span;

/// The present rates of a reward: the sum of those that are numbers, and how many are faults.
#[derive(Clone, Copy, Debug, PartialEq, Eq)]
pub(crate) struct Present {
    pub(crate) sum: i128,
    pub(crate) faults: u64,
}

/// The first tick of an interval.
pub(crate) fn first(span: Span) -> u64
    ensures { result ≡ (span_in span).from }
{
    match span {
        Span::Over(from, _) => from.0,
        Span::Mean(from, _) => from.0,
        Span::At(tick) => tick.0,
    }
}

/// The tick behind its last.
pub(crate) fn end(span: Span) -> u64
    requires { (span_in span).to < 2 ^ 64 }
    ensures { result ≡ (span_in span).to }
{
    match span {
        Span::Over(_, to) => to.0,
        Span::Mean(_, to) => to.0,
        Span::At(tick) => tick.0 + 1,
    }
}

/// How many ticks of an interval are from one to before another.
pub(crate) fn overlap(span: Span, from: u64, to: u64) -> u64
    requires { (span_in span).to < 2 ^ 64 }
    ensures { result ≡ overlap (span_in span) from to }
{
    to.min(end(span)).saturating_sub(from.max(first(span)))
}

/// A sum as the present rates go on for so many ticks.
pub(crate) fn accrue(sum: Option<i128>, present: Present, ticks: u64) -> Option<i128>
    requires sum { IsAtMost MAX_SUM sum }
    requires present { unsigned_abs present.sum ≤ MAX_PRESENT }
    requires ticks { ticks ≤ MAX_TICKS }
    ensures { result ≡ accrued sum present ticks }
{
    if ticks == 0 {
        return sum;
    }
    if present.faults != 0 {
        return None;
    }
    match sum {
        Some(sum) => Some(sum + present.sum * i128::from(ticks)),
        None => None,
    }
}

/// A sum and one number more.
pub(crate) fn plus(sum: Option<i128>, rated: Option<i64>) -> Option<i128>
    requires { IsAtMost MAX_SUM sum }
    ensures { result ≡ plus sum rated }
{
    match sum {
        Some(sum) => match rated {
            Some(value) => Some(sum + i128::from(value)),
            None => None,
        },
        None => None,
    }
}

/// What a rate adds to a sum.
pub(crate) fn amount(rated: Option<i64>) -> i128
    ensures value { result ≡ amount rated }
    ensures small { unsigned_abs result ≤ MAX_AMOUNT }
{
    match rated {
        Some(value) => i128::from(value),
        None => 0,
    }
}

/// What a rate adds to the number of faults.
pub(crate) fn fault(rated: Option<i64>) -> u64
    ensures { result ≡ fault rated }
{
    match rated {
        Some(_) => 0,
        None => 1,
    }
}

/// Whether an interval has a tick.
pub(crate) fn is_within(span: Span, tick: u64) -> bool
    requires { (span_in span).to < 2 ^ 64 }
    ensures { result ≡ is_within (span_in span) tick }
{
    first(span) <= tick && tick < end(span)
}

/// What a reward counts at a time, which is nothing outside of its interval.
pub(crate) fn counted(span: Span, time: u64, rated: Option<i64>) -> Option<i64>
    requires { (span_in span).to < 2 ^ 64 }
    ensures { result ≡ counted_at (span_in span) time rated }
{
    if is_within(span, time) {
        rated
    } else {
        Some(0)
    }
}

/// Counts the present rates of each reward for the ticks from one to before another.
pub(crate) fn count_on(
    sums: &mut Vec<Option<i128>>,
    present: &Vec<Present>,
    spans: &Vec<Span>,
    from: u64,
    to: u64,
)
    requires present { length present.now.items ≡ length sums.old.items }
    requires spans { length spans.now.items ≡ length sums.old.items }
    requires ticks { to ≤ from + MAX_TICKS }
    requires spanned { All (λ s. s.to ≤ MAX_HORIZON + 1) (map span_in spans.now.items) }
    requires small { (r : ℕ) → IsAtMost MAX_SUM (slice_index_or sums.old.items r zero_sum) }
    requires rates { (r : ℕ) → unsigned_abs (present_at present.now.items r).sum ≤ MAX_PRESENT }
    ensures { sums.new.items
        ≡ sums_from (counted_on (map span_in spans.now.items) present.now.items from to) 0
        sums.old.items }
{
    'rewards: for at in 0..sums.len() {
        let ticks = overlap(spans[at], from, to);
        sums[at] = accrue(sums[at], present[at], ticks);
    }
}
