//! Equal intervals, and equal lists of lists.

ghost use Rattle.san_base.specs.declared.limits.TheConstants.{MAX_HORIZON};
ghost use Rattle.std.specs.Prelude.{◌≡◌, ◌+◌, ◌↔◌, ◌<◌, ◌≤◌, ◌^◌, All, IsTrue, map};
ghost use Rattle.san_net.specs.Network.{span_in};

use crate::present::{end, first};
use san_base::{Same, all_same};
use san_net::Span;

/// Whether an interval's mean is asked for.
fn is_mean(span: Span) -> bool
    ensures { result ≡ (span_in span).mean }
{
    match span {
        Span::Mean(_, _) => true,
        _ => false,
    }
}

/// Whether two intervals have the same ticks and are asked for alike.
fn same_span(a: Span, b: Span) -> bool
    requires a { (span_in a).to < 2 ^ 64 }
    requires b { (span_in b).to < 2 ^ 64 }
    ensures { IsTrue result ↔ (span_in a ≡ span_in b) }
{
    first(a) == first(b) && end(a) == end(b) && is_mean(a) == is_mean(b)
}

/// The same of lists of intervals.
pub(crate) fn same_spans(a: &[Span], b: &[Span]) -> bool
    requires a { All (λ s. s.to ≤ MAX_HORIZON + 1) (map span_in a.now) }
    requires b { All (λ s. s.to ≤ MAX_HORIZON + 1) (map span_in b.now) }
    ensures { IsTrue result ↔ (map span_in a.now ≡ map span_in b.now) }
{
    if a.len() != b.len() {
        return false;
    }
    for (at, span) in a.iter().enumerate() {
        if !same_span(*span, b[at]) {
            return false;
        }
    }
    true
}

/// Whether two lists have the same lists.
pub(crate) fn same_lists<T: Same>(a: &[Vec<T>], b: &[Vec<T>]) -> bool
    ensures { IsTrue result ↔ (map (λ v. v.items) a.now ≡ map (λ v. v.items) b.now) }
{
    if a.len() != b.len() {
        return false;
    }
    for (at, items) in a.iter().enumerate() {
        if !all_same(items, &b[at]) {
            return false;
        }
    }
    true
}
