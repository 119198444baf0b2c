//! A term's value as a number, or none.

ghost use Rattle.std.specs.Prelude.{◌≡◌, ◌^◌};
ghost use Rattle.san_base.specs.Rated.{term_value};
ghost use Rattle.san_reward.specs.Smallness.{IsAtMost};
ghost use Rattle.san_reward.specs.inner.Bounds.{MAX_AMOUNT};

use san_base::Rated;

/// A number, or none.
pub(crate) fn term_value(rated: Rated) -> Option<i64>
    ensures value { result ≡ term_value rated }
    ensures small { IsAtMost MAX_AMOUNT (term_value rated) }
{
    match rated {
        Rated::Value(v) => Some(v),
        Rated::Fault => None,
    }
}
