//! What the numbers of one reward come to.

ghost use Rattle.std.specs.Prelude.{◌≡◌, ◌<◌, ◌≤◌, ◌+◌, ◌-◌, ◌^◌, ◌*◌, unsigned_abs};
ghost use Rattle.san_summary.specs.Summaries.{greater, is_wide, lesser};
ghost use Rattle.san_summary.specs.declared.batch.TheConstants.{MAX_RUNS};
ghost use Rattle.san_summary.specs.inner.Joined.{CanCount, IsSmall, counted, joined, one, square_of};
ghost use Rattle.san_summary.specs.inner.Joined.{squares_and, squares_small};

/// The greatest number, and with a minus the least, whose square is summed up: ten thousand such
/// squares are summed in 128 bits.
pub const MAX_SQUARED: u128 = 100_000_000_000_000_000;

/// The sum of the squares of numbers.
#[derive(Clone, Copy, Debug, PartialEq, Eq)]
pub enum Squares {
    Sum(i128),
    /// One of the numbers is too great for its square to be summed up.
    Wide,
}

/// What the numbers of one reward come to.
#[derive(Clone, Copy, Debug, PartialEq, Eq)]
pub struct Summary {
    pub count: u32,
    pub sum: i128,
    pub squares: Squares,
    pub least: Option<i128>,
    pub greatest: Option<i128>,
}

fn is_wide(x: i128) -> bool
    ensures { result ≡ is_wide x }
{
    x.unsigned_abs() > MAX_SQUARED
}

fn square_of(x: i128) -> Squares
    ensures { result ≡ square_of x }
{
    if is_wide(x) {
        Squares::Wide
    } else {
        Squares::Sum(x * x)
    }
}

fn squares_and(a: Squares, b: Squares, count: u32) -> Squares
    requires a { squares_small count a }
    requires b { squares_small (MAX_RUNS - count) b }
    requires count { count ≤ MAX_RUNS }
    ensures { result ≡ squares_and a b }
{
    match a {
        Squares::Sum(x) => match b {
            Squares::Sum(y) => Squares::Sum(x + y),
            Squares::Wide => Squares::Wide,
        },
        Squares::Wide => Squares::Wide,
    }
}

fn lesser(a: Option<i128>, b: Option<i128>) -> Option<i128>
    ensures { result ≡ lesser a b }
{
    match a {
        None => b,
        Some(x) => match b {
            None => Some(x),
            Some(y) => Some(if y < x { y } else { x }),
        },
    }
}

fn greater(a: Option<i128>, b: Option<i128>) -> Option<i128>
    ensures { result ≡ greater a b }
{
    match a {
        None => b,
        Some(x) => match b {
            None => Some(x),
            Some(y) => Some(if y < x { x } else { y }),
        },
    }
}

/// What the numbers of two summaries come to together.
pub(crate) fn joined(a: Summary, b: Summary) -> Summary
    requires a { IsSmall a }
    requires b { IsSmall b }
    requires few { a.count + b.count ≤ MAX_RUNS }
    ensures { result ≡ joined a b }
{
    Summary {
        count: a.count + b.count,
        sum: a.sum + b.sum,
        squares: squares_and(a.squares, b.squares, a.count),
        least: lesser(a.least, b.least),
        greatest: greater(a.greatest, b.greatest),
    }
}

/// The summary of one number.
fn one(x: i128) -> Summary
    ensures { result ≡ one x }
{
    Summary {
        count: 1,
        sum: x,
        squares: square_of(x),
        least: Some(x),
        greatest: Some(x),
    }
}

/// The summary of no number.
pub(crate) fn none() -> Summary
    ensures { result ≡ Rattle.san_summary.specs.inner.Joined.none }
{
    Summary {
        count: 0,
        sum: 0,
        squares: Squares::Sum(0),
        least: None,
        greatest: None,
    }
}

/// A summary and one number more, if there is one.
pub(crate) fn counted(summary: Summary, number: Option<i128>) -> Summary
    requires { CanCount summary number }
    ensures { result ≡ counted summary number }
{
    match number {
        Some(x) => joined(summary, one(x)),
        None => summary,
    }
}
