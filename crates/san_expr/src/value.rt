//! The value of an expression.
ghost use Rattle.std.specs.Prelude.{◌≡◌, ◌+◌, ◌<◌, ◌^◌, ◌≤◌, neg_ℤ, not, Ok, ℤ, ℕ, IsTrue};
ghost use Rattle.san_expr.specs.Value.{applied, is_decided, is_zero, truth, fitting, cell_of, value_of};
ghost use Rattle.san_expr.specs.Below.{array_below, places_below};
ghost use Rattle.san_expr.specs.Meaning.{then_do, settled, value_at};
ghost use Rattle.san_expr.specs.Meets.{Evaluates};

use crate::expr::Expr;
use crate::view::Marked;
use san_base::{Op, Trap};

fn truth_of(b: bool) -> i64
    ensures { result ≡ truth b }
{
    if b { 1 } else { 0 }
}

// Without the call a node takes a third less time.
#[inline(always)]
fn apply(op: Op, x: i64, y: i64) -> Result<i64, Trap>
    ensures { result ≡ applied op x y }
{
    match op {
        Op::Or => Ok(truth_of(y != 0)),
        Op::And => Ok(truth_of(y != 0)),
        Op::Eq => Ok(truth_of(x == y)),
        Op::Ne => Ok(truth_of(x != y)),
        Op::Lt => Ok(truth_of(x < y)),
        Op::Le => Ok(truth_of(x <= y)),
        Op::Gt => Ok(truth_of(x > y)),
        Op::Ge => Ok(truth_of(x >= y)),
        Op::Add => x.checked_add(y).ok_or(Trap::Arith),
        Op::Sub => x.checked_sub(y).ok_or(Trap::Arith),
        Op::Mul => x.checked_mul(y).ok_or(Trap::Arith),
        Op::Div => x.checked_div(y).ok_or(Trap::Arith),
        Op::Rem => x.checked_rem(y).ok_or(Trap::Arith),
    }
}

fn is_decided(op: Op, x: i64) -> bool
    ensures { result ≡ is_decided op x }
{
    match op {
        Op::Or => x != 0,
        Op::And => x == 0,
        _ => false,
    }
}

/// The truth of a value: any number but 0 is true.
pub(crate) fn holds(x: i64) -> bool
    ensures { result ≡ not (is_zero x) }
{
    x != 0
}

fn negate(x: i64) -> Result<i64, Trap>
    ensures { result ≡ fitting (neg_ℤ x) }
{
    x.checked_neg().ok_or(Trap::Arith)
}

/// The cell of an array that an index names.
pub(crate) fn cell_of(first: u32, length: u32, index: i64) -> Result<u32, Trap>
    requires { first + length ≤ 2 ^ 32 }
    ensures { result ≡ cell_of first length index }
{
    if 0 <= index && index < i64::from(length) {
        Ok(first + index as u32)
    } else {
        Err(Trap::Index)
    }
}

/// The value of an element of an array, by its index.
fn read_at<V: Marked>(first: u32, length: u32, index: i64, view: &mut V) -> Result<i64, Trap>
    requires { IsTrue (array_below first length (V.view_state view.old).places) }
    ensures { Evaluates (V.view_state view.old) (V.view_state view.new) (then_do (settled (cell_of first length index)) value_at) result }
{
    let place = cell_of(first, length, index)?;
    Ok(i64::from(view.read(place)))
}

/// The value of an expression. `Trap::Arith` comes from a value outside of 64 bits and from a zero
/// divisor, `Trap::Index` from an index outside of its array.
pub fn eval<V: Marked>(e: &Expr, view: &mut V) -> Result<i64, Trap>
    requires { IsTrue (places_below e.now (V.view_state view.old).places) }
    ensures { Evaluates (V.view_state view.old) (V.view_state view.new) (value_of e.now) result }
{
    match e {
        Expr::Number(n) => Ok(*n),
        Expr::Place(place) => Ok(i64::from(view.read(*place))),
        Expr::Cell(first, length, index) => {
            let at = eval(index.get(), view)?;
            read_at(*first, *length, at, view)
        }
        Expr::Neg(inner) => negate(eval(inner.get(), view)?),
        Expr::Not(inner) => Ok(truth_of(eval(inner.get(), view)? == 0)),
        Expr::Binary(op, left, right) => {
            let x = eval(left.get(), view)?;
            if is_decided(*op, x) {
                Ok(truth_of(holds(x)))
            } else {
                let y = eval(right.get(), view)?;
                apply(*op, x, y)
            }
        }
    }
}
