//! A fixed delay: the value of an expression.

ghost use Rattle.std.specs.Prelude.{◌≡◌, IfOk, IsTrue};
ghost use Rattle.san_delay.specs.Sound.{IsDelay};
ghost use Rattle.san_expr.specs.Below.{places_below};
ghost use Rattle.san_expr.specs.Delay.{ticks_of};
ghost use Rattle.san_expr.specs.Meaning.{settled, then_do};
ghost use Rattle.san_expr.specs.Meets.{Evaluates};
ghost use Rattle.san_expr.specs.Value.{value_of};

use san_base::{MAX_DELAY, Trap};
use san_expr::{Expr, Marked, eval};

/// A value as a delay, in ticks.
pub(crate) fn ticks_of(x: i64) -> Result<u64, Trap>
    ensures value { result ≡ ticks_of x }
    ensures within { IfOk result IsDelay }
{
    if 1 <= x && x as u64 <= MAX_DELAY {
        Ok(x as u64)
    } else {
        Err(Trap::Delay)
    }
}

/// The delay, whatever the draw; so it is the longest too.
pub(crate) fn delay<V: Marked>(e: &Expr, view: &mut V) -> Result<u64, Trap>
    requires { IsTrue (places_below e.now (V.view_state view.old).places) }
    ensures value { Evaluates (V.view_state view.old) (V.view_state view.new) (then_do (value_of e.now) (λ x. settled (ticks_of x))) result }
    ensures within { IfOk result IsDelay }
{
    let x = eval(e, view)?;
    ticks_of(x)
}
