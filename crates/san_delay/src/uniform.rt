//! A delay between two bounds, of which each number is as likely.

ghost use Rattle.std.specs.Prelude.{◌≡◌, IfOk, IsTrue};
ghost use Rattle.san_delay.specs.Longest.{upper};
ghost use Rattle.san_delay.specs.Sound.{IsDelay};
ghost use Rattle.san_expr.specs.Below.{places_below};
ghost use Rattle.san_expr.specs.Delay.{between, ticks_of};
ghost use Rattle.san_expr.specs.Meaning.{settled, then_do};
ghost use Rattle.san_expr.specs.Meets.{Evaluates};
ghost use Rattle.san_expr.specs.Value.{value_of};

use crate::det::ticks_of;
use san_base::Trap;
use san_draw::pick;
use san_expr::{Expr, Marked, eval};

/// The delay that a draw gives between two values.
fn between(u: u64, low: i64, high: i64) -> Result<u64, Trap>
    ensures value { result ≡ between u (ticks_of low) (ticks_of high) }
    ensures within { IfOk result IsDelay }
{
    let least = ticks_of(low)?;
    let most = ticks_of(high)?;
    if least <= most {
        Ok(least + pick(u, most - least + 1))
    } else {
        Err(Trap::Delay)
    }
}

/// The upper of two values that are bounds of a delay.
fn upper(low: i64, high: i64) -> Result<u64, Trap>
    ensures value { result ≡ upper (ticks_of low) (ticks_of high) }
    ensures within { IfOk result IsDelay }
{
    let least = ticks_of(low)?;
    let most = ticks_of(high)?;
    if least <= most {
        Ok(most)
    } else {
        Err(Trap::Delay)
    }
}

/// The delay for a draw; the lower bound is evaluated first.
pub(crate) fn delay<V: Marked>(low: &Expr, high: &Expr, u: u64, view: &mut V) -> Result<u64, Trap>
    requires low { IsTrue (places_below low.now (V.view_state view.old).places) }
    requires high { IsTrue (places_below high.now (V.view_state view.old).places) }
    ensures value { Evaluates (V.view_state view.old) (V.view_state view.new) (then_do (value_of low.now) (λ x. then_do (value_of high.now) (λ y. settled (between u (ticks_of x) (ticks_of y))))) result }
    ensures within { IfOk result IsDelay }
{
    let x = eval(low, view)?;
    let y = eval(high, view)?;
    between(u, x, y)
}

/// The longest delay over all draws; the lower bound is evaluated first.
pub(crate) fn longest<V: Marked>(low: &Expr, high: &Expr, view: &mut V) -> Result<u64, Trap>
    requires low { IsTrue (places_below low.now (V.view_state view.old).places) }
    requires high { IsTrue (places_below high.now (V.view_state view.old).places) }
    ensures value { Evaluates (V.view_state view.old) (V.view_state view.new) (then_do (value_of low.now) (λ x. then_do (value_of high.now) (λ y. settled (upper (ticks_of x) (ticks_of y))))) result }
    ensures within { IfOk result IsDelay }
{
    let x = eval(low, view)?;
    let y = eval(high, view)?;
    upper(x, y)
}
