//! What a leaf's values are asked for: whether an activity is enabled, whether a predicate holds, how
//! long a delay is.

ghost use Rattle.std.specs.Prelude.{◌≡◌, length, IsTrue, IfOk};
ghost use Rattle.san_clock.specs.inner.Asking.{truth};
ghost use Rattle.san_delay.specs.Sound.{IsDelay, IsSoundDelay};
ghost use Rattle.san_expr.specs.Below.{dist_below, places_below};
ghost use Rattle.san_expr.specs.Delay.{delay_of};
ghost use Rattle.san_net.specs.Below.{activity_below};
ghost use Rattle.san_net.specs.Leaf.{answer_by, enabled_in, holds_in};

use crate::view::PlainView;
use san_base::Trap;
use san_delay::DelayTables;
use san_expr::{Dist, Expr, eval};
use san_net::{Activity, enabled};

/// Whether an activity is enabled.
pub(crate) fn is_enabled<V: PlainView>(activity: &Activity, view: &mut V) -> Result<bool, Trap>
    requires { IsTrue (activity_below activity.now (length (V.values view.old))) }
    ensures answer { answer_by result ≡ enabled_in activity.now (V.values view.old) }
    ensures same { V.values view.new ≡ V.values view.old }
{
    enabled(activity, view)
}

fn truth(value: Result<i64, Trap>) -> Result<bool, Trap>
    ensures { result ≡ truth value }
{
    match value {
        Ok(x) => Ok(x != 0),
        Err(trap) => Err(trap),
    }
}

/// Whether a predicate holds.
pub(crate) fn holds<V: PlainView>(e: &Expr, view: &mut V) -> Result<bool, Trap>
    requires { IsTrue (places_below e.now (length (V.values view.old))) }
    ensures answer { answer_by result ≡ holds_in e.now (V.values view.old) }
    ensures same { V.values view.new ≡ V.values view.old }
{
    truth(eval(e, view))
}

/// The delay that a draw gives, in ticks.
pub(crate) fn delay_in<V: PlainView>(
    tables: &DelayTables,
    delay: &Dist,
    u: u64,
    view: &mut V,
) -> Result<u64, Trap>
    requires sound { IsSoundDelay delay.now }
    requires places { IsTrue (dist_below delay.now (length (V.values view.old))) }
    ensures answer { result ≡ (delay_of delay.now u (V.values view.old)).answer }
    ensures within { IfOk result IsDelay }
    ensures same { V.values view.new ≡ V.values view.old }
{
    tables.delay(delay, u, view)
}
