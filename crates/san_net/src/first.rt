//! The first instantaneous activity of an atomic that is enabled or traps.

ghost use Rattle.std.specs.Prelude.{◌≡◌, Ok, IsTrue, slice_get};
ghost use Rattle.san_expr.specs.Meets.{Evaluates};
ghost use Rattle.san_net.specs.Below.{acts_below};
ghost use Rattle.san_net.specs.First.{attempt, enabled_by, first_among, first_of};

use crate::activity::Activity;
use crate::atomic::Atomic;
use crate::predicate::enabled;
use san_base::{Name, Trap};
use san_expr::Marked;

/// What comes first among an atomic's instantaneous activities.
#[derive(Clone, Copy, Debug, PartialEq, Eq)]
pub enum FirstInstant {
    /// None is enabled and none traps.
    None,
    /// An enabled activity, by its number in the atomic.
    Enabled(u32),
    /// An activity whose test traps.
    Trapped(u32, Trap),
}

fn enabled_at<V: Marked>(acts: &[(Name, Activity)], at: u32, view: &mut V) -> Result<bool, Trap>
    requires { IsTrue (acts_below acts.now (V.view_state view.old).places) }
    ensures { Evaluates (V.view_state view.old) (V.view_state view.new) (enabled_by (slice_get acts.now at))
        result }
{
    match acts.get(at as usize) {
        Some(act) => enabled(&act.1, view),
        None => Ok(false),
    }
}

fn first_among<V: Marked>(acts: &[(Name, Activity)], order: &[u32], view: &mut V) -> FirstInstant
    requires { IsTrue (acts_below acts.now (V.view_state view.old).places) }
    ensures { Evaluates (V.view_state view.old) (V.view_state view.new) (first_among acts.now order.now) (Ok
        result) }
{
    for act in order {
        match enabled_at(acts, *act, view) {
            Ok(true) => return FirstInstant::Enabled(*act),
            Ok(false) => {}
            Err(trap) => return FirstInstant::Trapped(*act, trap),
        }
    }
    FirstInstant::None
}

/// The first instantaneous activity that is enabled or traps, by greater priority and for equal
/// priority by number. The activities after it aren't tested (own rules).
pub fn first_instant<V: Marked>(atomic: &Atomic, view: &mut V) -> FirstInstant
    requires { IsTrue (acts_below atomic.now.acts (V.view_state view.old).places) }
    ensures { Evaluates (V.view_state view.old) (V.view_state view.new) (first_of atomic.now) (Ok result) }
{
    first_among(atomic.acts.as_slice(), atomic.instants.as_slice(), view)
}
