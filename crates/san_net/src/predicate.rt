//! Whether an activity is enabled, over a view of its leaf's cells.

ghost use Rattle.std.specs.Prelude.{◌≡◌, ◌<◌, IsTrue};
ghost use Rattle.san_expr.specs.Below.{places_below};
ghost use Rattle.san_expr.specs.Meets.{Evaluates};
ghost use Rattle.san_net.specs.Below.{activity_below, input_below, inputs_below};
ghost use Rattle.san_net.specs.Enabled.{all_hold, enabled_of, has_tokens, predicate_of, truth_of};

use crate::activity::{Activity, Input};
use san_base::Trap;
use san_expr::{Expr, Marked, eval};

fn truth_of<V: Marked>(e: &Expr, view: &mut V) -> Result<bool, Trap>
    requires { IsTrue (places_below e.now (V.view_state view.old).places) }
    ensures { Evaluates (V.view_state view.old) (V.view_state view.new) (truth_of e.now) result }
{
    let x = eval(e, view)?;
    Ok(x != 0)
}

fn has_tokens<V: Marked>(place: u32, weight: u32, view: &mut V) -> Result<bool, Trap>
    requires { place < (V.view_state view.old).places }
    ensures { Evaluates (V.view_state view.old) (V.view_state view.new) (has_tokens place weight) result }
{
    Ok(view.read(place) >= weight)
}

fn predicate<V: Marked>(input: &Input, view: &mut V) -> Result<bool, Trap>
    requires { IsTrue (input_below input.now (V.view_state view.old).places) }
    ensures { Evaluates (V.view_state view.old) (V.view_state view.new) (predicate_of input.now) result }
{
    match input {
        Input::Arc(place, weight) => has_tokens(*place, *weight, view),
        Input::Gate(e, _) => truth_of(e, view),
    }
}

fn all_hold<V: Marked>(inputs: &[Input], view: &mut V) -> Result<bool, Trap>
    requires { IsTrue (inputs_below inputs.now (V.view_state view.old).places) }
    ensures { Evaluates (V.view_state view.old) (V.view_state view.new) (all_hold inputs.now) result }
{
    for input in inputs {
        let passed = predicate(input, view)?;
        if !passed {
            return Ok(false);
        }
    }
    Ok(true)
}

/// Whether an activity is enabled: its predicates in order of declaration, up to the first that
/// isn't passed or traps. Sanders and Meyer's enabling, with own rules for the order and for traps.
pub fn enabled<V: Marked>(activity: &Activity, view: &mut V) -> Result<bool, Trap>
    requires { IsTrue (activity_below activity.now (V.view_state view.old).places) }
    ensures { Evaluates (V.view_state view.old) (V.view_state view.new) (enabled_of activity.now) result }
{
    all_hold(activity.inputs.as_slice(), view)
}
