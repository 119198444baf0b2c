//! The completion of an activity over a view of its leaf's cells.

ghost use Rattle.std.specs.Prelude.{◌≡◌, ◌<◌, ◌≤◌, ◌+ℤ◌, ◌-ℤ◌, length, pos, IsTrue};
ghost use Rattle.san_expr.specs.Effect.{count_of};
ghost use Rattle.san_expr.specs.Meets.{Meets};
ghost use Rattle.san_net.specs.Below.{activity_below, cases_below, input_below, inputs_below, output_below, outputs_below};
ghost use Rattle.san_net.specs.Completion.{added_to, case_outputs, completed_by, completion_of, function_of, inputs_of, output_of, outputs_of, taken_from};

use crate::activity::{Activity, Case, Input, MAX_CASES, Output};
use crate::choice::choose_case;
use san_base::Trap;
use san_expr::{Cells, count_of, run_stmts};

fn less(count: u32, weight: u32) -> Result<u32, Trap>
    ensures { result ≡ count_of (pos count -ℤ pos weight) }
{
    count_of(i64::from(count) - i64::from(weight))
}

fn more(count: u32, weight: u32) -> Result<u32, Trap>
    ensures { result ≡ count_of (pos count +ℤ pos weight) }
{
    count_of(i64::from(count) + i64::from(weight))
}

fn take<V: Cells>(place: u32, weight: u32, view: &mut V) -> Result<(), Trap>
    requires { place < (V.view_state view.old).places }
    ensures { Meets (V.view_state view.old) (V.view_state view.new) (taken_from place weight) result }
{
    let count = less(view.read(place), weight)?;
    view.set(place, count);
    Ok(())
}

fn add<V: Cells>(place: u32, weight: u32, view: &mut V) -> Result<(), Trap>
    requires { place < (V.view_state view.old).places }
    ensures { Meets (V.view_state view.old) (V.view_state view.new) (added_to place weight) result }
{
    let count = more(view.read(place), weight)?;
    view.set(place, count);
    Ok(())
}

fn apply_input<V: Cells>(input: &Input, view: &mut V) -> Result<(), Trap>
    requires { IsTrue (input_below input.now (V.view_state view.old).places) }
    ensures { Meets (V.view_state view.old) (V.view_state view.new) (function_of input.now) result }
{
    match input {
        Input::Arc(place, weight) => take(*place, *weight, view),
        Input::Gate(_, body) => run_stmts(body.as_slice(), view),
    }
}

fn apply_output<V: Cells>(output: &Output, view: &mut V) -> Result<(), Trap>
    requires { IsTrue (output_below output.now (V.view_state view.old).places) }
    ensures { Meets (V.view_state view.old) (V.view_state view.new) (output_of output.now) result }
{
    match output {
        Output::Arc(place, weight) => add(*place, *weight, view),
        Output::Body(body) => run_stmts(body.as_slice(), view),
    }
}

fn apply_inputs<V: Cells>(inputs: &[Input], view: &mut V) -> Result<(), Trap>
    requires { IsTrue (inputs_below inputs.now (V.view_state view.old).places) }
    ensures { Meets (V.view_state view.old) (V.view_state view.new) (inputs_of inputs.now) result }
{
    for input in inputs {
        apply_input(input, view)?;
    }
    Ok(())
}

fn apply_outputs<V: Cells>(outputs: &[Output], view: &mut V) -> Result<(), Trap>
    requires { IsTrue (outputs_below outputs.now (V.view_state view.old).places) }
    ensures { Meets (V.view_state view.old) (V.view_state view.new) (outputs_of outputs.now) result }
{
    for output in outputs {
        apply_output(output, view)?;
    }
    Ok(())
}

/// The outputs of a case by number.
fn case_outputs(cases: &[Case], at: usize) -> &[Output]
    ensures { result.now ≡ case_outputs cases.now at }
{
    match cases.get(at) {
        Some(case) => case.outputs.as_slice(),
        None => &[],
    }
}

fn apply_case<V: Cells>(cases: &[Case], at: usize, view: &mut V) -> Result<(), Trap>
    requires { IsTrue (cases_below cases.now (V.view_state view.old).places) }
    ensures { Meets (V.view_state view.old) (V.view_state view.new) (outputs_of (case_outputs cases.now at))
        result }
{
    apply_outputs(case_outputs(cases, at), view)
}

fn complete_by<V: Cells>(
    u: u64,
    inputs: &[Input],
    cases: &[Case],
    view: &mut V,
) -> Result<u32, Trap>
    requires numbered { length cases.now ≤ MAX_CASES }
    requires inputs { IsTrue (inputs_below inputs.now (V.view_state view.old).places) }
    requires cases { IsTrue (cases_below cases.now (V.view_state view.old).places) }
    ensures { Meets (V.view_state view.old) (V.view_state view.new) (completed_by u inputs.now cases.now)
        result }
{
    let at = choose_case(cases, u, view)?;
    apply_inputs(inputs, view)?;
    apply_case(cases, at as usize, view)?;
    Ok(at)
}

/// Completes an activity with a case draw, and answers the case. After a trap the view holds the
/// assignments made before it. Sanders and Meyer's completion rule: a case is chosen, then come the
/// input functions, then the outputs of the case. When the weights are evaluated is an own rule.
pub fn complete<V: Cells>(activity: &Activity, u: u64, view: &mut V) -> Result<u32, Trap>
    requires numbered { length activity.now.cases ≤ MAX_CASES }
    requires places { IsTrue (activity_below activity.now (V.view_state view.old).places) }
    ensures { Meets (V.view_state view.old) (V.view_state view.new) (completion_of u activity.now) result }
{
    complete_by(
        u,
        activity.inputs.as_slice(),
        activity.cases.as_slice(),
        view,
    )
}
