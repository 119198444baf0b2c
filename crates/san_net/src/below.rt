//! Whether every cell of an activity is below a number.

ghost use Rattle.std.specs.Prelude.{◌≡◌};
ghost use Rattle.san_net.specs.Below.{activity_below, acts_below, case_below, cases_below, input_below, inputs_below, kind_below, output_below, outputs_below};

use crate::activity::{ActKind, Activity, Case, Input, Output};
use san_base::Name;
use san_expr::{dist_below, places_below, stmts_below};

fn input_below(input: &Input, places: u32) -> bool
    ensures { result ≡ input_below input.now places }
{
    match input {
        Input::Arc(place, _) => *place < places,
        Input::Gate(e, body) => places_below(e, places) && stmts_below(body.as_slice(), places),
    }
}

fn output_below(output: &Output, places: u32) -> bool
    ensures { result ≡ output_below output.now places }
{
    match output {
        Output::Arc(place, _) => *place < places,
        Output::Body(body) => stmts_below(body.as_slice(), places),
    }
}

fn inputs_below(inputs: &[Input], places: u32) -> bool
    ensures { result ≡ inputs_below inputs.now places }
{
    for input in inputs {
        if !input_below(input, places) {
            return false;
        }
    }
    true
}

fn outputs_below(outputs: &[Output], places: u32) -> bool
    ensures { result ≡ outputs_below outputs.now places }
{
    for output in outputs {
        if !output_below(output, places) {
            return false;
        }
    }
    true
}

fn case_below(case: &Case, places: u32) -> bool
    ensures { result ≡ case_below case.now places }
{
    places_below(&case.weight, places) && outputs_below(case.outputs.as_slice(), places)
}

fn cases_below(cases: &[Case], places: u32) -> bool
    ensures { result ≡ cases_below cases.now places }
{
    for case in cases {
        if !case_below(case, places) {
            return false;
        }
    }
    true
}

fn kind_below(kind: &ActKind, places: u32) -> bool
    ensures { result ≡ kind_below kind.now places }
{
    match kind {
        ActKind::Timed { delay, pair: None } => dist_below(delay, places),
        ActKind::Timed {
            delay,
            pair: Some((activation, reactivation)),
        } => {
            dist_below(delay, places)
                && places_below(activation, places)
                && places_below(reactivation, places)
        }
        ActKind::Instant { priority: _ } => true,
    }
}

/// Whether every cell of an activity is below a number.
pub fn activity_below(activity: &Activity, places: u32) -> bool
    ensures { result ≡ activity_below activity.now places }
{
    kind_below(&activity.kind, places)
        && inputs_below(activity.inputs.as_slice(), places)
        && cases_below(activity.cases.as_slice(), places)
}

/// Whether every cell of the activities is below a number.
pub fn acts_below(acts: &[(Name, Activity)], places: u32) -> bool
    ensures { result ≡ acts_below acts.now places }
{
    for act in acts {
        if !activity_below(&act.1, places) {
            return false;
        }
    }
    true
}
