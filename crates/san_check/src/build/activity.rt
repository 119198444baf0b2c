//! Activities over the cells of their atomic.

ghost use Rattle.std.specs.Prelude.{◌≡◌, map, IfOk};
ghost use Rattle.san_check.specs.build.Activity.{weight_of, input_of, output_of, outputs_of, case_of, only_case, cases_of, pair_of, kind_of, activity_of, act_of};

use crate::build::cells::{Cells, capped, cells_at};
use crate::build::expression::{dist_of, expr_of, stmts_of};
use crate::table::Table;
use san_base::{Items, Name, NoMemory};
use san_expr::Expr;
use san_net::{ActKind, Activity, Case, Input, Output};
use san_text::{ActDecl, Ast, CaseDecl, Cases, InputDecl, OutputDecl, Timing};
use std::alloc::Global;

fn weight_of(weight: Option<u64>) -> u32
    ensures { result ≡ weight_of weight }
{
    capped(weight.unwrap_or(1))
}

#[tactic(auto, unfolding(crate::specs::build::Activity::input_of))]
fn input_of<'a>(
    alloc: Global,
    cells: &Table<'a, Cells>,
    input: &'a InputDecl,
) -> Result<Input, NoMemory>
    ensures { IfOk result (λ v. v ≡ input_of cells.now input.now) }
{
    match input {
        InputDecl::Arc(name, weight) => {
            Ok(Input::Arc(cells_at(cells, name).first, weight_of(*weight)))
        }
        InputDecl::Gate(predicate, body) => {
            let predicate = expr_of(alloc, cells, predicate)?;
            let body = stmts_of(alloc, cells, body.as_slice())?;
            Ok(Input::Gate(predicate, body))
        }
    }
}

#[tactic(auto, unfolding(crate::specs::build::Activity::output_of))]
fn output_of<'a>(
    alloc: Global,
    cells: &Table<'a, Cells>,
    output: &'a OutputDecl,
) -> Result<Output, NoMemory>
    ensures { IfOk result (λ v. v ≡ output_of cells.now output.now) }
{
    match output {
        OutputDecl::Arc(name, weight) => {
            Ok(Output::Arc(cells_at(cells, name).first, weight_of(*weight)))
        }
        OutputDecl::Body(body) => Ok(Output::Body(stmts_of(alloc, cells, body.as_slice())?)),
    }
}

fn outputs_of<'a>(
    alloc: Global,
    cells: &Table<'a, Cells>,
    outputs: &'a [OutputDecl],
) -> Result<Items<Output>, NoMemory>
    ensures { IfOk result (λ v. v ≡ outputs_of cells.now outputs.now) }
{
    let mut made = Vec::new(alloc);
    'outputs: for output in outputs {
        let next = output_of(alloc, cells, output)?;
        made.push(next)?;
    }
    Ok(Items::from_vec(made))
}

fn inputs_of<'a>(
    alloc: Global,
    cells: &Table<'a, Cells>,
    inputs: &'a [InputDecl],
) -> Result<Items<Input>, NoMemory>
    ensures { IfOk result (λ v. v ≡ map (input_of cells.now) inputs.now) }
{
    let mut made = Vec::new(alloc);
    'inputs: for input in inputs {
        let next = input_of(alloc, cells, input)?;
        made.push(next)?;
    }
    Ok(Items::from_vec(made))
}

fn case_of<'a>(
    alloc: Global,
    cells: &Table<'a, Cells>,
    case: &'a CaseDecl,
) -> Result<Case, NoMemory>
    ensures { IfOk result (λ c. c ≡ case_of cells.now case.now) }
{
    let weight = expr_of(alloc, cells, &case.weight)?;
    let outputs = outputs_of(alloc, cells, case.outputs.as_slice())?;
    Ok(Case { weight, outputs })
}

fn only_case<'a>(
    alloc: Global,
    cells: &Table<'a, Cells>,
    outputs: &'a [OutputDecl],
) -> Result<Case, NoMemory>
    ensures { IfOk result (λ c. c ≡ only_case cells.now outputs.now) }
{
    let outputs = outputs_of(alloc, cells, outputs)?;
    Ok(Case {
        weight: Expr::Number(1),
        outputs,
    })
}

#[tactic(auto, unfolding(crate::specs::build::Activity::cases_of))]
fn cases_of<'a>(
    alloc: Global,
    cells: &Table<'a, Cells>,
    cases: &'a Cases,
) -> Result<Items<Case>, NoMemory>
    ensures { IfOk result (λ v. v ≡ cases_of cells.now cases.now) }
{
    match cases {
        Cases::Plain(outputs) => {
            let only = only_case(alloc, cells, outputs.as_slice())?;
            let mut made = Vec::with_capacity(alloc, 1)?;
            made.push(only)?;
            Ok(Items::from_vec(made))
        }
        Cases::Weighted(cases) => weighted_of(alloc, cells, cases.as_slice()),
    }
}

fn weighted_of<'a>(
    alloc: Global,
    cells: &Table<'a, Cells>,
    cases: &'a [CaseDecl],
) -> Result<Items<Case>, NoMemory>
    ensures { IfOk result (λ v. v ≡ map (case_of cells.now) cases.now) }
{
    let mut made = Vec::new(alloc);
    'cases: for case in cases {
        let next = case_of(alloc, cells, case)?;
        made.push(next)?;
    }
    Ok(Items::from_vec(made))
}

#[tactic(auto, unfolding(crate::specs::build::Activity::pair_of))]
fn pair_of<'a>(
    alloc: Global,
    cells: &Table<'a, Cells>,
    pair: &'a Option<(Ast, Ast)>,
) -> Result<Option<(Expr, Expr)>, NoMemory>
    ensures { IfOk result (λ p. p ≡ pair_of cells.now pair.now) }
{
    match pair {
        Some((activation, reactivation)) => {
            let activation = expr_of(alloc, cells, activation)?;
            let reactivation = expr_of(alloc, cells, reactivation)?;
            Ok(Some((activation, reactivation)))
        }
        None => Ok(None),
    }
}

#[tactic(auto, unfolding(crate::specs::build::Activity::kind_of))]
fn kind_of<'a>(
    alloc: Global,
    cells: &Table<'a, Cells>,
    timing: &'a Option<Timing>,
    priority: Option<u64>,
) -> Result<ActKind, NoMemory>
    ensures { IfOk result (λ k. k ≡ kind_of cells.now timing.now priority) }
{
    match timing {
        Some(timing) => {
            let delay = dist_of(alloc, cells, &timing.delay)?;
            let pair = pair_of(alloc, cells, &timing.pair)?;
            Ok(ActKind::Timed { delay, pair })
        }
        None => Ok(ActKind::Instant {
            priority: capped(priority.unwrap_or(0)),
        }),
    }
}

/// An activity over an atomic's cells.
fn activity_of<'a>(
    alloc: Global,
    cells: &Table<'a, Cells>,
    act: &'a ActDecl,
) -> Result<Activity, NoMemory>
    ensures { IfOk result (λ a. a ≡ activity_of cells.now act.now) }
{
    let kind = kind_of(alloc, cells, &act.timing, act.priority)?;
    let inputs = inputs_of(alloc, cells, act.inputs.as_slice())?;
    let cases = cases_of(alloc, cells, &act.cases)?;
    Ok(Activity {
        kind,
        inputs,
        cases,
    })
}

/// The activities of an atomic, over its cells.
pub(crate) fn acts_of<'a>(
    alloc: Global,
    cells: &Table<'a, Cells>,
    acts: &'a [ActDecl],
) -> Result<Items<(Name, Activity)>, NoMemory>
    ensures { IfOk result (λ v. v ≡ map (act_of cells.now) acts.now) }
{
    let mut made = Vec::new(alloc);
    'acts: for act in acts {
        let name = Name::new(alloc, act.name.as_bytes())?;
        let activity = activity_of(alloc, cells, act)?;
        made.push((name, activity))?;
    }
    Ok(Items::from_vec(made))
}
