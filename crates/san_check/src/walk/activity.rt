//! The words of activities.

ghost use Rattle.std.specs.Prelude.{◌≡◌, map};
ghost use Rattle.san_check.specs.walk.Entries.{joined};
ghost use Rattle.san_check.specs.inner.Walks.{seen_all};
ghost use Rattle.san_check.specs.walk.Activity.{is_outside, weight_entries, arc_entries, input_entries, output_entries, outputs_entries, case_entries, cases_entries, delay_code, weight_code, summed, choice_entries, table_entries, dist_entries, pair_entries, timing_entries, priority_entries, front_entries, act_code, act_entries};

use crate::codes::{
    ARC_WEIGHT, GEOMETRIC_CHANCE, NAME_TAKEN, PRIORITY_TOO_LARGE, TABLE_DELAY, TOO_MANY_ACTS,
    TOO_MANY_ENTRIES, WEIGHTS_ARE_ZERO, WEIGHTS_TOO_LARGE,
};
use crate::limits::{MAX_ENTRIES, MAX_GEOMETRIC};
use crate::place::Place;
use crate::table::Table;
use crate::walk::expression::{walk_expr, walk_stmts, whole};
use crate::walk::{Walk, code};
use san_base::{MAX_DELAY, MAX_PRIORITY, MAX_TOKENS, MAX_WEIGHT, Name};
use san_net::MAX_ATOMIC_ACTS;
use san_text::{ActDecl, Ast, CaseDecl, Cases, DistDecl, InputDecl, OutputDecl, Timing};

pub(crate) fn is_outside(n: u64, least: u64, most: u64) -> bool
    ensures { result ≡ is_outside n least most }
{
    n < least || n > most
}

#[tactic(auto, unfolding(crate::specs::walk::Activity::weight_entries))]
fn walk_weight(walk: &mut Walk, weight: Option<u64>)
    ensures { walk.new ≡ seen_all walk.old (weight_entries weight) }
{
    if let Some(weight) = weight {
        walk.see(code(ARC_WEIGHT, is_outside(weight, 1, u64::from(MAX_TOKENS))));
    }
}

#[tactic(auto, unfolding(crate::specs::walk::Activity::arc_entries))]
fn walk_arc<'a>(walk: &mut Walk, places: &Table<'a, Place>, name: &'a Name, weight: Option<u64>)
    ensures { walk.new ≡ seen_all walk.old (arc_entries places.now name.now weight) }
{
    walk.see(whole(places, name));
    walk_weight(walk, weight);
}

#[tactic(auto, unfolding(crate::specs::walk::Activity::input_entries), using(crate::proofs::EntryLemmas::seen_append))]
fn walk_input<'a>(walk: &mut Walk, places: &Table<'a, Place>, input: &'a InputDecl)
    ensures { walk.new ≡ seen_all walk.old (input_entries places.now input.now) }
{
    match input {
        InputDecl::Arc(name, weight) => walk_arc(walk, places, name, *weight),
        InputDecl::Gate(predicate, body) => {
            walk_expr(walk, places, predicate);
            walk_stmts(walk, places, body.as_slice());
        }
    }
}

#[tactic(auto, unfolding(crate::specs::walk::Activity::output_entries))]
fn walk_output<'a>(walk: &mut Walk, places: &Table<'a, Place>, output: &'a OutputDecl)
    ensures { walk.new ≡ seen_all walk.old (output_entries places.now output.now) }
{
    match output {
        OutputDecl::Arc(name, weight) => walk_arc(walk, places, name, *weight),
        OutputDecl::Body(body) => walk_stmts(walk, places, body.as_slice()),
    }
}

#[tactic(auto, using(crate::proofs::EntryLemmas::seen_append))]
fn walk_outputs<'a>(walk: &mut Walk, places: &Table<'a, Place>, outputs: &'a [OutputDecl])
    ensures { walk.new ≡ seen_all walk.old (outputs_entries places.now outputs.now) }
{
    'outputs: for output in outputs {
        walk_output(walk, places, output);
    }
}

#[tactic(auto, unfolding(crate::specs::walk::Activity::case_entries), using(crate::proofs::EntryLemmas::seen_append))]
fn walk_case<'a>(walk: &mut Walk, places: &Table<'a, Place>, case: &'a CaseDecl)
    ensures { walk.new ≡ seen_all walk.old (case_entries places.now case.now) }
{
    walk_expr(walk, places, &case.weight);
    walk_outputs(walk, places, case.outputs.as_slice());
}

#[tactic(auto, using(crate::proofs::EntryLemmas::seen_append))]
fn walk_weighted<'a>(walk: &mut Walk, places: &Table<'a, Place>, cases: &'a [CaseDecl])
    ensures { walk.new ≡ seen_all walk.old (joined (map (case_entries places.now) cases.now)) }
{
    'cases: for case in cases {
        walk_case(walk, places, case);
    }
}

#[tactic(auto, unfolding(crate::specs::walk::Activity::cases_entries))]
fn walk_cases<'a>(walk: &mut Walk, places: &Table<'a, Place>, cases: &'a Cases)
    ensures { walk.new ≡ seen_all walk.old (cases_entries places.now cases.now) }
{
    match cases {
        Cases::Plain(outputs) => walk_outputs(walk, places, outputs.as_slice()),
        Cases::Weighted(cases) => walk_weighted(walk, places, cases.as_slice()),
    }
}

/// The delay of a table's entry behind `n` others.
#[tactic(auto, unfolding(crate::specs::walk::Activity::delay_code))]
fn delay_code(n: usize, delay: u64) -> Option<u32>
    ensures { result ≡ delay_code n delay }
{
    code(TABLE_DELAY, is_outside(delay, 1, MAX_DELAY)).or(code(TOO_MANY_ENTRIES, n >= MAX_ENTRIES))
}

/// The weight that brings the sum so far to `sum`, where `more` entries follow.
#[tactic(auto, unfolding(crate::specs::walk::Activity::weight_code))]
fn weight_code(sum: u64, more: usize) -> Option<u32>
    ensures { result ≡ weight_code sum more }
{
    code(WEIGHTS_TOO_LARGE, sum > MAX_WEIGHT).or(code(WEIGHTS_ARE_ZERO, more == 0 && sum == 0))
}

fn summed(sum: u64, weight: u64) -> u64
    ensures { result ≡ summed sum weight }
{
    sum.saturating_add(weight).min(MAX_WEIGHT + 1)
}

/// Walks an entry of a table behind `n` others, whose weights have the sum `sum`, and before `more`
/// others. Answers the sum with its weight.
fn walk_choice(walk: &mut Walk, n: usize, sum: u64, more: usize, entry: &(u64, u64)) -> u64
    ensures sum { result ≡ summed sum entry.now.1 }
    ensures entries { walk.new ≡ seen_all walk.old (choice_entries n sum more entry.now) }
{
    let sum = summed(sum, entry.1);
    walk.see(delay_code(n, entry.0));
    walk.see(weight_code(sum, more));
    sum
}

fn walk_table(walk: &mut Walk, entries: &[(u64, u64)])
    ensures { walk.new ≡ seen_all walk.old (table_entries 0 0 entries.now) }
{
    let mut sum = 0;
    'entries: for (n, entry) in entries.iter().enumerate() {
        sum = walk_choice(walk, n, sum, entries.len() - n - 1, entry);
    }
}

#[tactic(auto, unfolding(crate::specs::walk::Activity::dist_entries), using(crate::proofs::EntryLemmas::seen_append))]
fn walk_dist<'a>(walk: &mut Walk, places: &Table<'a, Place>, dist: &'a DistDecl)
    ensures { walk.new ≡ seen_all walk.old (dist_entries places.now dist.now) }
{
    match dist {
        DistDecl::Det(e) => walk_expr(walk, places, e),
        DistDecl::Uniform(low, high) => {
            walk_expr(walk, places, low);
            walk_expr(walk, places, high);
        }
        DistDecl::Geom(p, q) => {
            walk.see(code(GEOMETRIC_CHANCE, is_outside(*p, 1, MAX_GEOMETRIC)));
            walk.see(code(GEOMETRIC_CHANCE, is_outside(*q, *p, MAX_GEOMETRIC)));
        }
        DistDecl::Table(entries) => walk_table(walk, entries.as_slice()),
    }
}

#[tactic(auto, unfolding(crate::specs::walk::Activity::pair_entries), using(crate::proofs::EntryLemmas::seen_append))]
fn walk_pair<'a>(walk: &mut Walk, places: &Table<'a, Place>, pair: &'a Option<(Ast, Ast)>)
    ensures { walk.new ≡ seen_all walk.old (pair_entries places.now pair.now) }
{
    if let Some((activation, reactivation)) = pair {
        walk_expr(walk, places, activation);
        walk_expr(walk, places, reactivation);
    }
}

#[tactic(auto, unfolding(crate::specs::walk::Activity::timing_entries), using(crate::proofs::EntryLemmas::seen_append))]
fn walk_timing<'a>(walk: &mut Walk, places: &Table<'a, Place>, timing: &'a Option<Timing>)
    ensures { walk.new ≡ seen_all walk.old (timing_entries places.now timing.now) }
{
    if let Some(timing) = timing {
        walk_dist(walk, places, &timing.delay);
        walk_pair(walk, places, &timing.pair);
    }
}

#[tactic(auto, unfolding(crate::specs::walk::Activity::priority_entries))]
fn walk_priority(walk: &mut Walk, priority: Option<u64>)
    ensures { walk.new ≡ seen_all walk.old (priority_entries priority) }
{
    if let Some(priority) = priority {
        walk.see(code(PRIORITY_TOO_LARGE, priority > MAX_PRIORITY));
    }
}

#[tactic(auto, using(crate::proofs::EntryLemmas::seen_append))]
fn walk_inputs<'a>(walk: &mut Walk, places: &Table<'a, Place>, inputs: &'a [InputDecl])
    ensures { walk.new ≡ seen_all walk.old (joined (map (input_entries places.now) inputs.now)) }
{
    'inputs: for input in inputs {
        walk_input(walk, places, input);
    }
}

/// The name of an activity behind `n` others.
#[tactic(auto, unfolding(crate::specs::walk::Activity::act_code))]
pub(crate) fn act_code<'a>(
    places: &Table<'a, Place>,
    acts: &Table<'a, ()>,
    n: usize,
    name: &'a Name,
) -> Option<u32>
    ensures { result ≡ act_code places.now acts.now n name.now }
{
    let name = name.as_bytes();
    code(NAME_TAKEN, places.is_known(name) || acts.is_known(name)).or(code(
        TOO_MANY_ACTS,
        n >= MAX_ATOMIC_ACTS,
    ))
}

/// Walks the priority, which only an instantaneous activity has.
fn walk_front(walk: &mut Walk, timing: &Option<Timing>, priority: Option<u64>)
    ensures { walk.new ≡ seen_all walk.old (front_entries timing.now priority) }
{
    if timing.is_none() {
        walk_priority(walk, priority);
    }
}

/// Walks an activity behind its name.
#[tactic(auto, unfolding(crate::specs::walk::Activity::act_entries), using(crate::proofs::EntryLemmas::seen_append))]
pub(crate) fn walk_act<'a>(walk: &mut Walk, places: &Table<'a, Place>, act: &'a ActDecl)
    ensures { walk.new ≡ seen_all walk.old (act_entries places.now act.now) }
{
    walk_front(walk, &act.timing, act.priority);
    walk_inputs(walk, places, act.inputs.as_slice());
    walk_timing(walk, places, &act.timing);
    walk_cases(walk, places, &act.cases);
}
