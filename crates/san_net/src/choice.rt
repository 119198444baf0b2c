//! The choice of a case by the weights of all.

ghost use Rattle.std.specs.Prelude.{◌≡◌, ◌≤◌, length, Some, IsTrue};
ghost use Rattle.san_expr.specs.Below.{places_below};
ghost use Rattle.san_expr.specs.Meets.{Evaluates};
ghost use Rattle.san_net.specs.Below.{case_below, cases_below};
ghost use Rattle.san_net.specs.Choice.{case_of, is_total, natural, weight_of};
ghost use Rattle.san_net.specs.inner.Weighing.{by_total, found_from, passed, total_from, weigh};

use crate::activity::{Case, MAX_CASES};
use san_base::{MAX_WEIGHT, Trap};
use san_draw::pick;
use san_expr::{Marked, eval};

fn natural(x: i64) -> Option<u64>
    ensures { result ≡ natural x }
{
    if 0 <= x { Some(x as u64) } else { None }
}

/// A case's weight, or none where it is negative.
fn weight<V: Marked>(case: &Case, view: &mut V) -> Result<Option<u64>, Trap>
    requires { IsTrue (case_below case.now (V.view_state view.old).places) }
    ensures { Evaluates (V.view_state view.old) (V.view_state view.new) (weight_of case.now) result }
{
    let x = eval(&case.weight, view)?;
    Ok(natural(x))
}

/// The sum with one weight more, or none where a weight was negative or the sum is too large.
fn weigh(sum: Option<u64>, weight: Option<u64>) -> Option<u64>
    ensures { result ≡ weigh sum weight }
{
    match (sum, weight) {
        (Some(n), Some(k)) => n.checked_add(k),
        _ => None,
    }
}

fn total<V: Marked>(cases: &[Case], view: &mut V) -> Result<Option<u64>, Trap>
    requires { IsTrue (cases_below cases.now (V.view_state view.old).places) }
    ensures { Evaluates (V.view_state view.old) (V.view_state view.new) (total_from (Some 0) cases.now)
        result }
{
    let mut sum = Some(0);
    for case in cases {
        let weight = weight(case, view)?;
        sum = weigh(sum, weight);
    }
    Ok(sum)
}

/// What is left of a number after a weight, or none where the weight exceeds it.
fn passed(left: u64, weight: Option<u64>) -> Option<u64>
    ensures { result ≡ passed left weight }
{
    match weight {
        Some(k) => { if left < k { None } else { Some(left - k) } }
        None => Some(left),
    }
}

/// The case whose cumulative weight is the first to exceed a number. Its weights were evaluated
/// before, so that it reads nothing new.
fn find<V: Marked>(cases: &[Case], picked: u64, view: &mut V) -> Result<u32, Trap>
    requires numbered { length cases.now ≤ MAX_CASES }
    requires places { IsTrue (cases_below cases.now (V.view_state view.old).places) }
    ensures { Evaluates (V.view_state view.old) (V.view_state view.new) (found_from picked 0 cases.now)
        result }
{
    let mut left = picked;
    for (at, case) in cases.iter().enumerate() {
        let weight = weight(case, view)?;
        match passed(left, weight) {
            Some(rest) => left = rest,
            None => return Ok(at as u32),
        }
    }
    Ok(cases.len() as u32)
}

fn is_total(n: u64) -> bool
    ensures { result ≡ is_total n }
{
    1 <= n && n <= MAX_WEIGHT
}

fn find_by<V: Marked>(cases: &[Case], u: u64, total: Option<u64>, view: &mut V) -> Result<u32, Trap>
    requires numbered { length cases.now ≤ MAX_CASES }
    requires places { IsTrue (cases_below cases.now (V.view_state view.old).places) }
    ensures { Evaluates (V.view_state view.old) (V.view_state view.new) (by_total u cases.now total) result }
{
    match total {
        Some(n) => {
            if is_total(n) {
                find(cases, pick(u, n), view)
            } else {
                Err(Trap::Weight)
            }
        }
        None => Err(Trap::Weight),
    }
}

/// The case that a draw chooses, by the weights of all.
pub(crate) fn choose_case<V: Marked>(cases: &[Case], u: u64, view: &mut V) -> Result<u32, Trap>
    requires numbered { length cases.now ≤ MAX_CASES }
    requires places { IsTrue (cases_below cases.now (V.view_state view.old).places) }
    ensures { Evaluates (V.view_state view.old) (V.view_state view.new) (case_of u cases.now) result }
{
    let sum = total(cases, view)?;
    find_by(cases, u, sum, view)
}
