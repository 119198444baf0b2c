//! Equal states.

ghost use Rattle.std.specs.Prelude.{◌≡◌, ◌↔◌, IsTrue};

use crate::state::LeafState;
use san_base::all_same;
use san_clock::{Row, Timer};

/// Whether two lists have the same timers.
#[tactic(auto, using(san_base::proofs::SameLemmas::same_turn, san_base::proofs::SameLemmas::same_all, san_base::proofs::SameLemmas::at_same))]
fn same_timers(a: &[Option<Timer>], b: &[Option<Timer>]) -> bool
    ensures { IsTrue result ↔ (a.now ≡ b.now) }
{
    if a.len() != b.len() {
        return false;
    }
    let mut at = 0;
    'next: while at < a.len() {
        if a[at] != b[at] {
            return false;
        }
        at += 1;
    }
    true
}

/// Whether two rows are equal. Most that differ do so in numbers of draws: these are compared first.
pub(crate) fn same_row(a: &Row, b: &Row) -> bool
    ensures { IsTrue result ↔ (a.now ≡ b.now) }
{
    if !all_same(a.cases(), b.cases()) {
        return false;
    }
    if !all_same(a.delays(), b.delays()) {
        return false;
    }
    same_timers(a.timers(), b.timers())
}

/// Whether two states are equal.
pub fn same_state(a: &LeafState, b: &LeafState) -> bool
    ensures { IsTrue result ↔ (a.now ≡ b.now) }
{
    same_row(&a.row, &b.row) && all_same(&a.values, &b.values) && all_same(&a.seen, &b.seen)
}
