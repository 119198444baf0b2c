//! Summaries, each changed by what stands in its place of another list.

ghost use Rattle.std.specs.Prelude.{◌≡◌};
ghost use Rattle.san_summary.specs.inner.Places.{CanCountAll, CanJoinAll, all_counted, all_joined};

use crate::summary::{Summary, counted, joined};

#[tactic(auto, using(crate::proofs::PlaceLemmas::changed_none))]
pub(crate) fn join_all(mine: &mut Vec<Summary>, others: &[Summary])
    requires { CanJoinAll mine.old.items others.now }
    ensures { mine.new.items ≡ all_joined mine.old.items others.now }
{
    'rewards: for r in 0..mine.len() {
        mine[r] = joined(mine[r], others[r]);
    }
}

#[tactic(auto, using(crate::proofs::PlaceLemmas::changed_none))]
pub(crate) fn count_all(mine: &mut Vec<Summary>, numbers: &[Option<i128>])
    requires { CanCountAll mine.old.items numbers.now }
    ensures { mine.new.items ≡ all_counted mine.old.items numbers.now }
{
    'rewards: for r in 0..mine.len() {
        mine[r] = counted(mine[r], numbers[r]);
    }
}
