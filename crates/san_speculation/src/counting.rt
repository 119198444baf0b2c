//! What a core's journal counts.

ghost use Rattle.std.specs.Prelude.{◌≡◌, ◌≤◌, ◌<◌, ◌^◌, length, map};
ghost use Rattle.san_book.specs.Journals.{commits, is_claim, is_late, is_redo};
ghost use Rattle.san_book.specs.declared.limits.TheConstants.{MAX_JOURNAL};
ghost use Rattle.san_speculation.specs.Counting.{counts_in, counts_of};
ghost use Rattle.san_speculation.specs.Speculating.{step_in};

use crate::speculation::Core;
use crate::step::Step;

/// How many claims there were, and how many of them came to nothing; how often pieces were thrown
/// away; how many pieces were committed that had been made ahead, and how many were made anew.
#[derive(Clone, Copy, Debug, PartialEq, Eq)]
pub struct Counts {
    pub claims: u64,
    pub late: u64,
    pub rollbacks: u64,
    pub committed: u64,
    pub redone: u64,
}

/// One for a claim.
fn claims(step: Step) -> u64
    ensures is { result ≡ is_claim (step_in step) }
    ensures few { result ≤ 1 }
{
    match step {
        Step::Claim { .. } => 1,
        _ => 0,
    }
}

/// One for a claim that came to nothing.
fn late(step: Step) -> u64
    ensures is { result ≡ is_late (step_in step) }
    ensures few { result ≤ 1 }
{
    match step {
        Step::Late { .. } => 1,
        _ => 0,
    }
}

/// The pieces that are committed.
fn committed(step: Step) -> u64
    ensures is { result ≡ commits (step_in step) }
    ensures few { result < 2 ^ 32 }
{
    match step {
        Step::Commit { pieces, .. } => u64::from(pieces),
        _ => 0,
    }
}

/// One for a piece that was made anew.
fn redone(step: Step) -> u64
    ensures is { result ≡ is_redo (step_in step) }
    ensures few { result ≤ 1 }
{
    match step {
        Step::Redo { .. } => 1,
        _ => 0,
    }
}

/// What some steps count.
fn count(steps: &[Step], rollbacks: u64) -> Counts
    requires { length steps.now ≤ MAX_JOURNAL }
    ensures { result ≡ counts_in (map step_in steps.now) rollbacks }
{
    let mut counts = Counts {
        claims: 0,
        late: 0,
        rollbacks,
        committed: 0,
        redone: 0,
    };
    'steps: for step in steps {
        counts.claims += claims(*step);
        counts.late += late(*step);
        counts.committed += committed(*step);
        counts.redone += redone(*step);
    }
    counts
}

impl Core {
    /// What the steps so far count.
    pub fn counts(&self) -> Counts
        ensures { result ≡ counts_of self.now.book }
    {
        count(self.journal(), self.rollbacks)
    }
}
