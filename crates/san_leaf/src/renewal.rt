//! The renewal of a leaf in the values that its piece read.

ghost use Rattle.std.specs.Prelude.{◌≡◌, ◌≤◌, ◌<◌, ◌+◌, ◌*◌, [], All, IfOk, IfErr, IsTrue, length, not, if◌then◌else◌};
ghost use Rattle.san_draw.specs.Key.{draw_of};
ghost use Rattle.san_expr.specs.Below.{places_below};
ghost use Rattle.san_law.specs.Clocks.{renewed_row, same_list};
ghost use Rattle.san_leaf.specs.Claims.{claimed};
ghost use Rattle.san_leaf.specs.Fits.{Fits};
ghost use Rattle.san_leaf.specs.Outcomes.{IsNumbered, outcome_in};
ghost use Rattle.san_leaf.specs.inner.Renewals.{any_pair, renewed_by, renewing_in, refreshed_by};
ghost use Rattle.san_net.specs.Leaf.{leaf_of};

use crate::block::Close;
use crate::outcome::Outcome;
use crate::piece::Claim;
use crate::rates::rates;
use crate::same::same_row;
use crate::state::LeafState;
use crate::work::idle_outcome;
use san_base::{MAX_ACTS, Name, NoMemory, Shared, Trap, all_same};
use san_clock::{Renewal, Row, renew};
use san_delay::DelayTables;
use san_draw::DrawSource;
use san_expr::Marking;
use san_net::{ActKind, Activity};
use std::alloc::Global;

/// Whether two lists of values differ.
#[tactic(auto, using(crate::proofs::RenewalLemmas::differ_by))]
fn differ(a: &[u32], b: &[u32]) -> bool
    ensures { result ≡ not (same_list a.now b.now) }
{
    !all_same(a, b)
}

/// The row that the renewal leaves, or the activity that traps.
fn renewed<D: DrawSource>(
    alloc: Global,
    claim: &Claim,
    draws: &mut D,
    tables: &DelayTables,
    cells: &mut Marking,
) -> Result<Result<Row, (u32, Trap)>, NoMemory>
    requires fits { Fits (claimed claim.now) }
    requires each { length cells.old ≡ length claim.now.part.atomic.initial }
    requires streams { 2 * (claim.now.part.first.0 + length claim.now.part.atomic.acts)
        ≤ D.streams draws.old }
    ensures row { IfOk result (λ r. renewing_in r ≡ renewed_row (draw_of (D.seed draws.old))
        (leaf_of claim.now.part) claim.now.time.0 claim.now.base.seen (record {
          values = cells.old;
          row = claim.now.base.row;
        })) }
    ensures within { IfOk result (λ r. IfErr r (λ f. f.0 < length claim.now.part.atomic.acts)) }
    ensures same { cells.new ≡ cells.old }
    ensures draws { draws.new ≡ draws.old }
{
    let base = claim.base.get();
    let mut row = base.row.copy(alloc)?;
    let changed = differ(&base.seen, cells.as_slice());
    let renewal = Renewal {
        tables,
        time: claim.time.0,
        changed,
    };
    match renew(&renewal, draws, claim.part.get(), &mut row, cells) {
        Ok(()) => Ok(Ok(row)),
        Err(fault) => Ok(Err(fault)),
    }
}

/// Whether some activity has a pair.
fn has_pair(acts: &[(Name, Activity)]) -> bool
    ensures { result ≡ any_pair acts.now }
{
    'acts: for act in acts {
        if let ActKind::Timed { pair: Some(_), .. } = &act.1.kind {
            return true;
        }
    }
    false
}

/// What a leaf keeps of the values that it renewed in: all of them where an activity has a pair.
fn seen<'a>(acts: &[(Name, Activity)], values: &'a [u32]) -> &'a [u32]
    ensures { result.now ≡ if any_pair acts.now then values.now else [] }
{
    if has_pair(acts) { values } else { &[] }
}

/// The state that a renewal leaves: shared with the base where nothing changed.
fn fresh_state(
    alloc: Global,
    base: &Shared<LeafState>,
    row: Row,
    seen: &[u32],
) -> Result<Shared<LeafState>, NoMemory>
    ensures { IfOk result (λ s. s ≡ record { values = base.now.values; row = row; seen = seen.now }) }
{
    let before = base.get();
    if same_row(&before.row, &row) && all_same(&before.seen, seen) {
        return base.share();
    }
    let state = LeafState {
        values: before.values.to_vec(alloc)?,
        row,
        seen: seen.to_vec(alloc)?,
    };
    Shared::new(alloc, state)
}

/// The outcome of a renewal that leaves a row.
fn fresh_outcome(
    alloc: Global,
    claim: &Claim,
    row: Row,
    cells: &mut Marking,
) -> Result<Outcome, NoMemory>
    requires { All (λ t. IsTrue (places_below t.expr (length cells.old)))
        claim.now.part.atomic.rates }
    ensures same { IfOk result (λ o. outcome_in claim.now.part.first.0 o ≡ renewed_by claim.now.part
        claim.now.base cells.old row) }
    ensures numbered { IfOk result (IsNumbered claim.now.part.first.0 claim.now.time.0) }
{
    let atomic = claim.part.get().atomic.get();
    let seen = seen(atomic.acts.as_slice(), cells.as_slice());
    Ok(Outcome {
        events: Vec::new(alloc),
        writes: Vec::new(alloc),
        state: fresh_state(alloc, &claim.base, row, seen)?,
        impulses: Vec::new(alloc),
        rates: rates(alloc, atomic.rates.as_slice(), cells)?,
        fault: None,
        more: false,
    })
}

/// The outcome of the leaf's renewal in these values.
pub(crate) fn refreshed<D: DrawSource>(
    alloc: Global,
    claim: &Claim,
    draws: &mut D,
    tables: &DelayTables,
    values: Vec<u32>,
) -> Result<Outcome, NoMemory>
    requires fits { Fits (claimed claim.now) }
    requires each { length values.items ≡ length claim.now.part.atomic.initial }
    requires streams { 2 * (claim.now.part.first.0 + length claim.now.part.atomic.acts)
        ≤ D.streams draws.old }
    ensures same { IfOk result (λ o. outcome_in claim.now.part.first.0 o ≡ refreshed_by
        claim.now.part claim.now.base values.items (renewed_row (draw_of (D.seed draws.old))
        (leaf_of claim.now.part) claim.now.time.0 claim.now.base.seen (record {
          values =
              values.items;
          row = claim.now.base.row;
        }))) }
    ensures numbered { IfOk result (IsNumbered claim.now.part.first.0 claim.now.time.0) }
    ensures draws { draws.new ≡ draws.old }
{
    let mut cells = Marking::new(values);
    match renewed(alloc, claim, draws, tables, &mut cells)? {
        Ok(row) => fresh_outcome(alloc, claim, row, &mut cells),
        Err((act, trap)) => idle_outcome(alloc, claim, Close::FailsTest(act, trap)),
    }
}
