//! The completions of a piece, and what they make of the leaf's state.

ghost use Rattle.std.specs.Prelude.{◌≡◌, ◌≤◌, ◌<◌, ◌+◌, ◌*◌, ◌^◌, All, IfOk, IfSome, length};
ghost use Rattle.san_draw.specs.Key.{draw_of};
ghost use Rattle.san_leaf.specs.Blocks.{made_of};
ghost use Rattle.san_leaf.specs.Outcomes.{IsNumbered, outcome_in};
ghost use Rattle.san_leaf.specs.Pieces.{slots_in};
ghost use Rattle.san_leaf.specs.inner.Cells.{owned};
ghost use Rattle.san_leaf.specs.inner.Ends.{busy, idle, nothing_recorded, outcome_by, row_by};
ghost use Rattle.san_leaf.specs.inner.Turns.{MakesRecorded, ClosesWithin, close_in};
ghost use Rattle.san_leaf.specs.inner.ViewStates.{view_state_of};
ghost use Rattle.san_net.specs.Accepted.{IsAccepted};
ghost use Rattle.san_leaf.specs.Fits.{MAX_LEAF_DRAWS};

use crate::block::{Close, complete_all};
use crate::cells::{noted, owned};
use crate::leaf_view::{LeafView, View};
use crate::outcome::{Outcome, close_fault, events, is_more};
use crate::piece::Claim;
use crate::recorder::Recorder;
use crate::state::LeafState;
use san_base::{MAX_ACTS, NoMemory, Shared};
use san_clock::Row;
use san_draw::DrawSource;
use san_mark::Overlay;
use san_net::Part;
use std::alloc::Global;

/// What completions make of a leaf's state.
#[derive(Drop)]
pub(crate) struct Work {
    pub(crate) recorder: Recorder,
    pub(crate) row: Row,
    pub(crate) close: Close,
}

/// A row as completions begin: without the timer of the activity that fires.
fn started(alloc: Global, row: &Row, fired: Option<u32>) -> Result<Row, NoMemory>
    requires { IfSome fired (λ act. act < length row.now.timers) }
    ensures same { IfOk result (λ r. r ≡ row_by fired row.now) }
    ensures cases { IfOk result (λ r. r.cases ≡ row.now.cases) }
{
    let mut started = row.copy(alloc)?;
    if let Some(act) = fired {
        started.drop_timer(act);
    }
    Ok(started)
}

/// Completes a leaf's activities over its cells; the one that fires has no timer any more.
pub(crate) fn worked<V: View, D: DrawSource>(
    alloc: Global,
    part: &Part,
    draws: &mut D,
    fired: Option<u32>,
    row: &Row,
    view: &mut LeafView<'_, V>,
) -> Result<Work, NoMemory>
    requires accepted { IsAccepted part.now.atomic }
    requires cells { length view.old.places ≡ length part.now.atomic.initial }
    requires fired { IfSome fired (λ act. act < length part.now.atomic.acts) }
    requires timers { length row.now.timers ≡ length part.now.atomic.acts }
    requires cases { length row.now.cases ≡ length part.now.atomic.acts }
    requires streams { 2 * (part.now.first.0 + length part.now.atomic.acts) ≤ D.streams draws.old }
    requires small { part.now.first.0 + length part.now.atomic.acts ≤ MAX_ACTS }
    requires numbers { All (λ n. n < MAX_LEAF_DRAWS) row.now.cases }
    ensures draws { draws.new ≡ draws.old }
    ensures worked { IfOk result (λ w. MakesRecorded (made_of (draw_of (D.seed draws.old)) part.now fired
        row.now.cases) nothing_recorded w.recorder (row_by fired row.now) w.row (view_state_of view.old) (view_state_of
        view.new) w.close) }
    ensures within { IfOk result (λ w. ClosesWithin (length part.now.atomic.acts) w.close) }
    ensures kept { (view_state_of view.new).kept ≡ (view_state_of view.old).kept }
    ensures places { (view_state_of view.new).places ≡ (view_state_of view.old).places }
{
    let mut row = started(alloc, row, fired)?;
    let mut held = Overlay::new(alloc, view.slots.len() as u32)?;
    let mut recorder = Recorder::new(alloc);
    let close = complete_all(part, draws, fired, &mut row, &mut recorder, view, &mut held)?;
    Ok(Work {
        recorder,
        row,
        close,
    })
}

/// The state that completions leave: its private cells and its row are new.
fn end_state(
    alloc: Global,
    part: &Part,
    base: &LeafState,
    row: Row,
    own: &[Option<u32>],
) -> Result<Shared<LeafState>, NoMemory>
    ensures { IfOk result (λ s. s ≡ record { values = owned (slots_in part.now) own.now; row = row; seen = base.now.seen }) }
{
    let state = LeafState {
        values: owned(alloc, part.slots.as_slice(), own)?,
        row,
        seen: base.seen.to_vec(alloc)?,
    };
    Shared::new(alloc, state)
}

/// The outcome of a piece that completed nothing: it leaves the state that it began from.
pub(crate) fn idle_outcome(alloc: Global, claim: &Claim, close: Close) -> Result<Outcome, NoMemory>
    requires first { claim.now.part.first.0 ≤ MAX_ACTS }
    requires within { ClosesWithin MAX_ACTS close }
    ensures same { IfOk result (λ o. outcome_in claim.now.part.first.0 o ≡ idle claim.now.base
        (close_in close)) }
    ensures numbered { IfOk result (IsNumbered claim.now.part.first.0 claim.now.time.0) }
{
    Ok(Outcome {
        events: Vec::new(alloc),
        writes: Vec::new(alloc),
        state: claim.base.share()?,
        impulses: Vec::new(alloc),
        rates: Vec::new(alloc),
        fault: close_fault(claim.part.get().first, close),
        more: is_more(close),
    })
}

/// The outcome of a piece with completions.
fn busy_outcome(
    alloc: Global,
    claim: &Claim,
    work: Work,
    own: &Overlay,
) -> Result<Outcome, NoMemory>
    requires first { claim.now.part.first.0 ≤ MAX_ACTS }
    requires within { ClosesWithin MAX_ACTS work.close }
    ensures same { IfOk result (λ o. outcome_in claim.now.part.first.0 o ≡ busy claim.now.part
        claim.now.base own.now work.row work.recorder.completions (close_in work.close)) }
    ensures numbered { IfOk result (IsNumbered claim.now.part.first.0 claim.now.time.0) }
{
    let part = claim.part.get();
    let Work {
        recorder,
        row,
        close,
    } = work;
    let Recorder {
        events: acts,
        impulses,
    } = recorder;
    Ok(Outcome {
        events: events(alloc, part.first, claim.time, &acts)?,
        writes: noted(alloc, part.slots.as_slice(), own.as_slice())?,
        state: end_state(alloc, part, claim.base.get(), row, own.as_slice())?,
        impulses,
        rates: Vec::new(alloc),
        fault: close_fault(part.first, close),
        more: is_more(close),
    })
}

/// The outcome of a piece's completions.
#[tactic(auto, using(crate::proofs::EndLemmas::outcome_busy, crate::proofs::EndLemmas::outcome_idle))]
pub(crate) fn outcome(
    alloc: Global,
    claim: &Claim,
    work: Work,
    own: &Overlay,
) -> Result<Outcome, NoMemory>
    requires first { claim.now.part.first.0 ≤ MAX_ACTS }
    requires within { ClosesWithin MAX_ACTS work.close }
    ensures same { IfOk result (λ o. outcome_in claim.now.part.first.0 o ≡ outcome_by claim.now.part
        claim.now.base own.now work.row work.recorder.completions (close_in work.close)) }
    ensures numbered { IfOk result (IsNumbered claim.now.part.first.0 claim.now.time.0) }
{
    if work.recorder.is_empty() {
        idle_outcome(alloc, claim, work.close)
    } else {
        busy_outcome(alloc, claim, work, own)
    }
}
