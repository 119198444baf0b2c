//! A block of a leaf's completions over its cells.

ghost use Rattle.std.specs.Prelude.{◌≡◌, ℕ, ◌≤◌, ◌<◌, ◌+◌, ◌*◌, ◌^◌, [], All, IfOk, IfSome, IsTrue, Ok, length};
ghost use Rattle.san_base.specs.declared.limits.TheConstants.{MAX_DRAWS};
ghost use Rattle.san_draw.specs.Key.{draw_of};
ghost use Rattle.san_expr.specs.Meets.{Evaluates};
ghost use Rattle.san_net.specs.Accepted.{IsAccepted};
ghost use Rattle.san_net.specs.Below.{acts_below};
ghost use Rattle.san_net.specs.First.{first_of};
ghost use Rattle.san_leaf.specs.Blocks.{block_of, done_of, fired_of, made_of, turn_of};
ghost use Rattle.san_leaf.specs.inner.Turns.{FoundWithin, MakesRecorded, ClosesWithin, TakesTurn};
ghost use Rattle.san_leaf.specs.inner.ViewStates.{view_state_of};
ghost use Rattle.san_leaf.specs.Fits.{MAX_LEAF_DRAWS};

use crate::completion::{complete_or_back, record_impulses};
use crate::leaf_view::{LeafView, View};
use crate::recorder::Recorder;
use san_base::{MAX_ACTS, NoMemory, Trap};
use san_clock::Row;
use san_draw::DrawSource;
use san_mark::Overlay;
use san_net::{Atomic, FirstInstant, Part, first_instant};

/// The completions of the longest block.
pub(crate) const MAX_COMPLETIONS: u32 = 64;

/// How a block of completions ends.
#[derive(Clone, Copy, Debug, PartialEq, Eq)]
pub(crate) enum Close {
    /// Nothing more is enabled.
    Rests,
    /// The most completions are made.
    More,
    /// A test of an activity traps.
    FailsTest(u32, Trap),
    /// A completion of an activity traps.
    FailsDone(u32, Trap),
}

/// What comes first among a part's instantaneous activities.
#[tactic(auto, using(crate::proofs::FoundLemmas::found_within))]
fn first_found<V: View>(atomic: &Atomic, view: &mut LeafView<'_, V>) -> FirstInstant
    requires { IsTrue (acts_below atomic.now.acts (length view.old.places)) }
    ensures first { Evaluates (view_state_of view.old) (view_state_of view.new) (first_of atomic.now) (Ok
        result) }
    ensures within { FoundWithin (length atomic.now.acts) result }
{
    let found = first_instant(atomic, view);
    view.is_sized();
    found
}

/// Completes an activity of the leaf and records of it; a trap ends the block.
#[tactic(auto, using(crate::proofs::TurnLemmas::fails_done, crate::proofs::TurnLemmas::goes_on))]
fn complete_next<V: View, D: DrawSource>(
    part: &Part,
    draws: &mut D,
    act: u32,
    row: &mut Row,
    recorder: &mut Recorder,
    view: &mut LeafView<'_, V>,
    held: &mut Overlay,
) -> Result<Option<Close>, NoMemory>
    requires accepted { IsAccepted part.now.atomic }
    requires cells { length view.old.places ≡ length part.now.atomic.initial }
    requires sized { length held.old ≡ length view.old.places }
    requires act { act < length part.now.atomic.acts }
    requires cases { length row.old.cases ≡ length part.now.atomic.acts }
    requires streams { 2 * (part.now.first.0 + length part.now.atomic.acts) ≤ D.streams draws.old }
    requires small { part.now.first.0 + length part.now.atomic.acts ≤ MAX_ACTS }
    requires numbers { All (λ n. n + 1 < MAX_DRAWS) row.old.cases }
    requires room { length recorder.old.completions < 64 }
    requires none { recorder.old.pending ≡ [] }
    ensures numbers { (most : ℕ) → All (λ n. n ≤ most) row.old.cases
        → All (λ n. n ≤ most + 1) row.new.cases }
    ensures cases { length row.new.cases ≡ length row.old.cases }
    ensures turned { IfOk result (TakesTurn (done_of (draw_of (D.seed draws.old)) part.now act
        row.old.cases) recorder.old recorder.new row.old row.new (view_state_of view.old) (view_state_of
        view.new)) }
    ensures draws { draws.new ≡ draws.old }
    ensures within { IfOk result (λ o. IfSome o (ClosesWithin (length part.now.atomic.acts))) }
    ensures held { length held.new ≡ length held.old }
    ensures kept { (view_state_of view.new).kept ≡ (view_state_of view.old).kept }
    ensures places { (view_state_of view.new).places ≡ (view_state_of view.old).places }
{
    match complete_or_back(part, draws, act, row, view, held) {
        Err(trap) => Ok(Some(Close::FailsDone(act, trap))),
        Ok(case) => {
            let terms = part.atomic.get().impulses.as_slice();
            record_impulses(terms, act, recorder, view)?;
            recorder.event(act, case)?;
            Ok(None)
        }
    }
}

/// The next completion of the leaf, if one comes; else how its block ends.
#[tactic(auto, using(crate::proofs::TurnLemmas::rests, crate::proofs::TurnLemmas::fails_test, crate::proofs::TurnLemmas::found_turns))]
fn turn<V: View, D: DrawSource>(
    part: &Part,
    draws: &mut D,
    row: &mut Row,
    recorder: &mut Recorder,
    view: &mut LeafView<'_, V>,
    held: &mut Overlay,
) -> Result<Option<Close>, NoMemory>
    requires accepted { IsAccepted part.now.atomic }
    requires cells { length view.old.places ≡ length part.now.atomic.initial }
    requires sized { length held.old ≡ length view.old.places }
    requires cases { length row.old.cases ≡ length part.now.atomic.acts }
    requires streams { 2 * (part.now.first.0 + length part.now.atomic.acts) ≤ D.streams draws.old }
    requires small { part.now.first.0 + length part.now.atomic.acts ≤ MAX_ACTS }
    requires numbers { All (λ n. n + 1 < MAX_DRAWS) row.old.cases }
    requires room { length recorder.old.completions < 64 }
    requires none { recorder.old.pending ≡ [] }
    ensures numbers { (most : ℕ) → All (λ n. n ≤ most) row.old.cases
        → All (λ n. n ≤ most + 1) row.new.cases }
    ensures cases { length row.new.cases ≡ length row.old.cases }
    ensures turned { IfOk result (TakesTurn (turn_of (draw_of (D.seed draws.old)) part.now
        row.old.cases) recorder.old recorder.new row.old row.new (view_state_of view.old) (view_state_of
        view.new)) }
    ensures draws { draws.new ≡ draws.old }
    ensures within { IfOk result (λ o. IfSome o (ClosesWithin (length part.now.atomic.acts))) }
    ensures held { length held.new ≡ length held.old }
    ensures kept { (view_state_of view.new).kept ≡ (view_state_of view.old).kept }
    ensures places { (view_state_of view.new).places ≡ (view_state_of view.old).places }
{
    match first_found(part.atomic.get(), view) {
        FirstInstant::None => Ok(Some(Close::Rests)),
        FirstInstant::Trapped(act, trap) => Ok(Some(Close::FailsTest(act, trap))),
        FirstInstant::Enabled(act) => complete_next(part, draws, act, row, recorder, view, held),
    }
}

/// The leaf's completions, at most so many, while one of its instantaneous activities is enabled; and
/// how they end.
fn settle<V: View, D: DrawSource>(
    part: &Part,
    draws: &mut D,
    row: &mut Row,
    recorder: &mut Recorder,
    view: &mut LeafView<'_, V>,
    held: &mut Overlay,
    most: u32,
) -> Result<Close, NoMemory>
    requires accepted { IsAccepted part.now.atomic }
    requires cells { length view.old.places ≡ length part.now.atomic.initial }
    requires sized { length held.old ≡ length view.old.places }
    requires cases { length row.old.cases ≡ length part.now.atomic.acts }
    requires streams { 2 * (part.now.first.0 + length part.now.atomic.acts) ≤ D.streams draws.old }
    requires small { part.now.first.0 + length part.now.atomic.acts ≤ MAX_ACTS }
    requires numbers { All (λ n. n + most < MAX_DRAWS) row.old.cases }
    requires room { length recorder.old.completions + most ≤ 64 }
    requires none { recorder.old.pending ≡ [] }
    ensures made { IfOk result (MakesRecorded (block_of (draw_of (D.seed draws.old)) part.now most
        row.old.cases) recorder.old recorder.new row.old row.new (view_state_of view.old) (view_state_of
        view.new)) }
    ensures within { IfOk result (ClosesWithin (length part.now.atomic.acts)) }
    ensures draws { draws.new ≡ draws.old }
    ensures kept { (view_state_of view.new).kept ≡ (view_state_of view.old).kept }
    ensures places { (view_state_of view.new).places ≡ (view_state_of view.old).places }
{
    let mut left = most;
    'turns: while left > 0 {
        left -= 1;
        if let Some(close) = turn(part, draws, row, recorder, view, held)? {
            return Ok(close);
        }
    }
    Ok(Close::More)
}

/// The completion of an activity that fires, and then those of the leaf's instantaneous ones.
fn fire<V: View, D: DrawSource>(
    part: &Part,
    draws: &mut D,
    act: u32,
    row: &mut Row,
    recorder: &mut Recorder,
    view: &mut LeafView<'_, V>,
    held: &mut Overlay,
) -> Result<Close, NoMemory>
    requires accepted { IsAccepted part.now.atomic }
    requires cells { length view.old.places ≡ length part.now.atomic.initial }
    requires sized { length held.old ≡ length view.old.places }
    requires act { act < length part.now.atomic.acts }
    requires cases { length row.old.cases ≡ length part.now.atomic.acts }
    requires streams { 2 * (part.now.first.0 + length part.now.atomic.acts) ≤ D.streams draws.old }
    requires small { part.now.first.0 + length part.now.atomic.acts ≤ MAX_ACTS }
    requires numbers { All (λ n. n < MAX_LEAF_DRAWS) row.old.cases }
    requires unrecorded { recorder.old.completions ≡ [] }
    requires none { recorder.old.pending ≡ [] }
    ensures made { IfOk result (MakesRecorded (fired_of (draw_of (D.seed draws.old)) part.now act
        row.old.cases) recorder.old recorder.new row.old row.new (view_state_of view.old) (view_state_of
        view.new)) }
    ensures within { IfOk result (ClosesWithin (length part.now.atomic.acts)) }
    ensures draws { draws.new ≡ draws.old }
    ensures kept { (view_state_of view.new).kept ≡ (view_state_of view.old).kept }
    ensures places { (view_state_of view.new).places ≡ (view_state_of view.old).places }
{
    match complete_next(part, draws, act, row, recorder, view, held)? {
        Some(close) => Ok(close),
        None => settle(part, draws, row, recorder, view, held, MAX_COMPLETIONS - 1),
    }
}

/// The completions of a piece: that of the activity that fires, if one does, and then those of the
/// leaf's instantaneous ones.
pub(crate) fn complete_all<V: View, D: DrawSource>(
    part: &Part,
    draws: &mut D,
    fired: Option<u32>,
    row: &mut Row,
    recorder: &mut Recorder,
    view: &mut LeafView<'_, V>,
    held: &mut Overlay,
) -> Result<Close, NoMemory>
    requires accepted { IsAccepted part.now.atomic }
    requires cells { length view.old.places ≡ length part.now.atomic.initial }
    requires sized { length held.old ≡ length view.old.places }
    requires fired { IfSome fired (λ act. act < length part.now.atomic.acts) }
    requires cases { length row.old.cases ≡ length part.now.atomic.acts }
    requires streams { 2 * (part.now.first.0 + length part.now.atomic.acts) ≤ D.streams draws.old }
    requires small { part.now.first.0 + length part.now.atomic.acts ≤ MAX_ACTS }
    requires numbers { All (λ n. n < MAX_LEAF_DRAWS) row.old.cases }
    requires unrecorded { recorder.old.completions ≡ [] }
    requires none { recorder.old.pending ≡ [] }
    ensures made { IfOk result (MakesRecorded (made_of (draw_of (D.seed draws.old)) part.now fired
        row.old.cases) recorder.old recorder.new row.old row.new (view_state_of view.old) (view_state_of
        view.new)) }
    ensures within { IfOk result (ClosesWithin (length part.now.atomic.acts)) }
    ensures draws { draws.new ≡ draws.old }
    ensures kept { (view_state_of view.new).kept ≡ (view_state_of view.old).kept }
    ensures places { (view_state_of view.new).places ≡ (view_state_of view.old).places }
{
    match fired {
        Some(act) => fire(part, draws, act, row, recorder, view, held),
        None => settle(part, draws, row, recorder, view, held, MAX_COMPLETIONS),
    }
}
