//! How a piece is made.

ghost use Rattle.std.specs.Prelude.{◌≡◌, ◌≤◌, ◌<◌, ◌+◌, ◌*◌, IfOk, IfSome, None, length, map, replicate};
ghost use Rattle.san_base.specs.declared.piece.Kind.TheVariants.{Refresh};
ghost use Rattle.san_leaf.specs.Claims.{claimed};
ghost use Rattle.san_leaf.specs.Claimed.{IsMadeFor, IsReadFrom};
ghost use Rattle.san_leaf.specs.Fits.{Fits};
ghost use Rattle.san_leaf.specs.Outcomes.{IsNumbered, outcome_in, piece_by};
ghost use Rattle.san_leaf.specs.Pieces.{IsLog, IsSound};
ghost use Rattle.san_leaf.specs.States.{kind_in, pair_in};
ghost use Rattle.san_leaf.specs.inner.Cells.{starts};
ghost use Rattle.san_leaf.specs.inner.Ends.{kind_by, piece_of_cells};
ghost use Rattle.san_leaf.specs.inner.Turns.{ClosesWithin};
ghost use Rattle.san_net.specs.Leaf.{slot_in};

use crate::cells::{noted, starts};
use crate::gather::{join, read_all};
use crate::leaf_view::{LeafView, View};
use crate::outcome::Outcome;
use crate::piece::{Claim, Piece};
use crate::renewal::refreshed;
use crate::work::{Work, outcome, worked};
use san_base::{Kind, MAX_ACTS, NoMemory, PlaceId};
use san_delay::DelayTables;
use san_draw::DrawSource;
use san_mark::Overlay;
use san_net::Slot;
use std::alloc::Global;

/// The piece with this log and outcome.
fn assemble(
    alloc: Global,
    claim: &Claim,
    log: Vec<(PlaceId, u32)>,
    outcome: Outcome,
) -> Result<Piece, NoMemory>
    requires sound { IsSound (piece_by claim.now.part claim.now.seed claim.now.kind claim.now.base
        claim.now.time.0 (map pair_in log.items) (outcome_in claim.now.part.first.0 outcome)) }
    requires fits { Fits (claimed claim.now) }
    requires log { IsLog claim.now.part (map pair_in log.items) }
    requires numbered { IsNumbered claim.now.part.first.0 claim.now.time.0 outcome }
    ensures { IfOk result (λ p. p ≡ piece_by claim.now.part claim.now.seed claim.now.kind
        claim.now.base claim.now.time.0 (map pair_in log.items) (outcome_in claim.now.part.first.0
        outcome)) }
{
    Ok(Piece {
        seed: claim.seed,
        part: claim.part.share()?,
        base: claim.base.share()?,
        kind: claim.kind,
        time: claim.time,
        log,
        outcome,
    })
}

/// The piece that completions make.
fn gathered(
    alloc: Global,
    claim: &Claim,
    work: Work,
    own: &Overlay,
    first: &Overlay,
) -> Result<Piece, NoMemory>
    requires sound { IsSound (piece_of_cells (claimed claim.now) work.recorder work.row work.close
        own.now first.now) }
    requires fits { Fits (claimed claim.now) }
    requires within { ClosesWithin MAX_ACTS work.close }
    ensures { IfOk result (λ p. p ≡ piece_of_cells (claimed claim.now) work.recorder work.row
        work.close own.now first.now) }
{
    let log = noted(alloc, claim.part.get().slots.as_slice(), first.as_slice())?;
    let outcome = outcome(alloc, claim, work, own)?;
    assemble(alloc, claim, log, outcome)
}

/// Makes the piece over a view, and gives the view back.
fn made<V: View, D: DrawSource>(
    alloc: Global,
    claim: &Claim,
    draws: &mut D,
    fired: Option<u32>,
    view: V,
    own: Overlay,
    first: Overlay,
) -> (Result<Piece, NoMemory>, V)
    requires fits { Fits (claimed claim.now) }
    requires kind { kind_in claim.now.part.first.0 claim.now.kind ≡ kind_by fired }
    requires fired { IfSome fired (λ act. act < length claim.now.part.atomic.acts) }
    requires seed { D.seed draws.old ≡ claim.now.seed }
    requires streams { 2 * (claim.now.part.first.0 + length claim.now.part.atomic.acts)
        ≤ D.streams draws.old }
    requires own { own ≡ starts (map slot_in claim.now.part.slots) claim.now.base.values }
    requires first { first ≡ replicate (length claim.now.part.slots) None }
    ensures draws { draws.new ≡ draws.old }
    ensures made { IfOk result.0 (IsMadeFor (claimed claim.now)) }
    ensures read { IfOk result.0 (λ p. IsReadFrom (V.marking view) p.log) }
    ensures marking { V.marking result.1 ≡ V.marking view }
    ensures kept { V.kept result.1 ≡ V.kept view }
{
    let part = claim.part.get();
    let base = claim.base.get();
    let mut cells = LeafView {
        lent: view,
        slots: part.slots.as_slice(),
        own,
        first,
    };
    let work = worked(alloc, part, draws, fired, &base.row, &mut cells);
    let LeafView {
        lent,
        own,
        first,
        ..
    } = cells;
    match work {
        Ok(work) => (gathered(alloc, claim, work, &own, &first), lent),
        Err(fault) => (Err(fault), lent),
    }
}

/// Cells of which none is known.
fn blank(alloc: Global, slots: &[Slot]) -> Result<Overlay, NoMemory>
    requires { length slots.now ≤ 256 }
    ensures { IfOk result (λ o. o ≡ replicate (length slots.now) None) }
{
    Overlay::new(alloc, slots.len() as u32)
}

/// Makes the piece of completions: of the activity that fires, if one does, and then of the leaf's
/// instantaneous ones.
fn complete<V: View, D: DrawSource>(
    alloc: Global,
    claim: &Claim,
    draws: &mut D,
    fired: Option<u32>,
    view: V,
) -> (Result<Piece, NoMemory>, V)
    requires fits { Fits (claimed claim.now) }
    requires kind { kind_in claim.now.part.first.0 claim.now.kind ≡ kind_by fired }
    requires fired { IfSome fired (λ act. act < length claim.now.part.atomic.acts) }
    requires seed { D.seed draws.old ≡ claim.now.seed }
    requires streams { 2 * (claim.now.part.first.0 + length claim.now.part.atomic.acts)
        ≤ D.streams draws.old }
    ensures draws { draws.new ≡ draws.old }
    ensures made { IfOk result.0 (IsMadeFor (claimed claim.now)) }
    ensures read { IfOk result.0 (λ p. IsReadFrom (V.marking view) p.log) }
    ensures marking { V.marking result.1 ≡ V.marking view }
    ensures kept { V.kept result.1 ≡ V.kept view }
{
    let slots = claim.part.get().slots.as_slice();
    let own = match starts(alloc, slots, &claim.base.get().values) {
        Ok(own) => own,
        Err(fault) => return (Err(fault), view),
    };
    let first = match blank(alloc, slots) {
        Ok(first) => first,
        Err(fault) => return (Err(fault), view),
    };
    made(alloc, claim, draws, fired, view, own, first)
}

/// Makes the piece of the leaf's renewal, which reads all its shared places.
fn refresh<V: View, D: DrawSource>(
    alloc: Global,
    claim: &Claim,
    draws: &mut D,
    tables: &DelayTables,
    view: &mut V,
) -> Result<Piece, NoMemory>
    requires fits { Fits (claimed claim.now) }
    requires kind { claim.now.kind ≡ Refresh }
    requires seed { D.seed draws.old ≡ claim.now.seed }
    requires streams { 2 * (claim.now.part.first.0 + length claim.now.part.atomic.acts)
        ≤ D.streams draws.old }
    ensures draws { draws.new ≡ draws.old }
    ensures made { IfOk result (IsMadeFor (claimed claim.now)) }
    ensures read { IfOk result (λ p. IsReadFrom (V.marking view.old) p.log) }
    ensures marking { V.marking view.new ≡ V.marking view.old }
    ensures kept { V.kept view.new ≡ V.kept view.old }
{
    let slots = claim.part.get().slots.as_slice();
    let base = claim.base.get();
    let log = read_all(alloc, slots, view)?;
    let values = join(alloc, slots, &base.values, &log)?;
    let outcome = refreshed(alloc, claim, draws, tables, values)?;
    assemble(alloc, claim, log, outcome)
}

/// Makes the piece that a claim asks for, from the values that the view gives, and gives the view
/// back. A trap is a part of the outcome. The tables keep delays of the network; without them each
/// is counted anew.
pub fn make_piece<V: View, D: DrawSource>(
    alloc: Global,
    claim: &Claim,
    draws: &mut D,
    tables: &DelayTables,
    view: V,
) -> (Result<Piece, NoMemory>, V)
    requires fits { Fits (claimed claim.now) }
    requires seed { D.seed draws.old ≡ claim.now.seed }
    requires streams { 2 * (claim.now.part.first.0 + length claim.now.part.atomic.acts)
        ≤ D.streams draws.old }
    ensures draws { draws.new ≡ draws.old }
    ensures made { IfOk result.0 (IsMadeFor (claimed claim.now)) }
    ensures read { IfOk result.0 (λ p. IsReadFrom (V.marking view) p.log) }
    ensures marking { V.marking result.1 ≡ V.marking view }
    ensures kept { V.kept result.1 ≡ V.kept view }
{
    match claim.kind {
        Kind::Fire(act) => {
            let fired = act.0 - claim.part.get().first.0;
            complete(alloc, claim, draws, Some(fired), view)
        }
        Kind::Settle => complete(alloc, claim, draws, None, view),
        Kind::Refresh => {
            let mut view = view;
            let piece = refresh(alloc, claim, draws, tables, &mut view);
            (piece, view)
        }
    }
}
