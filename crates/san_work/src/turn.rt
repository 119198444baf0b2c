//! A worker's turn.

ghost use Rattle.std.specs.Prelude.{◌≡◌, not};
ghost use Rattle.san_leaf.specs.Claims.{claimed};
ghost use Rattle.san_leaf.specs.Fits.{Fits};
ghost use Rattle.san_speculation.specs.Boards.{after_call, after_claim};

use crate::gate::{Gate, Point};
use crate::maker::PieceMaker;
use san_base::{LeafId, NoMemory};
use san_core::Redoing;
use san_leaf::{Claim, Piece};
use san_speculation::{Board, Publishing, Snapshot};
use std::alloc::Global;

/// Commits what was made ahead or, where nothing can be committed, makes the needed piece. Whether
/// the worker stays.
fn advance<B: Board>(alloc: Global, board: &B, pass: &mut B::Pass) -> bool
    ensures { B.counts pass.new ≡ after_call (not result) (B.counts pass.old) }
{
    match board.commit(pass) {
        Ok(0) => redo(alloc, board, pass),
        Ok(_) => true,
        Err(_) => false,
    }
}

/// Makes the needed piece. Whether the worker stays.
fn redo<B: Board>(alloc: Global, board: &B, pass: &mut B::Pass) -> bool
    ensures { B.counts pass.new ≡ after_call (not result) (B.counts pass.old) }
{
    match board.redo(alloc, pass) {
        Ok(Redoing::Redone) => true,
        Ok(Redoing::Ended) => false,
        Ok(Redoing::Rested) => false,
        Err(_) => false,
    }
}

/// The claimed piece, made from what the board shows.
fn make<B: Board>(
    alloc: Global,
    board: &B,
    pass: &mut B::Pass,
    maker: &mut PieceMaker,
    claim: &Claim,
) -> Result<Piece, NoMemory>
    requires { Fits (claimed claim.now) }
    ensures { B.counts pass.new ≡ B.counts pass.old }
{
    let part = claim.part.get();
    let mut snapshot = Snapshot::for_part(alloc, part)?;
    board.snapshot(pass, part, claim.stamp, &mut snapshot);
    maker.make(alloc, claim, snapshot)
}

/// Commits what was made ahead or, where nothing can be committed, cuts a leaf's chain. Whether the
/// worker stays.
fn settle<B: Board>(board: &B, pass: &mut B::Pass, leaf: LeafId) -> bool
    ensures { B.counts pass.new ≡ after_call (not result) (B.counts pass.old) }
{
    match board.commit(pass) {
        Ok(0) => cut(board, pass, leaf),
        Ok(_) => true,
        Err(_) => false,
    }
}

/// Cuts a leaf's chain. Whether the worker stays.
fn cut<B: Board>(board: &B, pass: &mut B::Pass, leaf: LeafId) -> bool
    ensures { B.counts pass.new ≡ after_call (not result) (B.counts pass.old) }
{
    match board.cut(pass, leaf) {
        Ok(_) => true,
        Err(_) => false,
    }
}

/// Publishes a piece; one that is late is thrown away. Whether the worker stays.
fn store<B: Board>(board: &B, pass: &mut B::Pass, piece: Piece) -> bool
    ensures { B.counts pass.new ≡ after_call (not result) (B.counts pass.old) }
{
    match board.publish(pass, piece) {
        Publishing::Published => true,
        Publishing::Late(_) => true,
        Publishing::NoMemory(_) => false,
    }
}

/// Makes a claimed piece and publishes it, and then settles its leaf. Where there is no memory for the
/// piece, the claim stays held. Whether the worker stays.
fn serve<B: Board, G: Gate>(
    alloc: Global,
    board: &B,
    pass: &mut B::Pass,
    maker: &mut PieceMaker,
    gate: &G,
    claim: &Claim,
) -> bool
    requires { Fits (claimed claim.now) }
    ensures { B.counts pass.new ≡ after_call (not result) (B.counts pass.old) }
{
    gate.at(board.number(pass), Point::Claimed);
    let Ok(piece) = make(alloc, board, pass, maker, claim) else {
        return true;
    };
    gate.at(board.number(pass), Point::Made);
    if !store(board, pass, piece) {
        return false;
    }
    gate.at(board.number(pass), Point::Published);
    settle(board, pass, claim.stamp.leaf)
}

/// Makes a turn: asks for a claim and serves it, or else advances the run. Whether the worker stays.
pub(crate) fn turn<B: Board, G: Gate>(
    alloc: Global,
    board: &B,
    pass: &mut B::Pass,
    maker: &mut PieceMaker,
    gate: &G,
) -> bool
    ensures { B.counts pass.new ≡ after_call (not result) (after_claim (B.counts pass.old)) }
{
    match board.claim(pass) {
        Ok(Some(claim)) => serve(alloc, board, pass, maker, gate, &claim),
        Ok(None) => advance(alloc, board, pass),
        Err(_) => false,
    }
}
