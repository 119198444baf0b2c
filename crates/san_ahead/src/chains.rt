//! The chain of a leaf, beside the lines that its pieces wrote.

ghost use Rattle.std.specs.Prelude.{◌≡◌, ◌≤◌, ◌<◌, ◌++◌, ◌∷◌, [], ℕ, IfErr, None, OnOk, Some, drop, length, map, slice_index_or, take};
ghost use Rattle.std.specs.Option.{MatchOption};
ghost use Rattle.san_ahead.specs.Ahead.{last_of};
ghost use Rattle.san_ahead.specs.Aheads.{line_in, no_line};
ghost use Rattle.san_book.specs.Chains.{AllFit, current, is_current, with_piece, without_pieces};
ghost use Rattle.san_book.specs.Lines.{AreWrites};
ghost use Rattle.san_book.specs.Machines.{sees_all};
ghost use Rattle.san_chain.specs.Chains.{GoesOn, end_of};
ghost use Rattle.san_decide.specs.Booked.{of_piece};
ghost use Rattle.san_leaf.specs.States.{kind_in};
ghost use Rattle.san_line.specs.Lines.{find};

use crate::lines::{agrees_at, put_writes, reserve_writes, withdraw_writes};
use san_base::{Kind, LeafId, Stamp};
use san_chain::Chain;
use san_leaf::Piece;
use san_line::Line;

/// Whether a piece sees what others write at its time.
pub fn sees_all(kind: Kind) -> bool
    ensures { (first : ℕ) → result ≡ sees_all (kind_in first kind) }
{
    match kind {
        Kind::Refresh => true,
        Kind::Fire(_) | Kind::Settle => false,
    }
}

/// Whether a leaf's piece of a number read what the lines have at its stamp.
fn is_piece_current(lines: &[Line], leaf: LeafId, pos: u64, piece: &Piece) -> bool
    ensures { result ≡ is_current of_piece (map line_in lines.now) leaf.0 (pos, piece.now) }
{
    let stamp = Stamp {
        time: piece.time(),
        leaf,
        pos,
        all: sees_all(piece.kind()),
    };
    agrees_at(lines, stamp, piece.log())
}

/// How many pieces of a leaf's chain stand before the first that read another value than the lines
/// have at its stamp.
pub fn current_pieces(lines: &[Line], leaf: LeafId, chain: &Chain<Piece>) -> u32
    ensures count { result ≡ current of_piece (map line_in lines.now) leaf.0 chain.now.pieces }
    ensures within { result ≤ length chain.now.pieces }
{
    let end = chain.len();
    'pieces: for index in 0..end {
        let Some((pos, piece)) = chain.at(index) else {
            unreachable!()
        };
        if !is_piece_current(lines, leaf, pos, piece) {
            return index;
        }
    }
    end
}

/// Takes the pieces from an index on out of a leaf's chain, and their versions out of the lines.
pub fn cut_chain(lines: &mut [Line], leaf: LeafId, chain: &mut Chain<Piece>, from: u32)
    requires fit { AllFit of_piece (length lines.old) chain.old.pieces }
    ensures lines { map line_in lines.new ≡ without_pieces of_piece leaf.0 (drop from chain.old.pieces) (map line_in lines.old) }
    ensures chain { chain.new ≡ record chain.old { pieces = take from chain.old.pieces } }
{
    let end = chain.len();
    'pieces: for index in from..end {
        let Some((pos, piece)) = chain.at(index) else {
            unreachable!()
        };
        withdraw_writes(lines, leaf, pos, &piece.outcome().writes);
    }
    chain.cut(from);
}

/// The last piece of a chain.
pub(crate) fn last_piece(chain: &Chain<Piece>) -> Option<&Piece>
    ensures { MatchOption result (chain.now.pieces ≡ []) (λ p. last_of chain.now.pieces ≡ Some p.now) }
{
    let count = chain.len();
    if count == 0 {
        return None;
    }
    let Some(last) = chain.at(count - 1) else {
        unreachable!()
    };
    Some(last.1)
}

/// Pushes a piece onto a leaf's chain, from whose end it goes on, and puts its versions into the
/// lines. For want of memory the piece comes back, and no line and no chain has changed but by the
/// room that was taken.
pub fn push_piece(
    lines: &mut [Line],
    leaf: LeafId,
    pos: u64,
    chain: &mut Chain<Piece>,
    piece: Piece,
) -> Result<(), Piece>
    requires fit { AreWrites (length lines.old) piece.outcome.writes }
    requires new { (i : ℕ) → i < length piece.outcome.writes
        → find leaf.0 pos (slice_index_or lines.old (slice_index_or piece.outcome.writes i (0, 0)).0 no_line).versions ≡ None }
    requires goes_on { GoesOn piece.base (end_of (λ p. p.outcome.state) chain.old.pieces) }
    ensures pushed { OnOk result (map line_in lines.new ≡ with_piece of_piece leaf.0 pos piece (map line_in lines.old)) }
    ensures chain { OnOk result (chain.new.pieces ≡ chain.old.pieces ++ (pos, piece) ∷ []) }
    ensures back { IfErr result (λ p. (p ≡ piece) × (map line_in lines.new ≡ map line_in lines.old)
        × (chain.new.pieces ≡ chain.old.pieces)) }
{
    let writes = &piece.outcome().writes;
    if reserve_writes(lines, writes).is_err() {
        return Err(piece);
    }
    if chain.reserve().is_err() {
        return Err(piece);
    }
    put_writes(lines, piece.time(), leaf, pos, writes);
    let Ok(()) = chain.push(pos, piece) else {
        unreachable!()
    };
    Ok(())
}
