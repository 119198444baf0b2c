//! Pushing a piece, with its reads and its publication in the journal.

ghost use Rattle.std.specs.Prelude.{◌≡◌, ◌≤◌, ◌<◌, ◌+◌, ◌^◌, ◌++◌, ℕ, IfErr, None, OnErr, OnOk, length, map, slice_index, vec_capacity, vec_len};
ghost use Rattle.san_ahead.specs.Ahead.{pushed};
ghost use Rattle.san_book.specs.Chains.{chain_of};
ghost use Rattle.san_book.specs.Lines.{AreWrites, line_of};
ghost use Rattle.san_chain.specs.Chains.{GoesOn, end_of};
ghost use Rattle.san_line.specs.Lines.{find};
ghost use Rattle.san_speculation.specs.inner.Going.{read_step, steps_of};

use crate::booking::book;
use crate::step::Step;
use san_ahead::Ahead;
use san_base::{LeafId, PlaceId};
use san_leaf::Piece;

/// Books what a worker read, for which there is room.
fn book_reads(journal: &mut Vec<Step>, worker: u32, log: &[(PlaceId, u32)])
    requires { vec_len journal.old + length log.now ≤ vec_capacity journal.old }
    ensures items { journal.new.items ≡ journal.old.items ++ map (read_step worker) log.now }
    ensures len { vec_len journal.new ≡ vec_len journal.old + length log.now }
    ensures room { vec_capacity journal.old ≤ vec_capacity journal.new }
{
    'reads: for read in log {
        book(
            journal,
            Step::Read {
                worker,
                place: read.0,
                value: read.1,
            },
        );
    }
}

/// Books the reads of a piece and its publication, for which there is room.
fn book_piece(journal: &mut Vec<Step>, worker: u32, piece: &Piece)
    requires { vec_len journal.old + (length piece.now.log + 1) ≤ vec_capacity journal.old }
    ensures { journal.new.items ≡ journal.old.items ++ steps_of worker piece.now }
{
    book_reads(journal, worker, piece.log());
    book(
        journal,
        Step::Publish {
            worker,
            kind: piece.kind(),
            time: piece.time(),
        },
    );
}

/// Pushes a piece of a leaf, and books its reads and its publication. For want of memory the piece
/// comes back, and nothing changes.
pub(crate) fn push(
    journal: &mut Vec<Step>,
    ahead: &mut Ahead,
    worker: u32,
    leaf: LeafId,
    piece: Piece,
) -> Result<(), Piece>
    requires leaf { leaf.0 < length ahead.old.chains }
    requires number { leaf.0 < length ahead.old.counters }
    requires few { slice_index ahead.old.counters leaf.0 + 1 < 2 ^ 64 }
    requires fit { AreWrites (length ahead.old.lines) piece.outcome.writes }
    requires new { (q : ℕ) → find leaf.0 (slice_index ahead.old.counters leaf.0) (line_of
        ahead.old.lines q).versions ≡ None }
    requires goes_on { GoesOn piece.base (end_of (λ p. p.outcome.state) (chain_of ahead.old.chains leaf.0)) }
    ensures steps { OnOk result (journal.new.items ≡ journal.old.items ++ steps_of worker piece) }
    ensures pushed { OnOk result (ahead.new ≡ pushed ahead.old leaf.0 piece) }
    ensures back { IfErr result (λ p. (p ≡ piece) × (journal.new.items ≡ journal.old.items)
        × (ahead.new ≡ ahead.old)) }
{
    let before = journal.len();
    if journal.reserve(piece.log().len() + 1).is_err() {
        return Err(piece);
    }
    book_piece(journal, worker, &piece);
    match ahead.push(leaf, piece) {
        Ok(()) => Ok(()),
        Err(piece) => {
            journal.truncate(before);
            Err(piece)
        }
    }
}
