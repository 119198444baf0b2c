//! A worker's turns.

ghost use Rattle.std.specs.Prelude.{◌≡◌, ◌≤◌, ◌<◌};
ghost use Rattle.san_speculation.specs.Boards.{risen};
ghost use Rattle.san_work.specs.Turns.{IsRaisedBy};

use crate::gate::{Gate, Point};
use crate::maker::PieceMaker;
use crate::turn::turn;
use san_speculation::Board;
use std::alloc::Global;

/// Makes turns until the worker leaves, at most so many; how many there were.
fn take_turns<B: Board, G: Gate>(
    alloc: Global,
    board: &B,
    pass: &mut B::Pass,
    maker: &mut PieceMaker,
    gate: &G,
    turns: u32,
) -> u32
    ensures most { result ≤ turns }
    ensures number { (B.counts pass.new).number ≡ (B.counts pass.old).number }
    ensures asked { IsRaisedBy (B.counts pass.old).asked result (B.counts pass.new).asked }
    ensures left { result < turns → (B.counts pass.new).ends ≡ risen (B.counts pass.old).ends }
{
    'turns: for made in 0..turns {
        if !turn(alloc, board, pass, maker, gate) {
            return made + 1;
        }
    }
    turns
}

/// Makes turns over a board, at most so many, and answers how many it made. Each turn asks for a claim.
/// With one, the worker makes the piece from what the board shows, publishes it, commits what it can,
/// and else cuts the claimed leaf's chain; without one it commits, and else makes the needed piece
/// anew. It leaves after a call by which the run has ended or rests, or which found no memory.
pub fn work<B: Board, G: Gate>(
    alloc: Global,
    board: &B,
    pass: &mut B::Pass,
    maker: &mut PieceMaker,
    gate: &G,
    turns: u32,
) -> u64
    ensures most { result ≤ turns }
    ensures number { (B.counts pass.new).number ≡ (B.counts pass.old).number }
    ensures asked { IsRaisedBy (B.counts pass.old).asked result (B.counts pass.new).asked }
    ensures left { result < turns → (B.counts pass.new).ends ≡ risen (B.counts pass.old).ends }
{
    let made = take_turns(alloc, board, pass, maker, gate, turns);
    gate.at(board.number(pass), Point::Left);
    u64::from(made)
}
