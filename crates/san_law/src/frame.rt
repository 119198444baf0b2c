//! The laws of one taken piece: what it leaves as it was, what it counts, and what it rests on.

ghost use Rattle.san_law.specs.Alone.{PieceIsAlone};
ghost use Rattle.san_law.specs.Counting.{CountsOneByOne};
ghost use Rattle.san_law.specs.Frames.{OthersStay, OwnIsThePieces, UnwrittenStay};
ghost use Rattle.san_law.specs.Net.{Net};
ghost use Rattle.san_law.specs.Network.{Network};

/// What a taken piece leaves as it was, and what is its own.
pub fn a_taken_piece_is_framed()
    ensures others { (net : Net) → OthersStay net }
    ensures own { (net : Net) → OwnIsThePieces net }
    ensures shared { (net : Net) → UnwrittenStay net }
{}

/// A leaf's piece is that of its part alone, whatever else the network has.
#[tactic(auto, using(crate::proofs::Alone::piece_is_alone))]
pub fn a_piece_is_its_parts()
    ensures { (network : Network) → PieceIsAlone network }
{}

/// Events of one time are counted one by one.
#[tactic(auto, using(crate::proofs::Counting::counts_one_by_one))]
pub fn a_tally_counts_one_by_one()
    ensures { (net : Net) → CountsOneByOne net }
{}
