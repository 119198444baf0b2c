//! A piece of a leaf's work.

ghost use Rattle.std.specs.Prelude.{◌≡◌, map};
ghost use Rattle.san_leaf.specs.Claimed.{claim_of};
ghost use Rattle.san_leaf.specs.Fits.{Fits};
ghost use Rattle.san_leaf.specs.Outcomes.{IsNumbered, outcome_in, piece_by};
ghost use Rattle.san_leaf.specs.Pieces.{IsLog, IsSound};
ghost use Rattle.san_leaf.specs.States.{pair_in};

use crate::outcome::Outcome;
use crate::state::LeafState;
use san_base::{Kind, Linked, PlaceId, Shared, Stamp, Tick};
use san_net::Part;
use std::marker::Model;

/// A piece of a leaf's work that is to be made, and where its reads stand.
#[derive(Drop)]
pub struct Claim {
    pub seed: u64,
    pub part: Shared<Part>,
    pub base: Shared<LeafState>,
    pub kind: Kind,
    pub time: Tick,
    pub stamp: Stamp,
}

/// A piece of a leaf's work: what it was made from, the shared places that it read, and what it
/// makes.
#[derive(Drop)]
pub struct Piece {
    pub(crate) seed: u64,
    pub(crate) part: Shared<Part>,
    pub(crate) base: Shared<LeafState>,
    pub(crate) kind: Kind,
    pub(crate) time: Tick,
    pub(crate) log: Vec<(PlaceId, u32)>,
    pub(crate) outcome: Outcome,
}

impl Model for Piece {
    ghost use Rattle.std.specs.Prelude.{map};
    ghost use Rattle.std.specs.Coded.{codes};
    ghost use Rattle.san_leaf.specs.Outcomes.{IsPiece, outcome_in, piece_by};
    ghost use Rattle.san_leaf.specs.Pieces.{PieceValue};
    ghost use Rattle.san_leaf.specs.States.{pair_in};
    ghost use Rattle.san_net.specs.contracts.part.Part as of_part;

    ghost Value = { PieceValue };

    ghost coded = { Prim.hlevel (codes, of_part.the_row.coded) };

    ghost view = { λ p. piece_by p.part p.seed p.kind p.base p.time.0 (map pair_in p.log.items) (outcome_in p.part.first.0 p.outcome) };

    ghost invariant = { λ p. IsPiece (piece_by p.part p.seed p.kind p.base p.time.0 (map pair_in p.log.items) (outcome_in p.part.first.0 p.outcome)) p.outcome };
}

impl Piece {
    /// A piece is sound.
    pub fn is_sound(&self)
        ensures { IsSound self.now }
    {
        let _ = &self.seed;
    }

    /// What it was made from fits.
    pub fn fits(&self)
        ensures { Fits (claim_of self.now) }
    {
        let _ = &self.kind;
    }

    /// Its log is what was read of some of its part's cells.
    pub fn is_noted(&self)
        ensures { IsLog self.now.part self.now.log }
    {
        let _ = &self.seed;
    }

    /// The seed of its draws.
    pub fn seed(&self) -> u64
        ensures { result ≡ self.now.seed }
    {
        self.seed
    }

    /// The leaf's part of the network.
    pub fn part(&self) -> &Shared<Part>
        ensures { result.now ≡ self.now.part }
    {
        &self.part
    }

    /// The state that it begins with.
    pub fn base(&self) -> &Shared<LeafState>
        ensures { result.now ≡ self.now.base }
    {
        &self.base
    }

    /// What it does.
    pub fn kind(&self) -> Kind
        ensures { result ≡ self.now.kind }
    {
        self.kind
    }

    /// The time of all its completions, or of its renewal.
    pub fn time(&self) -> Tick
        ensures { result.0 ≡ self.now.time }
    {
        self.time
    }

    /// The shared places that it read, in the order of the leaf's cells, with their first values.
    pub fn log(&self) -> &[(PlaceId, u32)]
        ensures { map pair_in result.now ≡ self.now.log }
    {
        &self.log
    }

    /// What it makes, with activities in the network's numbers.
    pub fn outcome(&self) -> &Outcome
        ensures same { outcome_in self.now.part.first.0 result.now ≡ self.now.outcome }
        ensures numbered { IsNumbered self.now.part.first.0 self.now.time result.now }
    {
        &self.outcome
    }

    /// What it makes, without what it was made from.
    pub fn into_outcome(self) -> Outcome
        ensures same { outcome_in self.part.first.0 result ≡ self.outcome }
        ensures numbered { IsNumbered self.part.first.0 self.time result }
    {
        let Piece { outcome, .. } = self;
        outcome
    }
}

impl Linked for Piece {
    type State = LeafState;

    ghost base = { λ p. p.base };

    ghost end = { λ p. p.outcome.state };

    fn base(&self) -> &LeafState {
        self.base.get()
    }

    fn end(&self) -> &LeafState {
        self.outcome.state.get()
    }
}
