//! Making the pieces of a worker.

ghost use Rattle.std.specs.Prelude.{◌≡◌, ◌≤◌, ◌+◌, ◌*◌, IfOk, IsTrue, length};
ghost use Rattle.san_leaf.specs.Claimed.{IsMadeFor};
ghost use Rattle.san_leaf.specs.Claims.{claimed};
ghost use Rattle.san_leaf.specs.Fits.{Fits};

use san_base::NoMemory;
use san_clock::drawn_streams;
use san_delay::DelayTables;
use san_draw::{Draws, Streams};
use san_leaf::{Claim, Piece, make_piece};
use san_net::Flat;
use san_speculation::Snapshot;
use std::alloc::Global;
use std::marker::Model;

/// The draws of a run, with a generator for each stream that it draws from.
#[derive(Drop)]
struct RunDraws {
    seed: u64,
    count: usize,
    streams: Streams,
}

impl Model for RunDraws {
    ghost use Rattle.std.specs.Prelude.{◌≡◌};
    ghost use Rattle.san_draw.specs.Streams.{Seeded};

    ghost Value = { Seeded };

    ghost view = { λ d. d.streams };

    ghost invariant = { λ d. d.streams ≡ record { seed = d.seed; streams = d.count } };
}

impl RunDraws {
    /// For a network, with a seed.
    fn open(alloc: Global, flat: &Flat, seed: u64) -> Result<RunDraws, NoMemory> {
        let drawn = drawn_streams(alloc, flat)?;
        let count = drawn.len();
        let streams = Streams::open(alloc, seed, &drawn)?;
        Ok(RunDraws {
            seed,
            count,
            streams,
        })
    }

    /// Whether a claim's piece draws from them.
    fn suits(&self, claim: &Claim) -> bool
        requires { Fits (claimed claim.now) }
        ensures seed { IsTrue result → self.now.seed ≡ claim.now.seed }
        ensures streams { IsTrue result → 2 * (claim.now.part.first.0 + length
            claim.now.part.atomic.acts) ≤ self.now.streams }
    {
        let part = claim.part.get();
        let acts = part.first.0 as usize + part.atomic.get().acts.len();
        self.seed == claim.seed && 2 * acts <= self.count
    }
}

/// What a worker keeps from piece to piece: the tables of the delays, and where there is memory for
/// them, the draws of its run.
#[derive(Drop)]
pub struct PieceMaker<'t> {
    tables: &'t DelayTables,
    draws: Option<RunDraws>,
}

impl<'t> PieceMaker<'t> {
    /// For the pieces of a network with a seed; it makes any other piece too.
    pub fn open(alloc: Global, flat: &Flat, seed: u64, tables: &'t DelayTables) -> PieceMaker<'t> {
        PieceMaker {
            tables,
            draws: RunDraws::open(alloc, flat, seed).ok(),
        }
    }

    /// Makes the piece that a claim asks for, from the values of a snapshot.
    pub(crate) fn make(
        &mut self,
        alloc: Global,
        claim: &Claim,
        snapshot: Snapshot,
    ) -> Result<Piece, NoMemory>
        requires { Fits (claimed claim.now) }
        ensures { IfOk result (IsMadeFor (claimed claim.now)) }
    {
        if let Some(draws) = &mut self.draws {
            if draws.suits(claim) {
                let (piece, _) = make_piece(
                    alloc,
                    claim,
                    &mut draws.streams,
                    self.tables,
                    snapshot,
                );
                return piece;
            }
        }
        let mut draws = Draws::new(claim.seed);
        let (piece, _) = make_piece(alloc, claim, &mut draws, self.tables, snapshot);
        piece
    }
}
