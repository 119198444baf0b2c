//! Making the needed piece from the committed values.

ghost use Rattle.std.specs.Prelude.{◌≡◌, ◌≤◌, ◌<◌, ◌+◌, ◌*◌, ℕ, IfOk, Some, length, slice_get};
ghost use Rattle.san_expr.specs.Concerns.{IsMarking};
ghost use Rattle.san_leaf.specs.Fits.{Fits};
ghost use Rattle.san_net.specs.Laid.{acts_of};
ghost use Rattle.san_net.specs.declared.part.Part.{Part};
ghost use Rattle.san_core.specs.inner.Needed.{IsMadeFrom, claim_from};

use crate::admission::Taking;
use crate::committed::Committed;
use crate::committed_view::CommittedView;
use san_base::{Kind, LeafId, NoMemory, Stamp};
use san_clock::{delay_tables, drawn_streams};
use san_delay::DelayTables;
use san_draw::Streams;
use san_leaf::{Claim, Piece, make_piece};
use san_net::Flat;
use std::alloc::Global;
use std::marker::Model;

/// The draws of a run, and the tables of its delays.
#[derive(Drop)]
pub(crate) struct Maker {
    draws: Streams,
    tables: DelayTables,
}

impl Model for Maker {
    ghost use Rattle.san_draw.specs.Streams.{Seeded};

    ghost Value = { Seeded };

    ghost view = { λ m. m.draws };
}

impl Maker {
    /// For the runs of a network with a seed.
    pub(crate) fn open(alloc: Global, flat: &Flat, seed: u64) -> Result<Maker, NoMemory>
        ensures { IfOk result (λ m. m ≡ record { seed = seed; streams = 2 * acts_of flat.now.parts }) }
    {
        flat.is_network();
        let drawn = drawn_streams(alloc, flat)?;
        Ok(Maker {
            draws: Streams::open(alloc, seed, &drawn)?,
            tables: delay_tables(alloc, flat)?,
        })
    }

    /// The piece that is needed, made from the committed part.
    pub(crate) fn make(
        &mut self,
        alloc: Global,
        flat: &Flat,
        held: &Committed,
        seed: u64,
        taking: Taking,
    ) -> Result<Piece, NoMemory>
        requires leaf { taking.leaf.0 < length flat.now.parts }
        requires leaves { length held.now.core.leaves ≡ length flat.now.parts }
        requires fits { (p : Part) → slice_get flat.now.parts taking.leaf.0 ≡ Some p
            → Fits (claim_from held.now seed taking p) }
        requires small { IsMarking held.now.core.shared }
        requires seed { self.old.seed ≡ seed }
        requires streams { 2 * acts_of flat.now.parts ≤ self.old.streams }
        ensures made { IfOk result (IsMadeFrom flat.now held.now seed taking) }
        ensures same { self.new ≡ self.old }
    {
        flat.is_network();
        let leaf = taking.leaf;
        let claim = Claim {
            seed,
            part: flat.part(leaf).share()?,
            base: held.leaves[leaf.0 as usize].share()?,
            kind: taking.kind,
            time: taking.time,
            stamp: Stamp {
                time: taking.time,
                leaf,
                pos: 0,
                all: taking.kind == Kind::Refresh,
            },
        };
        let view = CommittedView::new(&held.shared);
        let (piece, _) = make_piece(alloc, &claim, &mut self.draws, &self.tables, view);
        piece
    }
}
