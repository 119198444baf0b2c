//! A machine that takes the pieces of a run, one after another.

ghost use Rattle.std.specs.Prelude.{◌≡◌, ◌≤◌, ◌<◌, IfOk, OnErr, OnOk, map, max, vec_capacity};
ghost use Rattle.san_leaf.specs.States.{pair_in};
ghost use Rattle.san_base.specs.Limits.{IsInRange};
ghost use Rattle.san_base.specs.declared.limits.TheConstants.{MAX_CELLS};
ghost use Rattle.san_law.specs.Left.{left};
ghost use Rattle.san_core.specs.Committed.{StartsRun};
ghost use Rattle.san_core.specs.Machines.{FollowsRun, IsNeeded, after_taking, core_in, net_in, opened};
ghost use Rattle.san_net.specs.Runs.{net_at};

use crate::committed::Committed;
use crate::maker::Maker;
use crate::start::Start;
use crate::taking::take_piece;
use san_base::{Event, Kind, Limits, MAX_CELLS, NoMemory, PlaceId, Shared, Tick};
use san_leaf::Piece;
use san_net::Flat;
use san_reward::Tally;
use san_turn::Taken;
use std::alloc::Global;
use std::marker::Model;

/// The completions of the longest piece.
const MAX_PIECE: usize = 64;

/// A machine follows the run from its start on by the pieces that it takes. What it has committed is
/// the run's, whoever made the pieces.
#[derive(Drop)]
pub struct Machine {
    pub(crate) flat: Shared<Flat>,
    pub(crate) seed: u64,
    pub(crate) limits: Limits,
    pub(crate) start: Start,
    pub(crate) held: Committed,
    pub(crate) events: Vec<Event>,
    pub(crate) taken: u64,
    pub(crate) spare: u32,
    pub(crate) news: Taken,
    pub(crate) maker: Maker,
}

impl Model for Machine {
    ghost use Rattle.std.specs.Coded.{codes};
    ghost use Rattle.san_net.specs.contracts.part.Part as of_part;
    ghost use Rattle.san_core.specs.Machines.{MachineValue, machine_by};
    ghost use Rattle.san_core.specs.inner.Kept.{IsMachine};
    ghost use Rattle.std.specs.Prelude.{vec_capacity, vec_len};

    ghost Value = { MachineValue };

    ghost coded = { Prim.hlevel (codes, of_part.the_row.coded) };

    ghost view = { λ m. machine_by m.flat m.seed m.limits m.start m.held m.events.items m.taken
        m.spare };

    ghost invariant = { λ m. IsMachine (machine_by m.flat m.seed m.limits m.start m.held
        m.events.items m.taken m.spare) (vec_len m.events) (vec_capacity m.events)
        (vec_capacity m.news.written) m.maker };
}

/// What an order has to know of a piece, with room for the places of any piece.
fn no_news(alloc: Global) -> Result<Taken, NoMemory>
    ensures { IfOk result (λ t. MAX_CELLS ≤ vec_capacity t.written) }
{
    Ok(Taken {
        kind: Kind::Settle,
        time: Tick(0),
        written: Vec::with_capacity(alloc, MAX_CELLS as usize)?,
        due: None,
        more: false,
    })
}

impl Machine {
    /// A machine that has taken no piece yet.
    pub fn open(
        alloc: Global,
        flat: Shared<Flat>,
        seed: u64,
        limits: Limits,
        start: Start,
    ) -> Result<Machine, NoMemory>
        requires limits { IsInRange limits }
        requires start { StartsRun (net_at flat seed limits) flat start }
        ensures { IfOk result (λ m. m ≡ opened flat seed limits start) }
    {
        let held = start.copy(alloc)?.committed();
        let news = no_news(alloc)?;
        let maker = Maker::open(alloc, flat.get(), seed)?;
        Ok(Machine {
            flat,
            seed,
            limits,
            start,
            held,
            events: Vec::new(alloc),
            taken: 0,
            spare: 0,
            news,
            maker,
        })
    }

    /// Takes room for so many pieces, at least.
    pub fn reserve(&mut self, pieces: u32) -> Result<(), NoMemory>
        requires { pieces ≤ 64 }
        ensures ok { OnOk result (self.new ≡ record self.old { spare = max self.old.spare pieces }) }
        ensures err { OnErr result (self.new ≡ self.old) }
    {
        if pieces <= self.spare {
            return Ok(());
        }
        self.events.reserve(pieces as usize * MAX_PIECE)?;
        self.spare = pieces;
        Ok(())
    }

    /// Takes the piece that is needed next, made from the committed state of its leaf and the
    /// committed values that it has read; the places that it wrote, with their last values.
    pub fn take(&mut self, piece: Piece) -> Vec<(PlaceId, u32)>
        requires spare { 1 ≤ self.old.spare }
        requires needed { IsNeeded self.old piece }
        ensures taken { self.new ≡ after_taking self.old piece }
        ensures written { map pair_in result.items ≡ piece.outcome.writes }
        ensures less { left (net_in self.new) (core_in self.new)
            < left (net_in self.old) (core_in self.old) }
    {
        self.flat.get().is_network();
        piece.is_sound();
        piece.fits();
        self.taken += 1;
        self.spare -= 1;
        take_piece(
            self.flat.get(),
            &self.limits,
            &mut self.held,
            &mut self.events,
            &mut self.news,
            piece,
        )
    }

    /// A machine follows the run: its start is one of the run's, and its committed part and its
    /// events are what the needed pieces from the start on have led to.
    pub fn follows(&self)
        ensures { FollowsRun self.now }
    {
        let _ = &self.seed;
    }

    /// The events since the start.
    pub fn committed(&self) -> &[Event]
        ensures { result.now ≡ self.now.events }
    {
        self.events.as_slice()
    }

    /// The tally up to the time of the last piece.
    pub fn tally(&self) -> &Tally
        ensures { result.now ≡ self.now.held.running }
    {
        &self.held.tally
    }

    /// For how many pieces there is room.
    pub fn spare(&self) -> u32
        ensures { result ≡ self.now.spare }
    {
        self.spare
    }
}
