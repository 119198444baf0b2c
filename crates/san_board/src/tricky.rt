//! What lies behind the lock of a board for tests.

ghost use Rattle.std.specs.Prelude.{◌≡◌, ◌≤◌, IfOk, IfSome};
ghost use Rattle.san_base.specs.declared.limits.TheConstants.{MAX_TOKENS};
ghost use Rattle.san_leaf.specs.Claims.{claimed};
ghost use Rattle.san_leaf.specs.Fits.{Fits};
ghost use Rattle.san_speculation.specs.Boards.{GivesBack};
ghost use Rattle.san_speculation.specs.Snapshots.{IsFor};

use crate::trick::Trick;
use san_base::{LeafId, MAX_TOKENS, NoMemory, PlaceId, Stamp};
use san_core::Redoing;
use san_leaf::{Claim, Piece};
use san_net::Part;
use san_speculation::{Core, Publishing, Snapshot};
use std::alloc::Global;

/// A core; the reads, numbered from 0, that answer 0; what is done to the calls, numbered from 0; and
/// how many calls and reads there were.
#[derive(Drop)]
pub(crate) struct TrickyCore {
    pub(crate) core: Core,
    pub(crate) script: Vec<u32>,
    pub(crate) tricks: Vec<Trick>,
    pub(crate) calls: u64,
    pub(crate) reads: u64,
}

impl TrickyCore {
    /// The trick for this call.
    fn next(&mut self) -> Trick {
        let call = self.calls;
        self.calls = call.saturating_add(1);
        if call < self.tricks.len() as u64 {
            self.tricks[call as usize]
        } else {
            Trick::Straight
        }
    }

    /// Whether this read answers 0.
    fn is_blank(&mut self) -> bool {
        let read = self.reads;
        self.reads = read.saturating_add(1);
        self.script.iter().any(|number| u64::from(*number) == read)
    }

    pub(crate) fn claim(&mut self, worker: u32) -> Result<Option<Claim>, NoMemory>
        ensures { IfOk result (λ o. IfSome o (λ c. Fits (claimed c))) }
    {
        match self.next() {
            Trick::Idle => return Ok(None),
            Trick::NoRoom => return Err(NoMemory),
            _ => {}
        }
        if worker > self.core.workers() {
            return Ok(None);
        }
        self.core.claim(worker)
    }

    pub(crate) fn read(&mut self, place: PlaceId, stamp: Stamp) -> u32
        ensures { result ≤ MAX_TOKENS }
    {
        let blank = self.is_blank();
        if let Trick::Stale(value) = self.next() {
            return value.min(MAX_TOKENS);
        }
        if blank {
            return 0;
        }
        self.core.read(place, stamp)
    }

    pub(crate) fn publish(&mut self, worker: u32, piece: Piece) -> Publishing
        ensures { GivesBack piece result }
    {
        match self.next() {
            Trick::TooLate => return Publishing::Late(piece),
            Trick::NoRoom => return Publishing::NoMemory(piece),
            _ => {}
        }
        if worker > self.core.workers() {
            return Publishing::Late(piece);
        }
        self.core.publish(worker, piece)
    }

    pub(crate) fn cut(&mut self, worker: u32, leaf: LeafId) -> Result<u32, NoMemory> {
        match self.next() {
            Trick::Idle => return Ok(0),
            Trick::NoRoom => return Err(NoMemory),
            _ => {}
        }
        if worker > self.core.workers() {
            return Ok(0);
        }
        self.core.cut(worker, leaf)
    }

    pub(crate) fn commit(&mut self, worker: u32) -> Result<u32, NoMemory> {
        match self.next() {
            Trick::Idle => return Ok(0),
            Trick::NoRoom => return Err(NoMemory),
            _ => {}
        }
        if worker > self.core.workers() {
            return Ok(0);
        }
        self.core.commit(worker)
    }

    pub(crate) fn redo(&mut self, alloc: Global, worker: u32) -> Result<Redoing, NoMemory> {
        match self.next() {
            Trick::Leave => return Ok(Redoing::Ended),
            Trick::NoRoom => return Err(NoMemory),
            _ => {}
        }
        if worker > self.core.workers() {
            return Ok(Redoing::Ended);
        }
        self.core.redo(alloc, worker)
    }

    pub(crate) fn snapshot(&mut self, part: &Part, stamp: Stamp, into: &mut Snapshot)
        requires { IsFor part.now into.old }
    {
        match self.next() {
            Trick::Stale(value) => into.fill(value.min(MAX_TOKENS)),
            _ => self.core.snapshot(part, stamp, into),
        }
    }
}
