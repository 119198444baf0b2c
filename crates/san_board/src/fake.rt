//! A board for tests, whose answers may be wrong or slow.

ghost use Rattle.std.specs.Prelude.{◌≡◌, IfOk, length, suc};
ghost use Rattle.san_speculation.specs.Boards.{ClosesBy, after_call, after_claim};
ghost use Rattle.san_board.specs.Fakes.{AreFakes, pass_of};

use crate::answers::{is_over, is_refused};
use crate::trick::Trick;
use crate::tricky::TrickyCore;
use san_base::{LeafId, NoMemory, PlaceId, Stamp};
use san_core::Redoing;
use san_leaf::{Claim, Piece};
use san_net::Part;
use san_speculation::{Board, Closed, Core, Publishing, Snapshot};
use std::alloc::Global;
use std::sync::{Mutex, Wait};

/// A worker's pass of a board for tests.
#[derive(Debug, Drop)]
pub struct FakePass {
    pub worker: u32,
    pub asked: u64,
    pub ends: u64,
}

/// A core behind a lock, for tests: some of its reads answer 0, and some of its calls are tricked.
#[derive(Drop)]
pub struct FakeBoard<R: Wait + Clone + Send + Sync + Drop> {
    rt: R,
    core: Mutex<TrickyCore>,
}

impl FakePass {
    /// Counts a claim that was asked for.
    fn ask(&mut self)
        ensures { pass_of self.new ≡ after_claim (pass_of self.old) }
    {
        self.asked = self.asked.saturating_add(1);
    }

    /// Counts a call, where it was a worker's last.
    fn call(&mut self, last: bool)
        ensures { pass_of self.new ≡ after_call last (pass_of self.old) }
    {
        if last {
            self.ends = self.ends.saturating_add(1);
        }
    }
}

/// A pass for each worker and for the caller.
fn new_passes(alloc: Global, workers: u32) -> Result<Vec<FakePass>, NoMemory>
    ensures { IfOk result (λ v. AreFakes (suc workers) v.items) }
{
    let mut passes = Vec::new(alloc);
    'workers: for worker in 0..=workers {
        passes.push(FakePass {
            worker,
            asked: 0,
            ends: 0,
        })?;
    }
    Ok(passes)
}

impl<R: Wait + Clone + Send + Sync + Drop> FakeBoard<R> {
    /// A board over a core. The reads of these numbers, from 0, answer 0.
    pub fn open(
        rt: &R,
        alloc: Global,
        core: Core,
        script: Vec<u32>,
    ) -> Result<(FakeBoard<R>, Vec<FakePass>), NoMemory>
        ensures { IfOk result (λ r. AreFakes (length core.book.claims) r.1.items) }
    {
        FakeBoard::over(rt, alloc, core, script, Vec::new(alloc))
    }

    /// A board over a core. A trick is for the call of its number, from 0; calls after the last one are
    /// straight.
    pub fn with_tricks(
        rt: &R,
        alloc: Global,
        core: Core,
        tricks: Vec<Trick>,
    ) -> Result<(FakeBoard<R>, Vec<FakePass>), NoMemory>
        ensures { IfOk result (λ r. AreFakes (length core.book.claims) r.1.items) }
    {
        FakeBoard::over(rt, alloc, core, Vec::new(alloc), tricks)
    }

    fn over(
        rt: &R,
        alloc: Global,
        core: Core,
        script: Vec<u32>,
        tricks: Vec<Trick>,
    ) -> Result<(FakeBoard<R>, Vec<FakePass>), NoMemory>
        ensures { IfOk result (λ r. AreFakes (length core.book.claims) r.1.items) }
    {
        let rt = rt.clone()?;
        let passes = new_passes(alloc, core.workers())?;
        let core = Mutex::new(TrickyCore {
            core,
            script,
            tricks,
            calls: 0,
            reads: 0,
        });
        Ok((FakeBoard { rt, core }, passes))
    }
}

impl<R: Wait + Clone + Send + Sync + Drop> Board for FakeBoard<R> {
    type Pass = FakePass;

    ghost counts = { pass_of };

    fn number(&self, pass: &FakePass) -> u32 {
        pass.worker
    }

    fn claim(&self, pass: &mut FakePass) -> Result<Option<Claim>, NoMemory> {
        let got = self.core.lock(&self.rt).claim(pass.worker);
        pass.ask();
        pass.call(got.is_err());
        got
    }

    fn read(&self, pass: &mut FakePass, place: PlaceId, stamp: Stamp) -> u32 {
        let _ = pass;
        self.core.lock(&self.rt).read(place, stamp)
    }

    fn publish(&self, pass: &mut FakePass, piece: Piece) -> Publishing {
        let done = self.core.lock(&self.rt).publish(pass.worker, piece);
        pass.call(is_refused(&done));
        done
    }

    fn cut(&self, pass: &mut FakePass, leaf: LeafId) -> Result<u32, NoMemory> {
        let done = self.core.lock(&self.rt).cut(pass.worker, leaf);
        pass.call(done.is_err());
        done
    }

    fn commit(&self, pass: &mut FakePass) -> Result<u32, NoMemory> {
        let done = self.core.lock(&self.rt).commit(pass.worker);
        pass.call(done.is_err());
        done
    }

    fn redo(&self, alloc: Global, pass: &mut FakePass) -> Result<Redoing, NoMemory> {
        let done = self.core.lock(&self.rt).redo(alloc, pass.worker);
        pass.call(is_over(done));
        done
    }

    fn snapshot(&self, pass: &mut FakePass, part: &Part, stamp: Stamp, into: &mut Snapshot) {
        let _ = pass;
        self.core.lock(&self.rt).snapshot(part, stamp, into);
    }

    fn close(self, passes: Vec<FakePass>) -> Closed<FakeBoard<R>, FakePass>
        ensures { ClosesBy self passes.items result }
    {
        let FakeBoard { rt, core } = self;
        drop(rt);
        drop(passes);
        Closed::Core(core.into_inner().core)
    }
}
