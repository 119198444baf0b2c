//! A board behind one lock, whose passes book the steps of their calls.

ghost use Rattle.std.specs.Prelude.{◌≡◌, ◌≤◌, ◌+◌, IfOk, IfSome, IsTrue, length, sum_by, suc};
ghost use Rattle.san_base.specs.declared.limits.TheConstants.{MAX_TOKENS};
ghost use Rattle.san_leaf.specs.Claims.{claimed};
ghost use Rattle.san_leaf.specs.Fits.{Fits};
ghost use Rattle.san_speculation.specs.Boards.{ClosesBy, GivesBack, after_call, after_claim, is_over, is_refused, is_wanting};
ghost use Rattle.san_speculation.specs.Snapshots.{IsFor};
ghost use Rattle.san_board.specs.Booked.{BooksPiece, claim_steps, piece_steps, redo_steps};
ghost use Rattle.san_board.specs.Passes.{ClosesFor, IsNewCrew, has_number, is_crew};

use crate::answers::{is_over, is_refused};
use crate::crew::Crew;
use crate::desk::Desk;
use crate::pass::Pass;
use san_base::{LeafId, NoMemory, PlaceId, Stamp};
use san_core::Redoing;
use san_leaf::{Claim, Piece};
use san_net::Part;
use san_speculation::{Board, Closed, Core, Publishing, Snapshot};
use std::alloc::Global;
use std::sync::ledger::{Blank, Share};
use std::sync::{Mutex, Wait};

/// A core behind a lock, which each call takes, to make the core's call of the same name. Its passes
/// are those that came with it.
#[derive(Drop)]
pub struct LockBoard<L: Crew, R: Wait + Clone + Send + Sync + Drop> {
    rt: R,
    workers: u32,
    desk: Mutex<Desk<L>>,
    ghost crew: { suc workers ≡ L.passes },
}

/// The passes of so many workers and of the caller, each with a part of the ledger.
fn new_passes<L: Crew>(alloc: Global, workers: u32, all: Share<L>) -> Result<Vec<Pass<L>>, NoMemory>
    requires crew { suc workers ≡ L.passes }
    requires parts { all.parts ≡ suc workers }
    requires amount { all.amount ≡ 0 }
    ensures { IfOk result (λ v. IsNewCrew (suc workers) v.items) }
{
    let mut all = all;
    let mut passes = Vec::new(alloc);
    'workers: for worker in 0..=workers {
        let share = all.split_off(1, 0);
        passes.push(Pass::new(worker, share))?;
    }
    Ok(passes)
}

/// Whether some pass has this number.
fn has_number<L: Crew>(passes: &[Pass<L>], number: u32) -> bool
    ensures { result ≡ has_number number passes.now }
{
    'passes: for pass in passes {
        if pass.worker() == number {
            return true;
        }
    }
    false
}

/// Whether the passes' numbers are those up to the number of workers, each once.
fn is_crew<L: Crew>(passes: &[Pass<L>], workers: u32) -> bool
    ensures { result ≡ is_crew (suc workers) passes.now }
{
    if passes.len() as u64 != u64::from(workers) + 1 {
        return false;
    }
    'numbers: for number in 0..=workers {
        if !has_number(passes, number) {
            return false;
        }
    }
    true
}

/// The core of a desk whose passes are all there.
fn settle<L: Crew>(desk: Desk<L>, passes: Vec<Pass<L>>) -> Core
    requires { length passes.items ≡ L.passes }
    ensures { length result.book.journal ≡ sum_by (λ p. p.booked) passes.items }
{
    let mut passes = passes.into_iter();
    let Some(first) = passes.next() else {
        unreachable!()
    };
    let mut all = first.into_share();
    'passes: for pass in passes {
        all.merge(pass.into_share());
    }
    desk.settle(&mut all)
}

impl<L: Crew, R: Wait + Clone + Send + Sync + Drop> LockBoard<L, R> {
    /// A board over a core that has done no step, with a pass for the caller and for each worker. The
    /// blank ledger is to be that which `L` names.
    pub fn open(
        rt: &R,
        alloc: Global,
        core: Core,
        blank: Blank,
    ) -> Result<(LockBoard<L, R>, Vec<Pass<L>>), NoMemory>
        requires name { blank.name ≡ L.name }
        requires parts { blank.parts ≡ L.parts }
        requires whole { L.parts ≡ L.passes }
        requires crew { length core.book.claims ≡ L.passes }
        requires fresh { length core.book.journal ≡ 0 }
        ensures { IfOk result (λ r. IsNewCrew (length core.book.claims) r.1.items) }
    {
        let rt = rt.clone()?;
        let workers = core.workers();
        let (steps, all) = blank.open::<L>();
        let passes = new_passes(alloc, workers, all)?;
        let desk = Mutex::new(Desk::new(core, steps));
        Ok((LockBoard { rt, workers, desk }, passes))
    }
}

impl<L: Crew + Send + Sync, R: Wait + Clone + Send + Sync + Drop> Board for LockBoard<L, R> {
    type Pass = Pass<L>;

    ghost counts = { λ p. p.pass };

    fn number(&self, pass: &Pass<L>) -> u32 {
        pass.worker()
    }

    fn claim(&self, pass: &mut Pass<L>) -> Result<Option<Claim>, NoMemory>
        ensures counts { pass.new.pass ≡ after_call (is_wanting result) (after_claim pass.old.pass) }
        ensures fits { IfOk result (λ o. IfSome o (λ c. Fits (claimed c))) }
        ensures booked { pass.new.booked ≡ pass.old.booked + claim_steps result }
    {
        let got = self.desk.lock(&self.rt).claim(pass);
        pass.ask();
        pass.call(got.is_err());
        got
    }

    fn read(&self, pass: &mut Pass<L>, place: PlaceId, stamp: Stamp) -> u32
        ensures counts { pass.new ≡ pass.old }
        ensures small { result ≤ MAX_TOKENS }
    {
        let _ = pass;
        self.desk.lock(&self.rt).core().read(place, stamp)
    }

    fn publish(&self, pass: &mut Pass<L>, piece: Piece) -> Publishing
        ensures counts { pass.new.pass ≡ after_call (is_refused result) pass.old.pass }
        ensures back { GivesBack piece result }
        ensures booked { BooksPiece piece result pass.old.booked pass.new.booked }
    {
        let done = self.desk.lock(&self.rt).publish(pass, piece);
        pass.call(is_refused(&done));
        done
    }

    fn cut(&self, pass: &mut Pass<L>, leaf: LeafId) -> Result<u32, NoMemory>
        ensures counts { pass.new.pass ≡ after_call (is_wanting result) pass.old.pass }
        ensures booked { pass.new.booked ≡ pass.old.booked + piece_steps result }
    {
        let done = self.desk.lock(&self.rt).cut(pass, leaf);
        pass.call(done.is_err());
        done
    }

    fn commit(&self, pass: &mut Pass<L>) -> Result<u32, NoMemory>
        ensures counts { pass.new.pass ≡ after_call (is_wanting result) pass.old.pass }
        ensures booked { pass.new.booked ≡ pass.old.booked + piece_steps result }
    {
        let done = self.desk.lock(&self.rt).commit(pass);
        pass.call(done.is_err());
        done
    }

    fn redo(&self, alloc: Global, pass: &mut Pass<L>) -> Result<Redoing, NoMemory>
        ensures counts { pass.new.pass ≡ after_call (is_over result) pass.old.pass }
        ensures booked { pass.new.booked ≡ pass.old.booked + redo_steps result }
    {
        let done = self.desk.lock(&self.rt).redo(alloc, pass);
        pass.call(is_over(done));
        done
    }

    fn snapshot(&self, pass: &mut Pass<L>, part: &Part, stamp: Stamp, into: &mut Snapshot)
        requires { IsFor part.now into.old }
        ensures { pass.new ≡ pass.old }
    {
        let _ = pass;
        self.desk.lock(&self.rt).core().snapshot(part, stamp, into);
    }

    /// The board and its passes come back just where the passes aren't all that came with it.
    fn close(self, passes: Vec<Pass<L>>) -> Closed<LockBoard<L, R>, Pass<L>>
        ensures back { ClosesBy self passes.items result }
        ensures booked { ClosesFor L.passes passes.items result }
    {
        if !is_crew(passes.as_slice(), self.workers) {
            return Closed::Missing(self, passes);
        }
        let LockBoard { rt, desk, .. } = self;
        drop(rt);
        Closed::Core(settle(desk.into_inner(), passes))
    }
}
