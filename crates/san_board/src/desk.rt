//! What lies behind the lock of a board.

ghost use Rattle.std.specs.Prelude.{◌≡◌, ◌+◌, ◌<◌, length};
ghost use Rattle.san_board.specs.Booked.{BooksPiece, claim_steps, piece_steps, redo_steps};
ghost use Rattle.san_speculation.specs.Claims.{ClaimBy};
ghost use Rattle.san_speculation.specs.CoreCalls.{CommitBy, CutBy, RedoBy};
ghost use Rattle.san_speculation.specs.Publishing.{PublishBy};

use crate::crew::Crew;
use crate::pass::Pass;
use san_base::{LeafId, NoMemory};
use san_core::Redoing;
use san_leaf::{Claim, Piece};
use san_speculation::{Core, Publishing};
use std::alloc::Global;
use std::marker::Model;
use std::sync::ledger::{Book, Share};

/// A core, and the book of its steps, of which each pass has a share. There are as many steps as the
/// passes have booked.
#[derive(Drop)]
pub(crate) struct Desk<L: Crew> {
    core: Core,
    steps: Book<L>,
}

impl<L: Crew> Model for Desk<L> {
    ghost use Rattle.std.specs.Prelude.{◌≡◌, length};
    ghost use Rattle.std.specs.Coded.{codes};
    ghost use Rattle.san_net.specs.contracts.part.Part as of_part;
    ghost use Rattle.san_speculation.specs.Speculating.{CoreValue};

    ghost Value = { CoreValue };

    ghost coded = { Prim.hlevel (codes, of_part.the_row.coded) };

    ghost view = { λ d. d.core };

    ghost invariant = { λ d. (length d.core.book.journal ≡ d.steps.total)
        × (length d.core.book.claims ≡ L.passes) × (L.parts ≡ L.passes) };
}

/// The steps of a claim.
fn claim_steps(got: &Result<Option<Claim>, NoMemory>) -> u64
    ensures { result ≡ claim_steps got.now }
{
    match got {
        Ok(Some(_)) => 1,
        Ok(None) => 0,
        Err(_) => 0,
    }
}

/// The steps of a cut or a commit.
fn piece_steps(done: Result<u32, NoMemory>) -> u64
    ensures { result ≡ piece_steps done }
{
    match done {
        Ok(0) => 0,
        Ok(_) => 1,
        Err(_) => 0,
    }
}

/// The steps of a redo.
fn redo_steps(done: Result<Redoing, NoMemory>) -> u64
    ensures { result ≡ redo_steps done }
{
    match done {
        Ok(Redoing::Redone) => 1,
        Ok(Redoing::Ended) => 0,
        Ok(Redoing::Rested) => 0,
        Err(_) => 0,
    }
}

/// How many steps a core has done.
fn steps_of(core: &Core) -> u64
    ensures { result ≡ length core.now.book.journal }
{
    core.journal().len() as u64
}

impl<L: Crew> Desk<L> {
    /// A core without steps, and a book without any.
    pub(crate) fn new(core: Core, steps: Book<L>) -> Desk<L>
        requires fresh { length core.book.journal ≡ steps.total }
        requires crew { length core.book.claims ≡ L.passes }
        requires whole { L.parts ≡ L.passes }
        ensures { result ≡ core }
    {
        Desk { core, steps }
    }

    /// The core.
    pub(crate) fn core(&self) -> &Core
        ensures { result.now ≡ self.now }
    {
        &self.core
    }

    pub(crate) fn claim(&mut self, pass: &mut Pass<L>) -> Result<Option<Claim>, NoMemory>
        ensures core { ClaimBy self.old pass.old.pass.number self.new result }
        ensures booked { pass.new ≡ record pass.old { booked = pass.old.booked + claim_steps result } }
    {
        let got = self.core.claim(pass.worker());
        pass.book(&mut self.steps, claim_steps(&got));
        got
    }

    pub(crate) fn publish(&mut self, pass: &mut Pass<L>, piece: Piece) -> Publishing
        ensures core { PublishBy self.old pass.old.pass.number piece self.new result }
        ensures pass { pass.new.pass ≡ pass.old.pass }
        ensures booked { BooksPiece piece result pass.old.booked pass.new.booked }
    {
        let before = steps_of(&self.core);
        let done = self.core.publish(pass.worker(), piece);
        let grown = steps_of(&self.core) - before;
        pass.book(&mut self.steps, grown);
        done
    }

    pub(crate) fn cut(&mut self, pass: &mut Pass<L>, leaf: LeafId) -> Result<u32, NoMemory>
        ensures core { CutBy self.old pass.old.pass.number leaf.0 self.new result }
        ensures booked { pass.new ≡ record pass.old { booked = pass.old.booked + piece_steps result } }
    {
        let done = self.core.cut(pass.worker(), leaf);
        pass.book(&mut self.steps, piece_steps(done));
        done
    }

    pub(crate) fn commit(&mut self, pass: &mut Pass<L>) -> Result<u32, NoMemory>
        ensures core { CommitBy self.old pass.old.pass.number self.new result }
        ensures booked { pass.new ≡ record pass.old { booked = pass.old.booked + piece_steps result } }
    {
        let done = self.core.commit(pass.worker());
        pass.book(&mut self.steps, piece_steps(done));
        done
    }

    pub(crate) fn redo(&mut self, alloc: Global, pass: &mut Pass<L>) -> Result<Redoing, NoMemory>
        ensures core { RedoBy self.old pass.old.pass.number self.new result }
        ensures booked { pass.new ≡ record pass.old { booked = pass.old.booked + redo_steps result } }
    {
        let done = self.core.redo(alloc, pass.worker());
        pass.book(&mut self.steps, redo_steps(done));
        done
    }

    /// The core, and how many steps were booked.
    pub(crate) fn settle(self, all: &mut Share<L>) -> Core
        requires { all.old.parts ≡ L.parts }
        ensures { length result.book.journal ≡ all.old.amount }
    {
        let Desk { core, mut steps } = self;
        steps.audit(all);
        core
    }
}
