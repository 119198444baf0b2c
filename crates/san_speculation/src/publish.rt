//! Publishing a piece that came of a claim.

ghost use Rattle.std.specs.Prelude.{◌≡◌, ◌<◌, ◌↔◌, IsTrue, length};
ghost use Rattle.san_book.specs.Chains.{chain_of};
ghost use Rattle.san_chain.specs.Chains.{end_from};
ghost use Rattle.san_core.specs.Machines.{core_in};
ghost use Rattle.san_decide.specs.Booked.{of_piece, part_at};
ghost use Rattle.san_law.specs.Core.{leaf_of};
ghost use Rattle.san_speculation.specs.Publishing.{PublishBy};
ghost use Rattle.san_speculation.specs.inner.Going.{IsFrom};

use crate::booking::book;
use crate::publishing::Publishing;
use crate::pushing::push;
use crate::soonest::{touch, touch_written};
use crate::speculation::Core;
use crate::step::Step;
use san_ahead::Ahead;
use san_base::{LeafId, Same};
use san_core::Machine;
use san_leaf::{LeafState, Piece, same_state};

/// The state that a leaf's chain ends with, which is the committed one where there is no piece.
fn chain_end<'a>(machine: &'a Machine, ahead: &'a Ahead, leaf: LeafId) -> &'a LeafState
    requires chain { leaf.0 < length ahead.now.chains }
    requires state { leaf.0 < length machine.now.held.core.leaves }
    ensures { result.now ≡ end_from of_piece.end (leaf_of (core_in machine.now) leaf.0) (chain_of
        ahead.now.chains leaf.0) }
{
    machine.follows();
    match ahead.end(leaf) {
        Some(state) => state,
        None => machine.state(leaf).get(),
    }
}

/// Whether a piece is of the run, and goes on from where a leaf's chain ends.
fn is_from(machine: &Machine, ahead: &Ahead, leaf: LeafId, piece: &Piece) -> bool
    requires chain { leaf.0 < length ahead.now.chains }
    requires state { leaf.0 < length machine.now.held.core.leaves }
    requires part { leaf.0 < length machine.now.network.parts }
    ensures { IsTrue result ↔ IsFrom machine.now ahead.now leaf.0 piece.now }
{
    if piece.seed() != machine.seed() {
        return false;
    }
    let part = machine.network().part(leaf).get();
    if !piece.part().get().same(part) {
        return false;
    }
    same_state(piece.base().get(), chain_end(machine, ahead, leaf))
}

impl Core {
    /// Publishes the piece that came of a worker's claim, with its reads. It is late, and comes back,
    /// just where the worker has no claim, or the piece is of another seed or part, or goes on from
    /// another state than the chain of the claimed leaf ends with; the claim goes then too. Without
    /// memory the piece comes back, and nothing changes.
    pub fn publish(&mut self, worker: u32, piece: Piece) -> Publishing
        requires { worker < length self.old.book.claims }
        ensures { PublishBy self.old worker piece self.new result }
    {
        self.keeps_the_law();
        self.machine.network().is_network();
        let Some(leaf) = self.claims[worker as usize] else {
            return Publishing::Late(piece);
        };
        if !is_from(&self.machine, &self.ahead, leaf, &piece) {
            if self.journal.reserve(1).is_err() {
                return Publishing::NoMemory(piece);
            }
            book(&mut self.journal, Step::Late { worker });
            self.claims[worker as usize] = None;
            touch(&mut self.soonest, leaf);
            return Publishing::Late(piece);
        }
        piece.is_sound();
        piece.fits();
        piece.is_noted();
        touch(&mut self.soonest, leaf);
        touch_written(
            &mut self.soonest,
            self.machine.network(),
            &piece.outcome().writes,
        );
        match push(&mut self.journal, &mut self.ahead, worker, leaf, piece) {
            Ok(()) => {
                self.claims[worker as usize] = None;
                Publishing::Published
            }
            Err(piece) => Publishing::NoMemory(piece),
        }
    }
}
