//! Taking a piece that was made anew.

ghost use Rattle.std.specs.Prelude.{◌≡◌, ◌≤◌, ◌<◌, ◌+◌, ◌^◌, length, slice_index};
ghost use Rattle.san_book.specs.Chains.{chain_of};
ghost use Rattle.san_book.specs.Nets.{same_state};
ghost use Rattle.san_book.specs.Steps.{falls};
ghost use Rattle.san_core.specs.Machines.{IsNeeded, after_taking, core_in, net_in};
ghost use Rattle.san_core.specs.Needed.{IsNeed};
ghost use Rattle.san_law.specs.Core.{leaf_of};
ghost use Rattle.san_law.specs.Left.{left};
ghost use Rattle.san_leaf.specs.States.{kind_in};
ghost use Rattle.san_speculation.specs.Speculating.{book_in};
ghost use Rattle.san_speculation.specs.inner.Soonest.{KeepsLow};
ghost use Rattle.san_speculation.specs.inner.Committing.{ArePartsWhole, IsRedone, head_falls};

use crate::need::is_of;
use crate::soonest::{touch, touch_written};
use san_ahead::Ahead;
use san_core::{Machine, Taking};
use san_leaf::{LeafState, Piece, same_state};
use san_winner::Winners;

/// Whether two states are equal.
fn is_same(one: &LeafState, other: &LeafState) -> bool
    ensures { result ≡ same_state one.now other.now }
{
    same_state(one, other)
}

/// Whether a chain's head goes once its leaf has this state by a piece made anew: the head was that
/// piece, is of an earlier time, or doesn't begin with the state.
fn head_falls(piece: &Piece, taking: Taking, state: &LeafState) -> bool
    ensures { result ≡ head_falls piece.now taking state.now }
{
    let earlier = piece.time() < taking.time;
    let other = !is_same(piece.base().get(), state);
    is_of(piece, taking) || (earlier || other)
}

/// Whether a leaf's chain falls once a needed piece was made anew.
fn falls(machine: &Machine, ahead: &Ahead, taking: Taking) -> bool
    requires chain { taking.leaf.0 < length ahead.now.chains }
    requires state { taking.leaf.0 < length machine.now.held.core.leaves }
    ensures { result ≡ falls (book_in machine.now) (kind_in taking.first.0 taking.kind) taking.time.0
        (leaf_of (core_in machine.now) taking.leaf.0) (chain_of ahead.now.chains taking.leaf.0) }
{
    machine.follows();
    match ahead.head(taking.leaf) {
        Some(piece) => head_falls(piece, taking, machine.state(taking.leaf).get()),
        None => false,
    }
}

/// Takes a needed piece that was made anew, and raises its leaf's next number; the leaf's chain is
/// thrown away where it falls. How many rollbacks that is.
pub(crate) fn retake(
    machine: &mut Machine,
    ahead: &mut Ahead,
    soonest: &mut Winners,
    taking: Taking,
    piece: Piece,
) -> u64
    requires need { IsNeed machine.old taking }
    requires needed { IsNeeded machine.old piece }
    requires whole { ArePartsWhole machine.old ahead.old }
    requires sizes { length ahead.old.chains ≡ length machine.old.network.parts }
    requires keys { length soonest.old ≡ length machine.old.network.parts }
    requires few { slice_index ahead.old.counters taking.leaf.0 + 1 < 2 ^ 64 }
    requires spare { 1 ≤ machine.old.spare }
    ensures redone { IsRedone machine.old ahead.old taking machine.new ahead.new result }
    ensures low { KeepsLow machine.old ahead.old soonest.old machine.new ahead.new soonest.new }
    ensures once { result ≤ 1 }
    ensures machine { machine.new ≡ after_taking machine.old piece }
    ensures less { left (net_in machine.new) (core_in machine.new)
        < left (net_in machine.old) (core_in machine.old) }
{
    machine.follows();
    machine.network().is_network();
    piece.is_sound();
    touch(soonest, taking.leaf);
    touch_written(soonest, machine.network(), &piece.outcome().writes);
    let written = machine.take(piece);
    machine.follows();
    ahead.commit(machine.shared(), &written);
    ahead.raise(taking.leaf);
    if falls(machine, ahead, taking) {
        ahead.cut(taking.leaf, 0);
        return 1;
    }
    0
}
