//! Committing pieces that were made ahead, one after another.

ghost use Rattle.std.specs.Prelude.{◌≡◌, ◌≤◌, ◌⊎◌, length};
ghost use Rattle.san_book.specs.declared.limits.TheConstants.{MAX_COMMIT};
ghost use Rattle.san_speculation.specs.inner.Soonest.{KeepsLow};
ghost use Rattle.san_speculation.specs.inner.Committing.{ArePartsWhole, IsNext, NoneNext, TakesHead, TakesHeads};

use crate::need::next_leaf;
use crate::soonest::{touch, touch_written};
use san_ahead::Ahead;
use san_base::LeafId;
use san_book::MAX_COMMIT;
use san_core::Machine;
use san_winner::Winners;

/// Commits the head of a leaf's chain: its versions go, it is taken, and what is then committed
/// stands in the lines; the leaf and those that have a written place may come to something sooner.
fn commit_head(machine: &mut Machine, ahead: &mut Ahead, soonest: &mut Winners, leaf: LeafId)
    requires next { IsNext machine.old ahead.old leaf }
    requires whole { ArePartsWhole machine.old ahead.old }
    requires spare { 1 ≤ machine.old.spare }
    requires sizes { length ahead.old.chains ≡ length machine.old.network.parts }
    requires keys { length soonest.old ≡ length machine.old.network.parts }
    ensures taken { TakesHead machine.old ahead.old machine.new ahead.new }
    ensures low { KeepsLow machine.old ahead.old soonest.old machine.new ahead.new soonest.new }
    ensures keys { length soonest.new ≡ length soonest.old }
{
    machine.follows();
    machine.network().is_network();
    let piece = ahead.pop(leaf);
    piece.is_sound();
    touch(soonest, leaf);
    touch_written(soonest, machine.network(), &piece.outcome().writes);
    let written = machine.take(piece);
    machine.follows();
    ahead.commit(machine.shared(), &written);
}

/// Commits the head of a leaf's chain, and then one needed piece after another while it is the head
/// of its chain and read what is committed: at most 64, and how many.
pub(crate) fn commit_pieces(
    machine: &mut Machine,
    ahead: &mut Ahead,
    soonest: &mut Winners,
    first: LeafId,
) -> u32
    requires next { IsNext machine.old ahead.old first }
    requires whole { ArePartsWhole machine.old ahead.old }
    requires spare { MAX_COMMIT ≤ machine.old.spare }
    requires sizes { length ahead.old.chains ≡ length machine.old.network.parts }
    requires keys { length soonest.old ≡ length machine.old.network.parts }
    ensures least { 1 ≤ result }
    ensures most { result ≤ MAX_COMMIT }
    ensures taken { TakesHeads machine.old ahead.old result machine.new ahead.new }
    ensures low { KeepsLow machine.old ahead.old soonest.old machine.new ahead.new soonest.new }
    ensures rest { NoneNext machine.new ahead.new ⊎ (result ≡ MAX_COMMIT) }
{
    commit_head(machine, ahead, soonest, first);
    let mut pieces = 1;
    'pieces: while pieces < MAX_COMMIT {
        let Some(leaf) = next_leaf(machine, ahead) else {
            return pieces;
        };
        commit_head(machine, ahead, soonest, leaf);
        pieces += 1;
    }
    pieces
}
