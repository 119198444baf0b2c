//! What several workers do to a core that they share.

ghost use Rattle.std.specs.Prelude.{◌≡◌, ◌≤◌, IfOk, IfSome};
ghost use Rattle.san_base.specs.declared.limits.TheConstants.{MAX_TOKENS};
ghost use Rattle.san_leaf.specs.Claims.{claimed};
ghost use Rattle.san_leaf.specs.Fits.{Fits};
ghost use Rattle.san_speculation.specs.Boards.{ClosesBy, GivesBack, PassValue, after_call, after_claim, is_over, is_refused, is_wanting};
ghost use Rattle.san_speculation.specs.Snapshots.{IsFor};

use crate::publishing::Publishing;
use crate::snapshot::Snapshot;
use crate::speculation::Core;
use san_base::{LeafId, NoMemory, PlaceId, Stamp};
use san_core::Redoing;
use san_leaf::{Claim, Piece};
use san_net::Part;
use std::alloc::Global;

/// The calls of a core, each by a pass in place of a worker's number. A board promises no more than
/// what stands here: a worker over it does its work whatever the answers are, and what comes of the
/// run doesn't rest on them. Each worker has a pass of its own, and so has the caller, who is worker 0.
pub trait Board: Sized + Sync + Drop {
    type Pass: Send + Drop;

    ghost counts: { Self.Pass → PassValue };

    /// The worker's number, which no call changes.
    fn number(&self, pass: &Self::Pass) -> u32
        ensures { result ≡ (counts pass.now).number };

    /// The next piece that a worker is to make, if there is one.
    fn claim(&self, pass: &mut Self::Pass) -> Result<Option<Claim>, NoMemory>
        ensures counts { counts pass.new ≡ after_call (is_wanting result) (after_claim (counts pass.old)) }
        ensures fits { IfOk result (λ o. IfSome o (λ c. Fits (claimed c))) };

    /// The value of a shared place at a stamp, at most `MAX_TOKENS`.
    fn read(&self, pass: &mut Self::Pass, place: PlaceId, stamp: Stamp) -> u32
        ensures counts { counts pass.new ≡ counts pass.old }
        ensures small { result ≤ MAX_TOKENS };

    /// Publishes a piece. One that isn't published comes back.
    fn publish(&self, pass: &mut Self::Pass, piece: Piece) -> Publishing
        ensures counts { counts pass.new ≡ after_call (is_refused result) (counts pass.old) }
        ensures back { GivesBack piece result };

    /// Throws the end of a leaf's chain away, from the first piece that read another value.
    fn cut(&self, pass: &mut Self::Pass, leaf: LeafId) -> Result<u32, NoMemory>
        ensures { counts pass.new ≡ after_call (is_wanting result) (counts pass.old) };

    /// Commits pieces that were made ahead.
    fn commit(&self, pass: &mut Self::Pass) -> Result<u32, NoMemory>
        ensures { counts pass.new ≡ after_call (is_wanting result) (counts pass.old) };

    /// Makes the needed piece anew and commits it.
    fn redo(&self, alloc: Global, pass: &mut Self::Pass) -> Result<Redoing, NoMemory>
        ensures { counts pass.new ≡ after_call (is_over result) (counts pass.old) };

    /// Gives each place of a snapshot, which was made for this part, a value.
    fn snapshot(&self, pass: &mut Self::Pass, part: &Part, stamp: Stamp, into: &mut Snapshot)
        requires { IsFor part.now into.old }
        ensures { counts pass.new ≡ counts pass.old };

    /// The core; or the board and the passes as they were given, where it needs others.
    fn close(self, passes: Vec<Self::Pass>) -> Closed<Self, Self::Pass>
        ensures { ClosesBy self passes.items result };
}

/// What comes of a board at its end.
#[derive(Drop)]
pub enum Closed<B, P> {
    Core(Core),
    Missing(B, Vec<P>),
}
