//! Keys that the leaves' next pieces don't come before, in a tree that has the least at hand. A key
//! that is too low costs a plan more at the next claim; none is ever too high.

ghost use Rattle.std.specs.Prelude.{◌≡◌, ◌<◌, All, IfOk, Some, length, replicate, slice_set};
ghost use Rattle.san_speculation.specs.inner.Soonest.{touched, touched_all};
ghost use Rattle.san_winner.specs.declared.matches.TheConstants.{MAX_KEYS};

use san_base::{LeafId, NoMemory, PlaceId};
use san_net::Flat;
use san_winner::Winners;
use std::alloc::Global;

/// Keys for so many leaves, none of which is known.
pub(crate) fn unknown(alloc: Global, leaves: usize) -> Result<Winners, NoMemory>
    requires { leaves < MAX_KEYS }
    ensures { IfOk result (λ w. w ≡ replicate leaves (Some 0)) }
{
    let mut soonest = Winners::open(alloc, leaves)?;
    'leaves: for leaf in 0..leaves {
        soonest.set(leaf, Some(0));
    }
    Ok(soonest)
}

/// A leaf's next piece may come sooner.
pub(crate) fn touch(soonest: &mut Winners, leaf: LeafId)
    requires { leaf.0 < length soonest.old }
    ensures { soonest.new ≡ slice_set soonest.old leaf.0 (Some 0) }
{
    soonest.set(leaf.0 as usize, Some(0));
}

/// So may those of some leaves.
fn touch_leaves(soonest: &mut Winners, leaves: &[LeafId])
    requires { All (λ leaf. leaf.0 < length soonest.old) leaves.now }
    ensures { soonest.new ≡ touched leaves.now soonest.old }
{
    'leaves: for leaf in leaves {
        touch(soonest, *leaf);
    }
}

/// So may those of the leaves that have a written place.
pub(crate) fn touch_written(soonest: &mut Winners, network: &Flat, written: &[(PlaceId, u32)])
    requires places { All (λ w. w.0.0 < length network.now.initial) written.now }
    requires keys { length soonest.old ≡ length network.now.parts }
    ensures { soonest.new ≡ touched_all network.now.parts written.now soonest.old }
{
    network.is_network();
    'written: for write in written {
        touch_leaves(soonest, network.importers(write.0));
    }
}
