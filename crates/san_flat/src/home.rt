//! What a cell of a leaf is in the network.

ghost use Rattle.std.specs.Prelude.{◌≡◌, IfOk};
ghost use Rattle.san_tree.specs.declared.limits.TheConstants.{MAX_PATH};
ghost use Rattle.san_flat.specs.Homes.{home_of, home_of_key};
ghost use Rattle.san_tree.specs.Instances.{IsWithin};

use san_base::NoMemory;
use san_check::Model;
use san_tree::{Homes, Instance};
use std::alloc::Global;

/// What a cell of a leaf is in the network: the path to the node below which it stays, the place
/// that it has become there, and its element.
#[derive(Debug, Drop, PartialEq, Eq, Hash)]
pub struct HomeKey {
    path: Vec<u32>,
    place: u32,
    element: u32,
}

/// The home of a cell of a leaf, which is a place and its element.
#[tactic(auto, using(crate::proofs::HomeLemmas::kept_length))]
pub(crate) fn home_of(
    alloc: Global,
    model: &Model,
    homes: &Homes<'_>,
    leaf: &Instance,
    cell: (u32, u32),
) -> Result<HomeKey, NoMemory>
    requires tree { homes.now ≡ model.now.tree }
    requires short { IsWithin MAX_PATH leaf.now }
    ensures { IfOk result (λ h. home_of_key h ≡ home_of model.now.tree.nodes model.now.tree.root
        leaf.now.path cell) }
{
    let path = leaf.path.as_slice();
    let home = homes.home(path, cell.0);
    Ok(HomeKey {
        path: Vec::from_slice(alloc, &path[..home.depth as usize])?,
        place: home.place,
        element: cell.1,
    })
}
