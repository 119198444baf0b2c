//! Where a leaf's place ends as it is shared from node to node.

ghost use Rattle.std.specs.Prelude.{◌≡◌, ◌≤◌, ℕ, List, length, IfSome};
ghost use Rattle.indexmap.specs.IndexMap.{get};
ghost use Rattle.san_tree.specs.declared.limits.TheConstants.{MAX_PATH, MAX_SHARES};
ghost use Rattle.san_tree.specs.Places.{child_of, shared_as, width, node_at, climb, chain, PathStep};
ghost use Rattle.san_tree.specs.inner.Shared.{Knows, same_part};
ghost use Rattle.san_tree.specs.inner.Walks.{settled};

use crate::node::Node;
use crate::shared::{SharePart, child_key};
use indexmap::IndexMap;

/// Where the climb of a leaf's place ends: the depth of the node below which it stays, 0 for the
/// root, and the place that it has become there. Two homes are one where depth and place are equal
/// and the first `depth` numbers of their paths are.
#[derive(Clone, Copy, Debug, PartialEq, Eq)]
pub struct Home {
    pub depth: u32,
    pub place: u32,
}

/// The climb from the end of a path up to node `n`, which has depth 0; by a table of what the nodes
/// share, or else by a search of the shares.
pub(crate) fn climb(
    nodes: &[Node],
    table: Option<&IndexMap<SharePart, u32>>,
    n: u32,
    path: &[u32],
    place: u32,
) -> Home
    requires table { IfSome table (λ t. Knows nodes.now (length nodes.now) (get same_part t.now)) }
    requires short { length path.now ≤ MAX_PATH }
    requires narrow { (k : ℕ) → width (node_at nodes.now k) ≤ MAX_SHARES }
    ensures near { result.depth ≤ length path.now }
    ensures way { (above : List PathStep) → climb place (chain nodes.now n path.now above) ≡ settled result.depth result.place above }
{
    match path {
        [] => Home { depth: 0, place },
        [child, rest @ ..] => {
            let below = climb(nodes, table, child_at(nodes, n, *child), rest, place);
            if below.depth > 0 {
                return Home {
                    depth: below.depth + 1,
                    place: below.place,
                };
            }
            match shared_at(nodes, table, n, *child, below.place) {
                Some(place) => Home { depth: 0, place },
                None => Home {
                    depth: 1,
                    place: below.place,
                },
            }
        }
    }
}

fn child_at(nodes: &[Node], n: u32, child: u32) -> u32
    ensures { result ≡ child_of (node_at nodes.now n) child }
{
    match nodes.get(n as usize) {
        Some(node) => node.child(child),
        None => 0,
    }
}

/// The place of the node that a child's place becomes, where the node shares it.
fn shared_at(
    nodes: &[Node],
    table: Option<&IndexMap<SharePart, u32>>,
    n: u32,
    child: u32,
    place: u32,
) -> Option<u32>
    requires table { IfSome table (λ t. Knows nodes.now (length nodes.now) (get same_part t.now)) }
    requires narrow { width (node_at nodes.now n) ≤ MAX_SHARES }
    ensures value { result ≡ shared_as (node_at nodes.now n) child place }
{
    let node = nodes.get(n as usize)?;
    match table {
        Some(table) => table.get(&(n, child_key(node, child), place)).copied(),
        None => node.shared_as(child, place).map(|p| p as u32),
    }
}
