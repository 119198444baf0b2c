//! Whether nodes make a tree.

ghost use Rattle.std.specs.Prelude.{◌≡◌, ◌↔◌, ◌<◌, ◌≤◌, ℕ, length, IsTrue};
ghost use Rattle.std.specs.List.{All};
ghost use Rattle.san_tree.specs.declared.limits.TheConstants.{MAX_CHILDREN};
ghost use Rattle.san_tree.specs.Places.{node_at};
ghost use Rattle.san_tree.specs.Trees.{named, IsNode, IsTree};

use crate::limits::{MAX_CHILDREN, MAX_NODES, MAX_SHARES};
use crate::node::Node;
use san_base::Name;

pub(crate) fn is_tree(nodes: &[Node], root: u32) -> bool
    ensures { IsTrue result ↔ IsTree nodes.now root }
{
    nodes.len() <= MAX_NODES && (root as usize) < nodes.len() && all_valid(nodes)
}

fn all_valid(nodes: &[Node]) -> bool
    ensures { IsTrue result ↔ ((n : ℕ) → IsNode n (node_at nodes.now n)) }
{
    'nodes: for (n, node) in nodes.iter().enumerate() {
        if !is_valid(node, n) {
            return false;
        }
    }
    true
}

fn is_valid(node: &Node, n: usize) -> bool
    ensures { IsTrue result ↔ IsNode n node.now }
{
    match node {
        Node::Leaf { .. } => true,
        Node::Join { children, shares } => {
            shares.len() <= MAX_SHARES && are_earlier(children.as_slice(), n)
        }
        Node::Rep { node, shares, .. } => (*node as usize) < n && shares.len() <= MAX_SHARES,
    }
}

/// Whether they are no more children than a join may have, whose nodes all come before node `n`.
fn are_earlier(children: &[(Name, u32)], n: usize) -> bool
    ensures { IsTrue result ↔ ((length children.now ≤ MAX_CHILDREN) × All (λ child. child.1 < n) children.now) }
{
    children.len() <= MAX_CHILDREN && children.iter().all(|child| (child.1 as usize) < n)
}
