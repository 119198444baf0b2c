//! The numbers of the nodes' leaves.

ghost use Rattle.std.specs.Prelude.{◌≡◌, ◌≤◌, ℕ, length, slice_index};
ghost use Rattle.san_tree.specs.declared.limits.TheConstants.{MAX_NODES, MANY_LEAVES};
ghost use Rattle.san_tree.specs.Instances.{capped, instances};
ghost use Rattle.san_tree.specs.inner.Walks.{counted};

use crate::limits::{MANY_LEAVES, MAX_NODES};
use crate::node::Node;

/// For each node the number of its leaves, or that which stands for too many.
pub(crate) fn counts(nodes: &[Node]) -> [u32; MAX_NODES]
    requires { length nodes.now ≤ MAX_NODES }
    ensures { (k : ℕ) → slice_index result k ≡ capped (length (instances nodes.now k)) }
{
    let mut counts: [u32; MAX_NODES] = [0; MAX_NODES];
    'nodes: for (at, node) in nodes.iter().enumerate() {
        counts[at] = count_of(node, &counts);
    }
    counts
}

/// The count of one node, or 0 where there is no such node.
pub(crate) fn count_at(counts: &[u32], n: u32) -> u32
    ensures { result ≡ slice_index counts.now n }
{
    match counts.get(n as usize) {
        Some(count) => *count,
        None => 0,
    }
}

/// The count of a node, from those of the earlier nodes.
fn count_of(node: &Node, counts: &[u32]) -> u32
    requires { (k : ℕ) → slice_index counts.now k ≤ MANY_LEAVES }
    ensures { result ≡ capped (counted counts.now node.now) }
{
    match node {
        Node::Leaf { .. } => 1,
        Node::Join { children, .. } => {
            let mut total: u32 = 0;
            for child in children.as_slice() {
                total = (total + count_at(counts, child.1)).min(MANY_LEAVES);
            }
            total
        }
        Node::Rep { node, times, .. } => {
            let leaves = u64::from(count_at(counts, *node)) * u64::from(*times);
            leaves.min(u64::from(MANY_LEAVES)) as u32
        }
    }
}
