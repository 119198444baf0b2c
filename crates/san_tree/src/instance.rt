//! The leaves of a tree, one after another.

ghost use Rattle.std.specs.Prelude.{◌≡◌, ◌≤◌, ◌++◌, ℕ, [], length, map, slice_index, slice_index_or, slice_get, IfOk, OnOk};
ghost use Rattle.std.specs.Option.{option_copied};
ghost use Rattle.san_tree.specs.Instances.{capped, instances, onto, below};
ghost use Rattle.san_tree.specs.inner.Walks.{earlier};
ghost use Rattle.san_tree.specs.Places.{node_at};
ghost use Rattle.san_tree.specs.Trees.{IsNode};

use crate::counts::count_at;
use crate::node::Node;
use san_base::NoMemory;
use sqlite_items::Items;
use std::alloc::Global;

/// A leaf of the tree, an instance of an atomic.
#[derive(Debug, Drop)]
pub struct Instance {
    /// The numbers of children and copies on the way from the root.
    pub path: Items<u32>,
    pub atomic: u32,
}

impl Instance {
    fn new(alloc: Global, path: &[u32], atomic: u32) -> Result<Instance, NoMemory>
        ensures { IfOk result (λ i. (i.path ≡ path.now) × (i.atomic ≡ atomic)) }
    {
        let path = Items::from_slice(alloc, path)?;
        Ok(Instance { path, atomic })
    }
}

/// A child or a copy of a node: its number there, and the node that it is.
#[derive(Clone, Copy)]
struct Child {
    number: u32,
    node: u32,
}

fn fetch(nodes: &[Node], n: u32) -> Option<&Node>
    ensures { option_copied result ≡ slice_get nodes.now n }
{
    nodes.get(n as usize)
}

/// Puts the leaves of node `n` behind those in `out`. `path` leads to the node.
#[cycle(walking)]
pub(crate) fn walk(
    alloc: Global,
    nodes: &[Node],
    counts: &[u32],
    n: u32,
    path: &mut Vec<u32>,
    out: &mut Vec<Instance>,
) -> Result<(), NoMemory>
    requires counted { (k : ℕ) → slice_index counts.now k ≡ capped (length (instances nodes.now k)) }
    requires each { (k : ℕ) → IsNode k (node_at nodes.now k) }
    ensures way { OnOk result (path.new.items ≡ path.old.items) }
    ensures more { OnOk result (out.new.items ≡ out.old.items ++ map (onto path.old.items) (instances nodes.now n)) }
{
    match fetch(nodes, n) {
        None => Ok(()),
        Some(Node::Leaf { atomic }) => {
            let here = Instance::new(alloc, path.as_slice(), *atomic)?;
            out.push(here)?;
            Ok(())
        }
        Some(Node::Join { children, .. }) => {
            'children: for (c, child) in children.as_slice().iter().enumerate() {
                let child = Child {
                    number: c as u32,
                    node: child.1,
                };
                walk_child(alloc, nodes, counts, n, child, path, out)?;
            }
            Ok(())
        }
        Some(Node::Rep { node, times, .. }) => {
            'copies: for c in 0..*times {
                let child = Child {
                    number: c,
                    node: *node,
                };
                walk_child(alloc, nodes, counts, n, child, path, out)?;
            }
            Ok(())
        }
    }
}

/// Puts the leaves of a child of node `n` behind those in `out`. A child without leaves isn't
/// walked, since nested joins can name it more often than any run can count.
#[cycle(walking)]
fn walk_child(
    alloc: Global,
    nodes: &[Node],
    counts: &[u32],
    n: u32,
    child: Child,
    path: &mut Vec<u32>,
    out: &mut Vec<Instance>,
) -> Result<(), NoMemory>
    requires counted { (k : ℕ) → slice_index counts.now k ≡ capped (length (instances nodes.now k)) }
    requires each { (k : ℕ) → IsNode k (node_at nodes.now k) }
    ensures way { OnOk result (path.new.items ≡ path.old.items) }
    ensures more { OnOk result (out.new.items ≡ out.old.items ++ map (onto path.old.items) (below child.number (slice_index_or (earlier nodes.now n) child.node []))) }
{
    if child.node < n && count_at(counts, child.node) > 0 {
        path.push(child.number)?;
        walk(alloc, nodes, counts, child.node, path, out)?;
        let _ = path.pop();
    }
    Ok(())
}
