//! Nodes: leaves, joins and replicates.

ghost use Rattle.std.specs.Prelude.{◌≡◌, ◌<◌, length, position, nat_eq, IfSome};
ghost use Rattle.san_tree.specs.Places.{child_of, node_of, shared_as, width};

use crate::share::{Share, first_naming};
use san_base::Name;
use sqlite_items::Items;

/// A node of the tree. Other nodes, atomics and places go by their numbers.
#[derive(Debug, Drop)]
pub enum Node {
    /// An instance of an atomic, which shows its places.
    Leaf {
        atomic: u32,
    },
    /// Named children, each with its node. A join shows its shares.
    Join {
        children: Items<(Name, u32)>,
        shares: Items<Share>,
    },
    /// Copies of one node. What it shows are the places of that node that all copies share.
    Rep {
        node: u32,
        times: u32,
        shares: Items<u32>,
    },
}

impl Node {
    /// The node of a child, or 0 where there is no such child.
    pub fn child(&self, child: u32) -> u32
        ensures { result ≡ child_of self.now child }
    {
        match self {
            Node::Leaf { .. } => 0,
            Node::Join { children, .. } => node_of(children.as_slice(), child),
            Node::Rep { node, .. } => *node,
        }
    }

    /// The place of this node that a child's place becomes, where the node shares it.
    pub fn shared_as(&self, child: u32, place: u32) -> Option<usize>
        ensures value { result ≡ shared_as self.now child place }
        ensures within { IfSome result (λ p. p < width self.now) }
    {
        match self {
            Node::Leaf { .. } => None,
            Node::Join { shares, .. } => first_naming(shares.as_slice(), child, place),
            Node::Rep { shares, .. } => first_equal(shares.as_slice(), place),
        }
    }
}

fn node_of(children: &[(Name, u32)], child: u32) -> u32
    ensures { result ≡ node_of children.now child }
{
    match children.get(child as usize) {
        Some((_, node)) => *node,
        None => 0,
    }
}

fn first_equal(shares: &[u32], place: u32) -> Option<usize>
    ensures value { result ≡ position (λ p. nat_eq p place) shares.now }
    ensures within { IfSome result (λ p. p < length shares.now) }
{
    shares.iter().position(|p| *p == place)
}
