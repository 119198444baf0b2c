//! A tree of nodes, with its homes and leaves.

ghost use Rattle.std.specs.Prelude.{◌≡◌, ◌↔◌, ◌≤◌, length, IfOk, IfSome, IsSome};
ghost use Rattle.std.specs.List.{All};
ghost use Rattle.san_tree.specs.Places.{home};
ghost use Rattle.san_tree.specs.Instances.{capped, instances, IsWithin};
ghost use Rattle.san_tree.specs.Trees.{IsTree};
ghost use Rattle.indexmap.specs.IndexMap.{get};
ghost use Rattle.san_tree.specs.inner.Shared.{Knows, same_part};

use crate::counts::{count_at, counts};
use crate::home::{Home, climb};
use crate::instance::{Instance, walk};
use crate::node::Node;
use crate::shared::{SharePart, table_of};
use crate::valid::is_tree;
use indexmap::IndexMap;
use san_base::NoMemory;
use sqlite_items::Items;
use std::alloc::Global;
use std::marker::Model;

/// The nodes of a model, and the number of the one that is the system.
#[derive(Debug, Drop)]
pub struct Tree {
    pub nodes: Items<Node>,
    pub root: u32,
    ghost kept: { IsTree nodes root },
}

impl Tree {
    ghost use Rattle.san_tree.specs.declared.limits.TheConstants.{MAX_PATH};

    /// The tree of these nodes, or none where they make no tree.
    pub fn new(nodes: Items<Node>, root: u32) -> Option<Tree>
        ensures exactly { IsSome result ↔ IsTree nodes root }
        ensures kept { IfSome result (λ tree. (tree.nodes ≡ nodes) × (tree.root ≡ root)) }
    {
        if is_tree(nodes.as_slice(), root) {
            Some(Tree { nodes, root })
        } else {
            None
        }
    }

    /// The home of a place of the leaf at the end of a path of child and copy numbers. Takes no
    /// memory, and one step for each number of the path. Own rule.
    pub fn home(&self, path: &[u32], place: u32) -> Home
        requires { length path.now ≤ MAX_PATH }
        ensures { result ≡ home self.now.nodes self.now.root path.now place }
    {
        climb(self.nodes.as_slice(), None, self.root, path, place)
    }

    /// The homes of this tree's places by a table, which is made in one pass over the shares.
    pub fn homes(&self, alloc: Global) -> Result<Homes<'_>, NoMemory>
        ensures { IfOk result (λ homes. homes ≡ self.now) }
    {
        let table = table_of(alloc, self.nodes.as_slice())?;
        Ok(Homes { tree: self, table })
    }

    /// The number of leaves, or one more than a network may have where there are more. Takes no memory, and one pass over the
    /// nodes.
    pub fn leaves(&self) -> u32
        ensures { result ≡ capped (length (instances self.now.nodes self.now.root)) }
    {
        let counts = counts(self.nodes.as_slice());
        count_at(&counts, self.root)
    }

    /// The leaves in tree order.
    pub fn instances(&self, alloc: Global) -> Result<Vec<Instance>, NoMemory>
        ensures order { IfOk result (λ v. v.items ≡ instances self.now.nodes self.now.root) }
        ensures within { IfOk result (λ v. All (IsWithin MAX_PATH) v.items) }
    {
        let counts = counts(self.nodes.as_slice());
        let mut path = Vec::new(alloc);
        let mut out = Vec::new(alloc);
        walk(
            alloc,
            self.nodes.as_slice(),
            &counts,
            self.root,
            &mut path,
            &mut out,
        )?;
        Ok(out)
    }
}

/// The homes of the places of a tree's leaves, found by hashing in a step for each number of a path.
/// Contracts see the tree.
#[derive(Drop)]
pub struct Homes<'a> {
    tree: &'a Tree,
    table: IndexMap<SharePart, u32>,
    ghost kept: { Knows tree.now.nodes (length tree.now.nodes) (get same_part table) },
}

impl<'a> Model for Homes<'a> {
    ghost use Rattle.san_tree.specs.declared.tree.Tree.{Tree};

    ghost Value = { Tree };

    ghost view = { λ homes. homes.tree.now };
}

impl<'a> Homes<'a> {
    ghost use Rattle.san_tree.specs.declared.limits.TheConstants.{MAX_PATH};

    /// The home of a place of the leaf at the end of a path of child and copy numbers, as
    /// `Tree::home` gives it. Takes no memory.
    pub fn home(&self, path: &[u32], place: u32) -> Home
        requires { length path.now ≤ MAX_PATH }
        ensures { result ≡ home self.now.nodes self.now.root path.now place }
    {
        let tree = self.tree;
        climb(
            tree.nodes.as_slice(),
            Some(&self.table),
            tree.root,
            path,
            place,
        )
    }
}
