//! A table of what the nodes share.

ghost use Rattle.std.specs.Prelude.{◌≡◌, ◌≤◌, ◌&&◌, ℕ, cond, length, nat_eq, position, IfOk, OnOk, Some, None};
ghost use Rattle.indexmap.specs.IndexMap.{get};
ghost use Rattle.san_tree.specs.Places.{names, node_at, width};
ghost use Rattle.san_tree.specs.declared.limits.TheConstants.{MAX_NODES, MAX_SHARES};
ghost use Rattle.san_tree.specs.inner.Shared.{Knows, SharePart, child_key, known_as, or_else, same_part};

use crate::node::Node;
use crate::share::Share;
use indexmap::IndexMap;
use san_base::NoMemory;
use std::alloc::Global;

/// A place of a child, by the number of the node, that of the child, and its own.
pub(crate) type SharePart = (u32, u32, u32);

/// The number by which the table knows a child: the copies of a replicate share alike.
pub(crate) fn child_key(node: &Node, child: u32) -> u32
    ensures { result ≡ child_key node.now child }
{
    match node {
        Node::Join { .. } => child,
        Node::Leaf { .. } | Node::Rep { .. } => 0,
    }
}

/// What a part becomes, if it is noted for the first time.
fn note(table: &mut IndexMap<SharePart, u32>, part: SharePart, place: u32) -> Result<(), NoMemory>
    ensures { OnOk result ((q : SharePart) → get same_part table.new q ≡ or_else (get same_part table.old q) (cond (same_part part q) (Some place) None)) }
{
    if table.contains_key(&part) {
        return Ok(());
    }
    table.insert(part, place)?;
    Ok(())
}

/// What the parts of a join's share become.
fn note_share(
    table: &mut IndexMap<SharePart, u32>,
    node: u32,
    share: &Share,
    place: u32,
) -> Result<(), NoMemory>
    ensures { OnOk result ((k c p : ℕ) → get same_part table.new (k, c, p) ≡ or_else (get same_part table.old (k, c, p)) (cond (nat_eq node k && names c p share.now) (Some place) None)) }
{
    'parts: for part in share.parts.as_slice() {
        note(table, (node, part.0, part.1), place)?;
    }
    Ok(())
}

/// What the parts of all shares of a join become.
fn note_join(
    table: &mut IndexMap<SharePart, u32>,
    node: u32,
    shares: &[Share],
) -> Result<(), NoMemory>
    requires { length shares.now ≤ MAX_SHARES }
    ensures { OnOk result ((k c p : ℕ) → get same_part table.new (k, c, p) ≡ or_else (get same_part table.old (k, c, p)) (cond (nat_eq node k) (position (names c p) shares.now) None)) }
{
    'shares: for (place, share) in shares.iter().enumerate() {
        note_share(table, node, share, place as u32)?;
    }
    Ok(())
}

/// What the shared places of a replicate become.
fn note_rep(table: &mut IndexMap<SharePart, u32>, node: u32, shares: &[u32]) -> Result<(), NoMemory>
    requires { length shares.now ≤ MAX_SHARES }
    ensures { OnOk result ((k c p : ℕ) → get same_part table.new (k, c, p) ≡ or_else (get same_part table.old (k, c, p)) (cond (nat_eq node k && nat_eq 0 c) (position (λ q. nat_eq q p) shares.now) None)) }
{
    'shares: for (place, shared) in shares.iter().enumerate() {
        note(table, (node, 0, *shared), place as u32)?;
    }
    Ok(())
}

/// What the places of a node's children become.
fn note_node(table: &mut IndexMap<SharePart, u32>, n: u32, node: &Node) -> Result<(), NoMemory>
    requires { width node.now ≤ MAX_SHARES }
    ensures { OnOk result ((k c p : ℕ) → get same_part table.new (k, c, p) ≡ or_else (get same_part table.old (k, c, p)) (cond (nat_eq n k) (known_as node.now c p) None)) }
{
    match node {
        Node::Leaf { .. } => Ok(()),
        Node::Join { shares, .. } => note_join(table, n, shares.as_slice()),
        Node::Rep { shares, .. } => note_rep(table, n, shares.as_slice()),
    }
}

/// A table of what all nodes share.
pub(crate) fn table_of(alloc: Global, nodes: &[Node]) -> Result<IndexMap<SharePart, u32>, NoMemory>
    requires few { length nodes.now ≤ MAX_NODES }
    requires narrow { (k : ℕ) → width (node_at nodes.now k) ≤ MAX_SHARES }
    ensures { IfOk result (λ table. Knows nodes.now (length nodes.now) (get same_part table)) }
{
    let mut table = IndexMap::new(alloc);
    'nodes: for (n, node) in nodes.iter().enumerate() {
        note_node(&mut table, n as u32, node)?;
    }
    Ok(table)
}
