//! The winner tree: keys, the matches between them, and their winners.

ghost use Rattle.std.specs.Prelude.{◌≡◌, ℕ, ◌+◌, ◌-◌, ◌<◌, ◌≤◌, ◌≢◌, length, IfOk, IsTrue, slice_index_or, replicate, None};
ghost use Rattle.san_winner.specs.declared.matches.TheConstants.{MAX_SIZE};
ghost use Rattle.san_winner.specs.Least.{sooner, leaf, span, AreWon, AreWonBut};

use std::alloc::{AllocError, Global};

/// More keys than a tree is opened for.
pub const MAX_KEYS: usize = 1 << 60;

/// A size beyond that of all trees.
pub(crate) const MAX_SIZE: usize = 1 << 62;

/// A key and its index, if there is one.
pub(crate) type Won = Option<(u64, usize)>;

/// The winner of two: the lesser key, of equal keys the first.
fn sooner(a: Won, b: Won) -> Won
    ensures { result ≡ sooner a b }
{
    match (a, b) {
        (None, b) => b,
        (Some(a), None) => Some(a),
        (Some(a), Some(b)) => { if b.0 < a.0 { Some(b) } else { Some(a) } }
    }
}

fn leaf(at: usize, key: Option<u64>) -> Won
    ensures { result ≡ leaf at key }
{
    match key {
        None => None,
        Some(key) => Some((key, at)),
    }
}

/// Whether two winners are one.
fn is_same(a: Won, b: Won) -> bool
    ensures { IsTrue result → a ≡ b }
{
    match (a, b) {
        (None, None) => true,
        (Some(a), Some(b)) => a.0 == b.0 && a.1 == b.1,
        _ => false,
    }
}

/// Plays the matches from a node towards the root again, as far as a winner changes: those above one
/// that stays are right.
fn raise(nodes: &mut [Won], size: usize, first: usize)
    requires long { length nodes.old ≡ size + size }
    requires small { size < MAX_SIZE }
    requires first { first < size }
    requires tree { AreWonBut first size nodes.old }
    ensures tree { AreWon size nodes.new }
    ensures leaves { (k : ℕ) → size ≤ k → slice_index_or nodes.new k None ≡ slice_index_or nodes.old k None }
{
    let mut at = first;
    'path: while at > 0 {
        let winner = sooner(nodes[at + at], nodes[at + at + 1]);
        if is_same(nodes[at], winner) {
            return;
        }
        nodes[at] = winner;
        at /= 2;
    }
}

/// The least of the nodes from a lowest node to another, matches above taken for those below.
pub(crate) fn between(nodes: &[Won], size: usize, lo: usize, hi: usize) -> Won
    requires long { length nodes.now ≡ size + size }
    requires small { size < MAX_SIZE }
    requires some { 0 < size }
    requires lo { lo ≤ hi }
    requires hi { hi ≤ size }
    requires tree { AreWon size nodes.now }
    ensures { result ≡ span (λ v. slice_index_or nodes.now v None) (size + lo) (hi - lo) }
{
    let mut low = size + lo;
    let mut high = size + hi;
    let mut first = None;
    let mut last = None;
    'levels: while low < high {
        if low % 2 == 1 {
            first = sooner(first, nodes[low]);
            low += 1;
        }
        if high % 2 == 1 {
            high -= 1;
            last = sooner(nodes[high], last);
        }
        low /= 2;
        high /= 2;
    }
    sooner(first, last)
}

/// A lowest node set, and the matches above it played again.
pub(crate) fn put(nodes: &mut [Won], size: usize, at: usize, key: Option<u64>)
    requires long { length nodes.old ≡ size + size }
    requires small { size < MAX_SIZE }
    requires at { at < size }
    requires tree { AreWon size nodes.old }
    ensures tree { AreWon size nodes.new }
    ensures here { slice_index_or nodes.new (size + at) None ≡ leaf at key }
    ensures others { (k : ℕ) → size ≤ k → k ≢ size + at → slice_index_or nodes.new k None ≡ slice_index_or nodes.old k None }
{
    nodes[size + at] = leaf(at, key);
    raise(nodes, size, (size + at) / 2);
}

pub(crate) fn key_at(keys: &[Option<u64>], at: usize) -> Option<u64>
    requires at { at < length keys.now }
    ensures { result ≡ slice_index_or keys.now at None }
{
    keys[at]
}

pub(crate) fn root(nodes: &[Won]) -> Won
    requires long { 1 < length nodes.now }
    ensures { result ≡ slice_index_or nodes.now 1 None }
{
    nodes[1]
}

pub(crate) fn no_keys(alloc: Global, count: usize) -> Result<Vec<Option<u64>>, AllocError>
    ensures { IfOk result (λ v. v.items ≡ replicate count None) }
{
    vec![in alloc; None; count]
}

pub(crate) fn no_winners(alloc: Global, count: usize) -> Result<Vec<Won>, AllocError>
    ensures { IfOk result (λ v. v.items ≡ replicate count None) }
{
    vec![in alloc; None; count]
}
