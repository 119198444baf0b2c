//! What is made ahead of the committed time.

ghost use Rattle.std.specs.Prelude.{◌≡◌, ◌≤◌, ◌<◌, ◌+◌, ◌^◌, [], ℕ, IfErr, IfOk, None, OnOk, Some, length, map, replicate, slice_index};
ghost use Rattle.std.specs.Option.{MatchOption};
ghost use Rattle.san_ahead.specs.Ahead.{EndsWith, Heads, TakesOut, cut_from, last_of, nothing, pushed, raised, with_committed};
ghost use Rattle.san_ahead.specs.Aheads.{line_in};
ghost use Rattle.san_book.specs.Chains.{AllFit, chain_of, current};
ghost use Rattle.san_book.specs.Cores.{bare_line};
ghost use Rattle.san_book.specs.Lines.{AreWrites, line_of, seen_at};
ghost use Rattle.san_book.specs.Nets.{or_zero, shared_in};
ghost use Rattle.san_book.specs.Plans.{next_version};
ghost use Rattle.san_chain.specs.Chains.{GoesOn, end_of};
ghost use Rattle.san_decide.specs.Booked.{of_piece};
ghost use Rattle.san_leaf.specs.States.{pair_in};
ghost use Rattle.san_line.specs.Lines.{find};
ghost use Rattle.san_net.specs.Leaf.{slot_in};

use crate::chains::{current_pieces, cut_chain, last_piece, push_piece};
use crate::lines::{commit_writes, withdraw_writes};
use crate::next::next_version;
use san_base::{LeafId, NoMemory, PlaceId, Stamp, Tick};
use san_chain::Chain;
use san_leaf::{LeafState, Piece};
use san_line::Line;
use san_net::Slot;
use std::alloc::Global;
use std::marker::Model;

/// For each leaf a chain of pieces and the number of the next one; for each shared place a line, with
/// a version for each piece in a chain that wrote the place.
#[derive(Drop)]
pub struct Ahead {
    chains: Vec<Chain<Piece>>,
    counters: Vec<u64>,
    lines: Vec<Line>,
}

impl Model for Ahead {
    ghost use Rattle.std.specs.Coded.{codes};
    ghost use Rattle.san_net.specs.contracts.part.Part as of_part;
    ghost use Rattle.san_ahead.specs.Ahead.{AheadValue, ahead_by};

    ghost Value = { AheadValue };

    ghost coded = { Prim.hlevel (codes, of_part.the_row.coded) };

    ghost view = { λ a. ahead_by a.chains.items a.counters.items a.lines.items };
}

/// A chain without pieces for each leaf.
fn no_chains(alloc: Global, leaves: u32) -> Result<Vec<Chain<Piece>>, NoMemory>
    ensures { IfOk result (λ v. map (λ c. c.pieces) v.items ≡ replicate leaves []) }
{
    let mut chains = Vec::new(alloc);
    'leaves: for _ in 0..leaves {
        chains.push(Chain::new(alloc))?;
    }
    Ok(chains)
}

/// A number of 0 for each leaf.
fn no_counters(alloc: Global, leaves: u32) -> Result<Vec<u64>, NoMemory>
    ensures { IfOk result (λ v. v.items ≡ replicate leaves 0) }
{
    let counters = vec![in alloc; 0; leaves as usize]?;
    Ok(counters)
}

/// A line without versions over each value.
fn bare_lines(alloc: Global, shared: &[u32]) -> Result<Vec<Line>, NoMemory>
    ensures { IfOk result (λ v. map line_in v.items ≡ map bare_line shared.now) }
{
    let mut lines = Vec::new(alloc);
    'places: for value in shared {
        lines.push(Line::open(alloc, *value))?;
    }
    Ok(lines)
}

impl Ahead {
    /// Nothing that is made ahead of committed values.
    pub fn open(alloc: Global, leaves: u32, shared: &[u32]) -> Result<Ahead, NoMemory>
        ensures { IfOk result (λ a. a ≡ nothing leaves shared.now) }
    {
        Ok(Ahead {
            chains: no_chains(alloc, leaves)?,
            counters: no_counters(alloc, leaves)?,
            lines: bare_lines(alloc, shared)?,
        })
    }

    /// How many leaves there are.
    pub fn leaves(&self) -> usize
        ensures { result ≡ length self.now.chains }
    {
        self.chains.len()
    }

    /// How many pieces of a leaf there are.
    pub fn len(&self, leaf: LeafId) -> u32
        requires { leaf.0 < length self.now.chains }
        ensures { result ≡ length (chain_of self.now.chains leaf.0) }
    {
        self.chains[leaf.0 as usize].len()
    }

    /// The first piece of a leaf.
    pub fn head(&self, leaf: LeafId) -> Option<&Piece>
        requires { leaf.0 < length self.now.chains }
        ensures { MatchOption result (chain_of self.now.chains leaf.0 ≡ []) (λ p. Heads self.now leaf.0 p.now) }
    {
        self.chains[leaf.0 as usize].head()
    }

    /// The value of a shared place at a stamp: that of the last version that the stamp sees, or else
    /// the committed one. Any other place reads as 0.
    pub fn read(&self, place: PlaceId, stamp: Stamp) -> u32
        ensures { result ≡ or_zero (seen_at self.now.lines stamp place.0) }
    {
        let place = place.0 as usize;
        if place < self.lines.len() {
            self.lines[place].at(stamp)
        } else {
            0
        }
    }

    /// How many pieces of a leaf stand before the first that read another value than the lines have at
    /// its stamp.
    pub fn current(&self, leaf: LeafId) -> u32
        requires { leaf.0 < length self.now.chains }
        ensures count { result ≡ current of_piece self.now.lines leaf.0 (chain_of self.now.chains leaf.0) }
        ensures within { result ≤ length (chain_of self.now.chains leaf.0) }
    {
        current_pieces(&self.lines, leaf, &self.chains[leaf.0 as usize])
    }

    /// Takes a leaf's pieces from an index on out, with their versions.
    pub fn cut(&mut self, leaf: LeafId, from: u32)
        requires leaf { leaf.0 < length self.old.chains }
        requires fit { AllFit of_piece (length self.old.lines) (chain_of self.old.chains leaf.0) }
        ensures { self.new ≡ cut_from self.old leaf.0 from }
    {
        cut_chain(
            &mut self.lines,
            leaf,
            &mut self.chains[leaf.0 as usize],
            from,
        );
    }

    /// Takes the first piece of a leaf out, with its versions.
    pub fn pop(&mut self, leaf: LeafId) -> Piece
        requires leaf { leaf.0 < length self.old.chains }
        requires some { 0 < length (chain_of self.old.chains leaf.0) }
        requires fit { AllFit of_piece (length self.old.lines) (chain_of self.old.chains leaf.0) }
        ensures { TakesOut self.old leaf.0 result self.new }
    {
        let Some((pos, piece)) = self.chains[leaf.0 as usize].pop_front() else {
            unreachable!()
        };
        withdraw_writes(&mut self.lines, leaf, pos, &piece.outcome().writes);
        piece
    }

    /// Makes what is committed the committed values of the places that a piece wrote.
    pub fn commit(&mut self, shared: &[u32], writes: &[(PlaceId, u32)])
        requires fit { AreWrites (length self.old.lines) (map pair_in writes.now) }
        requires sized { length shared.now ≡ length self.old.lines }
        ensures { self.new ≡ with_committed self.old shared.now (map pair_in writes.now) }
    {
        commit_writes(&mut self.lines, shared, writes);
    }

    /// Raises the number of a leaf's next piece.
    pub fn raise(&mut self, leaf: LeafId)
        requires leaf { leaf.0 < length self.old.counters }
        requires few { slice_index self.old.counters leaf.0 + 1 < 2 ^ 64 }
        ensures { self.new ≡ raised self.old leaf.0 }
    {
        self.counters[leaf.0 as usize] += 1;
    }

    /// The state that the pieces of a leaf end with; none where there is no piece.
    pub fn end(&self, leaf: LeafId) -> Option<&LeafState>
        requires { leaf.0 < length self.now.chains }
        ensures { MatchOption result (chain_of self.now.chains leaf.0 ≡ []) (λ s. EndsWith self.now leaf.0 s.now) }
    {
        self.chains[leaf.0 as usize].end()
    }

    /// The last piece of a leaf.
    pub fn last(&self, leaf: LeafId) -> Option<&Piece>
        requires { leaf.0 < length self.now.chains }
        ensures { MatchOption result (chain_of self.now.chains leaf.0 ≡ []) (λ p. last_of (chain_of
            self.now.chains leaf.0) ≡ Some p.now) }
    {
        last_piece(&self.chains[leaf.0 as usize])
    }

    /// The number of a leaf's next piece.
    pub fn number(&self, leaf: LeafId) -> u64
        requires { leaf.0 < length self.now.counters }
        ensures { result ≡ slice_index self.now.counters leaf.0 }
    {
        self.counters[leaf.0 as usize]
    }

    /// The least time and leaf of the versions above a time by other leaves, over the shared ones of
    /// some cells.
    pub fn next_version(&self, leaf: LeafId, after: Tick, slots: &[Slot]) -> Option<(u64, u32)>
        ensures { result ≡ next_version self.now.lines leaf.0 after.0 (shared_in (map slot_in slots.now)) }
    {
        next_version(&self.lines, leaf, after, slots)
    }

    /// Pushes a piece of a leaf, from whose end it goes on, with the leaf's next number, and puts its
    /// versions into the lines. For want of memory the piece comes back, and nothing changes.
    pub fn push(&mut self, leaf: LeafId, piece: Piece) -> Result<(), Piece>
        requires leaf { leaf.0 < length self.old.chains }
        requires number { leaf.0 < length self.old.counters }
        requires few { slice_index self.old.counters leaf.0 + 1 < 2 ^ 64 }
        requires fit { AreWrites (length self.old.lines) piece.outcome.writes }
        requires new { (q : ℕ) → find leaf.0 (slice_index self.old.counters leaf.0) (line_of
            self.old.lines q).versions ≡ None }
        requires goes_on { GoesOn piece.base (end_of (λ p. p.outcome.state) (chain_of self.old.chains leaf.0)) }
        ensures pushed { OnOk result (self.new ≡ pushed self.old leaf.0 piece) }
        ensures back { IfErr result (λ p. (p ≡ piece) × (self.new ≡ self.old)) }
    {
        let at = leaf.0 as usize;
        let pos = self.counters[at];
        match push_piece(&mut self.lines, leaf, pos, &mut self.chains[at], piece) {
            Ok(()) => {
                self.counters[at] = pos + 1;
                Ok(())
            }
            Err(piece) => Err(piece),
        }
    }
}
