//! A chain and its calls.

ghost use Rattle.std.specs.Prelude.{◌≡◌, ◌≤◌, ◌<◌, ◌+◌, ◌-◌, ◌++◌, ◌∷◌, ℕ, length, take, max, Some, [], IfErr, IsOk, OnOk, OnErr, slice_index_or};
ghost use Rattle.std.specs.Option.{MatchOption};
ghost use Rattle.san_chain.specs.Chains.{GoesOn, end_of};

use san_base::{Linked, NoMemory};
use std::alloc::Global;
use std::marker::Model;

/// The most pieces of a chain, so that their number fits 32 bits.
const MAX_PIECES: usize = 4_294_967_295;

/// Pieces with their numbers, each of which begins where the one before it ends.
#[derive(Drop)]
pub struct Chain<P: Linked> {
    pieces: Vec<(u64, P)>,
    spare: usize,
}

impl<P: Linked> Model for Chain<P> {
    ghost use Rattle.std.specs.Prelude.{◌<◌, ◌≤◌, ◌+◌, vec_len, vec_capacity};
    ghost use Rattle.san_chain.specs.Chains.{ChainValue};
    ghost use Rattle.san_chain.specs.inner.Joined.{Joins};
    ghost use Rattle.san_chain.specs.declared.chain.TheConstants.{MAX_PIECES};

    ghost Value = { ChainValue P };

    ghost view = { λ c. record { pieces = c.pieces.items; spare = c.spare } };

    ghost invariant = { λ c. Joins P.base P.end c.pieces.items × (0 < c.spare → vec_len c.pieces + c.spare ≤ vec_capacity c.pieces)
        × (vec_len c.pieces + c.spare ≤ MAX_PIECES) };
}

impl<P: Linked> Chain<P> {
    /// A chain without pieces.
    pub fn new(alloc: Global) -> Chain<P>
        ensures { result ≡ record { pieces = []; spare = 0 } }
    {
        Chain {
            pieces: Vec::new(alloc),
            spare: 0,
        }
    }

    /// How many pieces there are.
    pub fn len(&self) -> u32
        ensures { result ≡ length self.now.pieces }
    {
        self.pieces.len() as u32
    }

    /// The first piece.
    pub fn head(&self) -> Option<&P>
        ensures { MatchOption result (self.now.pieces ≡ []) (λ p. (0 < length self.now.pieces)
            × ((pos : ℕ) → p.now ≡ (slice_index_or self.now.pieces 0 (pos, p.now)).1)) }
    {
        match self.pieces.first() {
            Some((_, piece)) => Some(piece),
            None => None,
        }
    }

    /// The state that the last piece leaves.
    #[tactic(auto, using(crate::proofs::Joined::end_is_last))]
    pub fn end(&self) -> Option<&P::State>
        ensures { MatchOption result (self.now.pieces ≡ []) (λ s. end_of P.end self.now.pieces ≡ Some s.now) }
    {
        let count = self.pieces.len();
        if count == 0 {
            return None;
        }
        let (_, piece) = &self.pieces[count - 1];
        Some(piece.end())
    }

    /// The piece at an index from the front, with its number.
    pub fn at(&self, index: u32) -> Option<(u64, &P)>
        ensures { MatchOption result (length self.now.pieces ≤ index) (λ x. (index < length self.now.pieces)
            × ((x.0, x.1.now) ≡ slice_index_or self.now.pieces index (x.0, x.1.now))) }
    {
        let index = index as usize;
        if index < self.pieces.len() {
            let (pos, piece) = &self.pieces[index];
            Some((*pos, piece))
        } else {
            None
        }
    }

    /// Takes room for one more piece, if there is none.
    pub fn reserve(&mut self) -> Result<(), NoMemory>
        ensures ok { OnOk result (self.new ≡ record self.old { spare = max self.old.spare 1 }) }
        ensures err { OnErr result (self.new ≡ self.old) }
    {
        if self.spare > 0 {
            return Ok(());
        }
        if self.pieces.len() >= MAX_PIECES {
            return Err(NoMemory);
        }
        self.pieces.reserve(1)?;
        self.spare = 1;
        Ok(())
    }

    /// Pushes a piece that goes on from the end; the piece comes back for want of memory.
    #[tactic(auto, using(crate::proofs::Joined::joins_push))]
    pub fn push(&mut self, pos: u64, piece: P) -> Result<(), P>
        requires goes_on { GoesOn (P.base piece) (end_of P.end self.old.pieces) }
        ensures pushed { OnOk result (self.new ≡ record self.old
            { pieces = self.old.pieces ++ (pos, piece) ∷ []; spare = self.old.spare - 1 }) }
        ensures sure { 0 < self.old.spare → IsOk result }
        ensures err { IfErr result (λ p. (p ≡ piece) × (self.new ≡ self.old)) }
    {
        if self.pieces.len() >= MAX_PIECES {
            return Err(piece);
        }
        match self.pieces.push((pos, piece)) {
            Ok(()) => {
                self.spare = self.spare.saturating_sub(1);
                Ok(())
            }
            Err(refused) => Err(refused.value.1),
        }
    }

    /// Takes the first piece out.
    #[tactic(auto, using(crate::proofs::Joined::joins_rest))]
    pub fn pop_front(&mut self) -> Option<(u64, P)>
        ensures pieces { MatchOption result ((self.old.pieces ≡ []) × (self.new.pieces ≡ [])) (λ x. self.old.pieces ≡ x ∷ self.new.pieces) }
        ensures spare { self.new.spare ≡ self.old.spare }
    {
        if self.pieces.is_empty() {
            return None;
        }
        Some(self.pieces.remove(0))
    }

    /// Takes out the pieces from an index on; how many there were.
    #[tactic(auto, using(crate::proofs::Joined::joins_take))]
    pub fn cut(&mut self, from: u32) -> u32
        ensures left { self.new ≡ record self.old { pieces = take from self.old.pieces } }
        ensures count { result ≡ length self.old.pieces - from }
    {
        let before = self.pieces.len();
        self.pieces.truncate(from as usize);
        (before - self.pieces.len()) as u32
    }
}
