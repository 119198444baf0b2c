//! Laws: an order's change by a piece is the law's, and needs no more of the piece than it takes.

ghost use Rattle.std.specs.Prelude.{◌≡◌, ℕ};
ghost use Rattle.san_law.specs.Net.{Net, least_timer};
ghost use Rattle.san_law.specs.Order.{Order, order_after, order_renewed, places_of};
ghost use Rattle.san_law.specs.Piece.{Outcome};
ghost use Rattle.san_turn.specs.Changes.{order_of_block, order_of_renewal};
ghost use Rattle.san_turn.specs.Reflected.{TakenIsTheLaws};

/// After a block the law's order is that by its written places, the leaf's least timer, and whether
/// there is more.
#[tactic(auto, using(crate::proofs::Changes::block_is))]
pub fn a_block_changes_the_order()
    ensures { (net : Net) (o : Order) (time leaf : ℕ) (b : Outcome)
        → order_after net o time leaf b ≡ order_of_block net o time leaf (places_of b.writes)
        (least_timer b.state.row) b.more }
{}

/// After a renewal it is that by the leaf's least timer.
#[tactic(auto, using(crate::proofs::Changes::renewal_is))]
pub fn a_renewal_changes_the_order()
    ensures { (o : Order) (time leaf : ℕ) (b : Outcome)
        → order_renewed o time leaf b ≡ order_of_renewal o time leaf (least_timer b.state.row) }
{}

/// An order that takes a piece by its outcome is then the law's order after that piece.
#[tactic(auto, using(crate::proofs::Changes::taken_is))]
pub fn a_taken_piece_changes_the_order()
    ensures { (net : Net) → TakenIsTheLaws net }
{}
