//! The law's own committed part under a book.

ghost use Rattle.std.specs.Prelude.{ℕ, Option};
ghost use Rattle.san_base.specs.declared.piece.Kind as named;
ghost use Rattle.san_law.specs.Lawful.{IsLawful};
ghost use Rattle.san_law.specs.Net.{Net};
ghost use Rattle.san_law.specs.Piece.{Kind};
ghost use Rattle.san_book.specs.Nets.{EveryRunFollows, NetIsLawful};

/// What the laws of the book ask is met by the committed part of every network, with pieces that
/// log all shared places of their leaf.
pub fn the_book_has_a_subject()
    ensures { (net : Net) (kinds : ℕ → named.Kind → Option Kind) → NetIsLawful net kinds }
{}

/// Whatever steps such a core comes to, what it has committed follows the run.
pub fn what_is_committed_follows_the_run()
    ensures { (net : Net) (kinds : ℕ → named.Kind → Option Kind) → IsLawful net → EveryRunFollows net kinds }
{}
