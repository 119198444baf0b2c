//! The laws of lines and logs.

ghost use Rattle.std.specs.Prelude.{ℕ, List};
ghost use Rattle.san_line.specs.declared.version.Version.{Version};
ghost use Rattle.san_log.specs.Logs.{Entry};
ghost use Rattle.san_book.specs.Machines.{Machine};
ghost use Rattle.san_book.specs.Laws.{AgreesIsAgreesWith, LinesAreOne, LogFits, LogIsRead, OrderedIsOne, PublicationIsRead};

/// Versions in order are equal where the same is found in them, so a whole core's lines are a
/// function of what is committed and of its chains.
#[tactic(auto, using(crate::proofs::Uniqueness::ordered_is_one, crate::proofs::Uniqueness::lines_are_one))]
pub fn lines_are_determined<H, S, P>()
    ensures versions { (xs ys : List Version) → OrderedIsOne xs ys }
    ensures lines { (m : Machine H S P) → LinesAreOne m }
{}

/// The reads of a log, one step each, make it the pending one; and a publication after them pushes
/// the piece that the log makes. They are steps that a journal has room for.
#[tactic(auto, using(crate::proofs::Noting::log_is_read))]
pub fn a_publication_is_read_place_by_place<H, S, P>()
    ensures log { (m : Machine H S P) → LogIsRead m }
    ensures published { (m : Machine H S P) → PublicationIsRead m }
    ensures fits { (m : Machine H S P) → LogFits m }
{}

/// A log agrees with the committed values as a read log does.
#[tactic(auto, using(crate::proofs::Noting::agrees_is_agrees_with))]
pub fn a_log_agrees_by_value()
    ensures { (es : List Entry) (shared : List ℕ) → AgreesIsAgreesWith es shared }
{}
