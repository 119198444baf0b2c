//! Laws of the checks: what holds of a syntax without a fault.

ghost use Rattle.san_base.specs.declared.limits.TheConstants.{MAX_TEXT_BYTES};
ghost use Rattle.std.specs.Prelude.{All, ◌≡◌, ◌<◌, ◌≤◌, ℕ, List, None, Some, Ok, length};
ghost use Rattle.san_text.specs.declared.text.Parsed.{Parsed};
ghost use Rattle.san_check.specs.declared.walk.Fault.{Fault};
ghost use Rattle.san_text.specs.declared.syntax.Syntax.{Syntax};
ghost use Rattle.san_tree.specs.Places.{node_at, Keeps, SharesApart};
ghost use Rattle.san_text.specs.Texts.{parsed, words_of};
ghost use Rattle.san_check.specs.walk.Model.{syntax_entries, syntax_fault};
ghost use Rattle.san_check.specs.build.Composition.{nodes_of, shown_of};
ghost use Rattle.san_net.specs.Accepted.{IsAccepted};
ghost use Rattle.san_check.specs.Formed.{IsFormed};
ghost use Rattle.san_check.specs.build.Atomic.{atomics_of};

/// A law, which does nothing when it runs: in the tree of a syntax without a fault no two places of
/// one child become one place.
#[tactic(auto, using(crate::proofs::OnceLemmas::apart))]
pub fn places_stay_apart()
    ensures { (s : Syntax) → syntax_fault s ≡ None → (n : ℕ)
        → SharesApart (node_at (nodes_of s) n) }
{}

/// A law, which does nothing when it runs: in the tree of a syntax without a fault a shared place
/// shows the initial value and the length of each place that it was.
#[tactic(auto, using(crate::proofs::KeepsLemmas::keeps))]
pub fn sharing_keeps_places()
    ensures { (s : Syntax) → syntax_fault s ≡ None → Keeps (nodes_of s) (shown_of s) }
{}

/// A law, which does nothing when it runs: the atomics of a syntax without a fault are as a network
/// takes them, where the syntax is as a text gives it.
pub fn atomics_are_accepted()
    ensures { (s : Syntax) → IsFormed s → syntax_fault s ≡ None → All IsAccepted (atomics_of s) }
{}

/// A law, which does nothing when it runs: a syntax has one entry for each of its words, so a fault
/// stands at one of them.
#[tactic(auto, using(crate::proofs::WordLemmas::one_each, crate::proofs::WordLemmas::word_is_there))]
pub fn entries_are_of_words()
    ensures each { (s : Syntax) → length (syntax_entries s) ≡ length (words_of s) }
    ensures within { (s : Syntax) → (f : Fault) → syntax_fault s ≡ Some f
        → f.word < length (words_of s) }
{}

/// A law, which does nothing when it runs: a syntax that a text parses to has names of the form
/// that a network takes, an entry in each table, and a case in each activity.
pub fn parsed_is_formed()
    ensures { (text : List ℕ) → (x : Parsed) → length text ≤ MAX_TEXT_BYTES → parsed text ≡ Ok x
        → IsFormed x.syntax }
{}
