//! The law of canonical texts: they are read again.

ghost use Rattle.std.specs.Prelude.{◌≡◌, ℕ, List, Ok};
ghost use Rattle.san_text.specs.declared.text.Parsed.{Parsed};
ghost use Rattle.san_text.specs.Texts.{parsed};
ghost use Rattle.san_show.specs.Canonical.{canonical};

/// A law, which does nothing when it runs: the canonical text of a syntax that some text parses to
/// parses to this syntax.
pub fn shown_text_is_read_again()
    ensures { (text : List ℕ) (x : Parsed) → parsed text ≡ Ok x → (y : Parsed)
        × (parsed (canonical x.syntax) ≡ Ok y) × (y.syntax ≡ x.syntax) }
{}
