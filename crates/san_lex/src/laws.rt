//! Laws of the tokens: words that are written are read again.

ghost use Rattle.std.specs.Prelude.{◌≡◌, ℕ, List, Ok, map};
ghost use Rattle.san_lex.specs.Lexer.{Word, Located, tokens, heard, word_of};
ghost use Rattle.san_lex.specs.Words.{AreWords};
ghost use Rattle.san_lex.specs.Layout.{show_text};

/// A law, which does nothing when it runs: the words of a text are words that can be written.
pub fn read_words_can_be_written()
    ensures { (text : List ℕ) (found : List Located) → tokens text ≡ Ok found
        → AreWords (map word_of found) }
{}

/// A law, which does nothing when it runs: words that are written with their blanks are the words
/// of that text.
pub fn written_words_are_read()
    ensures { (ws : List Word) → AreWords ws → heard (tokens (show_text ws)) ≡ Ok ws }
{}
