//! Laws of the grammar: what is spelled is read again, and a text is refused at its first fault.

ghost use Rattle.std.specs.Prelude.{◌≡◌, ◌++◌, ℕ, suc, false, List, ◌∷◌, Ok, Err, map, length};
ghost use Rattle.san_lex.specs.declared.keyword.Keyword.TheVariants.{Else};
ghost use Rattle.san_lex.specs.Lexer.{Word, Located, tokens, word_of};
ghost use Rattle.san_lex.specs.Words.{said};
ghost use Rattle.san_text.specs.declared.syntax.Ast.{Ast};
ghost use Rattle.san_text.specs.declared.syntax.StmtDecl.{StmtDecl};
ghost use Rattle.san_text.specs.declared.syntax.ActDecl.{ActDecl};
ghost use Rattle.san_text.specs.declared.syntax.ModelDecl.{ModelDecl};
ghost use Rattle.san_text.specs.declared.syntax.RewardDecl.{RewardDecl};
ghost use Rattle.san_text.specs.declared.syntax.Syntax.{Syntax};
ghost use Rattle.san_text.specs.declared.text.Parsed.{Parsed};
ghost use Rattle.san_text.specs.Words.{look};
ghost use Rattle.san_text.specs.Steps.{GrammarFault, next_keyword};
ghost use Rattle.san_text.specs.Expressions.{expr};
ghost use Rattle.san_text.specs.Statements.{block, stmt_at};
ghost use Rattle.san_text.specs.Activities.{act_at};
ghost use Rattle.san_text.specs.Models.{model_at, reward_at, syntax_at};
ghost use Rattle.san_text.specs.Spelling.{spelling, stmt_words, body_words};
ghost use Rattle.san_text.specs.ActivityWords.{act_words};
ghost use Rattle.san_text.specs.ModelWords.{model_words, reward_words, syntax_words};
ghost use Rattle.san_text.specs.Faults.{left_of, with_left, code_of};
ghost use Rattle.san_text.specs.Texts.{parsed, refused, start_of, words_that_count, counting, words_of};

/// A law, which does nothing when it runs: an expression is spelled by the words that were read,
/// and its spelling is read again as it before words that go on alike.
#[tactic(auto, using(crate::proofs::ExprLemmas::expr_law))]
pub fn expression_is_read_again()
    ensures spelled { (version : ℕ) (ws : List Word) (p : Ast × List Word) → expr version ws ≡ Ok p
        → ws ≡ spelling p.0 ++ p.1 }
    ensures again { (version : ℕ) (ws : List Word) (p : Ast × List Word) → expr version ws ≡ Ok p
        → (after : List Word) → look after ≡ look p.1
        → expr version (spelling p.0 ++ after) ≡ Ok (p.0, after) }
{}

/// A law, which does nothing when it runs: a statement keeps the names and numbers that were read,
/// and its spelling is read again as it where no `else` follows.
pub fn statement_is_read_again()
    ensures words { (version braces : ℕ) (ws : List Word) (p : StmtDecl × List Word)
        → stmt_at version (block version braces) ws ≡ Ok p
        → said ws ≡ said (stmt_words p.0) ++ said p.1 }
    ensures again { (version braces : ℕ) (ws : List Word) (p : StmtDecl × List Word)
        → stmt_at version (block version braces) ws ≡ Ok p → (after : List Word)
        → next_keyword Else after ≡ false
        → stmt_at version (block version braces) (stmt_words p.0 ++ after) ≡ Ok (p.0, after) }
{}

/// A law, which does nothing when it runs: a block keeps the names and numbers that were read, and
/// its spelling is read again as it.
pub fn block_is_read_again()
    ensures words { (version braces : ℕ) (ws : List Word) (p : List StmtDecl × List Word)
        → block version braces ws ≡ Ok p → said ws ≡ said (body_words p.0) ++ said p.1 }
    ensures again { (version braces : ℕ) (ws : List Word) (p : List StmtDecl × List Word)
        → block version braces ws ≡ Ok p → (after : List Word)
        → block version braces (body_words p.0 ++ after) ≡ Ok (p.0, after) }
{}

/// A law, which does nothing when it runs: an activity keeps the names and numbers that were read,
/// and its spelling is read again as it.
pub fn activity_is_read_again()
    ensures words { (version : ℕ) (ws : List Word) (p : ActDecl × List Word)
        → act_at version ws ≡ Ok p → said ws ≡ said (act_words p.0) ++ said p.1 }
    ensures again { (version : ℕ) (ws : List Word) (p : ActDecl × List Word)
        → act_at version ws ≡ Ok p → (after : List Word)
        → act_at version (act_words p.0 ++ after) ≡ Ok (p.0, after) }
{}

/// A law, which does nothing when it runs: a model keeps the names and numbers that were read, and
/// its spelling is read again as it.
pub fn model_is_read_again()
    ensures words { (version : ℕ) (ws : List Word) (p : ModelDecl × List Word)
        → model_at version ws ≡ Ok p → said ws ≡ said (model_words p.0) ++ said p.1 }
    ensures again { (version : ℕ) (ws : List Word) (p : ModelDecl × List Word)
        → model_at version ws ≡ Ok p → (after : List Word)
        → model_at version (model_words p.0 ++ after) ≡ Ok (p.0, after) }
{}

/// A law, which does nothing when it runs: a reward keeps the names and numbers that were read, and
/// its spelling is read again as it.
pub fn reward_is_read_again()
    ensures words { (version : ℕ) (ws : List Word) (p : RewardDecl × List Word)
        → reward_at version ws ≡ Ok p → said ws ≡ said (reward_words p.0) ++ said p.1 }
    ensures again { (version : ℕ) (ws : List Word) (p : RewardDecl × List Word)
        → reward_at version ws ≡ Ok p → (after : List Word)
        → reward_at version (reward_words p.0 ++ after) ≡ Ok (p.0, after) }
{}

/// A law, which does nothing when it runs: a whole text keeps its names and numbers, and those that
/// count, and its spelling is read again as the same syntax.
pub fn syntax_is_read_again()
    ensures words { (ws : List Word) (x : Syntax × ℕ) → syntax_at ws ≡ Ok x
        → said ws ≡ said (syntax_words x.0) }
    ensures counted { (ws : List Word) (x : Syntax × ℕ) → syntax_at ws ≡ Ok x
        → words_that_count ws ≡ words_of x.0 }
    ensures again { (ws : List Word) (x : Syntax × ℕ) → syntax_at ws ≡ Ok x
        → (left : ℕ) × (syntax_at (syntax_words x.0) ≡ Ok (x.0, left)) }
{}

/// A law, which does nothing when it runs: the spots of a text are the places of the words of its
/// syntax, one for each and in their order.
pub fn spots_are_those_of_the_words()
    ensures spots { (text : List ℕ) (found : List Located) (x : Parsed) → tokens text ≡ Ok found
        → parsed text ≡ Ok x → x.spots ≡ map start_of (counting found) }
    ensures words { (text : List ℕ) (found : List Located) (x : Parsed) → tokens text ≡ Ok found
        → parsed text ≡ Ok x → words_of x.syntax ≡ map word_of (counting found) }
    ensures length { (text : List ℕ) (x : Parsed) → parsed text ≡ Ok x
        → length x.spots ≡ length (words_of x.syntax) }
{}

/// A law, which does nothing when it runs: what agrees up to and with the first word that isn't
/// legal is refused there too, with the same code; so of words, and of texts with their tokens.
pub fn agreeing_texts_are_refused_there_too()
    ensures words { (us : List Word) (w : Word) (rest more : List Word) (f : GrammarFault)
        → syntax_at (us ++ w ∷ rest) ≡ Err f → left_of f ≡ suc (length rest)
        → syntax_at (us ++ w ∷ more) ≡ Err (with_left f (suc (length more))) }
    ensures texts { (other : List ℕ) (ps qs : List Located) (p q : Located) (rest more : List Located)
        (f : GrammarFault) → syntax_at (map word_of (ps ++ p ∷ rest)) ≡ Err f
        → left_of f ≡ suc (length rest) → tokens other ≡ Ok (qs ++ q ∷ more)
        → map word_of qs ≡ map word_of ps → q.word ≡ p.word
        → parsed other ≡ Err (refused (code_of f) other q.start) }
{}
