//! The steps that readers are made of: one sign, a name, a number, and items in a row.

ghost use Rattle.std.specs.Prelude.{◌≡◌, ◌++◌, ℕ, Bool, List, [], ◌∷◌, length, true, false, OnOk, IfErr};
ghost use Rattle.san_lex.specs.Lexer.{Word};
ghost use Rattle.san_lex.specs.declared.sign.Sign.TheVariants.{Keyword as Key, Mark as Marked};
ghost use Rattle.san_text.specs.declared.words.ReadError.TheVariants.{Memory};
ghost use Rattle.san_text.specs.Words.{is_next};
ghost use Rattle.san_text.specs.Steps.{Reading, sign_at, name_at, number_at, number_or_none, many, gathered};
ghost use Rattle.san_text.specs.inner.Answers.{GivesRead};

use crate::words::{ReadError, Words};
use san_base::{Items, Name};
use san_lex::{Keyword, Mark, Sign};
use std::alloc::Global;

/// What was read from the front of the words, and the words after it.
pub type Read<'a, T> = Result<(T, Words<'a>), ReadError>;

#[tactic(auto, unfolding(crate::specs::Steps::sign_at))]
fn sign_at<'a>(sign: Sign, words: Words<'a>) -> Result<Words<'a>, ReadError>
    ensures { GivesRead result (sign_at sign words.entry) }
{
    if words.is_next(sign) {
        Ok(words.tail())
    } else {
        Err(ReadError::Illegal(words.len()))
    }
}

pub(crate) fn mark_at<'a>(mark: Mark, words: Words<'a>) -> Result<Words<'a>, ReadError>
    ensures { GivesRead result (sign_at (Marked mark) words.entry) }
{
    sign_at(Sign::Mark(mark), words)
}

pub(crate) fn keyword_at<'a>(keyword: Keyword, words: Words<'a>) -> Result<Words<'a>, ReadError>
    ensures { GivesRead result (sign_at (Key keyword) words.entry) }
{
    sign_at(Sign::Keyword(keyword), words)
}

#[tactic(auto, unfolding(crate::specs::Steps::name_at))]
pub(crate) fn name_at<'a>(alloc: Global, words: Words<'a>) -> Result<(Name, Words<'a>), ReadError>
    ensures { GivesRead result (name_at words.entry) }
{
    match words.name(alloc)? {
        Some(name) => Ok((name, words.tail())),
        None => Err(ReadError::Illegal(words.len())),
    }
}

#[tactic(auto, unfolding(crate::specs::Steps::number_at))]
pub(crate) fn number_at<'a>(words: Words<'a>) -> Result<(u64, Words<'a>), ReadError>
    ensures { GivesRead result (number_at words.entry) }
{
    match words.number() {
        Some(n) => Ok((n, words.tail())),
        None => Err(ReadError::Illegal(words.len())),
    }
}

/// What the grammar has any number of in a row. `braces` is how many may still be opened.
pub trait Item: Sized + Drop {
    ghost starting: { List Word → Bool };

    ghost reading: { ℕ → ℕ → Reading Self };

    fn starts(words: &Words<'_>) -> bool
        ensures { result ≡ starting words.now };

    fn read<'a>(
        alloc: Global,
        version: u64,
        braces: u32,
        words: Words<'a>,
    ) -> Result<(Self, Words<'a>), ReadError>
        ensures { GivesRead result (reading version braces words.entry) };
}

/// Adds an item.
pub(crate) fn push<T: Drop>(found: &mut Vec<T>, item: T) -> Result<(), ReadError>
    ensures more { OnOk result (found.new.items ≡ found.old.items ++ item ∷ []) }
    ensures memory { IfErr result (λ e. e ≡ Memory) }
{
    found.push(item).map_err(|_| ReadError::Memory)
}

/// Items as long as they start, behind those that were found before.
pub(crate) fn many_after<'a, T: Item>(
    alloc: Global,
    version: u64,
    braces: u32,
    found: Vec<T>,
    words: Words<'a>,
) -> Result<(Items<T>, Words<'a>), ReadError>
    ensures { GivesRead result (gathered found.items (many T.starting (T.reading version braces)
        (length words.entry) words.entry)) }
{
    let mut found = found;
    let mut rest = words;
    let mut turns = rest.len();
    'next: while turns > 0 && T::starts(&rest) {
        let (x, after) = T::read(alloc, version, braces, rest)?;
        push(&mut found, x)?;
        rest = after;
        turns -= 1;
    }
    Ok((Items::from_vec(found), rest))
}

/// Items as long as they start.
#[tactic(auto, using(crate::proofs::ManyLemmas::gathered_none))]
pub(crate) fn many<'a, T: Item>(
    alloc: Global,
    version: u64,
    braces: u32,
    words: Words<'a>,
) -> Result<(Items<T>, Words<'a>), ReadError>
    ensures { GivesRead result (many T.starting (T.reading version braces) (length words.entry)
        words.entry) }
{
    many_after(alloc, version, braces, Vec::new(alloc), words)
}

pub(crate) fn next_mark(words: &Words<'_>, mark: Mark) -> bool
    ensures { result ≡ is_next (Marked mark) words.now }
{
    words.is_next(Sign::Mark(mark))
}

pub(crate) fn next_keyword(words: &Words<'_>, keyword: Keyword) -> bool
    ensures { result ≡ is_next (Key keyword) words.now }
{
    words.is_next(Sign::Keyword(keyword))
}

#[tactic(auto, unfolding(crate::specs::Steps::number_or_none))]
pub(crate) fn number_or_none<'a>(words: Words<'a>) -> Result<(Option<u64>, Words<'a>), ReadError>
    ensures { GivesRead result (number_or_none words.entry) }
{
    match words.number() {
        Some(n) => Ok((Some(n), words.tail())),
        None => Ok((None, words)),
    }
}

/// One item, and items behind it as long as they start.
pub(crate) fn one_and<'a, T: Item>(
    alloc: Global,
    version: u64,
    braces: u32,
    first: T,
    words: Words<'a>,
) -> Result<(Items<T>, Words<'a>), ReadError>
    ensures { GivesRead result (gathered (first ∷ []) (many T.starting (T.reading version braces)
        (length words.entry) words.entry)) }
{
    let mut found = Vec::new(alloc);
    push(&mut found, first)?;
    many_after(alloc, version, braces, found, words)
}
