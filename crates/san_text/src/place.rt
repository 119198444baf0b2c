//! The grammar of places.

ghost use Rattle.std.specs.Prelude.{◌≡◌};
ghost use Rattle.san_lex.specs.declared.keyword.Keyword.TheVariants.{Place as PlaceKey};
ghost use Rattle.san_text.specs.Steps.{next_keyword};
ghost use Rattle.san_text.specs.Activities.{length_at, initial_at, place_at};
ghost use Rattle.san_text.specs.inner.Answers.{GivesRead};

use crate::expression::has_arrays;
use crate::steps::{Item, Read, keyword_at, mark_at, name_at, next_keyword, next_mark, number_at};
use crate::syntax::PlaceDecl;
use crate::words::{ReadError, Words};
use san_lex::{Keyword, Mark};
use std::alloc::Global;

#[tactic(auto, unfolding(crate::specs::Activities::length_at))]
fn length_at<'a>(version: u64, words: Words<'a>) -> Read<'a, Option<u64>>
    ensures { GivesRead result (length_at version words.entry) }
{
    if has_arrays(version) && next_mark(&words, Mark::OpenBracket) {
        let (length, words) = number_at(words.tail())?;
        let words = mark_at(Mark::CloseBracket, words)?;
        Ok((Some(length), words))
    } else {
        Ok((None, words))
    }
}

#[tactic(auto, unfolding(crate::specs::Activities::initial_at))]
fn initial_at<'a>(words: Words<'a>) -> Read<'a, Option<u64>>
    ensures { GivesRead result (initial_at words.entry) }
{
    if next_mark(&words, Mark::Equals) {
        let (initial, words) = number_at(words.tail())?;
        Ok((Some(initial), words))
    } else {
        Ok((None, words))
    }
}

#[tactic(auto, unfolding(crate::specs::Activities::place_at))]
fn place_at<'a>(alloc: Global, version: u64, words: Words<'a>) -> Read<'a, PlaceDecl>
    ensures { GivesRead result (place_at version words.entry) }
{
    let words = keyword_at(Keyword::Place, words)?;
    let (name, words) = name_at(alloc, words)?;
    let (length, words) = length_at(version, words)?;
    let (initial, words) = initial_at(words)?;
    let words = mark_at(Mark::Semicolon, words)?;
    Ok((
        PlaceDecl {
            name,
            length,
            initial,
        },
        words,
    ))
}

impl Item for PlaceDecl {
    ghost starting = { next_keyword PlaceKey };

    ghost reading = { λ version braces. place_at version };

    fn starts(words: &Words<'_>) -> bool {
        next_keyword(words, Keyword::Place)
    }

    fn read<'a>(
        alloc: Global,
        version: u64,
        _braces: u32,
        words: Words<'a>,
    ) -> Result<(PlaceDecl, Words<'a>), ReadError> {
        place_at(alloc, version, words)
    }
}
