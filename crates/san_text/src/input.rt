//! The grammar of input arcs and input gates.

ghost use Rattle.std.specs.Prelude.{◌≡◌};
ghost use Rattle.san_text.specs.Activities.{arc_at, function_at, input_arc, gate_at, input_at, starts_input};
ghost use Rattle.san_text.specs.inner.Answers.{GivesRead};

use crate::expression::expr;
use crate::limits::ACTIVITY_BRACES;
use crate::statement::block;
use crate::steps::{
    Item, Read, keyword_at, mark_at, name_at, next_keyword, next_mark, number_or_none,
};
use crate::syntax::{InputDecl, StmtDecl};
use crate::words::{ReadError, Words};
use san_base::{Items, Name};
use san_lex::{Keyword, Mark};
use std::alloc::Global;

#[tactic(auto, unfolding(crate::specs::Activities::arc_at))]
pub(crate) fn arc_at<'a>(alloc: Global, words: Words<'a>) -> Read<'a, (Name, Option<u64>)>
    ensures { GivesRead result (arc_at words.entry) }
{
    let (name, words) = name_at(alloc, words)?;
    let (weight, words) = number_or_none(words)?;
    let words = mark_at(Mark::Semicolon, words)?;
    Ok(((name, weight), words))
}

#[tactic(auto, unfolding(crate::specs::Activities::function_at))]
fn function_at<'a>(alloc: Global, version: u64, words: Words<'a>) -> Read<'a, Items<StmtDecl>>
    ensures { GivesRead result (function_at version words.entry) }
{
    if next_mark(&words, Mark::Semicolon) {
        Ok((Items::new(alloc), words.tail()))
    } else {
        let words = keyword_at(Keyword::Do, words)?;
        block(alloc, version, words, ACTIVITY_BRACES)
    }
}

#[tactic(auto, unfolding(crate::specs::Activities::input_arc))]
fn input_arc<'a>(alloc: Global, words: Words<'a>) -> Read<'a, InputDecl>
    ensures { GivesRead result (input_arc words.entry) }
{
    let ((place, weight), words) = arc_at(alloc, words)?;
    Ok((InputDecl::Arc(place, weight), words))
}

#[tactic(auto, unfolding(crate::specs::Activities::gate_at))]
fn gate_at<'a>(alloc: Global, version: u64, words: Words<'a>) -> Read<'a, InputDecl>
    ensures { GivesRead result (gate_at version words.entry) }
{
    let words = keyword_at(Keyword::Gate, words)?;
    let (predicate, words) = expr(alloc, version, words)?;
    let (function, words) = function_at(alloc, version, words)?;
    Ok((InputDecl::Gate(predicate, function), words))
}

#[tactic(auto, unfolding(crate::specs::Activities::input_at))]
fn input_at<'a>(alloc: Global, version: u64, words: Words<'a>) -> Read<'a, InputDecl>
    ensures { GivesRead result (input_at version words.entry) }
{
    if next_keyword(&words, Keyword::In) {
        input_arc(alloc, words.tail())
    } else {
        gate_at(alloc, version, words)
    }
}

#[tactic(auto, unfolding(crate::specs::Activities::starts_input))]
fn starts_input(words: &Words<'_>) -> bool
    ensures { result ≡ starts_input words.now }
{
    next_keyword(words, Keyword::In) || next_keyword(words, Keyword::Gate)
}

impl Item for InputDecl {
    ghost starting = { starts_input };

    ghost reading = { λ version braces. input_at version };

    fn starts(words: &Words<'_>) -> bool {
        starts_input(words)
    }

    fn read<'a>(
        alloc: Global,
        version: u64,
        _braces: u32,
        words: Words<'a>,
    ) -> Result<(InputDecl, Words<'a>), ReadError> {
        input_at(alloc, version, words)
    }
}
