//! The grammar of delays, with their activation and reactivation predicates.

ghost use Rattle.std.specs.Prelude.{◌≡◌};
ghost use Rattle.san_lex.specs.declared.sign.Mark.TheVariants.{Comma as CommaMark};
ghost use Rattle.san_text.specs.Steps.{next_mark, next_keyword};
ghost use Rattle.san_text.specs.Activities.{entry_at, more_entry, entries_at, det_at, uniform_at, geom_at, table_at, dist_at, react_at, pair_at, timing_at};
ghost use Rattle.san_text.specs.inner.Answers.{GivesRead};

use crate::expression::expr;
use crate::limits::ACTIVITY_BRACES;
use crate::steps::{Item, Read, keyword_at, mark_at, next_keyword, next_mark, number_at, one_and};
use crate::syntax::{Ast, DistDecl, Timing};
use crate::words::{ReadError, Words};
use san_base::Items;
use san_lex::{Keyword, Mark};
use std::alloc::Global;

#[tactic(auto, unfolding(crate::specs::Activities::entry_at))]
fn entry_at<'a>(words: Words<'a>) -> Read<'a, (u64, u64)>
    ensures { GivesRead result (entry_at words.entry) }
{
    let (delay, words) = number_at(words)?;
    let words = mark_at(Mark::Colon, words)?;
    let (weight, words) = number_at(words)?;
    Ok(((delay, weight), words))
}

#[tactic(auto, unfolding(crate::specs::Activities::more_entry))]
fn more_entry<'a>(words: Words<'a>) -> Read<'a, (u64, u64)>
    ensures { GivesRead result (more_entry words.entry) }
{
    entry_at(words.tail())
}

/// An entry of a table behind the first.
impl Item for (u64, u64) {
    ghost starting = { next_mark CommaMark };

    ghost reading = { λ version braces. more_entry };

    fn starts(words: &Words<'_>) -> bool {
        next_mark(words, Mark::Comma)
    }

    fn read<'a>(
        _alloc: Global,
        _version: u64,
        _braces: u32,
        words: Words<'a>,
    ) -> Result<((u64, u64), Words<'a>), ReadError> {
        more_entry(words)
    }
}

#[tactic(auto, unfolding(crate::specs::Activities::entries_at))]
fn entries_at<'a>(alloc: Global, version: u64, words: Words<'a>) -> Read<'a, Items<(u64, u64)>>
    ensures { GivesRead result (entries_at words.entry) }
{
    let (first, words) = entry_at(words)?;
    one_and(alloc, version, ACTIVITY_BRACES, first, words)
}

#[tactic(auto, unfolding(crate::specs::Activities::det_at))]
fn det_at<'a>(alloc: Global, version: u64, words: Words<'a>) -> Read<'a, DistDecl>
    ensures { GivesRead result (det_at version words.entry) }
{
    let (ticks, words) = expr(alloc, version, words)?;
    Ok((DistDecl::Det(ticks), words))
}

#[tactic(auto, unfolding(crate::specs::Activities::uniform_at))]
fn uniform_at<'a>(alloc: Global, version: u64, words: Words<'a>) -> Read<'a, DistDecl>
    ensures { GivesRead result (uniform_at version words.entry) }
{
    let (least, words) = expr(alloc, version, words)?;
    let words = mark_at(Mark::Comma, words)?;
    let (greatest, words) = expr(alloc, version, words)?;
    Ok((DistDecl::Uniform(least, greatest), words))
}

#[tactic(auto, unfolding(crate::specs::Activities::geom_at))]
fn geom_at<'a>(words: Words<'a>) -> Read<'a, DistDecl>
    ensures { GivesRead result (geom_at words.entry) }
{
    let (hits, words) = number_at(words)?;
    let (tries, words) = number_at(words)?;
    Ok((DistDecl::Geom(hits, tries), words))
}

#[tactic(auto, unfolding(crate::specs::Activities::table_at))]
fn table_at<'a>(alloc: Global, version: u64, words: Words<'a>) -> Read<'a, DistDecl>
    ensures { GivesRead result (table_at words.entry) }
{
    let words = keyword_at(Keyword::Table, words)?;
    let (entries, words) = entries_at(alloc, version, words)?;
    Ok((DistDecl::Table(entries), words))
}

#[tactic(auto, unfolding(crate::specs::Activities::dist_at))]
fn dist_at<'a>(alloc: Global, version: u64, words: Words<'a>) -> Read<'a, DistDecl>
    ensures { GivesRead result (dist_at version words.entry) }
{
    if next_keyword(&words, Keyword::Det) {
        det_at(alloc, version, words.tail())
    } else if next_keyword(&words, Keyword::Uniform) {
        uniform_at(alloc, version, words.tail())
    } else if next_keyword(&words, Keyword::Geom) {
        geom_at(words.tail())
    } else {
        table_at(alloc, version, words)
    }
}

#[tactic(auto, unfolding(crate::specs::Activities::react_at))]
fn react_at<'a>(alloc: Global, version: u64, words: Words<'a>) -> Read<'a, (Ast, Ast)>
    ensures { GivesRead result (react_at version words.entry) }
{
    let (activation, words) = expr(alloc, version, words)?;
    let words = mark_at(Mark::Comma, words)?;
    let (reactivation, words) = expr(alloc, version, words)?;
    let words = mark_at(Mark::Semicolon, words)?;
    Ok(((activation, reactivation), words))
}

#[tactic(auto, unfolding(crate::specs::Activities::pair_at))]
fn pair_at<'a>(alloc: Global, version: u64, words: Words<'a>) -> Read<'a, Option<(Ast, Ast)>>
    ensures { GivesRead result (pair_at version words.entry) }
{
    if next_keyword(&words, Keyword::React) {
        let (pair, words) = react_at(alloc, version, words.tail())?;
        Ok((Some(pair), words))
    } else {
        Ok((None, words))
    }
}

#[tactic(auto, unfolding(crate::specs::Activities::timing_at))]
pub(crate) fn timing_at<'a>(alloc: Global, version: u64, words: Words<'a>) -> Read<'a, Timing>
    ensures { GivesRead result (timing_at version words.entry) }
{
    let words = keyword_at(Keyword::Delay, words)?;
    let (delay, words) = dist_at(alloc, version, words)?;
    let words = mark_at(Mark::Semicolon, words)?;
    let (pair, words) = pair_at(alloc, version, words)?;
    Ok((Timing { delay, pair }, words))
}
