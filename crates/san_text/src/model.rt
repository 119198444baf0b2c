//! The grammar of atomics, joins and replicates.

ghost use Rattle.std.specs.Prelude.{◌≡◌};
ghost use Rattle.san_lex.specs.declared.keyword.Keyword.TheVariants.{Child as ChildKey, Share as ShareKey};
ghost use Rattle.san_lex.specs.declared.sign.Mark.TheVariants.{Comma as CommaMark};
ghost use Rattle.san_text.specs.Steps.{next_mark, next_keyword};
ghost use Rattle.san_text.specs.Models.{atomic_at, child_at, part_at, more_part, parts_at, share_at, join_at, shown_at, copied_at, times_at, rep_at, model_at, starts_model};
ghost use Rattle.san_text.specs.inner.Answers.{GivesRead};

use crate::limits::ACTIVITY_BRACES;
use crate::steps::{
    Item, Read, keyword_at, many, mark_at, name_at, next_keyword, next_mark, number_at, one_and,
};
use crate::syntax::{ChildDecl, ModelDecl, ShareDecl};
use crate::words::{ReadError, Words};
use san_base::{Items, Name};
use san_lex::{Keyword, Mark};
use std::alloc::Global;

#[tactic(auto, unfolding(crate::specs::Models::atomic_at))]
fn atomic_at<'a>(alloc: Global, version: u64, words: Words<'a>) -> Read<'a, ModelDecl>
    ensures { GivesRead result (atomic_at version words.entry) }
{
    let (name, words) = name_at(alloc, words)?;
    let words = mark_at(Mark::OpenBrace, words)?;
    let (places, words) = many(alloc, version, ACTIVITY_BRACES, words)?;
    let (acts, words) = many(alloc, version, ACTIVITY_BRACES, words)?;
    let words = mark_at(Mark::CloseBrace, words)?;
    Ok((ModelDecl::Atomic { name, places, acts }, words))
}

#[tactic(auto, unfolding(crate::specs::Models::child_at))]
fn child_at<'a>(alloc: Global, words: Words<'a>) -> Read<'a, ChildDecl>
    ensures { GivesRead result (child_at words.entry) }
{
    let words = keyword_at(Keyword::Child, words)?;
    let (name, words) = name_at(alloc, words)?;
    let words = mark_at(Mark::Equals, words)?;
    let (of, words) = name_at(alloc, words)?;
    let words = mark_at(Mark::Semicolon, words)?;
    Ok((ChildDecl { name, of }, words))
}

impl Item for ChildDecl {
    ghost starting = { next_keyword ChildKey };

    ghost reading = { λ version braces. child_at };

    fn starts(words: &Words<'_>) -> bool {
        next_keyword(words, Keyword::Child)
    }

    fn read<'a>(
        alloc: Global,
        _version: u64,
        _braces: u32,
        words: Words<'a>,
    ) -> Result<(ChildDecl, Words<'a>), ReadError> {
        child_at(alloc, words)
    }
}

#[tactic(auto, unfolding(crate::specs::Models::part_at))]
fn part_at<'a>(alloc: Global, words: Words<'a>) -> Read<'a, (Name, Name)>
    ensures { GivesRead result (part_at words.entry) }
{
    let (child, words) = name_at(alloc, words)?;
    let words = mark_at(Mark::Dot, words)?;
    let (place, words) = name_at(alloc, words)?;
    Ok(((child, place), words))
}

#[tactic(auto, unfolding(crate::specs::Models::more_part))]
fn more_part<'a>(alloc: Global, words: Words<'a>) -> Read<'a, (Name, Name)>
    ensures { GivesRead result (more_part words.entry) }
{
    part_at(alloc, words.tail())
}

/// A part of a share behind the first.
impl Item for (Name, Name) {
    ghost starting = { next_mark CommaMark };

    ghost reading = { λ version braces. more_part };

    fn starts(words: &Words<'_>) -> bool {
        next_mark(words, Mark::Comma)
    }

    fn read<'a>(
        alloc: Global,
        _version: u64,
        _braces: u32,
        words: Words<'a>,
    ) -> Result<((Name, Name), Words<'a>), ReadError> {
        more_part(alloc, words)
    }
}

#[tactic(auto, unfolding(crate::specs::Models::parts_at))]
fn parts_at<'a>(alloc: Global, version: u64, words: Words<'a>) -> Read<'a, Items<(Name, Name)>>
    ensures { GivesRead result (parts_at words.entry) }
{
    let (first, words) = part_at(alloc, words)?;
    one_and(alloc, version, ACTIVITY_BRACES, first, words)
}

#[tactic(auto, unfolding(crate::specs::Models::share_at))]
fn share_at<'a>(alloc: Global, version: u64, words: Words<'a>) -> Read<'a, ShareDecl>
    ensures { GivesRead result (share_at words.entry) }
{
    let words = keyword_at(Keyword::Share, words)?;
    let (name, words) = name_at(alloc, words)?;
    let words = mark_at(Mark::Equals, words)?;
    let (parts, words) = parts_at(alloc, version, words)?;
    let words = mark_at(Mark::Semicolon, words)?;
    Ok((ShareDecl { name, parts }, words))
}

impl Item for ShareDecl {
    ghost starting = { next_keyword ShareKey };

    ghost reading = { λ version braces. share_at };

    fn starts(words: &Words<'_>) -> bool {
        next_keyword(words, Keyword::Share)
    }

    fn read<'a>(
        alloc: Global,
        version: u64,
        _braces: u32,
        words: Words<'a>,
    ) -> Result<(ShareDecl, Words<'a>), ReadError> {
        share_at(alloc, version, words)
    }
}

#[tactic(auto, unfolding(crate::specs::Models::join_at))]
fn join_at<'a>(alloc: Global, version: u64, words: Words<'a>) -> Read<'a, ModelDecl>
    ensures { GivesRead result (join_at words.entry) }
{
    let (name, words) = name_at(alloc, words)?;
    let words = mark_at(Mark::OpenBrace, words)?;
    let (children, words) = many(alloc, version, ACTIVITY_BRACES, words)?;
    let (shares, words) = many(alloc, version, ACTIVITY_BRACES, words)?;
    let words = mark_at(Mark::CloseBrace, words)?;
    Ok((
        ModelDecl::Join {
            name,
            children,
            shares,
        },
        words,
    ))
}

#[tactic(auto, unfolding(crate::specs::Models::shown_at))]
fn shown_at<'a>(alloc: Global, words: Words<'a>) -> Read<'a, Name>
    ensures { GivesRead result (shown_at words.entry) }
{
    let words = keyword_at(Keyword::Share, words)?;
    let (name, words) = name_at(alloc, words)?;
    let words = mark_at(Mark::Semicolon, words)?;
    Ok((name, words))
}

/// A place that a replicate shares.
impl Item for Name {
    ghost starting = { next_keyword ShareKey };

    ghost reading = { λ version braces. shown_at };

    fn starts(words: &Words<'_>) -> bool {
        next_keyword(words, Keyword::Share)
    }

    fn read<'a>(
        alloc: Global,
        _version: u64,
        _braces: u32,
        words: Words<'a>,
    ) -> Result<(Name, Words<'a>), ReadError> {
        shown_at(alloc, words)
    }
}

#[tactic(auto, unfolding(crate::specs::Models::copied_at))]
fn copied_at<'a>(alloc: Global, words: Words<'a>) -> Read<'a, (Name, Name)>
    ensures { GivesRead result (copied_at words.entry) }
{
    let words = keyword_at(Keyword::Rep, words)?;
    let (name, words) = name_at(alloc, words)?;
    let words = mark_at(Mark::Equals, words)?;
    let (of, words) = name_at(alloc, words)?;
    Ok(((name, of), words))
}

#[tactic(auto, unfolding(crate::specs::Models::times_at))]
fn times_at<'a>(words: Words<'a>) -> Read<'a, u64>
    ensures { GivesRead result (times_at words.entry) }
{
    let words = keyword_at(Keyword::Times, words)?;
    number_at(words)
}

#[tactic(auto, unfolding(crate::specs::Models::rep_at))]
fn rep_at<'a>(alloc: Global, version: u64, words: Words<'a>) -> Read<'a, ModelDecl>
    ensures { GivesRead result (rep_at words.entry) }
{
    let ((name, of), words) = copied_at(alloc, words)?;
    let (times, words) = times_at(words)?;
    let words = mark_at(Mark::OpenBrace, words)?;
    let (shares, words) = many(alloc, version, ACTIVITY_BRACES, words)?;
    let words = mark_at(Mark::CloseBrace, words)?;
    Ok((
        ModelDecl::Rep {
            name,
            of,
            times,
            shares,
        },
        words,
    ))
}

#[tactic(auto, unfolding(crate::specs::Models::model_at))]
fn model_at<'a>(alloc: Global, version: u64, words: Words<'a>) -> Read<'a, ModelDecl>
    ensures { GivesRead result (model_at version words.entry) }
{
    if next_keyword(&words, Keyword::Atomic) {
        atomic_at(alloc, version, words.tail())
    } else if next_keyword(&words, Keyword::Join) {
        join_at(alloc, version, words.tail())
    } else {
        rep_at(alloc, version, words)
    }
}

#[tactic(auto, unfolding(crate::specs::Models::starts_model))]
fn starts_model(words: &Words<'_>) -> bool
    ensures { result ≡ starts_model words.now }
{
    next_keyword(words, Keyword::Atomic)
        || (next_keyword(words, Keyword::Join) || next_keyword(words, Keyword::Rep))
}

impl Item for ModelDecl {
    ghost starting = { starts_model };

    ghost reading = { λ version braces. model_at version };

    fn starts(words: &Words<'_>) -> bool {
        starts_model(words)
    }

    fn read<'a>(
        alloc: Global,
        version: u64,
        _braces: u32,
        words: Words<'a>,
    ) -> Result<(ModelDecl, Words<'a>), ReadError> {
        model_at(alloc, version, words)
    }
}
