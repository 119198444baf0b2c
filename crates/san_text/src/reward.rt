//! The grammar of rewards.

ghost use Rattle.std.specs.Prelude.{◌≡◌};
ghost use Rattle.san_lex.specs.declared.keyword.Keyword.TheVariants.{Reward as RewardKey};
ghost use Rattle.san_text.specs.Steps.{next_keyword};
ghost use Rattle.san_text.specs.Models.{bounds_at, over_at, mean_at, tick_at, span_at, rate_at, impulse_at, term_at, starts_term, measured_at, reward_at};
ghost use Rattle.san_text.specs.inner.Answers.{GivesRead};

use crate::expression::expr;
use crate::limits::ACTIVITY_BRACES;
use crate::steps::{Item, Read, keyword_at, many, mark_at, name_at, next_keyword, number_at};
use crate::syntax::{RewardDecl, SpanDecl, TermDecl};
use crate::words::{ReadError, Words};
use san_base::Name;
use san_lex::{Keyword, Mark};
use std::alloc::Global;

#[tactic(auto, unfolding(crate::specs::Models::bounds_at))]
fn bounds_at<'a>(words: Words<'a>) -> Read<'a, (u64, u64)>
    ensures { GivesRead result (bounds_at words.entry) }
{
    let (from, words) = number_at(words)?;
    let (to, words) = number_at(words)?;
    Ok(((from, to), words))
}

#[tactic(auto, unfolding(crate::specs::Models::over_at))]
fn over_at<'a>(words: Words<'a>) -> Read<'a, SpanDecl>
    ensures { GivesRead result (over_at words.entry) }
{
    let ((from, to), words) = bounds_at(words)?;
    Ok((SpanDecl::Over(from, to), words))
}

#[tactic(auto, unfolding(crate::specs::Models::mean_at))]
fn mean_at<'a>(words: Words<'a>) -> Read<'a, SpanDecl>
    ensures { GivesRead result (mean_at words.entry) }
{
    let ((from, to), words) = bounds_at(words)?;
    Ok((SpanDecl::Mean(from, to), words))
}

#[tactic(auto, unfolding(crate::specs::Models::tick_at))]
fn tick_at<'a>(words: Words<'a>) -> Read<'a, SpanDecl>
    ensures { GivesRead result (tick_at words.entry) }
{
    let words = keyword_at(Keyword::At, words)?;
    let (tick, words) = number_at(words)?;
    Ok((SpanDecl::At(tick), words))
}

#[tactic(auto, unfolding(crate::specs::Models::span_at))]
fn span_at<'a>(words: Words<'a>) -> Read<'a, SpanDecl>
    ensures { GivesRead result (span_at words.entry) }
{
    if next_keyword(&words, Keyword::Over) {
        over_at(words.tail())
    } else if next_keyword(&words, Keyword::Mean) {
        mean_at(words.tail())
    } else {
        tick_at(words)
    }
}

#[tactic(auto, unfolding(crate::specs::Models::rate_at))]
fn rate_at<'a>(alloc: Global, version: u64, words: Words<'a>) -> Read<'a, TermDecl>
    ensures { GivesRead result (rate_at version words.entry) }
{
    let (rate, words) = expr(alloc, version, words)?;
    let words = mark_at(Mark::Semicolon, words)?;
    Ok((TermDecl::Rate(rate), words))
}

#[tactic(auto, unfolding(crate::specs::Models::impulse_at))]
fn impulse_at<'a>(alloc: Global, version: u64, words: Words<'a>) -> Read<'a, TermDecl>
    ensures { GivesRead result (impulse_at version words.entry) }
{
    let words = keyword_at(Keyword::Impulse, words)?;
    let (act, words) = name_at(alloc, words)?;
    let (impulse, words) = expr(alloc, version, words)?;
    let words = mark_at(Mark::Semicolon, words)?;
    Ok((TermDecl::Impulse(act, impulse), words))
}

#[tactic(auto, unfolding(crate::specs::Models::term_at))]
fn term_at<'a>(alloc: Global, version: u64, words: Words<'a>) -> Read<'a, TermDecl>
    ensures { GivesRead result (term_at version words.entry) }
{
    if next_keyword(&words, Keyword::Rate) {
        rate_at(alloc, version, words.tail())
    } else {
        impulse_at(alloc, version, words)
    }
}

#[tactic(auto, unfolding(crate::specs::Models::starts_term))]
fn starts_term(words: &Words<'_>) -> bool
    ensures { result ≡ starts_term words.now }
{
    next_keyword(words, Keyword::Rate) || next_keyword(words, Keyword::Impulse)
}

impl Item for TermDecl {
    ghost starting = { starts_term };

    ghost reading = { λ version braces. term_at version };

    fn starts(words: &Words<'_>) -> bool {
        starts_term(words)
    }

    fn read<'a>(
        alloc: Global,
        version: u64,
        _braces: u32,
        words: Words<'a>,
    ) -> Result<(TermDecl, Words<'a>), ReadError> {
        term_at(alloc, version, words)
    }
}

#[tactic(auto, unfolding(crate::specs::Models::measured_at))]
fn measured_at<'a>(alloc: Global, words: Words<'a>) -> Read<'a, (Name, Name)>
    ensures { GivesRead result (measured_at words.entry) }
{
    let words = keyword_at(Keyword::Reward, words)?;
    let (name, words) = name_at(alloc, words)?;
    let words = keyword_at(Keyword::On, words)?;
    let (atomic, words) = name_at(alloc, words)?;
    Ok(((name, atomic), words))
}

#[tactic(auto, unfolding(crate::specs::Models::reward_at))]
fn reward_at<'a>(alloc: Global, version: u64, words: Words<'a>) -> Read<'a, RewardDecl>
    ensures { GivesRead result (reward_at version words.entry) }
{
    let ((name, atomic), words) = measured_at(alloc, words)?;
    let (span, words) = span_at(words)?;
    let words = mark_at(Mark::OpenBrace, words)?;
    let (terms, words) = many(alloc, version, ACTIVITY_BRACES, words)?;
    let words = mark_at(Mark::CloseBrace, words)?;
    Ok((
        RewardDecl {
            name,
            atomic,
            span,
            terms,
        },
        words,
    ))
}

impl Item for RewardDecl {
    ghost starting = { next_keyword RewardKey };

    ghost reading = { λ version braces. reward_at version };

    fn starts(words: &Words<'_>) -> bool {
        next_keyword(words, Keyword::Reward)
    }

    fn read<'a>(
        alloc: Global,
        version: u64,
        _braces: u32,
        words: Words<'a>,
    ) -> Result<(RewardDecl, Words<'a>), ReadError> {
        reward_at(alloc, version, words)
    }
}
