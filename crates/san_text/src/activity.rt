//! The grammar of activities.

ghost use Rattle.std.specs.Prelude.{◌≡◌};
ghost use Rattle.san_text.specs.Words.{has_priorities};
ghost use Rattle.san_text.specs.Activities.{timed_at, priority_at, instant_at, act_at, starts_act};
ghost use Rattle.san_text.specs.inner.Answers.{GivesRead};

use crate::delay::timing_at;
use crate::limits::{ACTIVITY_BRACES, PRIORITIES_VERSION};
use crate::output::cases_at;
use crate::steps::{Item, Read, keyword_at, many, mark_at, name_at, next_keyword, number_at};
use crate::syntax::ActDecl;
use crate::words::{ReadError, Words};
use san_lex::{Keyword, Mark};
use std::alloc::Global;

#[tactic(auto, unfolding(crate::specs::Activities::timed_at))]
fn timed_at<'a>(alloc: Global, version: u64, words: Words<'a>) -> Read<'a, ActDecl>
    ensures { GivesRead result (timed_at version words.entry) }
{
    let (name, words) = name_at(alloc, words)?;
    let words = mark_at(Mark::OpenBrace, words)?;
    let (inputs, words) = many(alloc, version, ACTIVITY_BRACES, words)?;
    let (timing, words) = timing_at(alloc, version, words)?;
    let (cases, words) = cases_at(alloc, version, words)?;
    let words = mark_at(Mark::CloseBrace, words)?;
    Ok((
        ActDecl {
            name,
            priority: None,
            inputs,
            timing: Some(timing),
            cases,
        },
        words,
    ))
}

fn has_priorities(version: u64) -> bool
    ensures { result ≡ has_priorities version }
{
    version >= PRIORITIES_VERSION
}

#[tactic(auto, unfolding(crate::specs::Activities::priority_at))]
fn priority_at<'a>(version: u64, words: Words<'a>) -> Read<'a, Option<u64>>
    ensures { GivesRead result (priority_at version words.entry) }
{
    if has_priorities(version) && words.is_called(b"priority") {
        let (priority, words) = number_at(words.tail())?;
        Ok((Some(priority), words))
    } else {
        Ok((None, words))
    }
}

#[tactic(auto, unfolding(crate::specs::Activities::instant_at))]
fn instant_at<'a>(alloc: Global, version: u64, words: Words<'a>) -> Read<'a, ActDecl>
    ensures { GivesRead result (instant_at version words.entry) }
{
    let words = keyword_at(Keyword::Instant, words)?;
    let (name, words) = name_at(alloc, words)?;
    let (priority, words) = priority_at(version, words)?;
    let words = mark_at(Mark::OpenBrace, words)?;
    let (inputs, words) = many(alloc, version, ACTIVITY_BRACES, words)?;
    let (cases, words) = cases_at(alloc, version, words)?;
    let words = mark_at(Mark::CloseBrace, words)?;
    Ok((
        ActDecl {
            name,
            priority,
            inputs,
            timing: None,
            cases,
        },
        words,
    ))
}

#[tactic(auto, unfolding(crate::specs::Activities::act_at))]
fn act_at<'a>(alloc: Global, version: u64, words: Words<'a>) -> Read<'a, ActDecl>
    ensures { GivesRead result (act_at version words.entry) }
{
    if next_keyword(&words, Keyword::Timed) {
        timed_at(alloc, version, words.tail())
    } else {
        instant_at(alloc, version, words)
    }
}

#[tactic(auto, unfolding(crate::specs::Activities::starts_act))]
fn starts_act(words: &Words<'_>) -> bool
    ensures { result ≡ starts_act words.now }
{
    next_keyword(words, Keyword::Timed) || next_keyword(words, Keyword::Instant)
}

impl Item for ActDecl {
    ghost starting = { starts_act };

    ghost reading = { λ version braces. act_at version };

    fn starts(words: &Words<'_>) -> bool {
        starts_act(words)
    }

    fn read<'a>(
        alloc: Global,
        version: u64,
        _braces: u32,
        words: Words<'a>,
    ) -> Result<(ActDecl, Words<'a>), ReadError> {
        act_at(alloc, version, words)
    }
}
