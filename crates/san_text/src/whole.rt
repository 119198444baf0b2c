//! The grammar of a whole text.

ghost use Rattle.std.specs.Prelude.{◌≡◌};
ghost use Rattle.san_text.specs.Models.{version_at, head_at, system_at, ended, syntax_at};
ghost use Rattle.san_text.specs.inner.Answers.{GivesRead};

use crate::limits::{ACTIVITY_BRACES, FIRST_VERSION, LAST_VERSION};
use crate::steps::{Read, keyword_at, many, mark_at, name_at, number_at};
use crate::syntax::Syntax;
use crate::words::{ReadError, Words};
use san_base::Name;
use san_lex::{Keyword, Mark};
use std::alloc::Global;

#[tactic(auto, unfolding(crate::specs::Models::version_at))]
fn version_at<'a>(words: Words<'a>) -> Read<'a, u64>
    ensures { GivesRead result (version_at words.entry) }
{
    let left = words.len();
    let (version, words) = number_at(words)?;
    if FIRST_VERSION <= version && version <= LAST_VERSION {
        Ok((version, words))
    } else {
        Err(ReadError::Version(left))
    }
}

#[tactic(auto, unfolding(crate::specs::Models::head_at))]
fn head_at<'a>(words: Words<'a>) -> Read<'a, u64>
    ensures { GivesRead result (head_at words.entry) }
{
    let words = keyword_at(Keyword::San, words)?;
    let (version, words) = version_at(words)?;
    let words = mark_at(Mark::Semicolon, words)?;
    Ok((version, words))
}

#[tactic(auto, unfolding(crate::specs::Models::system_at))]
fn system_at<'a>(alloc: Global, words: Words<'a>) -> Read<'a, (Name, usize)>
    ensures { GivesRead result (system_at words.entry) }
{
    let words = keyword_at(Keyword::System, words)?;
    let left = words.len();
    let (name, words) = name_at(alloc, words)?;
    let words = mark_at(Mark::Semicolon, words)?;
    Ok(((name, left), words))
}

#[tactic(auto, unfolding(crate::specs::Models::ended))]
fn ended(words: Words<'_>) -> Result<usize, ReadError>
    ensures { GivesRead result (ended words.entry) }
{
    if words.len() == 0 {
        Ok(0)
    } else {
        Err(ReadError::Illegal(words.len()))
    }
}

/// The syntax, and how many words are left at the system's name.
#[tactic(auto, unfolding(crate::specs::Models::syntax_at))]
pub(crate) fn syntax_at(alloc: Global, words: Words<'_>) -> Result<(Syntax, usize), ReadError>
    ensures { GivesRead result (syntax_at words.entry) }
{
    let (version, words) = head_at(words)?;
    let (models, words) = many(alloc, version, ACTIVITY_BRACES, words)?;
    let ((system, left), words) = system_at(alloc, words)?;
    let (rewards, words) = many(alloc, version, ACTIVITY_BRACES, words)?;
    let _end = ended(words)?;
    Ok((
        Syntax {
            version,
            models,
            system,
            rewards,
        },
        left,
    ))
}
