//! The grammar of statements and blocks.

ghost use Rattle.std.specs.Prelude.{◌≡◌, length};
ghost use Rattle.san_text.specs.Words.{has_arrays};
ghost use Rattle.san_text.specs.Steps.{many};
ghost use Rattle.san_text.specs.Statements.{set_cell, set_plain, set_at, otherwise, if_at, stmt_at, starts_stmt, inner, block};
ghost use Rattle.san_text.specs.inner.Answers.{GivesRead};

use crate::expression::{expr, has_arrays};
use crate::steps::{mark_at, push};
use crate::syntax::StmtDecl;
use crate::words::{ReadError, Words};
use san_base::{Items, Name};
use san_lex::{Keyword, Mark, Sign};
use std::alloc::Global;

type Read<'a> = Result<(StmtDecl, Words<'a>), ReadError>;

type ReadAll<'a> = Result<(Items<StmtDecl>, Words<'a>), ReadError>;

#[tactic(auto, unfolding(crate::specs::Statements::set_plain))]
fn set_plain<'a>(alloc: Global, version: u64, name: Name, words: Words<'a>) -> Read<'a>
    ensures { GivesRead result (set_plain version name words.entry) }
{
    let words = mark_at(Mark::Equals, words)?;
    let (value, words) = expr(alloc, version, words)?;
    let words = mark_at(Mark::Semicolon, words)?;
    Ok((StmtDecl::Set(name, value), words))
}

#[tactic(auto, unfolding(crate::specs::Statements::set_cell))]
fn set_cell<'a>(alloc: Global, version: u64, name: Name, words: Words<'a>) -> Read<'a>
    ensures { GivesRead result (set_cell version name words.entry) }
{
    let words = mark_at(Mark::OpenBracket, words)?;
    let (index, words) = expr(alloc, version, words)?;
    let words = mark_at(Mark::CloseBracket, words)?;
    let words = mark_at(Mark::Equals, words)?;
    let (value, words) = expr(alloc, version, words)?;
    let words = mark_at(Mark::Semicolon, words)?;
    Ok((StmtDecl::SetCell(name, index, value), words))
}

#[tactic(auto, unfolding(crate::specs::Statements::set_at))]
fn set_at<'a>(alloc: Global, version: u64, name: Name, words: Words<'a>) -> Read<'a>
    ensures { GivesRead result (set_at version name words.entry) }
{
    if has_arrays(version) && words.is_next(Sign::Mark(Mark::OpenBracket)) {
        set_cell(alloc, version, name, words)
    } else {
        set_plain(alloc, version, name, words)
    }
}

#[tactic(auto, unfolding(crate::specs::Statements::starts_stmt, crate::specs::Words::name_of))]
fn starts(words: &Words<'_>) -> bool
    ensures { result ≡ starts_stmt words.now }
{
    words.is_name() || words.is_next(Sign::Keyword(Keyword::If))
}

/// A statement, in which so many braces may be opened.
#[cycle(blocks)]
#[tactic(auto, unfolding(crate::specs::Statements::stmt_by))]
fn statement<'a>(alloc: Global, version: u64, words: Words<'a>, braces: u32) -> Read<'a>
    ensures { GivesRead result (stmt_at version (block version braces) words.entry) }
{
    match words.name(alloc)? {
        Some(name) => set_at(alloc, version, name, words.tail()),
        None => {
            if words.is_next(Sign::Keyword(Keyword::If)) {
                if_at(alloc, version, words.tail(), braces)
            } else {
                Err(ReadError::Illegal(words.len()))
            }
        }
    }
}

#[cycle(blocks)]
#[tactic(auto, unfolding(crate::specs::Statements::if_at))]
fn if_at<'a>(alloc: Global, version: u64, words: Words<'a>, braces: u32) -> Read<'a>
    ensures { GivesRead result (if_at version (block version braces) words.entry) }
{
    let (test, words) = expr(alloc, version, words)?;
    let (then, words) = block(alloc, version, words, braces)?;
    let (other, words) = otherwise(alloc, version, words, braces)?;
    Ok((StmtDecl::If(test, then, other), words))
}

#[cycle(blocks)]
#[tactic(auto, unfolding(crate::specs::Statements::otherwise))]
fn otherwise<'a>(alloc: Global, version: u64, words: Words<'a>, braces: u32) -> ReadAll<'a>
    ensures { GivesRead result (otherwise (block version braces) words.entry) }
{
    if words.is_next(Sign::Keyword(Keyword::Else)) {
        block(alloc, version, words.tail(), braces)
    } else {
        Ok((Items::new(alloc), words))
    }
}

/// A block, in which so many braces may be opened, its own among them.
#[cycle(blocks)]
#[tactic(auto, unfolding(crate::specs::Statements::block))]
pub(crate) fn block<'a>(alloc: Global, version: u64, words: Words<'a>, braces: u32) -> ReadAll<'a>
    ensures { GivesRead result (block version braces words.entry) }
{
    if braces == 0 {
        if words.is_next(Sign::Mark(Mark::OpenBrace)) {
            Err(ReadError::Deep(words.len()))
        } else {
            Err(ReadError::Illegal(words.len()))
        }
    } else {
        let words = mark_at(Mark::OpenBrace, words)?;
        inner(alloc, version, words, braces - 1)
    }
}

#[cycle(blocks)]
#[tactic(auto, unfolding(crate::specs::Statements::inner))]
fn inner<'a>(alloc: Global, version: u64, words: Words<'a>, braces: u32) -> ReadAll<'a>
    ensures { GivesRead result (inner version (block version braces) words.entry) }
{
    let (found, words) = statements(alloc, version, words, braces)?;
    let words = mark_at(Mark::CloseBrace, words)?;
    Ok((found, words))
}

/// Statements as long as they start.
#[cycle(blocks)]
fn statements<'a>(alloc: Global, version: u64, words: Words<'a>, braces: u32) -> ReadAll<'a>
    ensures { GivesRead result (many starts_stmt (stmt_at version (block version braces)) (length
        words.entry) words.entry) }
{
    let mut found = Vec::new(alloc);
    let mut rest = words;
    let mut turns = rest.len();
    'next: while turns > 0 && starts(&rest) {
        let (x, after) = statement(alloc, version, rest, braces)?;
        push(&mut found, x)?;
        rest = after;
        turns -= 1;
    }
    Ok((Items::from_vec(found), rest))
}
