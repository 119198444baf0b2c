//! The grammar of expressions.

ghost use Rattle.std.specs.Prelude.{◌≡◌, ◌-◌, ◌<◌, length, ℕ};
ghost use Rattle.san_text.specs.Words.{look, turns_of, tail, has_arrays};
ghost use Rattle.san_text.specs.Expressions.{room, closing, more, levels, indexed, grouped, beginning, unary, expr};
ghost use Rattle.san_text.specs.inner.Answers.{GivesRead, Kept};

use crate::limits::{
    ARRAYS_VERSION, COMPARISON_LEVEL, EXPRESSION_DEPTH, LOOSEST_LEVEL, MAX_EXPRESSION_WORDS,
};
use crate::steps::Read;
use crate::syntax::Ast;
use crate::words::{ReadError, Words};
use san_base::{Boxed, Name, Op};
use san_lex::{Mark, Sign};
use std::alloc::Global;

/// How an operand begins.
#[derive(Debug, Drop)]
pub enum Begin {
    Nothing,
    Value(u64),
    Called(Name),
    Minus,
    Not,
    Opens,
}

/// An expression inside another, how many words the outer one may still take, and the words
/// after it.
type Part<'a> = Result<(Ast, u32, Words<'a>), ReadError>;

fn boxed(alloc: Global, x: Ast) -> Result<Boxed<Ast>, ReadError>
    ensures { Kept result x }
{
    match Boxed::new(alloc, x) {
        Ok(b) => Ok(b),
        Err(_) => Err(ReadError::Memory),
    }
}

#[tactic(auto, unfolding(crate::specs::Words::turns_of))]
fn turns_of(level: u32) -> u32
    ensures { result ≡ turns_of level }
{
    if level == COMPARISON_LEVEL {
        1
    } else {
        MAX_EXPRESSION_WORDS
    }
}

pub(crate) fn has_arrays(version: u64) -> bool
    ensures { result ≡ has_arrays version }
{
    version == ARRAYS_VERSION
}

#[tactic(auto, unfolding(crate::specs::Expressions::room))]
fn room(left: u32, words: &Words<'_>) -> Result<u32, ReadError>
    ensures { GivesRead result (room left words.now) }
{
    if left == 0 {
        Err(ReadError::Long(words.len()))
    } else {
        Ok(left - 1)
    }
}

#[tactic(auto, unfolding(crate::specs::Expressions::closing))]
fn closing<'a>(sign: Sign, left: u32, words: Words<'a>) -> Result<(u32, Words<'a>), ReadError>
    ensures { GivesRead result (closing sign left words.entry) }
{
    if words.is_next(sign) {
        let left = room(left, &words)?;
        Ok((left, words.tail()))
    } else {
        Err(ReadError::Illegal(words.len()))
    }
}

/// An operand, inside so many signs and brackets at most.
#[cycle(reading)]
#[tactic(auto, unfolding(crate::specs::Expressions::unary, crate::specs::Expressions::begun))]
fn unary<'a>(alloc: Global, version: u64, left: u32, words: Words<'a>, depth: u32) -> Part<'a>
    ensures { GivesRead result (unary version depth left words.entry) }
{
    if depth == 0 {
        return Err(ReadError::Long(words.len()));
    }
    match words.begin(alloc)? {
        Begin::Nothing => Err(ReadError::Illegal(words.len())),
        Begin::Value(n) => {
            let left = room(left, &words)?;
            Ok((Ast::Number(n), left, words.tail()))
        }
        Begin::Called(name) => {
            let left = room(left, &words)?;
            called(alloc, version, name, left, words.tail(), depth - 1)
        }
        Begin::Minus => {
            let left = room(left, &words)?;
            let (x, left, rest) = unary(alloc, version, left, words.tail(), depth - 1)?;
            Ok((Ast::Neg(boxed(alloc, x)?), left, rest))
        }
        Begin::Not => {
            let left = room(left, &words)?;
            let (x, left, rest) = unary(alloc, version, left, words.tail(), depth - 1)?;
            Ok((Ast::Not(boxed(alloc, x)?), left, rest))
        }
        Begin::Opens => {
            let left = room(left, &words)?;
            grouped(alloc, version, left, words.tail(), depth - 1)
        }
    }
}

/// What stands behind an open bracket, up to the closing one.
#[cycle(reading)]
#[tactic(auto, unfolding(crate::specs::Expressions::grouped))]
fn grouped<'a>(alloc: Global, version: u64, left: u32, words: Words<'a>, depth: u32) -> Part<'a>
    ensures { GivesRead result (grouped (levels LOOSEST_LEVEL (unary version depth)) left words.entry) }
{
    let (x, left, words) = level(alloc, version, left, words, depth, LOOSEST_LEVEL)?;
    let (left, words) = closing(Sign::Mark(Mark::CloseParen), left, words)?;
    Ok((Ast::Group(boxed(alloc, x)?), left, words))
}

/// What stands behind a name: its index, where there is one.
#[cycle(reading)]
#[tactic(auto, unfolding(crate::specs::Expressions::indexed))]
fn called<'a>(
    alloc: Global,
    version: u64,
    name: Name,
    left: u32,
    words: Words<'a>,
    depth: u32,
) -> Part<'a>
    ensures { GivesRead result (indexed (has_arrays version) (look words.entry) name (levels
        LOOSEST_LEVEL (unary version depth)) left words.entry) }
{
    if !has_arrays(version) || !words.index_next() {
        return Ok((Ast::Name(name), left, words));
    }
    let left = room(left, &words)?;
    let (x, left, words) = level(alloc, version, left, words.tail(), depth, LOOSEST_LEVEL)?;
    let (left, words) = closing(Sign::Mark(Mark::CloseBracket), left, words)?;
    Ok((Ast::Cell(name, boxed(alloc, x)?), left, words))
}

/// The levels from 1 to this one.
#[cycle(reading)]
#[tactic(auto, unfolding(crate::specs::Expressions::levels, crate::specs::Expressions::chain))]
fn level<'a>(
    alloc: Global,
    version: u64,
    left: u32,
    words: Words<'a>,
    depth: u32,
    level: u32,
) -> Part<'a>
    ensures { GivesRead result (levels level (unary version depth) left words.entry) }
{
    if level == 0 {
        return unary(alloc, version, left, words, depth);
    }
    let first = self::level(alloc, version, left, words, depth, level - 1)?;
    more(alloc, version, first, depth, level, turns_of(level))
}

/// More operands of one level behind the first, with what it left.
#[cycle(reading)]
#[tactic(auto, unfolding(crate::specs::Expressions::more, crate::specs::Expressions::turned))]
fn more<'a>(
    alloc: Global,
    version: u64,
    first: (Ast, u32, Words<'a>),
    depth: u32,
    level: u32,
    turns: u32,
) -> Part<'a>
    requires { 0 < level }
    ensures { GivesRead result (more turns level (levels (level - 1) (unary version depth))
        first.entry.0 first.entry.1 first.entry.2) }
{
    let (x, left, words) = first;
    if turns == 0 {
        return Ok((x, left, words));
    }
    match words.operator(level) {
        None => Ok((x, left, words)),
        Some(op) => {
            let left = room(left, &words)?;
            let (y, left, words) = self::level(
                alloc,
                version,
                left,
                words.tail(),
                depth,
                level - 1,
            )?;
            let both = Ast::Binary(op, boxed(alloc, x)?, boxed(alloc, y)?);
            more(alloc, version, (both, left, words), depth, level, turns - 1)
        }
    }
}

/// An expression.
#[tactic(auto, unfolding(crate::specs::Expressions::expr))]
pub(crate) fn expr<'a>(alloc: Global, version: u64, words: Words<'a>) -> Read<'a, Ast>
    ensures { GivesRead result (expr version words.entry) }
{
    let (x, _, words) = level(
        alloc,
        version,
        MAX_EXPRESSION_WORDS,
        words,
        EXPRESSION_DEPTH,
        LOOSEST_LEVEL,
    )?;
    Ok((x, words))
}
