//! The words that are still to be read, and what stands next among them.

ghost use Rattle.std.specs.Prelude.{◌≡◌, ◌↔◌, ◌-◌, ◌<◌, ◌≤◌, ℕ, List, map, take, drop, length, IfOk, IsTrue, Some, None};
ghost use Rattle.san_base.specs.declared.limits.TheConstants.{MAX_NAME_BYTES};
ghost use Rattle.san_lex.specs.Words.{AreWords};
ghost use Rattle.san_text.specs.Words.{look, at_level, is_next, is_same, tail, name_of, number_of, level_of, Index};
ghost use Rattle.san_text.specs.inner.Tokens.{words};
ghost use Rattle.san_text.specs.Expressions.{beginning, sign_begins};
ghost use Rattle.san_text.specs.Statements.{is_name};
ghost use Rattle.san_text.specs.Activities.{is_called};
ghost use Rattle.san_text.specs.inner.Answers.{Kept};

use crate::expression::Begin;
use san_base::{Name, Op};
use san_lex::{Kind, Mark, Sign, Token};
use std::alloc::Global;
use std::marker::Model;

/// Why nothing was read. A fault has the number of words left at it.
#[derive(Clone, Copy, Debug, PartialEq, Eq)]
pub enum ReadError {
    Memory,
    Illegal(usize),
    Deep(usize),
    Long(usize),
    Version(usize),
}

fn named(alloc: Global, bytes: &[u8]) -> Result<Name, ReadError>
    requires some { 0 < length bytes.now }
    requires short { length bytes.now ≤ MAX_NAME_BYTES }
    ensures { Kept result bytes.now }
{
    match Name::new(alloc, bytes) {
        Ok(name) => Ok(name),
        Err(_) => Err(ReadError::Memory),
    }
}

/// The words that are still to be read.
#[derive(Drop)]
pub struct Words<'a> {
    text: &'a [u8],
    tokens: &'a [Token],
}

impl<'a> Model for Words<'a> {
    ghost use Rattle.std.specs.Prelude.{List};
    ghost use Rattle.san_lex.specs.Lexer.{Word};

    ghost Value = { List Word };

    ghost use Rattle.san_lex.specs.Words.{AreWords};
    ghost use Rattle.san_text.specs.inner.Tokens.{words};

    ghost view = { λ w. words w.text.now w.tokens.now };

    ghost invariant = { λ w. AreWords (words w.text.now w.tokens.now) };
}

fn is_same(sign: Sign, other: Sign) -> bool
    ensures { result ≡ is_same sign other }
{
    sign.text() == other.text()
}

fn level_of(op: Op) -> u32
    ensures { result ≡ level_of op }
{
    match op {
        Op::Or => 5,
        Op::And => 4,
        Op::Eq | Op::Ne | Op::Lt | Op::Le | Op::Gt | Op::Ge => 3,
        Op::Add | Op::Sub => 2,
        Op::Mul | Op::Div | Op::Rem => 1,
    }
}

impl<'a> Words<'a> {
    pub(crate) fn new(text: &'a [u8], tokens: &'a [Token]) -> Words<'a>
        requires { AreWords (words text.now tokens.now) }
        ensures { result ≡ words text.now tokens.now }
    {
        Words { text, tokens }
    }

    pub(crate) fn len(&self) -> usize
        ensures { result ≡ length self.now }
    {
        self.tokens.len()
    }

    /// The words behind the next one.
    pub(crate) fn tail(&self) -> Words<'a>
        ensures { result ≡ tail self.now }
    {
        match self.tokens {
            [_, rest @ ..] => Words {
                text: self.text,
                tokens: rest,
            },
            [] => Words {
                text: self.text,
                tokens: self.tokens,
            },
        }
    }

    #[tactic(auto, unfolding(crate::specs::Words::is_next))]
    pub(crate) fn is_next(&self, sign: Sign) -> bool
        ensures { result ≡ is_next sign self.now }
    {
        match self.tokens {
            [
                Token {
                    kind: Kind::Fixed(other),
                    ..
                },
                ..
            ] => is_same(*other, sign),
            _ => false,
        }
    }

    /// The operator of a level that stands next.
    #[tactic(auto, unfolding(crate::specs::Words::at_level, crate::specs::Words::look))]
    pub(crate) fn operator(&self, level: u32) -> Option<Op>
        ensures { result ≡ at_level level (look self.now) }
    {
        match self.tokens {
            [
                Token {
                    kind: Kind::Fixed(sign),
                    ..
                },
                ..
            ] => match *sign {
                Sign::Operator(op) => {
                    if level_of(op) == level {
                        Some(op)
                    } else {
                        None
                    }
                }
                _ => None,
            },
            _ => None,
        }
    }

    /// Whether an index stands next.
    #[tactic(auto, unfolding(crate::specs::Words::look))]
    pub(crate) fn index_next(&self) -> bool
        ensures { IsTrue result ↔ (look self.now ≡ Index) }
    {
        match self.tokens {
            [
                Token {
                    kind: Kind::Fixed(sign),
                    ..
                },
                ..
            ] => match *sign {
                Sign::Mark(mark) => match mark {
                    Mark::OpenBracket => true,
                    _ => false,
                },
                _ => false,
            },
            _ => false,
        }
    }

    #[tactic(auto, unfolding(crate::specs::Words::number_of))]
    pub(crate) fn number(&self) -> Option<u64>
        ensures { result ≡ number_of self.now }
    {
        match self.tokens {
            [
                Token {
                    kind: Kind::Number(n),
                    ..
                },
                ..
            ] => Some(*n),
            _ => None,
        }
    }

    #[tactic(auto, unfolding(crate::specs::Words::name_of))]
    pub(crate) fn is_name(&self) -> bool
        ensures { result ≡ is_name (name_of self.now) }
    {
        match self.tokens {
            [
                Token {
                    kind: Kind::Name,
                    ..
                },
                ..
            ] => true,
            _ => false,
        }
    }

    /// Whether the next word is this name.
    #[tactic(auto, unfolding(crate::specs::Words::name_of))]
    pub(crate) fn is_called(&self, name: &[u8]) -> bool
        ensures { result ≡ is_called name.now (name_of self.now) }
    {
        match self.tokens {
            [
                Token {
                    kind: Kind::Name,
                    start,
                    end,
                },
                ..
            ] => span(self.text, *start, *end) == name,
            _ => false,
        }
    }

    #[tactic(auto, unfolding(crate::specs::Words::name_of))]
    pub(crate) fn name(&self, alloc: Global) -> Result<Option<Name>, ReadError>
        ensures { Kept result (name_of self.now) }
    {
        match self.tokens {
            [
                Token {
                    kind: Kind::Name,
                    start,
                    end,
                },
                ..
            ] => Ok(Some(named(alloc, span(self.text, *start, *end))?)),
            _ => Ok(None),
        }
    }

    /// How the next word begins an operand.
    #[tactic(auto, unfolding(crate::specs::Expressions::beginning))]
    pub(crate) fn begin(&self, alloc: Global) -> Result<Begin, ReadError>
        ensures { Kept result (beginning self.now) }
    {
        match self.tokens {
            [] => Ok(Begin::Nothing),
            [
                Token {
                    kind: Kind::Number(n),
                    ..
                },
                ..
            ] => Ok(Begin::Value(*n)),
            [
                Token {
                    kind: Kind::Name,
                    start,
                    end,
                },
                ..
            ] => Ok(Begin::Called(named(alloc, span(self.text, *start, *end))?)),
            [
                Token {
                    kind: Kind::Fixed(sign),
                    ..
                },
                ..
            ] => Ok(sign_begins(*sign)),
        }
    }
}

fn sign_begins(sign: Sign) -> Begin
    ensures { result ≡ sign_begins sign }
{
    match sign {
        Sign::Operator(op) => match op {
            Op::Sub => Begin::Minus,
            _ => Begin::Nothing,
        },
        Sign::Mark(mark) => match mark {
            Mark::OpenParen => Begin::Opens,
            _ => Begin::Nothing,
        },
        Sign::Not => Begin::Not,
        Sign::Keyword(_) => Begin::Nothing,
    }
}

/// The bytes from one offset to another, those that there are.
fn span(text: &[u8], from: u32, to: u32) -> &[u8]
    ensures { result.now ≡ take (to - from) (drop from text.now) }
{
    let from = from as usize;
    let to = to as usize;
    let rest = if from <= text.len() {
        &text[from..]
    } else {
        &[]
    };
    let count = if from <= to { to - from } else { 0 };
    if count <= rest.len() {
        &rest[..count]
    } else {
        rest
    }
}
