//! From a text to its syntax, or to the code, line and column of its first fault.

ghost use Rattle.std.specs.Prelude.{◌≡◌, ◌≤◌, ℕ, List, Ok, Err, map, length, IfOk};
ghost use Rattle.san_base.specs.declared.limits.TheConstants.{MAX_TEXT_BYTES};
ghost use Rattle.san_lex.specs.Lexer.{tokens, word_of};
ghost use Rattle.san_lex.specs.Pieces.{located, kind_word};
ghost use Rattle.san_text.specs.declared.text.ParseFault.TheVariants.{Refused};
ghost use Rattle.san_text.specs.Texts.{spot_of, spot_after, refused, offset_of, after_word, is_counted, spots_of, words_of, parsed, parsed_words, Parses};
ghost use Rattle.san_text.specs.Models.{syntax_at};

use crate::codes::{
    BAD_BYTE, EXPRESSION_TOO_LONG, ILLEGAL_TOKEN, NAME_TOO_LONG, NUMBER_TOO_LARGE, TOO_MANY_BRACES,
    UNKNOWN_VERSION,
};
use crate::syntax::Syntax;
use crate::whole::syntax_at;
use crate::words::{ReadError, Words};
use san_base::{Items, NoMemory};
use san_lex::{Keyword, Kind, LexFault, Sign, Token, tokens};
use std::alloc::Global;
use thiserror::Error;

/// Why a text is refused, and where: the code and the line and column of its first fault, each
/// from 1.
#[derive(Clone, Copy, Debug, PartialEq, Eq)]
pub struct Refusal {
    pub code: u32,
    pub line: u32,
    pub column: u32,
}

/// What a text parses to. `spots` has the offset of each of its names and numbers in order, and
/// `system` is the offset of the system's name. An offset is in bytes from the start.
#[derive(Debug, Drop)]
pub struct Parsed {
    pub syntax: Syntax,
    pub spots: Items<u32>,
    pub system: u32,
}

#[derive(Clone, Copy, Debug, PartialEq, Eq, Error)]
pub enum ParseFault {
    /// A code of the tokens or the grammar, at the first fault.
    #[error("Refused")]
    Refused(Refusal),
    #[error("NoMemory")]
    NoMemory,
}

/// The line and column of an offset, each from 1.
#[tactic(auto, unfolding(crate::specs::Texts::spot_of))]
pub fn spot(text: &[u8], offset: u32) -> (u32, u32)
    requires { length text.now ≤ MAX_TEXT_BYTES }
    ensures { result ≡ spot_of text.now offset }
{
    let offset = (offset as usize).min(text.len());
    spot_behind(&text[..offset])
}

/// The line and column behind these bytes.
fn spot_behind(bytes: &[u8]) -> (u32, u32)
    requires { length bytes.now ≤ MAX_TEXT_BYTES }
    ensures { result ≡ spot_after 1 1 bytes.now }
{
    let mut line = 1;
    let mut column = 1;
    'next: for b in bytes {
        if *b == b'\n' {
            line += 1;
            column = 1;
        } else {
            column += 1;
        }
    }
    (line, column)
}

#[tactic(auto, unfolding(crate::specs::Texts::refused))]
fn refused(code: u32, text: &[u8], offset: u32) -> Refusal
    requires { length text.now ≤ MAX_TEXT_BYTES }
    ensures { result ≡ refused code text.now offset }
{
    let (line, column) = spot(text, offset);
    Refusal { code, line, column }
}

/// The offset of the token at which so many are left, or the end of the text.
#[tactic(auto, using(crate::proofs::SpotLemmas::offset_at, crate::proofs::SpotLemmas::offset_end))]
fn offset_of(text: &[u8], tokens: &[Token], left: usize) -> u32
    requires { length text.now ≤ MAX_TEXT_BYTES }
    ensures { result ≡ offset_of text.now (map (located text.now) tokens.now) left }
{
    let at = tokens.len().saturating_sub(left);
    if at < tokens.len() {
        tokens[at].start
    } else {
        text.len() as u32
    }
}

/// What stood before a word: `instant`, or it and a name behind it.
#[derive(Clone, Copy)]
pub enum Before {
    Instant,
    Named,
    Other,
}

fn after_word(before: Before, kind: Kind) -> Before
    ensures { (text : List ℕ) (from to : ℕ) → result
        ≡ after_word before (kind_word text kind from to) }
{
    match kind {
        Kind::Number(_) => Before::Other,
        Kind::Name => match before {
            Before::Instant => Before::Named,
            _ => Before::Other,
        },
        Kind::Fixed(sign) => match sign {
            Sign::Keyword(keyword) => match keyword {
                Keyword::Instant => Before::Instant,
                _ => Before::Other,
            },
            _ => Before::Other,
        },
    }
}

/// Whether a word is a name or number that counts: the word `priority` of an activity doesn't.
fn is_counted(before: Before, kind: Kind) -> bool
    ensures { (text : List ℕ) (from to : ℕ) → result
        ≡ is_counted before (kind_word text kind from to) }
{
    match kind {
        Kind::Number(_) => true,
        Kind::Name => match before {
            Before::Named => false,
            _ => true,
        },
        Kind::Fixed(_) => false,
    }
}

/// The offsets of the names and numbers that count.
#[tactic(auto, unfolding(crate::specs::Texts::spots_of))]
fn spots_of(alloc: Global, text: &[u8], tokens: &[Token]) -> Result<Items<u32>, NoMemory>
    ensures { IfOk result (λ s. s ≡ spots_of (map (located text.now) tokens.now)) }
{
    let mut found = Vec::new(alloc);
    let mut before = Before::Other;
    'next: for token in tokens {
        if is_counted(before, token.kind) {
            found.push(token.start)?;
        }
        before = after_word(before, token.kind);
    }
    Ok(Items::from_vec(found))
}

/// What the tokens of a text parse to.
#[tactic(auto, using(crate::proofs::SpotLemmas::words_are, crate::proofs::SpotLemmas::words_fit))]
fn parse_tokens(alloc: Global, text: &[u8], found: &[Token]) -> Result<Parsed, ParseFault>
    requires size { length text.now ≤ MAX_TEXT_BYTES }
    requires found { tokens text.now ≡ Ok (map (located text.now) found.now) }
    ensures { Parses result (parsed_words text.now (map (located text.now) found.now) (syntax_at
        (map word_of (map (located text.now) found.now)))) }
{
    match syntax_at(alloc, Words::new(text, found)) {
        Ok((syntax, left)) => match spots_of(alloc, text, found) {
            Ok(spots) => Ok(Parsed {
                syntax,
                spots,
                system: offset_of(text, found, left),
            }),
            Err(_) => Err(ParseFault::NoMemory),
        },
        Err(ReadError::Memory) => Err(ParseFault::NoMemory),
        Err(ReadError::Illegal(left)) => Err(refuse(ILLEGAL_TOKEN, text, found, left)),
        Err(ReadError::Deep(left)) => Err(refuse(TOO_MANY_BRACES, text, found, left)),
        Err(ReadError::Long(left)) => Err(refuse(EXPRESSION_TOO_LONG, text, found, left)),
        Err(ReadError::Version(left)) => Err(refuse(UNKNOWN_VERSION, text, found, left)),
    }
}

fn refuse(code: u32, text: &[u8], tokens: &[Token], left: usize) -> ParseFault
    requires { length text.now ≤ MAX_TEXT_BYTES }
    ensures { result ≡ Refused (refused code text.now (offset_of text.now (map (located text.now)
        tokens.now) left)) }
{
    ParseFault::Refused(refused(code, text, offset_of(text, tokens, left)))
}

/// What a text parses to. A text that isn't in the grammar is refused at its first fault: tokens
/// first, and then the first word that isn't legal.
#[tactic(auto, unfolding(crate::specs::Texts::parsed), using(crate::proofs::CountLemmas::spots_hold))]
pub fn parse(alloc: Global, text: &[u8]) -> Result<Parsed, ParseFault>
    requires { length text.now ≤ MAX_TEXT_BYTES }
    ensures gives { Parses result (parsed text.now) }
    ensures words { IfOk result (λ x. length x.spots ≡ length (words_of x.syntax)) }
{
    match tokens(alloc, text) {
        Ok(found) => parse_tokens(alloc, text, found.as_slice()),
        Err(LexFault::Bad(at)) => Err(ParseFault::Refused(refused(BAD_BYTE, text, at))),
        Err(LexFault::Number(at)) => Err(ParseFault::Refused(refused(NUMBER_TOO_LARGE, text, at))),
        Err(LexFault::Name(at)) => Err(ParseFault::Refused(refused(NAME_TOO_LONG, text, at))),
        Err(LexFault::NoMemory) => Err(ParseFault::NoMemory),
    }
}
