//! The longest token at the front of a text.

ghost use Rattle.std.specs.Prelude.{◌≡◌, ℕ, List, true};
ghost use Rattle.san_base.specs.Names.{is_digit};
ghost use Rattle.san_lex.specs.Bytes.{first};
ghost use Rattle.san_lex.specs.Lexer.{mark_of, operator_of, single, double, sign_front, named, numbered, front};
ghost use Rattle.san_lex.specs.inner.Fronts.{piece_front, NameFront, NumberFront, IsFront};

use crate::byte::{
    digits_length, first, front_of, is_blank, is_digit, is_letter, line_length, name_length,
    value_of,
};
use crate::keyword::keyword_of;
use crate::sign::{Mark, Sign};
use crate::token::Kind;
use san_base::{MAX_NAME_BYTES, Op};

/// What stands at the front of a text, with how many bytes it has behind its first.
#[derive(Clone, Copy, Debug, PartialEq, Eq)]
pub enum Piece {
    /// A blank or a comment.
    Gap(usize),
    Token(Kind, usize),
    Bad,
    Large,
    Long,
}

#[tactic(auto, unfolding(crate::specs::Lexer::mark_of))]
fn mark_of(b: u8) -> Option<Sign>
    ensures { result ≡ mark_of b }
{
    if b == b'{' {
        Some(Sign::Mark(Mark::OpenBrace))
    } else if b == b'}' {
        Some(Sign::Mark(Mark::CloseBrace))
    } else if b == b'(' {
        Some(Sign::Mark(Mark::OpenParen))
    } else if b == b')' {
        Some(Sign::Mark(Mark::CloseParen))
    } else if b == b'[' {
        Some(Sign::Mark(Mark::OpenBracket))
    } else if b == b']' {
        Some(Sign::Mark(Mark::CloseBracket))
    } else if b == b';' {
        Some(Sign::Mark(Mark::Semicolon))
    } else if b == b',' {
        Some(Sign::Mark(Mark::Comma))
    } else if b == b'.' {
        Some(Sign::Mark(Mark::Dot))
    } else if b == b':' {
        Some(Sign::Mark(Mark::Colon))
    } else if b == b'=' {
        Some(Sign::Mark(Mark::Equals))
    } else {
        None
    }
}

#[tactic(auto, unfolding(crate::specs::Lexer::operator_of))]
fn operator_of(b: u8) -> Option<Sign>
    ensures { result ≡ operator_of b }
{
    if b == b'<' {
        Some(Sign::Operator(Op::Lt))
    } else if b == b'>' {
        Some(Sign::Operator(Op::Gt))
    } else if b == b'+' {
        Some(Sign::Operator(Op::Add))
    } else if b == b'-' {
        Some(Sign::Operator(Op::Sub))
    } else if b == b'*' {
        Some(Sign::Operator(Op::Mul))
    } else if b == b'/' {
        Some(Sign::Operator(Op::Div))
    } else if b == b'%' {
        Some(Sign::Operator(Op::Rem))
    } else if b == b'!' {
        Some(Sign::Not)
    } else {
        None
    }
}

#[tactic(auto, unfolding(crate::specs::Lexer::single))]
fn single(b: u8) -> Option<Sign>
    ensures { result ≡ single b }
{
    mark_of(b).or(operator_of(b))
}

#[tactic(auto, unfolding(crate::specs::Lexer::double))]
fn double(b: u8, c: u8) -> Option<Sign>
    ensures { result ≡ double b c }
{
    if c == b'=' {
        if b == b'=' {
            Some(Sign::Operator(Op::Eq))
        } else if b == b'!' {
            Some(Sign::Operator(Op::Ne))
        } else if b == b'<' {
            Some(Sign::Operator(Op::Le))
        } else if b == b'>' {
            Some(Sign::Operator(Op::Ge))
        } else {
            None
        }
    } else if c == b'&' {
        if b == b'&' {
            Some(Sign::Operator(Op::And))
        } else {
            None
        }
    } else if c == b'|' {
        if b == b'|' {
            Some(Sign::Operator(Op::Or))
        } else {
            None
        }
    } else {
        None
    }
}

/// The longer sign, where there are two.
fn sign_piece(two: Option<Sign>, one: Option<Sign>) -> Piece
    ensures { (text : List ℕ) → piece_front text result ≡ sign_front two one }
{
    match two {
        Some(sign) => Piece::Token(Kind::Fixed(sign), 1),
        None => match one {
            Some(sign) => Piece::Token(Kind::Fixed(sign), 0),
            None => Piece::Bad,
        },
    }
}

/// A name or keyword at the front.
#[tactic(auto, unfolding(crate::specs::Lexer::named))]
fn name_piece(bytes: &[u8]) -> Piece
    ensures { NameFront bytes.now result }
{
    match bytes {
        [] => Piece::Gap(0),
        [_, rest @ ..] => {
            let n = name_length(rest);
            if n >= MAX_NAME_BYTES {
                return Piece::Long;
            }
            match keyword_of(front_of(bytes, n)) {
                Some(keyword) => Piece::Token(Kind::Fixed(Sign::Keyword(keyword)), n),
                None => Piece::Token(Kind::Name, n),
            }
        }
    }
}

/// A number at the front.
#[tactic(auto, unfolding(crate::specs::Lexer::numbered))]
fn number_piece(bytes: &[u8]) -> Piece
    requires { is_digit (first bytes.now) ≡ true }
    ensures { NumberFront bytes.now result }
{
    match bytes {
        [] => Piece::Gap(0),
        [_, rest @ ..] => {
            let n = digits_length(rest);
            match value_of(front_of(bytes, n)) {
                Some(value) => Piece::Token(Kind::Number(value), n),
                None => Piece::Large,
            }
        }
    }
}

/// What stands at the front.
#[tactic(auto, unfolding(crate::specs::Lexer::front))]
pub(crate) fn piece_at(bytes: &[u8]) -> Piece
    ensures { IsFront bytes.now result }
{
    match bytes {
        [] => Piece::Gap(0),
        [b, rest @ ..] => {
            if is_blank(*b) {
                Piece::Gap(0)
            } else if *b == b'#' {
                Piece::Gap(line_length(rest))
            } else if is_letter(*b) {
                name_piece(bytes)
            } else if is_digit(*b) {
                number_piece(bytes)
            } else {
                sign_piece(double(*b, first(rest)), single(*b))
            }
        }
    }
}
