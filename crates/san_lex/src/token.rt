//! Tokens and where they stand, and why a text has none.

ghost use Rattle.std.specs.Prelude.{◌≡◌};

use crate::sign::Sign;
use san_base::Items;
use std::marker::Model;
use thiserror::Error;

/// A token's kind, with its number or its sign. The bytes of a name are those of the token's span.
#[derive(Clone, Copy, Debug, PartialEq, Eq)]
pub enum Kind {
    Number(u64),
    Name,
    Fixed(Sign),
}

/// A token, from the offset of its first byte to the offset behind its last.
#[derive(Clone, Copy, Debug, PartialEq, Eq)]
pub struct Token {
    pub kind: Kind,
    pub start: u32,
    pub end: u32,
}

/// The tokens of a text in its order, which contracts see as a list.
#[derive(Debug, Drop)]
pub struct Tokens {
    list: Items<Token>,
}

impl Model for Tokens {
    ghost use Rattle.std.specs.Prelude.{List};
    ghost use Rattle.san_lex.specs.declared.token.Token.{Token as OneToken};

    ghost Value = { List OneToken };

    ghost view = { λ t. t.list };
}

impl Tokens {
    /// The tokens of a list.
    pub fn from_vec(found: Vec<Token>) -> Tokens
        ensures { result ≡ found.items }
    {
        Tokens {
            list: Items::from_vec(found),
        }
    }

    /// The tokens as a slice.
    pub fn as_slice(&self) -> &[Token]
        ensures { result.now ≡ self.now }
    {
        self.list.as_slice()
    }
}

/// Why a text has no tokens: its first fault, with the offset of the byte where it begins.
#[derive(Clone, Copy, Debug, PartialEq, Eq, Error)]
pub enum LexFault {
    /// A byte begins no token.
    #[error("Bad")]
    Bad(u32),
    /// A number is above 9223372036854775807.
    #[error("Number")]
    Number(u32),
    /// A name or keyword is longer than 64 bytes.
    #[error("Name")]
    Name(u32),
    #[error("NoMemory")]
    NoMemory,
}
