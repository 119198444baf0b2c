//! From a text to its tokens.

ghost use Rattle.std.specs.Prelude.{◌≤◌, length};
ghost use Rattle.san_base.specs.declared.limits.TheConstants.{MAX_TEXT_BYTES};
ghost use Rattle.san_lex.specs.Lexer.{tokens};
ghost use Rattle.san_lex.specs.Pieces.{LexGives};

use crate::piece::{Piece, piece_at};
use crate::token::{LexFault, Token, Tokens};
use std::alloc::Global;

/// The tokens of a text, or its first fault. Blanks and comments stand between tokens, and each
/// token is the longest that can stand there.
pub fn tokens(alloc: Global, text: &[u8]) -> Result<Tokens, LexFault>
    requires { length text.now ≤ MAX_TEXT_BYTES }
    ensures { LexGives text.now result (tokens text.now) }
{
    let mut found = Vec::new(alloc);
    let mut at = 0;
    'next: while at < text.len() {
        match piece_at(&text[at..]) {
            Piece::Gap(n) => {
                at += n + 1;
            }
            Piece::Token(kind, n) => {
                let token = Token {
                    kind,
                    start: at as u32,
                    end: (at + n + 1) as u32,
                };
                match found.push(token) {
                    Ok(()) => {}
                    Err(_) => return Err(LexFault::NoMemory),
                }
                at += n + 1;
            }
            Piece::Bad => return Err(LexFault::Bad(at as u32)),
            Piece::Large => return Err(LexFault::Number(at as u32)),
            Piece::Long => return Err(LexFault::Name(at as u32)),
        }
    }
    Ok(Tokens::from_vec(found))
}
