//! What comes of a publication.

use san_leaf::Piece;

/// What came of a publication; a piece that isn't published comes back.
#[derive(Drop)]
pub enum Publishing {
    Published,
    Late(Piece),
    NoMemory(Piece),
}
