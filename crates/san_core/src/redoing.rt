//! What a machine did when it was asked for its next piece.

/// The needed piece was taken; or the machine had ended; or it rests, which a machine alone never
/// does.
#[derive(Clone, Copy, Debug, PartialEq, Eq)]
pub enum Redoing {
    Redone,
    Ended,
    Rested,
}
