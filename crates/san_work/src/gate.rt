//! What workers pass on their way.

/// Where a worker has come to in a turn: it has got a claim, made its piece, or published it. A worker
/// that makes no more turns has left.
#[derive(Clone, Copy, Debug, PartialEq, Eq)]
pub enum Point {
    Claimed,
    Made,
    Published,
    Left,
}

/// What workers pass on their way. What comes of a run doesn't rest on it; it may hold a worker up.
pub trait Gate {
    /// A worker has come to a point.
    fn at(&self, worker: u32, point: Point);
}

/// A gate that holds nobody up.
#[derive(Clone, Copy, Debug)]
pub struct NoGate;

impl Gate for NoGate {
    fn at(&self, _worker: u32, _point: Point) {}
}
