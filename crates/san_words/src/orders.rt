//! A run, or many, as the words of a command line order them.

use san_base::Limits;
use san_gen::ModelKind;

/// A model that is generated in place of reading one.
#[derive(Clone, Copy, Debug, PartialEq, Eq)]
pub struct Made {
    pub copies: u32,
    pub kind: ModelKind,
}

/// A run as the words order it.
#[derive(Clone, Copy, Debug, PartialEq, Eq)]
pub struct Orders {
    pub seed: u64,
    pub limits: Limits,
    /// The threads that run ahead, beside the caller.
    pub workers: u32,
    /// The model, where it isn't read.
    pub make: Option<Made>,
}

/// What is heard of words: a run, or words that the command doesn't take.
#[derive(Clone, Copy, Debug, PartialEq, Eq)]
pub enum Heard {
    Run(Orders),
    Refused,
    NoMemory,
}

/// Many runs as the words order them, with seeds one behind another.
#[derive(Clone, Copy, Debug, PartialEq, Eq)]
pub struct BatchOrders {
    /// The first run's seed.
    pub seed: u64,
    pub limits: Limits,
    pub runs: u32,
    /// The threads that run them.
    pub workers: u32,
}

/// What is heard of words that order many runs.
#[derive(Clone, Copy, Debug, PartialEq, Eq)]
pub enum HeardBatch {
    Batch(BatchOrders),
    Refused,
    NoMemory,
}

/// Many runs as the words order them, each up to a marking in which a place has at least a value.
#[derive(Clone, Copy, Debug, PartialEq, Eq)]
pub struct FirstOrders {
    pub batch: BatchOrders,
    pub place: u32,
    pub least: u32,
}

/// What is heard of words that order runs up to such a marking.
#[derive(Clone, Copy, Debug, PartialEq, Eq)]
pub enum HeardFirst {
    First(FirstOrders),
    Refused,
    NoMemory,
}
