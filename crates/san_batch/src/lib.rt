//! Many runs of a network, made in several threads and summed up: the batch that `sanbatch` prints.
#![tactic(auto)]

mod outcome;
mod running;
mod text;
mod words;
mod worker;

pub use running::batch;
pub use text::batch_text;
pub use words::batch_words;
