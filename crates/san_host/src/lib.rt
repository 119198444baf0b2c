//! The outside of the programs: the standard streams as a source and as sinks, and the words of the
//! command line. What moves through them no contract sees: this is the edge that is trusted.
#![tactic(auto)]

mod sink;
mod source;
#[cfg(test)]
mod tests;
mod words;

pub use sink::{StdNotes, StdSink};
pub use source::StdSource;
pub use words::{NoWords, words_of};
