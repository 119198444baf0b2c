//! The top calls: from the words and the bytes read to the bytes written.
#![tactic(auto)]

mod run;
mod show;

pub use run::{plain_words, run_words};
pub use san_base::Status;
pub use show::show_words;
