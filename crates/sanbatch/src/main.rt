//! `sanbatch`: a model on standard input, and what many runs of it come to on standard output.
#![tactic(auto)]

use san_batch::batch_words;
use san_host::{StdNotes, StdSink, StdSource, words_of};
use san_serve::end_with;
use std::alloc::Global;
use std::process::ExitCode;

fn main(rt: HostRuntime) -> ExitCode {
    let alloc: Global = rt.alloc();
    let mut source = StdSource::new(rt.reader());
    let mut sink = StdSink::new(rt.stdout());
    let mut notes = StdNotes::new(rt.stderr());
    let status = match words_of(&rt) {
        Ok(words) => batch_words(
            &rt,
            alloc,
            words.as_slice(),
            &mut source,
            &mut sink,
            &mut notes,
        ),
        Err(why) => end_with(why.status(), &mut notes),
    };
    ExitCode::from(status.code())
}
