//! `sanfirst`: a model on standard input, and when a place first has at least a value, over many runs, on
//! standard output.
#![tactic(auto)]

use san_host::{StdNotes, StdSink, StdSource, words_of};
use san_passage::first_words;
use san_serve::end_with;
use std::alloc::Global;
use std::process::ExitCode;

fn main(rt: HostRuntime) -> ExitCode {
    let alloc: Global = rt.alloc();
    let mut source = StdSource::new(rt.reader());
    let mut sink = StdSink::new(rt.stdout());
    let mut notes = StdNotes::new(rt.stderr());
    let status = match words_of(&rt) {
        Ok(words) => first_words(
            &rt,
            alloc,
            words.as_slice(),
            &mut source,
            &mut sink,
            &mut notes,
        ),
        Err(why) => end_with(why.status(), &mut notes),
    };
    ExitCode::from(status.code())
}
