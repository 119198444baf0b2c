//! The standard streams as sinks.

ghost use Rattle.std.specs.Prelude.{None};

use san_base::{Put, Sink};
use std::io;

/// A sink over a writer of the system. It tells no bytes and counts the writes that failed; one
/// that takes nothing has failed.
#[derive(Drop)]
pub struct StdSink<W: io::Write + Drop> {
    inner: W,
    faults: u64,
}

impl<W: io::Write + Drop> StdSink<W> {
    /// Over this writer; no write has failed.
    pub fn new(inner: W) -> StdSink<W> {
        StdSink { inner, faults: 0 }
    }
}

impl<W: io::Write + Drop> Sink for StdSink<W> {
    ghost held = { λ s. None };

    ghost faults = { λ s. s.faults };

    fn put(&mut self, piece: &[u8]) -> Put {
        match self.inner.write(piece) {
            Ok(count) if count > 0 => Put::Took(count),
            _ => {
                self.faults = self.faults.saturating_add(1);
                Put::Failed
            }
        }
    }
}

/// The sink of the notes.
pub type StdNotes<W> = StdSink<W>;
