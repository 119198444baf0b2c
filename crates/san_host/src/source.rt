//! The standard input as a source.

ghost use Rattle.std.specs.Prelude.{None};

use san_base::{Read, Source};
use std::io;

/// A source over a reader of the system. It tells no bytes and counts the reads that failed.
#[derive(Drop)]
pub struct StdSource<R: io::Read + Drop> {
    inner: R,
    faults: u64,
}

impl<R: io::Read + Drop> StdSource<R> {
    /// Over this reader; no read has failed.
    pub fn new(inner: R) -> StdSource<R> {
        StdSource { inner, faults: 0 }
    }
}

impl<R: io::Read + Drop> Source for StdSource<R> {
    ghost left = { λ s. None };

    ghost faults = { λ s. s.faults };

    fn read(&mut self, buf: &mut [u8]) -> Read {
        match self.inner.read(buf) {
            Ok(0) => Read::End,
            Ok(count) => Read::Took(count),
            Err(_) => {
                self.faults = self.faults.saturating_add(1);
                Read::Failed
            }
        }
    }
}
