//! A sink in memory that grows.

ghost use Rattle.std.specs.Prelude.{◌≡◌, [], Some};

use san_base::{Put, Sink};
use std::alloc::Global;

/// A sink in memory that grows, and fails where memory runs out.
#[derive(Drop)]
pub(crate) struct VecSink {
    pub(crate) bytes: Vec<u8>,
    faults: u64,
}

impl VecSink {
    pub(crate) fn new(alloc: Global) -> VecSink
        ensures { result.bytes.items ≡ [] }
    {
        VecSink {
            bytes: Vec::new(alloc),
            faults: 0,
        }
    }
}

impl Sink for VecSink {
    ghost held = { λ s. Some s.bytes.items };

    ghost faults = { λ s. s.faults };

    fn put(&mut self, piece: &[u8]) -> Put {
        match self.bytes.extend_from_slice(piece) {
            Ok(()) => Put::Took(piece.len()),
            Err(_) => {
                self.faults = self.faults.saturating_add(1);
                Put::Failed
            }
        }
    }
}
