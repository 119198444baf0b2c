//! What a program does with the bytes that it read.

ghost use Rattle.std.specs.Prelude.{◌≡◌, ◌≤◌, length};
ghost use Rattle.san_base.specs.Flow.{CountRose};
ghost use Rattle.san_base.specs.declared.limits.TheConstants.{MAX_TEXT_BYTES};
ghost use Rattle.san_serve.specs.Answers.{ServesBytes};

use crate::bound::Bound;
use san_base::Sink;
use san_text::Refusal;
use std::alloc::Global;

/// What serving bytes came to.
#[derive(Clone, Copy, Debug, PartialEq, Eq)]
pub enum Served {
    /// All was written.
    Done,
    /// All was written of what stopped before its end.
    Stopped,
    /// The sink failed.
    WriteFault,
    NoMemory,
    /// The bytes are refused.
    Refused(Refusal),
}

/// Serving bytes, in one program's way.
pub trait Task {
    ghost use Rattle.san_serve.specs.Tasks.{TaskMeaning};

    /// What is served, and what of it is written.
    ghost meaning: { Self → TaskMeaning };

    /// The most bytes that are served.
    fn bound(&self) -> Bound
        ensures bound { result ≡ (meaning self.now).bound }
        ensures short { result.bytes ≤ MAX_TEXT_BYTES };

    /// Serves bytes that were read; of want of memory nothing was written.
    fn serve<K: Sink>(&self, alloc: Global, bytes: &[u8], sink: &mut K) -> Served
        requires { length bytes.now ≤ (meaning self.now).bound.bytes }
        ensures answer { ServesBytes (meaning self.now) result bytes.now (K.held sink.old)
            (K.held sink.new) }
        ensures cause { result ≡ Served.WriteFault → CountRose (K.faults sink.old) (K.faults sink.new) };
}
