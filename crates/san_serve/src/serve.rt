//! A source is read to its end and served, or a text that needn't be read, and a line in the notes
//! tells what went wrong: once for all programs.

ghost use Rattle.std.specs.Prelude.{◌≡◌, ◌≤◌, List, ℕ, Ok, length};
ghost use Rattle.san_base.specs.Flow.{CountRose};
ghost use Rattle.san_serve.specs.Answers.{StatusSays, TextSays, IsRefused};
ghost use Rattle.san_serve.specs.Notes.{IsLine, Noted};
ghost use Rattle.san_serve.specs.inner.Serving.{Serves, ServesText, answer_of};

use crate::notes::conclude;
use crate::task::{Served, Task};
use san_base::{Sink, Source, Status, Taking, take_all};
use san_text::Refusal;
use std::alloc::Global;

/// The status of what serving came to, or its refusal.
fn answer(served: Served) -> Result<Status, Refusal>
    ensures { result ≡ answer_of served }
{
    match served {
        Served::Done => Ok(Status::Done),
        Served::Stopped => Ok(Status::Stopped),
        Served::WriteFault => Ok(Status::WriteFault),
        Served::NoMemory => Ok(Status::NoMemory),
        Served::Refused(refusal) => Err(refusal),
    }
}

/// Serves a text.
#[tactic(auto, using(crate::proofs::ServeLemmas::serves_text, crate::proofs::ServeLemmas::wrote_badly))]
fn serve_text<T: Task, K: Sink>(
    alloc: Global,
    task: &T,
    text: &[u8],
    sink: &mut K,
) -> Result<Status, Refusal>
    requires { length text.now ≤ (T.meaning task.now).bound.bytes }
    ensures answer { ServesText (T.meaning task.now) result text.now (K.held sink.old)
        (K.held sink.new) }
    ensures write { result ≡ Ok Status.WriteFault → CountRose (K.faults sink.old) (K.faults sink.new) }
{
    answer(task.serve(alloc, text, sink))
}

/// Reads all bytes and serves them.
#[tactic(auto, using(crate::proofs::ServeLemmas::serves_read, crate::proofs::ServeLemmas::serves_none, crate::proofs::ServeLemmas::was_read))]
fn serve_source<T: Task, S: Source, K: Sink>(
    alloc: Global,
    task: &T,
    source: &mut S,
    sink: &mut K,
) -> Result<Status, Refusal>
    ensures answer { Serves (T.meaning task.now) result (S.left source.old) (S.left source.new)
        (K.held sink.old) (K.held sink.new) }
    ensures read { result ≡ Ok Status.ReadFault → CountRose (S.faults source.old) (S.faults source.new) }
    ensures write { result ≡ Ok Status.WriteFault → CountRose (K.faults sink.old) (K.faults sink.new) }
{
    let bound = task.bound();
    match take_all(alloc, source, bound.bytes) {
        Ok(bytes) => serve_text(alloc, task, bytes.as_slice(), sink),
        Err(Taking::Over) => Err(bound.too_long()),
        Err(Taking::Failed) => Ok(Status::ReadFault),
        Err(Taking::NoMemory) => Ok(Status::NoMemory),
    }
}

/// Reads a source to its end and serves it, with a line in the notes on what went wrong. A note that
/// fails changes no status.
#[tactic(auto, using(crate::proofs::ServeLemmas::concluded))]
pub fn serve_noted<T: Task, S: Source, K: Sink, N: Sink>(
    alloc: Global,
    task: &T,
    source: &mut S,
    sink: &mut K,
    notes: &mut N,
) -> Status
    ensures answer { StatusSays (T.meaning task.now) result (S.left source.old) (S.left source.new)
        (K.held sink.old) (K.held sink.new) }
    ensures noted { (line : List ℕ) × IsLine result (IsRefused (T.meaning task.now).bound
        (T.meaning task.now).refuses (S.left source.old) (S.left source.new)) line
        × Noted (N.held notes.old) (N.held notes.new) (N.faults notes.old) (N.faults notes.new) line }
    ensures taken { result ≡ Status.Words → ⊥ }
    ensures read { result ≡ Status.ReadFault → CountRose (S.faults source.old) (S.faults source.new) }
    ensures write { result ≡ Status.WriteFault → CountRose (K.faults sink.old) (K.faults sink.new) }
{
    let answer = serve_source(alloc, task, source, sink);
    conclude(alloc, answer, notes)
}

/// Serves a text that needn't be read, with a line in the notes on what went wrong. A note that fails
/// changes no status.
#[tactic(auto, using(crate::proofs::ServeLemmas::text_concluded))]
pub fn serve_text_noted<T: Task, K: Sink, N: Sink>(
    alloc: Global,
    task: &T,
    text: &[u8],
    sink: &mut K,
    notes: &mut N,
) -> Status
    requires { length text.now ≤ (T.meaning task.now).bound.bytes }
    ensures answer { TextSays (T.meaning task.now) result text.now (K.held sink.old) (K.held sink.new) }
    ensures noted { (line : List ℕ) × IsLine result ((T.meaning task.now).refuses text.now) line
        × Noted (N.held notes.old) (N.held notes.new) (N.faults notes.old) (N.faults notes.new) line }
    ensures write { result ≡ Status.WriteFault → CountRose (K.faults sink.old) (K.faults sink.new) }
{
    let answer = serve_text(alloc, task, text, sink);
    conclude(alloc, answer, notes)
}
