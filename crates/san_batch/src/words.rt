//! The batch that words order of a model text: the top call of `sanbatch`. A task of a program can't
//! hold the threads, so the text is read and served here.

ghost use Rattle.std.specs.Prelude.{◌≡◌, ◌≤◌, ◌⊎◌, List, ℕ, IfOk, Ok, Some, length, map, string_bytes};
ghost use Rattle.san_base.specs.Flow.{CountRose};
ghost use Rattle.san_serve.specs.Accepted.{IsRefusedText, accepted};
ghost use Rattle.san_serve.specs.Answers.{IsRefused, StatusSays};
ghost use Rattle.san_serve.specs.Bounds.{model_bound};
ghost use Rattle.san_serve.specs.Notes.{IsLine, Noted};
ghost use Rattle.san_serve.specs.Settled.{IsHindered};
ghost use Rattle.san_serve.specs.inner.Serving.{Serves, ServesText};
ghost use Rattle.san_words.specs.Hears.{CanRunBatch, CanRunMany, HasSeeds, IsBatch};
ghost use Rattle.san_batch.specs.Batches.{BatchRefuses, Batches, batch_meaning, batch_status, ordered_text};
ghost use Rattle.san_batch.specs.inner.Heard.{HaveSeeds, HeardAnswers, HeardRefuses};

use crate::running::batch;
use crate::text::batch_text;
use san_base::{NoMemory, Sink, Source, Status, Taking, put_all, take_all};
use san_net::Flat;
use san_serve::{NotAccepted, accept, conclude, end_with, model_bound};
use san_text::Refusal;
use san_words::{BatchOrders, HeardBatch, hear_batch};
use std::alloc::Global;
use std::thread::Threads;

/// The text of the batch that is ordered.
fn ordered_text<R: Threads + Sync>(
    rt: &R,
    alloc: Global,
    flat: &Flat,
    orders: BatchOrders,
) -> Result<Vec<u8>, NoMemory>
    requires can_run { CanRunMany orders }
    requires seeds { HasSeeds orders }
    ensures { IfOk result (λ text. text.items ≡ ordered_text flat.now orders) }
{
    let batch = batch(
        rt,
        alloc,
        flat,
        orders.seed,
        orders.runs,
        orders.limits,
        orders.workers,
    )?;
    batch_text(alloc, flat, &batch)
}

/// Puts the text of the batch that is ordered of a text's network.
fn put_batch<R: Threads + Sync, K: Sink>(
    rt: &R,
    alloc: Global,
    flat: &Flat,
    orders: BatchOrders,
    sink: &mut K,
) -> Status
    requires can_run { CanRunMany orders }
    requires seeds { HasSeeds orders }
    ensures answer { (text : List ℕ) → accepted text ≡ Ok flat.now
        → ServesText (batch_meaning orders) (Ok result) text (K.held sink.old) (K.held sink.new) }
    ensures write { result ≡ Status.WriteFault → CountRose (K.faults sink.old) (K.faults sink.new) }
{
    let Ok(text) = ordered_text(rt, alloc, flat, orders) else {
        return Status::NoMemory;
    };
    if put_all(sink, text.as_slice()) {
        Status::Done
    } else {
        Status::WriteFault
    }
}

/// Serves a text.
fn serve_batch<R: Threads + Sync, K: Sink>(
    rt: &R,
    alloc: Global,
    orders: BatchOrders,
    text: &[u8],
    sink: &mut K,
) -> Result<Status, Refusal>
    requires can_run { CanRunMany orders }
    requires seeds { HasSeeds orders }
    requires short { length text.now ≤ model_bound.bytes }
    ensures answer { ServesText (batch_meaning orders) result text.now (K.held sink.old)
        (K.held sink.new) }
    ensures write { result ≡ Ok Status.WriteFault → CountRose (K.faults sink.old) (K.faults sink.new) }
{
    match accept(alloc, text) {
        Ok(accepted) => Ok(put_batch(rt, alloc, &accepted.flat, orders, sink)),
        Err(NotAccepted::Refused(refusal)) => Err(refusal),
        Err(NotAccepted::NoMemory) => Ok(Status::NoMemory),
    }
}

/// Reads all bytes and serves them.
#[tactic(auto, using(san_serve::proofs::ServeLemmas::serves_read, san_serve::proofs::ServeLemmas::serves_none, san_serve::proofs::ServeLemmas::was_read))]
fn read_batch<R: Threads + Sync, S: Source, K: Sink>(
    rt: &R,
    alloc: Global,
    orders: BatchOrders,
    source: &mut S,
    sink: &mut K,
) -> Result<Status, Refusal>
    requires can_run { CanRunMany orders }
    requires seeds { HasSeeds orders }
    ensures answer { Serves (batch_meaning orders) result (S.left source.old) (S.left source.new)
        (K.held sink.old) (K.held sink.new) }
    ensures read { result ≡ Ok Status.ReadFault → CountRose (S.faults source.old) (S.faults source.new) }
    ensures write { result ≡ Ok Status.WriteFault → CountRose (K.faults sink.old) (K.faults sink.new) }
{
    let bound = model_bound();
    match take_all(alloc, source, bound.bytes) {
        Ok(bytes) => serve_batch(rt, alloc, orders, bytes.as_slice(), sink),
        Err(Taking::Over) => Err(bound.too_long()),
        Err(Taking::Failed) => Ok(Status::ReadFault),
        Err(Taking::NoMemory) => Ok(Status::NoMemory),
    }
}

/// Makes the batch of the model text that the source gives.
#[tactic(auto, using(san_serve::proofs::ServeLemmas::concluded))]
fn run_ordered<R: Threads + Sync, S: Source, K: Sink, N: Sink>(
    rt: &R,
    alloc: Global,
    orders: BatchOrders,
    source: &mut S,
    sink: &mut K,
    notes: &mut N,
) -> Status
    requires can_run { CanRunMany orders }
    requires seeds { HasSeeds orders }
    ensures answer { StatusSays (batch_meaning orders) result (S.left source.old) (S.left source.new)
        (K.held sink.old) (K.held sink.new) }
    ensures noted { (line : List ℕ) × IsLine result (IsRefused model_bound IsRefusedText
        (S.left source.old) (S.left source.new)) line × Noted (N.held notes.old) (N.held notes.new)
        (N.faults notes.old) (N.faults notes.new) line }
    ensures taken { result ≡ Status.Words → ⊥ }
    ensures read { result ≡ Status.ReadFault → CountRose (S.faults source.old) (S.faults source.new) }
    ensures write { result ≡ Status.WriteFault → CountRose (K.faults sink.old) (K.faults sink.new) }
{
    let answer = read_batch(rt, alloc, orders, source, sink);
    conclude(alloc, answer, notes)
}

/// Makes the batch that was heard of words.
fn run_heard<R: Threads + Sync, S: Source, K: Sink, N: Sink>(
    rt: &R,
    alloc: Global,
    heard: HeardBatch,
    source: &mut S,
    sink: &mut K,
    notes: &mut N,
) -> Status
    requires can_run { CanRunBatch heard }
    requires seeds { HaveSeeds heard }
    ensures answer { HeardAnswers heard result (S.left source.old) (S.left source.new)
        (K.held sink.old) (K.held sink.new) }
    ensures unread { result ≡ Status.Words → (source.new ≡ source.old) × (sink.new ≡ sink.old) }
    ensures noted { (line : List ℕ) × IsLine result (HeardRefuses heard (S.left source.old)
        (S.left source.new)) line × Noted (N.held notes.old) (N.held notes.new) (N.faults notes.old)
        (N.faults notes.new) line }
    ensures read { result ≡ Status.ReadFault → CountRose (S.faults source.old) (S.faults source.new) }
    ensures write { result ≡ Status.WriteFault → CountRose (K.faults sink.old) (K.faults sink.new) }
{
    match heard {
        HeardBatch::Batch(orders) => run_ordered(rt, alloc, orders, source, sink, notes),
        HeardBatch::Refused => end_with(Status::Words, notes),
        HeardBatch::NoMemory => end_with(Status::NoMemory, notes),
    }
}

/// Makes the batch that the words order of the model text that the source gives, in several threads,
/// and puts its text into the sink, and a line on what went wrong into the notes. How many threads
/// the words order has no effect. A run that stops is counted in the text. A note that fails changes
/// no status.
#[tactic(auto, using(crate::proofs::HeardLemmas::heard_answers, crate::proofs::HeardLemmas::heard_seeds))]
pub fn batch_words<R: Threads + Sync, S: Source, K: Sink, N: Sink>(
    rt: &R,
    alloc: Global,
    words: &[String],
    source: &mut S,
    sink: &mut K,
    notes: &mut N,
) -> Status
    ensures words { result ≡ Status.Words → IsBatch (map string_bytes words.now) → ⊥ }
    ensures taken { (IsBatch (map string_bytes words.now) → ⊥)
        → (result ≡ Status.Words) ⊎ (result ≡ Status.NoMemory) }
    ensures unread { result ≡ Status.Words → (source.new ≡ source.old) × (sink.new ≡ sink.old) }
    ensures answer { Batches (map string_bytes words.now) result (S.left source.old)
        (S.left source.new) (K.held sink.old) (K.held sink.new) }
    ensures complete { (bytes : List ℕ) → S.left source.old ≡ Some bytes
        → IsBatch (map string_bytes words.now) → IsHindered result ⊎ (result ≡ batch_status bytes) }
    ensures never { result ≡ Status.Stopped → ⊥ }
    ensures read { result ≡ Status.ReadFault → CountRose (S.faults source.old) (S.faults source.new) }
    ensures write { result ≡ Status.WriteFault → CountRose (K.faults sink.old) (K.faults sink.new) }
    ensures noted { (line : List ℕ) × IsLine result (BatchRefuses (map string_bytes words.now)
        (S.left source.old) (S.left source.new)) line × Noted (N.held notes.old) (N.held notes.new)
        (N.faults notes.old) (N.faults notes.new) line }
{
    let heard = hear_batch(alloc, words);
    run_heard(rt, alloc, heard, source, sink, notes)
}
