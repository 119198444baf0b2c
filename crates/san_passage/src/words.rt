//! The passages that words order of a model text: the top call of `sanfirst`. A task of a program can't
//! hold the threads, so the text is read and served here.

ghost use Rattle.std.specs.Prelude.{◌≡◌, ◌≤◌, ◌<◌, ◌⊎◌, List, ℕ, IfOk, Ok, Some, length, map, string_bytes};
ghost use Rattle.san_base.specs.Flow.{CountRose};
ghost use Rattle.san_serve.specs.Accepted.{accepted};
ghost use Rattle.san_serve.specs.Answers.{IsRefused, StatusSays};
ghost use Rattle.san_serve.specs.Bounds.{model_bound};
ghost use Rattle.san_serve.specs.Notes.{IsLine, Noted};
ghost use Rattle.san_serve.specs.Settled.{IsHindered};
ghost use Rattle.san_serve.specs.inner.Serving.{Serves, ServesText};
ghost use Rattle.san_words.specs.Commands.{first_app};
ghost use Rattle.san_words.specs.Hears.{CanRunFirst, CanRunMany, FirstSay, HasSeeds, IsFirst, texts_of};
ghost use Rattle.san_passage.specs.Firsts.{FirstRefuses, Firsts, accepted_at, first_meaning, first_status};
ghost use Rattle.san_passage.specs.Firsts.{first_text, no_such_place};
ghost use Rattle.san_passage.specs.inner.Heard.{HaveSeeds, HeardAnswers, HeardRefuses};

use crate::codes::NO_SUCH_PLACE;
use crate::condition::AtLeast;
use crate::running::passages;
use crate::text::passages_text;
use crate::worker::Seeds;
use san_base::{NoMemory, Sink, Source, Status, Taking, put_all, take_all};
use san_net::Flat;
use san_serve::{NotAccepted, accept, conclude, end_with, model_bound};
use san_text::Refusal;
use san_words::{FirstOrders, HeardFirst, hear_first};
use std::alloc::Global;
use std::thread::Threads;

/// The text of the passages that are ordered.
fn first_text<R: Threads + Sync>(
    rt: &R,
    alloc: Global,
    flat: &Flat,
    orders: FirstOrders,
) -> Result<Vec<u8>, NoMemory>
    requires can_run { CanRunMany orders.batch }
    requires seeds { HasSeeds orders.batch }
    requires place { orders.place < length flat.now.initial }
    ensures { IfOk result (λ text. text.items ≡ first_text flat.now orders) }
{
    let condition = AtLeast {
        place: orders.place,
        least: orders.least,
    };
    let many = orders.batch;
    let seeds = Seeds {
        first: many.seed,
        runs: many.runs,
    };
    let passages = passages(rt, alloc, flat, seeds, many.limits, many.workers, condition)?;
    passages_text(alloc, many.runs, passages)
}

/// Puts the text of the passages that are ordered of a text's network.
fn put_first<R: Threads + Sync, K: Sink>(
    rt: &R,
    alloc: Global,
    flat: &Flat,
    orders: FirstOrders,
    sink: &mut K,
) -> Status
    requires can_run { CanRunMany orders.batch }
    requires seeds { HasSeeds orders.batch }
    requires place { orders.place < length flat.now.initial }
    ensures answer { (text : List ℕ) → accepted_at orders.place text ≡ Ok flat.now
        → ServesText (first_meaning orders) (Ok result) text (K.held sink.old) (K.held sink.new) }
    ensures write { result ≡ Status.WriteFault → CountRose (K.faults sink.old) (K.faults sink.new) }
{
    let Ok(text) = first_text(rt, alloc, flat, orders) else {
        return Status::NoMemory;
    };
    if put_all(sink, text.as_slice()) {
        Status::Done
    } else {
        Status::WriteFault
    }
}

/// The refusal of a place that the network doesn't have.
fn no_such_place() -> Refusal
    ensures { result ≡ no_such_place }
{
    Refusal {
        code: NO_SUCH_PLACE,
        line: 0,
        column: 0,
    }
}

/// Serves a network that a text was accepted as.
fn serve_network<R: Threads + Sync, K: Sink>(
    rt: &R,
    alloc: Global,
    flat: &Flat,
    orders: FirstOrders,
    sink: &mut K,
) -> Result<Status, Refusal>
    requires can_run { CanRunMany orders.batch }
    requires seeds { HasSeeds orders.batch }
    ensures answer { (text : List ℕ) → accepted text ≡ Ok flat.now
        → ServesText (first_meaning orders) result text (K.held sink.old) (K.held sink.new) }
    ensures write { result ≡ Ok Status.WriteFault → CountRose (K.faults sink.old) (K.faults sink.new) }
{
    if orders.place < flat.places() {
        Ok(put_first(rt, alloc, flat, orders, sink))
    } else {
        Err(no_such_place())
    }
}

/// Serves a text.
fn serve_first<R: Threads + Sync, K: Sink>(
    rt: &R,
    alloc: Global,
    orders: FirstOrders,
    text: &[u8],
    sink: &mut K,
) -> Result<Status, Refusal>
    requires can_run { CanRunMany orders.batch }
    requires seeds { HasSeeds orders.batch }
    requires short { length text.now ≤ model_bound.bytes }
    ensures answer { ServesText (first_meaning orders) result text.now (K.held sink.old)
        (K.held sink.new) }
    ensures write { result ≡ Ok Status.WriteFault → CountRose (K.faults sink.old) (K.faults sink.new) }
{
    match accept(alloc, text) {
        Ok(accepted) => serve_network(rt, alloc, &accepted.flat, orders, sink),
        Err(NotAccepted::Refused(refusal)) => Err(refusal),
        Err(NotAccepted::NoMemory) => Ok(Status::NoMemory),
    }
}

/// Reads all bytes and serves them.
#[tactic(auto, using(san_serve::proofs::ServeLemmas::serves_read, san_serve::proofs::ServeLemmas::serves_none, san_serve::proofs::ServeLemmas::was_read))]
fn read_first<R: Threads + Sync, S: Source, K: Sink>(
    rt: &R,
    alloc: Global,
    orders: FirstOrders,
    source: &mut S,
    sink: &mut K,
) -> Result<Status, Refusal>
    requires can_run { CanRunMany orders.batch }
    requires seeds { HasSeeds orders.batch }
    ensures answer { Serves (first_meaning orders) result (S.left source.old) (S.left source.new)
        (K.held sink.old) (K.held sink.new) }
    ensures read { result ≡ Ok Status.ReadFault → CountRose (S.faults source.old) (S.faults source.new) }
    ensures write { result ≡ Ok Status.WriteFault → CountRose (K.faults sink.old) (K.faults sink.new) }
{
    let bound = model_bound();
    match take_all(alloc, source, bound.bytes) {
        Ok(bytes) => serve_first(rt, alloc, orders, bytes.as_slice(), sink),
        Err(Taking::Over) => Err(bound.too_long()),
        Err(Taking::Failed) => Ok(Status::ReadFault),
        Err(Taking::NoMemory) => Ok(Status::NoMemory),
    }
}

/// Makes the passages of the model text that the source gives.
#[tactic(auto, using(san_serve::proofs::ServeLemmas::concluded))]
fn run_ordered<R: Threads + Sync, S: Source, K: Sink, N: Sink>(
    rt: &R,
    alloc: Global,
    orders: FirstOrders,
    source: &mut S,
    sink: &mut K,
    notes: &mut N,
) -> Status
    requires can_run { CanRunMany orders.batch }
    requires seeds { HasSeeds orders.batch }
    ensures answer { StatusSays (first_meaning orders) result (S.left source.old) (S.left source.new)
        (K.held sink.old) (K.held sink.new) }
    ensures noted { (line : List ℕ) × IsLine result (IsRefused model_bound
        (first_meaning orders).refuses (S.left source.old) (S.left source.new)) line × Noted (N.held notes.old) (N.held notes.new)
        (N.faults notes.old) (N.faults notes.new) line }
    ensures taken { result ≡ Status.Words → ⊥ }
    ensures read { result ≡ Status.ReadFault → CountRose (S.faults source.old) (S.faults source.new) }
    ensures write { result ≡ Status.WriteFault → CountRose (K.faults sink.old) (K.faults sink.new) }
{
    let answer = read_first(rt, alloc, orders, source, sink);
    conclude(alloc, answer, notes)
}

/// Makes the passages that were heard of words.
fn run_heard<R: Threads + Sync, S: Source, K: Sink, N: Sink>(
    rt: &R,
    alloc: Global,
    heard: HeardFirst,
    source: &mut S,
    sink: &mut K,
    notes: &mut N,
) -> Status
    requires can_run { CanRunFirst heard }
    requires seeds { HaveSeeds heard }
    ensures answer { HeardAnswers heard result (S.left source.old) (S.left source.new)
        (K.held sink.old) (K.held sink.new) }
    ensures unread { result ≡ Status.Words → (source.new ≡ source.old) × (sink.new ≡ sink.old) }
    ensures noted { (line : List ℕ) × IsLine result (HeardRefuses heard (S.left source.old)
        (S.left source.new)) line × Noted (N.held notes.old) (N.held notes.new) (N.faults notes.old)
        (N.faults notes.new) line }
    ensures read { result ≡ Status.ReadFault → CountRose (S.faults source.old) (S.faults source.new) }
    ensures write { result ≡ Status.WriteFault → CountRose (K.faults sink.old) (K.faults sink.new) }
{
    match heard {
        HeardFirst::First(orders) => run_ordered(rt, alloc, orders, source, sink, notes),
        HeardFirst::Refused => end_with(Status::Words, notes),
        HeardFirst::NoMemory => end_with(Status::NoMemory, notes),
    }
}

/// Makes the passages that the words order of the model text that the source gives, in several threads,
/// and puts its text into the sink, and a line on what went wrong into the notes. How many threads
/// the words order has no effect. A run that stops is counted in the text. A note that fails changes
/// no status.
#[tactic(auto, using(crate::proofs::HeardLemmas::heard_answers, crate::proofs::HeardLemmas::heard_seeds))]
pub fn first_words<R: Threads + Sync, S: Source, K: Sink, N: Sink>(
    rt: &R,
    alloc: Global,
    words: &[String],
    source: &mut S,
    sink: &mut K,
    notes: &mut N,
) -> Status
    ensures words { result ≡ Status.Words → IsFirst (map string_bytes words.now) → ⊥ }
    ensures taken { (IsFirst (map string_bytes words.now) → ⊥)
        → (result ≡ Status.Words) ⊎ (result ≡ Status.NoMemory) }
    ensures unread { result ≡ Status.Words → (source.new ≡ source.old) × (sink.new ≡ sink.old) }
    ensures answer { Firsts (map string_bytes words.now) result (S.left source.old)
        (S.left source.new) (K.held sink.old) (K.held sink.new) }
    ensures complete { (bytes : List ℕ) → S.left source.old ≡ Some bytes
        → IsFirst (map string_bytes words.now) → IsHindered result ⊎ ((orders : FirstOrders)
        × FirstSay (texts_of first_app (map string_bytes words.now)) orders
        × (result ≡ first_status orders bytes)) }
    ensures never { result ≡ Status.Stopped → ⊥ }
    ensures read { result ≡ Status.ReadFault → CountRose (S.faults source.old) (S.faults source.new) }
    ensures write { result ≡ Status.WriteFault → CountRose (K.faults sink.old) (K.faults sink.new) }
    ensures noted { (line : List ℕ) × IsLine result (FirstRefuses (map string_bytes words.now)
        (S.left source.old) (S.left source.new)) line × Noted (N.held notes.old) (N.held notes.new)
        (N.faults notes.old) (N.faults notes.new) line }
{
    let heard = hear_first(alloc, words);
    run_heard(rt, alloc, heard, source, sink, notes)
}
