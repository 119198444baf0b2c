//! A model text is run as words order it: the task, and the top calls of the programs that do it.

ghost use Rattle.std.specs.Prelude.{◌≡◌, ◌⊎◌, List, ℕ, IfErr, Some, is_some, map, string_bytes, true};
ghost use Rattle.san_base.specs.Flow.{CountRose};
ghost use Rattle.san_base.specs.Limits.{IsInRange};
ghost use Rattle.san_plain.specs.Reports.{Writes};
ghost use Rattle.san_serve.specs.Accepted.{IsRefusedText};
ghost use Rattle.san_serve.specs.Answers.{TextSays};
ghost use Rattle.san_serve.specs.Notes.{IsLine, Noted};
ghost use Rattle.san_serve.specs.Settled.{IsHindered};
ghost use Rattle.san_words.specs.Commands.{IsTaken, plain_app, run_app};
ghost use Rattle.san_words.specs.Hears.{CanMake, CanRun, OrdersSay, PlainSay, is_given, texts_of};
ghost use Rattle.san_words.specs.declared.options.NumberOption.TheVariants.{Make};
ghost use Rattle.san_cmd.specs.Runs.{Ran, RefusesFrom, RunRefuses, RunsWords, RunsFrom, made_text};
ghost use Rattle.san_cmd.specs.Runs.{output_of, run_by, run_meaning};
ghost use Rattle.san_cmd.specs.Settled.{Settles};
ghost use Rattle.san_cmd.specs.inner.Heard.{HeardAnswers, HeardRefuses, IsUnread};

use san_base::{Ending, Sink, Source, Status};
use san_gen::model_of;
use san_net::Flat;
use san_plain::{Run, Unwritten};
use san_serve::{
    Bound, Served, Task, accept, end_with, model_bound, serve_noted, serve_text_noted,
};
use san_words::{Heard, Made, Orders, hear, hear_plain};
use std::alloc::Global;

/// Puts the report of a run, or the report's summary where the model is generated.
fn put_run<K: Sink>(run: Run<'_>, make: Option<Made>, sink: &mut K) -> Result<Ending, Unwritten>
    ensures output { Writes (output_of make run.entry) result run.entry (K.held sink.old)
        (K.held sink.new) }
    ensures cause { IfErr result (λ e. CountRose (K.faults sink.old) (K.faults sink.new)) }
{
    match make {
        None => run.write(sink),
        Some(_) => run.summarize(sink),
    }
}

/// Runs a network, and puts what is to be seen of the run.
fn run_network<K: Sink>(alloc: Global, flat: &Flat, orders: Orders, sink: &mut K) -> Served
    requires { IsInRange orders.limits }
    ensures answer { Ran (output_of orders.make (run_by flat.now orders)) (run_by flat.now orders)
        result (K.held sink.old) (K.held sink.new) }
    ensures cause { result ≡ Served.WriteFault → CountRose (K.faults sink.old) (K.faults sink.new) }
{
    let Ok(run) = Run::open(alloc, flat, orders.seed, orders.limits) else {
        return Served::NoMemory;
    };
    match put_run(run, orders.make, sink) {
        Ok(Ending::End(_)) => Served::Done,
        Ok(Ending::Stop(_)) => Served::Stopped,
        Err(_) => Served::WriteFault,
    }
}

/// Running a model text.
#[derive(Clone, Copy)]
struct RunModel {
    orders: Orders,
    ghost in_range: { IsInRange orders.limits },
}

impl Task for RunModel {
    ghost use Rattle.san_cmd.specs.Runs.{run_meaning};

    ghost meaning = { λ t. run_meaning t.orders };

    fn bound(&self) -> Bound {
        model_bound()
    }

    #[tactic(auto, using(crate::proofs::RunLemmas::ran_text))]
    fn serve<K: Sink>(&self, alloc: Global, text: &[u8], sink: &mut K) -> Served {
        match accept(alloc, text) {
            Ok(accepted) => run_network(alloc, &accepted.flat, self.orders, sink),
            Err(fault) => Served::from(fault),
        }
    }
}

/// Runs a generated model.
fn run_made<K: Sink, N: Sink>(
    alloc: Global,
    orders: Orders,
    made: Made,
    sink: &mut K,
    notes: &mut N,
) -> Status
    requires in_range { IsInRange orders.limits }
    requires can_make { CanMake (Some made) }
    ensures answer { TextSays (run_meaning orders) result (made_text made) (K.held sink.old)
        (K.held sink.new) }
    ensures noted { (line : List ℕ) × IsLine result (IsRefusedText (made_text made)) line
        × Noted (N.held notes.old) (N.held notes.new) (N.faults notes.old) (N.faults notes.new) line }
    ensures write { result ≡ Status.WriteFault → CountRose (K.faults sink.old) (K.faults sink.new) }
{
    let Ok(text) = model_of(alloc, made.copies, made.kind) else {
        return end_with(Status::NoMemory, notes);
    };
    serve_text_noted(alloc, &RunModel { orders }, text.as_slice(), sink, notes)
}

/// Runs the model text that the source gives, or a generated one.
fn run_ordered<S: Source, K: Sink, N: Sink>(
    alloc: Global,
    orders: Orders,
    source: &mut S,
    sink: &mut K,
    notes: &mut N,
) -> Status
    requires in_range { IsInRange orders.limits }
    requires can_make { CanMake orders.make }
    ensures answer { RunsFrom orders.make orders result (S.left source.old) (S.left source.new)
        (K.held sink.old) (K.held sink.new) }
    ensures generated { is_some orders.make ≡ true → source.new ≡ source.old }
    ensures noted { (line : List ℕ) × IsLine result (RefusesFrom orders.make (S.left source.old)
        (S.left source.new)) line × Noted (N.held notes.old) (N.held notes.new) (N.faults notes.old)
        (N.faults notes.new) line }
    ensures taken { result ≡ Status.Words → ⊥ }
    ensures read { result ≡ Status.ReadFault → CountRose (S.faults source.old) (S.faults source.new) }
    ensures write { result ≡ Status.WriteFault → CountRose (K.faults sink.old) (K.faults sink.new) }
{
    match orders.make {
        None => serve_noted(alloc, &RunModel { orders }, source, sink, notes),
        Some(made) => run_made(alloc, orders, made, sink, notes),
    }
}

/// Runs what was heard of words.
fn run_heard<S: Source, K: Sink, N: Sink>(
    alloc: Global,
    heard: Heard,
    source: &mut S,
    sink: &mut K,
    notes: &mut N,
) -> Status
    requires { CanRun heard }
    ensures answer { HeardAnswers heard result (S.left source.old) (S.left source.new)
        (K.held sink.old) (K.held sink.new) }
    ensures unread { result ≡ Status.Words → (source.new ≡ source.old) × (sink.new ≡ sink.old) }
    ensures generated { IsUnread heard → source.new ≡ source.old }
    ensures noted { (line : List ℕ) × IsLine result (HeardRefuses heard (S.left source.old)
        (S.left source.new)) line × Noted (N.held notes.old) (N.held notes.new) (N.faults notes.old)
        (N.faults notes.new) line }
    ensures read { result ≡ Status.ReadFault → CountRose (S.faults source.old) (S.faults source.new) }
    ensures write { result ≡ Status.WriteFault → CountRose (K.faults sink.old) (K.faults sink.new) }
{
    match heard {
        Heard::Run(orders) => run_ordered(alloc, orders, source, sink, notes),
        Heard::Refused => end_with(Status::Words, notes),
        Heard::NoMemory => end_with(Status::NoMemory, notes),
    }
}

/// Runs the model text that the source gives, as the words order it, in one thread, and puts its
/// report into the sink, and a line on what went wrong into the notes. Where the words say that the
/// model is generated, nothing is read, and the report's summary is put. All memory of the run is
/// taken before the first byte is put. A note that fails changes no status.
#[tactic(auto, using(crate::proofs::RunLemmas::heard_answers))]
pub fn plain_words<S: Source, K: Sink, N: Sink>(
    alloc: Global,
    words: &[String],
    source: &mut S,
    sink: &mut K,
    notes: &mut N,
) -> Status
    ensures words { result ≡ Status.Words → IsTaken plain_app (map string_bytes words.now) → ⊥ }
    ensures taken { (IsTaken plain_app (map string_bytes words.now) → ⊥)
        → (result ≡ Status.Words) ⊎ (result ≡ Status.NoMemory) }
    ensures unread { result ≡ Status.Words → (source.new ≡ source.old) × (sink.new ≡ sink.old) }
    ensures generated { is_given (texts_of plain_app (map string_bytes words.now)) Make ≡ true
        → source.new ≡ source.old }
    ensures answer { RunsWords plain_app PlainSay (map string_bytes words.now) result
        (S.left source.old) (S.left source.new) (K.held sink.old) (K.held sink.new) }
    ensures complete { IsTaken plain_app (map string_bytes words.now) → IsHindered result
        ⊎ ((orders : Orders) × PlainSay (texts_of plain_app (map string_bytes words.now)) orders
        × Settles orders.make orders (S.left source.old) result) }
    ensures read { result ≡ Status.ReadFault → CountRose (S.faults source.old) (S.faults source.new) }
    ensures write { result ≡ Status.WriteFault → CountRose (K.faults sink.old) (K.faults sink.new) }
    ensures noted { (line : List ℕ) × IsLine result (RunRefuses plain_app PlainSay
        (map string_bytes words.now) (S.left source.old) (S.left source.new)) line
        × Noted (N.held notes.old) (N.held notes.new) (N.faults notes.old) (N.faults notes.new) line }
{
    let heard = hear_plain(alloc, words);
    run_heard(alloc, heard, source, sink, notes)
}

/// Runs the model text that the source gives, as the words of `sanrun` order it, and puts its report
/// into the sink, and a line on what went wrong into the notes; a generated model as `plain_words`
/// does. How far ahead the words order the run
/// to be, and in how many threads, has no effect. A note that fails changes no status.
#[tactic(auto, using(crate::proofs::RunLemmas::heard_answers))]
pub fn run_words<S: Source, K: Sink, N: Sink>(
    alloc: Global,
    words: &[String],
    source: &mut S,
    sink: &mut K,
    notes: &mut N,
) -> Status
    ensures words { result ≡ Status.Words → IsTaken run_app (map string_bytes words.now) → ⊥ }
    ensures taken { (IsTaken run_app (map string_bytes words.now) → ⊥)
        → (result ≡ Status.Words) ⊎ (result ≡ Status.NoMemory) }
    ensures unread { result ≡ Status.Words → (source.new ≡ source.old) × (sink.new ≡ sink.old) }
    ensures generated { is_given (texts_of run_app (map string_bytes words.now)) Make ≡ true
        → source.new ≡ source.old }
    ensures answer { RunsWords run_app OrdersSay (map string_bytes words.now) result
        (S.left source.old) (S.left source.new) (K.held sink.old) (K.held sink.new) }
    ensures complete { IsTaken run_app (map string_bytes words.now) → IsHindered result
        ⊎ ((orders : Orders) × OrdersSay (texts_of run_app (map string_bytes words.now)) orders
        × Settles orders.make orders (S.left source.old) result) }
    ensures read { result ≡ Status.ReadFault → CountRose (S.faults source.old) (S.faults source.new) }
    ensures write { result ≡ Status.WriteFault → CountRose (K.faults sink.old) (K.faults sink.new) }
    ensures noted { (line : List ℕ) × IsLine result (RunRefuses run_app OrdersSay
        (map string_bytes words.now) (S.left source.old) (S.left source.new)) line
        × Noted (N.held notes.old) (N.held notes.new) (N.faults notes.old) (N.faults notes.new) line }
{
    let heard = hear(alloc, words);
    run_heard(alloc, heard, source, sink, notes)
}
