//! A model text is shown in its canonical form: the task, and the top call of the program that does it.

ghost use Rattle.std.specs.Prelude.{◌≡◌, ◌<◌, ◌↔◌, ◌⊎◌, List, ℕ, Some, length};
ghost use Rattle.san_base.specs.Flow.{CountRose};
ghost use Rattle.san_serve.specs.Accepted.{IsRefusedText};
ghost use Rattle.san_serve.specs.Answers.{StatusSays, IsRefused};
ghost use Rattle.san_serve.specs.Bounds.{model_bound};
ghost use Rattle.san_serve.specs.Notes.{IsLine, Noted};
ghost use Rattle.san_serve.specs.Settled.{IsHindered};
ghost use Rattle.san_cmd.specs.Settled.{shown_status};
ghost use Rattle.san_cmd.specs.Shown.{show_meaning};
ghost use Rattle.san_cmd.specs.inner.Canon.{PutsCanon};

use san_base::{Sink, Source, Status, put_all};
use san_serve::{Bound, Served, Task, accept, end_with, model_bound, serve_noted};
use san_show::show;
use san_text::Syntax;
use std::alloc::Global;

/// Puts the canonical text of a syntax.
fn put_canon<K: Sink>(alloc: Global, syntax: &Syntax, sink: &mut K) -> Served
    ensures answer { PutsCanon syntax.now result (K.held sink.old) (K.held sink.new) }
    ensures cause { result ≡ Served.WriteFault → CountRose (K.faults sink.old) (K.faults sink.new) }
{
    let Ok(canon) = show(alloc, syntax) else {
        return Served::NoMemory;
    };
    if put_all(sink, canon.as_slice()) {
        Served::Done
    } else {
        Served::WriteFault
    }
}

/// Showing a model text.
#[derive(Clone, Copy)]
struct ShowModel;

impl Task for ShowModel {
    ghost use Rattle.san_cmd.specs.Shown.{show_meaning};

    ghost meaning = { λ _. show_meaning };

    fn bound(&self) -> Bound {
        model_bound()
    }

    #[tactic(auto, using(crate::proofs::ShowLemmas::shows_text))]
    fn serve<K: Sink>(&self, alloc: Global, text: &[u8], sink: &mut K) -> Served {
        match accept(alloc, text) {
            Ok(accepted) => put_canon(alloc, &accepted.parsed.syntax, sink),
            Err(fault) => Served::from(fault),
        }
    }
}

/// Reads a model text from the source and puts its canonical text into the sink, and a line on what
/// went wrong into the notes. It takes no words. A note that fails changes no status.
#[tactic(auto, using(crate::proofs::SettledLemmas::show_settled))]
pub fn show_words<S: Source, K: Sink, N: Sink>(
    alloc: Global,
    words: &[String],
    source: &mut S,
    sink: &mut K,
    notes: &mut N,
) -> Status
    ensures words { (result ≡ Status.Words) ↔ (0 < length words.now) }
    ensures unread { result ≡ Status.Words → (source.new ≡ source.old) × (sink.new ≡ sink.old) }
    ensures answer { StatusSays show_meaning result (S.left source.old) (S.left source.new) (K.held sink.old)
        (K.held sink.new) }
    ensures complete { (bytes : List ℕ) → S.left source.old ≡ Some bytes → length words.now ≡ 0
        → IsHindered result ⊎ (result ≡ shown_status bytes) }
    ensures read { result ≡ Status.ReadFault → CountRose (S.faults source.old) (S.faults source.new) }
    ensures write { result ≡ Status.WriteFault → CountRose (K.faults sink.old) (K.faults sink.new) }
    ensures noted { (line : List ℕ) × IsLine result (IsRefused model_bound IsRefusedText
        (S.left source.old) (S.left source.new)) line × Noted (N.held notes.old) (N.held notes.new)
        (N.faults notes.old) (N.faults notes.new) line }
{
    if words.is_empty() {
        serve_noted(alloc, &ShowModel, source, sink, notes)
    } else {
        end_with(Status::Words, notes)
    }
}
