//! The lines of completions and of the ending.

ghost use Rattle.std.specs.Prelude.{◌≡◌, ◌<◌, ◌∷◌, ◌++◌, [], IfOk, MatchBool, codes, map};
ghost use Rattle.san_net.specs.Laid.{acts_of};
ghost use Rattle.san_report.specs.Lines.{act_name, ending_line, event_line, leaf_of, leaf_path, stop_line, timed_line, trap_word};
ghost use Rattle.san_report.specs.Puts.{EndsIn, StopsIn, Wrote};

use crate::path::{act_name, leaf_path};
use crate::pieces::{append_pieces, put_pieces};
use crate::vec_sink::VecSink;
use itoa::Buffer;
use san_base::{ActId, Ending, Event, NoMemory, Sink, Stop, SureSink, Tick, Trap};
use san_net::Flat;
use std::alloc::Global;

/// The pieces of a completion's line, whose numbers are given in digits.
fn event_pieces<'a>(
    number: &'a [u8],
    time: &'a [u8],
    case: &'a [u8],
    flat: &'a Flat,
    act: ActId,
) -> [&'a [u8]; 10]
    requires { act.0 < acts_of flat.now.parts }
    ensures { map (λ p. p.now) result ≡ number.now ∷ codes " " ∷ time.now ∷ codes " "
        ∷ leaf_path flat.now (leaf_of flat.now act.0) ∷ codes "." ∷ act_name flat.now act.0
        ∷ codes " " ∷ case.now ∷ codes "\n" ∷ [] }
{
    [
        number,
        b" ",
        time,
        b" ",
        leaf_path(flat, act),
        b".",
        act_name(flat, act),
        b" ",
        case,
        b"\n",
    ]
}

/// Writes the line of a completion, whose number in the run, from 0, is `n`.
#[tactic(auto, unfolding(crate::specs::Lines::event_line))]
pub fn put_event<K: Sink>(sink: &mut K, flat: &Flat, n: u64, event: Event) -> bool
    requires { event.act.0 < acts_of flat.now.parts }
    ensures { Wrote result (K.held sink.old) (K.held sink.new) (K.faults sink.old)
        (K.faults sink.new) (event_line flat.now n event) }
{
    let (mut number, mut time, mut case) = (Buffer::new(), Buffer::new(), Buffer::new());
    let (number, time, case) = (
        number.format(n).as_bytes(),
        time.format(event.time.0).as_bytes(),
        case.format(event.case).as_bytes(),
    );
    put_pieces(sink, &event_pieces(number, time, case, flat, event.act))
}

/// Writes the line of a completion onto a page, where there is room for it; else nothing.
#[tactic(auto, unfolding(crate::specs::Lines::event_line))]
pub(crate) fn append_event(page: &mut SureSink, flat: &Flat, n: u64, event: Event) -> bool
    requires { event.act.0 < acts_of flat.now.parts }
    ensures { MatchBool result (page.new.held ≡ page.old.held ++ event_line flat.now n event)
        (page.new ≡ page.old) }
{
    let (mut number, mut time, mut case) = (Buffer::new(), Buffer::new(), Buffer::new());
    let (number, time, case) = (
        number.format(n).as_bytes(),
        time.format(event.time.0).as_bytes(),
        case.format(event.case).as_bytes(),
    );
    append_pieces(page, &event_pieces(number, time, case, flat, event.act))
}

/// The line of a completion, whose number in the run, from 0, is `n`.
pub fn event_line(alloc: Global, flat: &Flat, n: u64, event: Event) -> Result<Vec<u8>, NoMemory>
    requires { event.act.0 < acts_of flat.now.parts }
    ensures { IfOk result (λ text. text.items ≡ event_line flat.now n event) }
{
    let mut text = VecSink::new(alloc);
    if put_event(&mut text, flat, n, event) {
        Ok(text.bytes)
    } else {
        Err(NoMemory)
    }
}

fn trap_word<'a>(trap: Trap) -> &'a [u8]
    ensures { result.now ≡ trap_word trap }
{
    match trap {
        Trap::Arith => b"arith",
        Trap::Marking => b"marking",
        Trap::Delay => b"delay",
        Trap::Weight => b"weight",
        Trap::Index => b"index",
    }
}

fn put_timed<K: Sink>(sink: &mut K, words: &[u8], time: Tick) -> bool
    ensures { Wrote result (K.held sink.old) (K.held sink.new) (K.faults sink.old)
        (K.faults sink.new) (timed_line words.now time) }
{
    let mut digits = Buffer::new();
    put_pieces(sink, &[words, digits.format(time.0).as_bytes(), b"\n"])
}

fn put_stop<K: Sink>(sink: &mut K, flat: &Flat, stop: Stop) -> bool
    requires { StopsIn flat.now stop }
    ensures { Wrote result (K.held sink.old) (K.held sink.new) (K.faults sink.old)
        (K.faults sink.new) (stop_line flat.now stop) }
{
    match stop {
        Stop::Unstable(time) => put_timed(sink, b"stop unstable ", time),
        Stop::Events(time) => put_timed(sink, b"stop events ", time),
        Stop::Trap(trap, time, act) => {
            let mut digits = Buffer::new();
            put_pieces(
                sink,
                &[
                    b"stop trap ",
                    trap_word(trap),
                    b" ",
                    digits.format(time.0).as_bytes(),
                    b" ",
                    leaf_path(flat, act),
                    b".",
                    act_name(flat, act),
                    b"\n",
                ],
            )
        }
    }
}

/// Writes the line of a run's ending after `n` completions.
#[tactic(auto, unfolding(crate::specs::Lines::ending_line))]
pub fn put_ending<K: Sink>(sink: &mut K, flat: &Flat, n: u64, ending: Ending) -> bool
    requires { EndsIn flat.now ending }
    ensures { Wrote result (K.held sink.old) (K.held sink.new) (K.faults sink.old)
        (K.faults sink.new) (ending_line flat.now n ending) }
{
    match ending {
        Ending::End(horizon) => {
            let (mut time, mut count) = (Buffer::new(), Buffer::new());
            put_pieces(
                sink,
                &[
                    b"end ",
                    time.format(horizon.0).as_bytes(),
                    b" ",
                    count.format(n).as_bytes(),
                    b"\n",
                ],
            )
        }
        Ending::Stop(stop) => put_stop(sink, flat, stop),
    }
}

/// The line of a run's ending after `n` completions.
pub fn ending_line(alloc: Global, flat: &Flat, n: u64, ending: Ending) -> Result<Vec<u8>, NoMemory>
    requires { EndsIn flat.now ending }
    ensures { IfOk result (λ text. text.items ≡ ending_line flat.now n ending) }
{
    let mut text = VecSink::new(alloc);
    if put_ending(&mut text, flat, n, ending) {
        Ok(text.bytes)
    } else {
        Err(NoMemory)
    }
}
