//! The lines of a report on their way to a sink, which gets them page by page.

ghost use Rattle.std.specs.Prelude.{◌≡◌, ◌≤◌, ◌++◌, List, ℕ, [], Option, MatchBool, IfOk};
ghost use Rattle.san_base.specs.Flow.{AppendsPrefix, CountRose};
ghost use Rattle.san_report.specs.Puts.{Wrote};
ghost use Rattle.san_report.specs.Pages.{IsIn, Sent, line_of};

use crate::line::{append_event, put_ending, put_event};
use crate::worth::put_reward;
use san_base::{Ending, Event, NoMemory, Sink, SureSink, put_all};
use san_net::{Flat, Reward};
use san_reward::Worth;
use std::alloc::Global;
use std::marker::Model;

/// The most bytes of a report that are kept back, so that they reach the sink together.
const PAGE: usize = 65536;

/// A line of a report. Events and endings have the number of completions before them.
#[derive(Clone, Copy)]
pub enum Line<'a> {
    Event(u64, Event),
    Ending(u64, Ending),
    Reward(&'a Reward, Option<Worth>),
}

fn put_line<K: Sink>(sink: &mut K, flat: &Flat, line: Line<'_>) -> bool
    requires { IsIn flat.now line }
    ensures { Wrote result (K.held sink.old) (K.held sink.new) (K.faults sink.old)
        (K.faults sink.new) (line_of flat.now line.entry) }
{
    match line {
        Line::Event(n, event) => put_event(sink, flat, n, event),
        Line::Ending(n, ending) => put_ending(sink, flat, n, ending),
        Line::Reward(reward, worth) => put_reward(sink, reward, worth),
    }
}

/// Writes the line of a completion straight onto a page, where there is room for it; else nothing.
fn append_line(page: &mut SureSink, flat: &Flat, line: Line<'_>) -> bool
    requires { IsIn flat.now line }
    ensures { MatchBool result (page.new.held ≡ page.old.held ++ line_of flat.now line.entry)
        (page.new ≡ page.old) }
{
    match line {
        Line::Event(n, event) => append_event(page, flat, n, event),
        Line::Ending(_, _) | Line::Reward(_, _) => false,
    }
}

/// All that was kept back goes into the sink; false after a fault.
fn flush<K: Sink>(page: &mut SureSink, sink: &mut K) -> bool
    ensures bytes { (whole rest : List ℕ) (first : Option (List ℕ))
        → Sent first (K.held sink.old) page.old.held whole rest
        → MatchBool result (Sent first (K.held sink.new) [] whole rest)
        (AppendsPrefix first (K.held sink.new) whole) }
    ensures empty { MatchBool result (page.new.held ≡ []) (Unit {0}) }
    ensures cause { MatchBool result (Unit {0}) (CountRose (K.faults sink.old) (K.faults sink.new)) }
    ensures later { K.faults sink.old ≤ K.faults sink.new }
{
    let gone = put_all(sink, page.bytes());
    if gone {
        page.clear();
    }
    gone
}

/// Keeps a line back, where there is room for it, at the latest behind a flush.
#[tactic(auto, using(crate::proofs::PageLemmas::sent_written))]
fn keep<K: Sink>(page: &mut SureSink, sink: &mut K, bytes: &[u8]) -> bool
    ensures bytes { (whole rest : List ℕ) (first : Option (List ℕ))
        → Sent first (K.held sink.old) page.old.held whole (bytes.now ++ rest)
        → MatchBool result (Sent first (K.held sink.new) page.new.held whole rest)
        (AppendsPrefix first (K.held sink.new) whole) }
    ensures cause { MatchBool result (Unit {0}) (CountRose (K.faults sink.old) (K.faults sink.new)) }
    ensures later { K.faults sink.old ≤ K.faults sink.new }
{
    if bytes.len() <= page.room() {
        page.append(bytes);
        return true;
    }
    if !flush(page, sink) {
        return false;
    }
    if bytes.len() <= page.room() {
        page.append(bytes);
        return true;
    }
    put_all(sink, bytes)
}

/// Puts a line straight into the sink, behind all that was kept back; false after a fault.
fn put_straight<K: Sink>(page: &mut SureSink, sink: &mut K, flat: &Flat, line: Line<'_>) -> bool
    requires { IsIn flat.now line }
    ensures bytes { (whole rest : List ℕ) (first : Option (List ℕ))
        → Sent first (K.held sink.old) page.old.held whole (line_of flat.now line.entry ++ rest)
        → MatchBool result (Sent first (K.held sink.new) page.new.held whole rest)
        (AppendsPrefix first (K.held sink.new) whole) }
    ensures cause { MatchBool result (Unit {0}) (CountRose (K.faults sink.old) (K.faults sink.new)) }
    ensures later { K.faults sink.old ≤ K.faults sink.new }
{
    if !flush(page, sink) {
        return false;
    }
    put_line(sink, flat, line)
}

/// The lines of a report on their way to a sink, which contracts see as the bytes that are kept
/// back, at most 64 KiB.
#[derive(Drop)]
pub struct Pages {
    line: SureSink,
    page: SureSink,
}

impl Model for Pages {
    ghost use Rattle.std.specs.Prelude.{List, ℕ};

    ghost Value = { List ℕ };

    ghost view = { λ p. p.page.held };
}

impl Pages {
    /// Takes all memory that the lines need; nothing is kept back.
    pub fn open(alloc: Global) -> Result<Pages, NoMemory>
        ensures { IfOk result (λ p. p ≡ []) }
    {
        let line = SureSink::new(alloc, PAGE)?;
        let page = SureSink::new(alloc, PAGE)?;
        Ok(Pages { line, page })
    }

    /// Puts all that was kept back into the sink; false after a fault.
    pub fn flush<K: Sink>(&mut self, sink: &mut K) -> bool
        ensures bytes { (whole rest : List ℕ) (first : Option (List ℕ))
            → Sent first (K.held sink.old) self.old whole rest
            → MatchBool result (Sent first (K.held sink.new) [] whole rest)
            (AppendsPrefix first (K.held sink.new) whole) }
        ensures empty { MatchBool result (self.new ≡ []) (Unit {0}) }
        ensures cause { MatchBool result (Unit {0}) (CountRose (K.faults sink.old) (K.faults sink.new)) }
        ensures later { K.faults sink.old ≤ K.faults sink.new }
    {
        flush(&mut self.page, sink)
    }

    /// Puts a line; false after a fault of the sink.
    #[tactic(auto, using(crate::proofs::PageLemmas::line_kept))]
    pub fn put<K: Sink>(&mut self, sink: &mut K, flat: &Flat, line: Line<'_>) -> bool
        requires { IsIn flat.now line }
        ensures bytes { (whole rest : List ℕ) (first : Option (List ℕ))
            → Sent first (K.held sink.old) self.old whole (line_of flat.now line.entry ++ rest)
            → MatchBool result (Sent first (K.held sink.new) self.new whole rest)
            (AppendsPrefix first (K.held sink.new) whole) }
        ensures cause { MatchBool result (Unit {0}) (CountRose (K.faults sink.old) (K.faults sink.new)) }
        ensures later { K.faults sink.old ≤ K.faults sink.new }
    {
        if append_line(&mut self.page, flat, line) {
            return true;
        }
        self.line.clear();
        if put_line(&mut self.line, flat, line) {
            keep(&mut self.page, sink, self.line.bytes())
        } else {
            // it is longer than a page
            put_straight(&mut self.page, sink, flat, line)
        }
    }
}
