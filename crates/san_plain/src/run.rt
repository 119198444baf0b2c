//! The run of a network, shown as its report or as the report's summary.

ghost use Rattle.std.specs.Prelude.{◌≡◌, ◌≤◌, ◌++◌, List, ℕ, Option, IfOk, IfErr, length};
ghost use Rattle.san_base.specs.Flow.{CountRose};
ghost use Rattle.san_base.specs.Limits.{IsInRange};
ghost use Rattle.san_report.specs.Pages.{Sent};
ghost use Rattle.san_report.specs.Puts.{EndsIn};
ghost use Rattle.san_plain.specs.inner.Progress.{IsInLast, IsOver, IsStanding, IsUnderWay};
ghost use Rattle.san_plain.specs.inner.Progress.{PutsLast, TurnedTo, line_of_last};
ghost use Rattle.san_plain.specs.Reports.{Opened, Reports, Summarizes, Writes};

use crate::counted::CountedRun;
use san_base::{Ending, Event, Limits, NoMemory, Sink};
use san_net::Flat;
use san_report::{Line, Pages, close};
use std::alloc::Global;
use std::marker::Model;

/// The sink failed before the end of the report, or of its summary.
#[derive(Clone, Copy, Debug, PartialEq, Eq)]
pub struct Unwritten;

/// A run under way, with what of its report is kept back.
#[derive(Drop)]
struct RunInProgress<'a> {
    run: CountedRun<'a>,
    pages: Pages,
}

/// A run that has not begun, with all the memory that it takes.
#[derive(Drop)]
pub struct Run<'a> {
    progress: RunInProgress<'a>,
}

impl<'a> Model for Run<'a> {
    ghost use Rattle.san_plain.specs.inner.Progress.{IsUnwritten, opened_by};
    ghost use Rattle.san_plain.specs.Reports.{Opened};
    ghost use Rattle.san_net.specs.contracts.part.Part as of_part;
    ghost use Rattle.std.specs.Coded.{codes};

    ghost Value = { Opened };

    ghost coded = { Prim.hlevel (codes, of_part.the_row.coded) };

    ghost view = { λ r. opened_by r.progress.run };

    ghost invariant = { λ r. IsUnwritten r.progress };
}

/// Takes a step. The line of an event is put; an ending is answered.
fn turn<K: Sink>(
    progress: &mut RunInProgress<'_>,
    sink: &mut K,
) -> Result<Option<Ending>, Unwritten>
    requires { IsStanding progress.old.run }
    ensures report { (o : Opened) (first : Option (List ℕ))
        → IsUnderWay o first (K.held sink.old) progress.old
        → TurnedTo o first result (K.held sink.new) progress.old progress.new }
    ensures cause { IfErr result (λ e. CountRose (K.faults sink.old) (K.faults sink.new)) }
    ensures later { K.faults sink.old ≤ K.faults sink.new }
{
    let number = progress.run.count;
    match progress.run.step() {
        Ok(event) => {
            let line = Line::Event(number, event);
            if progress.pages.put(sink, progress.run.flat, line) {
                Ok(None)
            } else {
                Err(Unwritten)
            }
        }
        Err(ending) => Ok(Some(ending)),
    }
}

/// Puts the line of a run's last event, where there is one.
fn put_last<K: Sink>(
    progress: &mut RunInProgress<'_>,
    sink: &mut K,
    last: Option<(u64, Event)>,
) -> Result<(), Unwritten>
    requires { IsInLast progress.old.run.flat.now last }
    ensures report { (text rest : List ℕ) (first : Option (List ℕ))
        → Sent first (K.held sink.old) progress.old.pages text
        (line_of_last progress.old.run.flat.now last ++ rest)
        → PutsLast result first (K.held sink.new) progress.new.pages text rest }
    ensures run { progress.new.run ≡ progress.old.run }
    ensures cause { IfErr result (λ e. CountRose (K.faults sink.old) (K.faults sink.new)) }
    ensures later { K.faults sink.old ≤ K.faults sink.new }
{
    let Some((number, event)) = last else {
        return Ok(());
    };
    let line = Line::Event(number, event);
    if progress.pages.put(sink, progress.run.flat, line) {
        Ok(())
    } else {
        Err(Unwritten)
    }
}

/// Puts what is left of the text of a run that has ended.
fn finish<K: Sink>(
    progress: &mut RunInProgress<'_>,
    sink: &mut K,
    ending: Ending,
) -> Result<Ending, Unwritten>
    requires within { EndsIn progress.old.run.flat.now ending }
    requires spans { length progress.old.run.account.running.spans
        ≡ length progress.old.run.flat.now.rewards }
    ensures report { (o : Opened) (text : List ℕ) (first : Option (List ℕ))
        → IsOver o text first (K.held sink.old) progress.old.run progress.old.pages ending
        → Writes text result o first (K.held sink.new) }
    ensures cause { IfErr result (λ e. CountRose (K.faults sink.old) (K.faults sink.new)) }
    ensures later { K.faults sink.old ≤ K.faults sink.new }
{
    let run = &progress.run;
    let (flat, tally) = (run.flat, run.account.tally());
    if close(sink, &mut progress.pages, flat, tally, run.count, ending) {
        Ok(ending)
    } else {
        Err(Unwritten)
    }
}

impl<'a> Run<'a> {
    /// Takes all memory of a run and its report.
    pub fn open(
        alloc: Global,
        flat: &'a Flat,
        seed: u64,
        limits: Limits,
    ) -> Result<Run<'a>, NoMemory>
        requires { IsInRange limits }
        ensures { IfOk result (λ r. r ≡ record { network = flat.now; seed = seed; limits = limits }) }
    {
        let run = CountedRun::open(alloc, flat, seed, limits)?;
        let pages = Pages::open(alloc)?;
        Ok(Run {
            progress: RunInProgress { run, pages },
        })
    }

    /// Runs to the end, and puts the report (own format) into the sink in pieces of at most 64 KiB.
    /// A run that stops has a report too.
    pub fn write<K: Sink>(self, sink: &mut K) -> Result<Ending, Unwritten>
        ensures report { Reports result self.entry (K.held sink.old) (K.held sink.new) }
        ensures cause { IfErr result (λ e. CountRose (K.faults sink.old) (K.faults sink.new)) }
        ensures later { K.faults sink.old ≤ K.faults sink.new }
    {
        let mut progress = self.progress;
        progress.run.flat.is_network();
        'turns: loop {
            match turn(&mut progress, sink) {
                Ok(None) => {}
                Ok(Some(ending)) => return finish(&mut progress, sink, ending),
                Err(unwritten) => return Err(unwritten),
            }
        }
    }

    /// Runs to the end, and puts the report's summary into the sink: the report with all event lines
    /// but the last left out.
    pub fn summarize<K: Sink>(self, sink: &mut K) -> Result<Ending, Unwritten>
        ensures report { Summarizes result self.entry (K.held sink.old) (K.held sink.new) }
        ensures cause { IfErr result (λ e. CountRose (K.faults sink.old) (K.faults sink.new)) }
        ensures later { K.faults sink.old ≤ K.faults sink.new }
    {
        let mut progress = self.progress;
        progress.run.flat.is_network();
        let out = progress.run.run_out();
        match put_last(&mut progress, sink, out.last) {
            Ok(()) => finish(&mut progress, sink, out.ending),
            Err(unwritten) => Err(unwritten),
        }
    }
}
