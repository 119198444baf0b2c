//! The sequential run of a network.

ghost use Rattle.std.specs.Prelude.{IfOk, Some, ℕ, ◌≡◌};
ghost use Rattle.san_base.specs.Limits.{IsInRange};
ghost use Rattle.san_draw.specs.Key.{draw_of};
ghost use Rattle.san_net.specs.Network.{net_of};
ghost use Rattle.san_seq.specs.FlatRun as run;
ghost use Rattle.san_net.specs.Runs.{limits_in};
ghost use Rattle.san_seq.specs.Outcomes.{stepped_of};
ghost use Rattle.san_seq.specs.inner.Held as held;
ghost use Rattle.san_seq.specs.inner.Nexts.{next_in};

use crate::completion::Room;
use crate::next::Next;
use crate::rows::Rows;
use crate::stale::Stale;
use crate::state::State;
use crate::step::{next_of, step};
use crate::steps::{Stable, Stepped, Trajectory};
use crate::wakes::Wakes;
use san_base::{Ending, Event, Items, Limits, NoMemory, Tick};
use san_clock::{delay_tables, drawn_streams};
use san_delay::DelayTables;
use san_draw::Streams;
use san_net::Flat;
use std::alloc::Global;
use std::marker::Model;

/// A run of a network, one step after another. All of its memory is taken by `open`.
#[derive(Drop)]
pub struct Seq<'a> {
    flat: &'a Flat,
    tables: DelayTables,
    streams: Streams,
    limits: Limits,
    /// Which leaves a change of a place concerns.
    wakes: Wakes,
    /// What may have to be looked at in the next step.
    stale: Stale,
    state: State,
    /// Once the run is over: how. Of the state only the marking counts then.
    over: Option<Ending>,
}

impl<'a> Model for Seq<'a> {
    ghost use Rattle.san_seq.specs.FlatRun.{Run, run_phase_of};
    ghost use Rattle.san_seq.specs.inner.Held.{IsRun};
    ghost use Rattle.san_net.specs.contracts.part.Part as of_part;
    ghost use Rattle.std.specs.Coded.{codes};

    ghost Value = { Run };

    ghost coded = { Prim.hlevel (codes, of_part.the_row.coded) };

    ghost view = { λ r. record { network = r.flat.now; seed = r.streams.seed; limits = r.limits; run_phase = run_phase_of r.state r.over } };

    ghost invariant = { λ r. IsRun r.flat.now r.limits r.streams.streams r.wakes r.stale (run_phase_of r.state r.over) };
}

/// How a run is over after a step, if it is.
fn over_by(answer: Result<Event, Ending>) -> Option<Ending>
    ensures { result ≡ held.over_by answer }
{
    match answer {
        Ok(_) => None,
        Err(ending) => Some(ending),
    }
}

/// Where a state is stable, by what completes next in it.
fn where_stable(next: Next, state: &State) -> Option<Stable>
    ensures { result ≡ run.where_stable (next_in next) state.now }
{
    match next {
        Next::Stable => Some(Stable {
            time: Tick(state.time),
            count: state.count,
        }),
        Next::Completes(_, _) | Next::Traps(_, _, _) => None,
    }
}

/// What an event, or an ending, is as a step.
fn stepped_of(answer: Result<Event, Ending>) -> Stepped
    ensures { result ≡ stepped_of answer }
{
    match answer {
        Ok(event) => Stepped::Event(event),
        Err(Ending::End(_)) => Stepped::End,
        Err(Ending::Stop(stop)) => Stepped::Stopped(stop),
    }
}

impl<'a> Seq<'a> {
    /// Takes all memory of a run, which begins with the network's initial marking at time 0.
    pub fn open(
        alloc: Global,
        flat: &'a Flat,
        seed: u64,
        limits: Limits,
    ) -> Result<Seq<'a>, NoMemory>
        requires { IsInRange limits }
        ensures { IfOk result (λ r. r ≡ run.opening flat.now seed limits) }
    {
        flat.is_network();
        let tables = delay_tables(alloc, flat)?;
        let drawn = drawn_streams(alloc, flat)?;
        let streams = Streams::open(alloc, seed, &drawn)?;
        let marking = flat.initial_marking(alloc)?;
        let stable = flat.initial_marking(alloc)?;
        let rows = Rows::open(alloc, flat)?;
        let room = Room::open(alloc)?;
        let state = State {
            time: 0,
            marking,
            stable,
            rows,
            room,
            burst: 0,
            last: None,
            count: 0,
        };
        let wakes = Wakes::open(alloc, flat)?;
        let stale = Stale::open(alloc, flat)?;
        Ok(Seq {
            flat,
            tables,
            streams,
            limits,
            wakes,
            stale,
            state,
            over: None,
        })
    }

    /// The next event, or the ending.
    fn answer(&mut self) -> Result<Event, Ending>
        ensures answered { result ≡ (run.step_of self.old).0 }
        ensures left { self.new ≡ run.after_step self.old }
    {
        if let Some(ending) = self.over {
            return Err(ending);
        }
        let answer = step(
            self.flat,
            &self.tables,
            &self.wakes,
            &mut self.streams,
            &self.limits,
            &mut self.stale,
            &mut self.state,
        );
        self.over = over_by(answer);
        answer
    }

    /// One step (own rules): the next instantaneous activity completes; where there is none, the
    /// timers are renewed and the one that is due first completes. Once the run is over, the same
    /// again.
    pub fn step(&mut self) -> Stepped
        ensures answered { result ≡ stepped_of (run.step_of self.old).0 }
        ensures left { self.new ≡ run.after_step self.old }
    {
        stepped_of(self.answer())
    }

    /// The time and the number of events, where no instantaneous activity is enabled or traps in
    /// the present marking, so that the next step renews the timers. A run that is over isn't
    /// stable.
    pub fn stable(&self) -> Option<Stable>
        ensures { result ≡ run.stable_of self.now }
    {
        match self.over {
            None => {
                let next = next_of(self.flat, &self.wakes, &self.stale, &self.state);
                where_stable(next, &self.state)
            }
            Some(_) => None,
        }
    }

    /// The values of the places, by their numbers.
    pub fn marking(&self) -> &[u32]
        ensures { result.now ≡ run.marking_of self.now.run_phase }
    {
        self.state.marking.as_slice()
    }

    /// All the events from here on, and the ending.
    pub fn run_all(mut self, alloc: Global) -> Result<Trajectory, NoMemory>
        ensures { IfOk result (λ t. Some t ≡ run.rest_of self.entry) }
    {
        let mut events = Items::new(alloc);
        'steps: loop {
            match self.answer() {
                Ok(event) => events.push(event)?,
                Err(ending) => return Ok(Trajectory { events, ending }),
            }
        }
    }
}
