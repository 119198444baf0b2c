//! A leaf's timers, and the numbers of the draws that it took.

ghost use Rattle.std.specs.Prelude.{◌≡◌, ◌<◌, ◌+◌, IfOk, None, length, map, slice_index};
ghost use Rattle.std.specs.Option.{option_map};
ghost use Rattle.san_base.specs.declared.limits.TheConstants.{MAX_DRAWS};
ghost use Rattle.san_clock.specs.Rows.{timer_in};
ghost use Rattle.san_law.specs.Activity.{with_case};
ghost use Rattle.san_law.specs.Net.{without_timer};
ghost use Rattle.san_law.specs.State.{blank_row, repeated};

use san_base::NoMemory;
use std::alloc::Global;
use std::marker::Model;

/// When an activity is due, in ticks, and whether its activation predicate held.
#[derive(Clone, Copy, Debug, PartialEq, Eq)]
pub struct Timer {
    pub due: u64,
    pub held: bool,
}

/// An activity's timer, if it has one, and the number of its next delay draw.
pub(crate) type Clock = (Option<Timer>, u64);

/// A leaf's timers and the numbers of its next draws, by activity.
#[derive(Debug, Drop)]
pub struct Row {
    pub(crate) timers: Vec<Option<Timer>>,
    pub(crate) delays: Vec<u64>,
    cases: Vec<u64>,
}

impl Model for Row {
    ghost use Rattle.std.specs.Prelude.{map};
    ghost use Rattle.std.specs.Option.{option_map};
    ghost use Rattle.san_law.specs.Net as net;
    ghost use Rattle.san_clock.specs.Rows.{timer_in};

    ghost Value = { net.Row };

    ghost view = { λ r. record { timers = map (option_map timer_in) r.timers.items; delays = r.delays.items; cases = r.cases.items } };
}

/// `acts` numbers of draws, none taken.
fn undrawn(alloc: Global, acts: usize) -> Result<Vec<u64>, NoMemory>
    ensures { IfOk result (λ v. v.items ≡ repeated acts 0) }
{
    let mut numbers = Vec::with_capacity(alloc, acts)?;
    'acts: for k in 0..acts {
        numbers.push(0)?;
    }
    Ok(numbers)
}

/// `acts` activities without a timer.
fn untimed(alloc: Global, acts: usize) -> Result<Vec<Option<Timer>>, NoMemory>
    ensures { IfOk result (λ v. v.items ≡ repeated acts None) }
{
    let mut timers = Vec::with_capacity(alloc, acts)?;
    'acts: for k in 0..acts {
        timers.push(None)?;
    }
    Ok(timers)
}

impl Row {
    /// The row of `acts` activities before the first step: no timer, and no draw taken.
    pub fn blank(alloc: Global, acts: usize) -> Result<Row, NoMemory>
        ensures { IfOk result (λ r. r ≡ blank_row acts) }
    {
        let timers = untimed(alloc, acts)?;
        let delays = undrawn(alloc, acts)?;
        let cases = undrawn(alloc, acts)?;
        Ok(Row {
            timers,
            delays,
            cases,
        })
    }

    /// An equal row.
    pub fn copy(&self, alloc: Global) -> Result<Row, NoMemory>
        ensures { IfOk result (λ r. r ≡ self.now) }
    {
        Ok(Row {
            timers: self.timers.to_vec(alloc)?,
            delays: self.delays.to_vec(alloc)?,
            cases: self.cases.to_vec(alloc)?,
        })
    }

    /// The timers, by activity.
    pub fn timers(&self) -> &[Option<Timer>]
        ensures { map (option_map timer_in) result.now ≡ self.now.timers }
    {
        self.timers.as_slice()
    }

    /// The numbers of delay draws that were taken, by activity.
    pub fn delays(&self) -> &[u64]
        ensures { result.now ≡ self.now.delays }
    {
        self.delays.as_slice()
    }

    /// The numbers of case draws that were taken, by activity.
    pub fn cases(&self) -> &[u64]
        ensures { result.now ≡ self.now.cases }
    {
        self.cases.as_slice()
    }

    /// Drops an activity's timer.
    pub fn drop_timer(&mut self, act: u32)
        requires { act < length self.old.timers }
        ensures { self.new ≡ without_timer self.old act }
    {
        self.timers[act as usize] = None;
    }

    /// The number of an activity's next case draw.
    pub(crate) fn next_case(&self, act: u32) -> u64
        requires { act < length self.now.cases }
        ensures { result ≡ slice_index self.now.cases act }
    {
        self.cases[act as usize]
    }

    /// Counts a case draw that was taken.
    pub(crate) fn count_case(&mut self, act: u32)
        requires act { act < length self.old.cases }
        requires number { slice_index self.old.cases act + 1 < MAX_DRAWS }
        ensures { self.new ≡ with_case self.old act }
    {
        self.cases[act as usize] += 1;
    }
}
