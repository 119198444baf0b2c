//! A measure summed over the ticks of a run.

ghost use Rattle.std.specs.Prelude.{◌≡◌, ◌+◌, ◌-◌, ◌+ℤ◌, ◌*ℤ◌, ◌*◌, ◌≤◌, ◌^◌, Some, IfOk, length, pos, unsigned_abs};
ghost use Rattle.san_base.specs.Limits.{IsInRange};
ghost use Rattle.san_base.specs.declared.limits.TheConstants.{MAX_TICKS};
ghost use Rattle.san_probe.specs.Watching.{watched_of};
ghost use Rattle.san_probe.specs.inner.Progress.{ticks_before};

use crate::gauge::{Gauge, Measure, Reading};
use san_base::{Limits, NoMemory, Stop, Tick};
use san_net::Flat;
use san_seq::{Seq, Stepped};
use std::alloc::Global;

/// What watching a run came to.
#[derive(Clone, Copy, Debug, PartialEq, Eq)]
pub enum Watched {
    /// The sum over the ticks of the interval.
    Sum(i128),
    /// The run stopped before its horizon.
    Stopped(Stop),
    /// The interval passes the horizon's tick.
    Beyond,
}

/// How far a run was watched: the sum over the ticks of the interval that were counted, how many
/// these are, and the measure of the present marking.
#[derive(Clone, Copy)]
struct Progress {
    sum: i128,
    counted: u64,
    value: i64,
}

/// Of the ticks from one to before another, how many are before a time.
fn ticks_before(from: Tick, to: Tick, time: u64) -> u64
    ensures value { result ≡ ticks_before from.0 to.0 time }
    ensures few { result ≤ time }
{
    let end = if time < to.0 { time } else { to.0 };
    end.saturating_sub(from.0)
}

/// A value that stays for so many ticks.
fn times(value: i64, ticks: u64) -> i128
    requires few { ticks ≤ MAX_TICKS }
    ensures value { result ≡ value *ℤ pos ticks }
    ensures small { unsigned_abs result ≤ ticks * 2 ^ 63 }
{
    i128::from(value) * i128::from(ticks)
}

/// The sum once so many ticks are counted, up to which the value goes on.
fn accrue(progress: Progress, counted: u64) -> i128
    requires sum { unsigned_abs progress.sum ≤ progress.counted * 2 ^ 63 }
    requires later { progress.counted ≤ counted }
    requires few { counted ≤ MAX_TICKS }
    ensures sum { result ≡ progress.sum +ℤ progress.value *ℤ pos (counted - progress.counted) }
    ensures small { unsigned_abs result ≤ counted * 2 ^ 63 }
{
    progress.sum + times(progress.value, counted - progress.counted)
}

/// Sums a measure over the markings at the ends of the ticks from `from` to `to - 1` of a run from
/// its opening on. Markings that stay for many ticks are read once.
pub fn watch<F: Reading, M: Measure>(
    alloc: Global,
    flat: &Flat,
    seed: u64,
    limits: Limits,
    from: Tick,
    to: Tick,
    gauge: &Gauge<F, M>,
) -> Result<Watched, NoMemory>
    requires limits { IsInRange limits }
    requires places { gauge.now.1 ≡ length flat.now.initial }
    ensures { IfOk result (λ w. Some w ≡ watched_of flat.now seed limits (M.value gauge.now.0)
        from.0 to.0) }
{
    flat.is_network();
    let mut seq = Seq::open(alloc, flat, seed, limits)?;
    let mut progress = Progress {
        sum: 0,
        counted: 0,
        value: gauge.at(seq.marking()),
    };
    'steps: loop {
        match seq.step() {
            Stepped::Event(event) => {
                let counted = ticks_before(from, to, event.time.0);
                let sum = accrue(progress, counted);
                let value = gauge.at(seq.marking());
                progress = Progress {
                    sum,
                    counted,
                    value,
                };
            }
            Stepped::End => {
                if to.0 > limits.horizon.0 + 1 {
                    return Ok(Watched::Beyond);
                }
                let counted = ticks_before(from, to, limits.horizon.0 + 1);
                return Ok(Watched::Sum(accrue(progress, counted)));
            }
            Stepped::Stopped(stop) => return Ok(Watched::Stopped(stop)),
        }
    }
}
