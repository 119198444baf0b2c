//! The first stable marking of a run in which a condition holds.

ghost use Rattle.std.specs.Prelude.{◌≡◌, IfOk, Some, length};
ghost use Rattle.san_base.specs.Limits.{IsInRange};
ghost use Rattle.san_probe.specs.Markings.{IsMarkingOf};
ghost use Rattle.san_seq.specs.FlatRun.{marking_of};
ghost use Rattle.san_passage.specs.Passages.{met_in, passage_of};

use san_base::{Limits, NoMemory, Stop, Tick};
use san_net::Flat;
use san_probe::{Asking, Condition, Until};
use san_seq::{Seq, Stable, Stepped};
use std::alloc::Global;

/// When a condition first holds in a stable marking of a run.
#[derive(Clone, Copy, Debug, PartialEq, Eq)]
pub enum Passage {
    /// In this tick, after so many completions.
    At(Tick, u64),
    /// In none up to the horizon.
    Never,
    /// The run stopped before it did.
    Stopped(Stop),
}

/// Where a run is stable, if the condition holds in its marking.
fn met<F: Asking, M: Condition>(seq: &Seq<'_>, until: &Until<F, M>) -> Option<Stable>
    requires { IsMarkingOf until.now.1 (marking_of seq.now.run_phase) }
    ensures { result ≡ met_in (M.holds until.now.0) seq.now }
{
    if until.at(seq.marking()) {
        seq.stable()
    } else {
        None
    }
}

/// When a condition first holds in a stable marking of a run, from its opening on. It is asked
/// before the timers are renewed, so that a trap of their renewal comes later. Own rules.
pub fn first_passage<F: Asking, M: Condition>(
    alloc: Global,
    flat: &Flat,
    seed: u64,
    limits: Limits,
    until: &Until<F, M>,
) -> Result<Passage, NoMemory>
    requires limits { IsInRange limits }
    requires places { until.now.1 ≡ length flat.now.initial }
    ensures { IfOk result (λ p. Some p ≡ passage_of flat.now seed limits (M.holds until.now.0)) }
{
    flat.is_network();
    let mut seq = Seq::open(alloc, flat, seed, limits)?;
    'steps: loop {
        if let Some(at) = met(&seq, until) {
            return Ok(Passage::At(at.time, at.count));
        }
        match seq.step() {
            Stepped::Event(_) => {}
            Stepped::End => return Ok(Passage::Never),
            Stepped::Stopped(stop) => return Ok(Passage::Stopped(stop)),
        }
    }
}
