//! What the timers and cases of a network draw from: tables of its delays, and its streams.

ghost use Rattle.std.specs.Prelude.{◌≡◌, ◌++◌, IfOk};
ghost use Rattle.san_clock.specs.Drawn.{all_drawn, drawn_in, is_drawn};

use san_base::{LeafId, Name, NoMemory};
use san_delay::DelayTables;
use san_expr::Dist;
use san_net::{ActKind, Activity, Flat};
use std::alloc::Global;

/// The tables of all delays of a network's activities.
pub fn delay_tables(alloc: Global, flat: &Flat) -> Result<DelayTables, NoMemory> {
    let mut delays: Vec<&Dist> = Vec::new(alloc);
    'leaves: for leaf in 0..flat.leaves() {
        let atomic = flat.part(LeafId(leaf)).get().atomic.get();
        'acts: for act in atomic.acts.as_slice() {
            if let ActKind::Timed { delay, .. } = &act.1.kind {
                delays.push(delay)?;
            }
        }
    }
    DelayTables::open(alloc, &delays)
}

/// Whether an activity's delay is drawn: it is timed, and its delay isn't fixed.
fn is_drawn(kind: &ActKind) -> bool
    ensures { result ≡ is_drawn kind.now }
{
    match kind {
        ActKind::Timed {
            delay: Dist::Det(_),
            ..
        }
        | ActKind::Instant { .. } => false,
        ActKind::Timed { .. } => true,
    }
}

/// Puts the streams of a leaf's activities behind those of the leaves before it.
fn push_drawn(acts: &[(Name, Activity)], drawn: &mut Vec<bool>) -> Result<(), NoMemory>
    ensures { IfOk result (λ done. drawn.new.items ≡ drawn.old.items ++ drawn_in acts.now) }
{
    'acts: for act in acts {
        drawn.push(is_drawn(&act.1.kind))?;
        drawn.push(act.1.cases.len() > 1)?;
    }
    Ok(())
}

/// Which streams a run of a network draws from, for each activity the one of its delays and the one
/// of its cases: a fixed delay takes no draw, and neither does the only case.
pub fn drawn_streams(alloc: Global, flat: &Flat) -> Result<Vec<bool>, NoMemory>
    ensures { IfOk result (λ d. d.items ≡ all_drawn flat.now.parts) }
{
    let mut drawn = Vec::with_capacity(alloc, 2 * flat.acts() as usize)?;
    'leaves: for leaf in 0..flat.leaves() {
        let atomic = flat.part(LeafId(leaf)).get().atomic.get();
        push_drawn(atomic.acts.as_slice(), &mut drawn)?;
    }
    Ok(drawn)
}
