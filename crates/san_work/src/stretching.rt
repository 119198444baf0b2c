//! A stretch of a run by several workers.

ghost use Rattle.std.specs.Prelude.{◌≡◌, IfOk, IsTrue};
ghost use Rattle.san_base.specs.Limits.{IsInRange};
ghost use Rattle.san_core.specs.Committed.{StartsRun};
ghost use Rattle.san_net.specs.Runs.{net_at};
ghost use Rattle.san_work.specs.Stretches.{IsOfRun, IsStretch};

use crate::finish::finish;
use crate::gate::Gate;
use crate::maker::PieceMaker;
use crate::setting::Setting;
use crate::working::work;
use san_base::NoMemory;
use san_delay::DelayTables;
use san_net::Flat;
use san_speculation::{Board, Closed, Core};
use std::alloc::Global;
use std::thread;
use std::thread::Threads;

/// The turns of a worker in a stretch.
const MAX_TURNS: u32 = 1_000_000;

/// A worker's part of a stretch, with draws of its own.
fn work_ahead<B: Board, G: Gate>(
    alloc: Global,
    board: &B,
    pass: &mut B::Pass,
    flat: &Flat,
    seed: u64,
    tables: &DelayTables,
    gate: &G,
) {
    let mut maker = PieceMaker::open(alloc, flat, seed, tables);
    let _ = work(alloc, board, pass, &mut maker, gate, MAX_TURNS);
}

/// Lets each worker but the caller work, all at the same time, and waits until they have left.
fn work_all<R: Threads + Sync, B: Board, G: Gate + Sync>(
    rt: &R,
    alloc: Global,
    board: &B,
    passes: &mut [B::Pass],
    setting: &Setting,
    gate: &G,
) {
    let flat = setting.flat.get();
    let tables = setting.tables;
    let seed = setting.seed;
    if let [_, workers @ ..] = passes {
        let count = workers.len();
        if count > 0 {
            thread::for_each_mut(
                rt,
                workers,
                count,
                &|_, pass| work_ahead(alloc, board, pass, flat, seed, tables, gate),
            );
        }
    }
}

/// A core of this setting that has done nothing yet, for the caller alone.
fn fresh(alloc: Global, setting: &Setting) -> Result<Core, NoMemory>
    requires limits { IsInRange setting.now.limits }
    requires start { StartsRun (net_at setting.now.flat.now setting.now.seed setting.now.limits) setting.now.flat.now setting.now.start.now }
    ensures { IfOk result (IsOfRun setting.now.flat.now setting.now.seed setting.now.limits setting.now.start.now) }
{
    let start = setting.start.copy(alloc)?;
    let flat = setting.flat.share()?;
    Core::open(alloc, flat, setting.seed, setting.limits, start, 0)
}

/// Whether a core is of this setting.
fn is_own(core: &Core, setting: &Setting) -> bool
    ensures { IsTrue result → IsOfRun setting.now.flat.now setting.now.seed setting.now.limits setting.now.start.now core.now }
{
    core.is_of(
        setting.flat.get(),
        setting.seed,
        &setting.limits,
        setting.start,
    )
}

/// The core of a closed board, where it is one of this setting; else one that has done nothing yet.
fn core_of<B: Board>(
    alloc: Global,
    closed: Closed<B, B::Pass>,
    setting: &Setting,
) -> Result<Core, NoMemory>
    requires limits { IsInRange setting.now.limits }
    requires start { StartsRun (net_at setting.now.flat.now setting.now.seed setting.now.limits) setting.now.flat.now setting.now.start.now }
    ensures { IfOk result (IsOfRun setting.now.flat.now setting.now.seed setting.now.limits setting.now.start.now) }
{
    if let Closed::Core(core) = closed {
        if is_own(&core, setting) {
            return Ok(core);
        }
    }
    fresh(alloc, setting)
}

/// A stretch of the run from a start on: workers make pieces ahead over a board, for each pass but the
/// first; then the board is closed, and what is left is made in order of time, until the run has ended
/// or rests. Where the board doesn't give a core of this setting, all is made in order of time. So
/// whatever the board did, the core that comes of it is of the setting, has ended or rests, and its
/// events go on as the run does.
pub fn stretch<R: Threads + Sync, B: Board, G: Gate + Sync>(
    rt: &R,
    alloc: Global,
    board: B,
    passes: Vec<B::Pass>,
    setting: &Setting,
    gate: &G,
) -> Result<Core, NoMemory>
    requires limits { IsInRange setting.now.limits }
    requires start { StartsRun (net_at setting.now.flat.now setting.now.seed setting.now.limits) setting.now.flat.now setting.now.start.now }
    ensures { IfOk result (IsStretch setting.now.flat.now setting.now.seed setting.now.limits setting.now.start.now) }
{
    let mut passes = passes;
    work_all(rt, alloc, &board, passes.as_mut_slice(), setting, gate);
    let mut core = core_of(alloc, board.close(passes), setting)?;
    finish(alloc, &mut core)?;
    setting.flat.get().is_network();
    core.keeps_the_law();
    Ok(core)
}
