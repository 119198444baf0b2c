//! The rest of a stretch, by the caller alone.

ghost use Rattle.std.specs.Prelude.{◌≡◌, OnOk};
ghost use Rattle.san_core.specs.Redone.{IsSameRun};
ghost use Rattle.san_work.specs.Stretches.{IsOver};

use san_base::NoMemory;
use san_core::Redoing;
use san_speculation::Core;
use std::alloc::Global;

/// Makes one needed piece after another until the run has ended or rests.
pub(crate) fn finish(alloc: Global, core: &mut Core) -> Result<(), NoMemory>
    ensures run { IsSameRun core.old.machine core.new.machine }
    ensures over { OnOk result (IsOver core.new) }
{
    'pieces: loop {
        core.keeps_the_law();
        match core.redo(alloc, 0) {
            Ok(Redoing::Redone) => {}
            Ok(Redoing::Ended) => return Ok(()),
            Ok(Redoing::Rested) => return Ok(()),
            Err(fault) => return Err(fault),
        }
    }
}
