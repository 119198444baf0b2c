//! Making the needed piece anew.

ghost use Rattle.std.specs.Prelude.{◌<◌, length};
ghost use Rattle.san_speculation.specs.CoreCalls.{RedoBy};

use crate::booking::book;
use crate::need::is_full;
use crate::retaking::retake;
use crate::speculation::Core;
use crate::step::Step;
use san_base::NoMemory;
use san_core::Redoing;
use std::alloc::Global;

impl Core {
    /// Makes the needed piece from the committed values and commits it; the leaf's chain is thrown away
    /// where it doesn't go on from there. A core that has ended needs none, and one that rests takes
    /// none. Without memory nothing changes.
    pub fn redo(&mut self, alloc: Global, worker: u32) -> Result<Redoing, NoMemory>
        requires { worker < length self.old.book.claims }
        ensures { RedoBy self.old worker self.new result }
    {
        self.keeps_the_law();
        self.machine.network().is_network();
        let Some(taking) = self.machine.needed() else {
            return Ok(Redoing::Ended);
        };
        if is_full(&self.machine) {
            return Ok(Redoing::Rested);
        }
        let piece = self.machine.make(alloc, taking)?;
        self.journal.reserve(1)?;
        self.machine.reserve(1)?;
        let thrown = retake(
            &mut self.machine,
            &mut self.ahead,
            &mut self.soonest,
            taking,
            piece,
        );
        self.machine.follows();
        book(&mut self.journal, Step::Redo { worker });
        self.rollbacks += thrown;
        Ok(Redoing::Redone)
    }
}
