//! Cutting pieces that read what has changed since.

ghost use Rattle.std.specs.Prelude.{◌<◌, length};
ghost use Rattle.san_speculation.specs.CoreCalls.{CutBy};

use crate::soonest::touch;
use crate::speculation::Core;
use crate::step::Step;
use san_base::{LeafId, NoMemory};

impl Core {
    /// Takes the first piece of a leaf's chain that read another value than stands at its stamp now,
    /// and all after it, out of the chain and the lines: how many there were. Without memory nothing
    /// changes.
    pub fn cut(&mut self, worker: u32, leaf: LeafId) -> Result<u32, NoMemory>
        requires { worker < length self.old.book.claims }
        ensures { CutBy self.old worker leaf.0 self.new result }
    {
        self.keeps_the_law();
        self.machine.network().is_network();
        let at = leaf.0 as usize;
        if at >= self.ahead.leaves() {
            return Ok(0);
        }
        let current = self.ahead.current(leaf);
        let gone = self.ahead.len(leaf) - current;
        if gone == 0 {
            return Ok(0);
        }
        self.journal.push(Step::Cut { worker, leaf })?;
        self.ahead.cut(leaf, current);
        touch(&mut self.soonest, leaf);
        self.rollbacks += 1;
        Ok(gone)
    }
}
