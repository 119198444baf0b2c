//! Committing what was made ahead.

ghost use Rattle.std.specs.Prelude.{◌<◌, length};
ghost use Rattle.san_speculation.specs.CoreCalls.{CommitBy};

use crate::booking::book;
use crate::committing::commit_pieces;
use crate::need::next_leaf;
use crate::speculation::Core;
use crate::step::Step;
use san_base::NoMemory;
use san_book::MAX_COMMIT;

impl Core {
    /// Commits pieces one after another while the needed one is the head of its chain and read what is
    /// committed: at most 64, and how many. Without memory nothing changes.
    pub fn commit(&mut self, worker: u32) -> Result<u32, NoMemory>
        requires { worker < length self.old.book.claims }
        ensures { CommitBy self.old worker self.new result }
    {
        self.keeps_the_law();
        self.machine.network().is_network();
        let Some(first) = next_leaf(&self.machine, &self.ahead) else {
            return Ok(0);
        };
        self.journal.reserve(1)?;
        self.machine.reserve(MAX_COMMIT)?;
        let pieces = commit_pieces(&mut self.machine, &mut self.ahead, &mut self.soonest, first);
        self.machine.follows();
        book(&mut self.journal, Step::Commit { worker, pieces });
        Ok(pieces)
    }
}
