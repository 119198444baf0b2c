//! Claiming the leaf whose next piece comes first.

ghost use Rattle.std.specs.Prelude.{◌<◌, length};
ghost use Rattle.san_speculation.specs.Claims.{ClaimBy};

use crate::booking::book;
use crate::claiming::{claim_of, goes_on, planned};
use crate::speculation::Core;
use crate::step::Step;
use san_base::NoMemory;
use san_book::MAX_STEPS_TO_CLAIM;
use san_leaf::Claim;

impl Core {
    /// Claims the free leaf whose next piece has the least time, and of these the least leaf; the
    /// claim can be made into a piece. None just where the run has ended, or the core rests, or its
    /// journal has as many steps as end all claims, or the rollbacks have come to their limit, or the
    /// worker holds a claim, or no leaf is free. Without memory nothing changes.
    pub fn claim(&mut self, worker: u32) -> Result<Option<Claim>, NoMemory>
        requires { worker < length self.old.book.claims }
        ensures { ClaimBy self.old worker self.new result }
    {
        self.keeps_the_law();
        self.machine.network().is_network();
        if !goes_on(&self.machine) {
            return Ok(None);
        }
        if self.journal.len() as u64 >= MAX_STEPS_TO_CLAIM {
            return Ok(None);
        }
        if self.rollbacks >= self.machine.limits().rollbacks {
            return Ok(None);
        }
        if self.claims[worker as usize].is_some() {
            return Ok(None);
        }
        let Some((leaf, plan)) = planned(
            &self.machine,
            &self.ahead,
            &self.claims,
            &mut self.soonest,
        ) else {
            return Ok(None);
        };
        self.journal.reserve(1)?;
        let claim = claim_of(&self.machine, &self.ahead, leaf, plan)?;
        book(&mut self.journal, Step::Claim { worker });
        self.claims[worker as usize] = Some(leaf);
        Ok(Some(claim))
    }
}
