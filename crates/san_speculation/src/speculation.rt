//! A core: a machine, and what is made ahead of it.

use crate::step::Step;
use san_ahead::Ahead;
use san_base::LeafId;
use san_core::Machine;
use san_winner::Winners;
use std::marker::Model;

/// A machine; what its workers make ahead of it; for the caller and each worker perhaps a claimed
/// leaf; the steps so far; how often pieces were thrown away; and for each leaf a time that its next
/// piece doesn't come before.
#[derive(Drop)]
pub struct Core {
    pub(crate) machine: Machine,
    pub(crate) ahead: Ahead,
    pub(crate) claims: Vec<Option<LeafId>>,
    pub(crate) journal: Vec<Step>,
    pub(crate) rollbacks: u64,
    pub(crate) soonest: Winners,
}

impl Model for Core {
    ghost use Rattle.std.specs.Coded.{codes};
    ghost use Rattle.san_net.specs.contracts.part.Part as of_part;
    ghost use Rattle.std.specs.Prelude.{map};
    ghost use Rattle.san_speculation.specs.Speculating.{CoreValue, IsReplayed, claim_in, core_by};
    ghost use Rattle.san_speculation.specs.inner.Soonest.{AreLow};

    ghost Value = { CoreValue };

    ghost coded = { Prim.hlevel (codes, of_part.the_row.coded) };

    ghost view = { λ c. core_by c.machine c.ahead c.claims.items c.journal.items c.rollbacks };

    ghost invariant = { λ c. IsReplayed (core_by c.machine c.ahead c.claims.items c.journal.items
        c.rollbacks) × AreLow c.machine c.ahead (map claim_in c.claims.items) c.soonest };
}
