//! The piece that a machine needs next: made from its own values, and taken.

ghost use Rattle.std.specs.Prelude.{◌≡◌, ◌<◌, IfOk, Some, length, slice_get};
ghost use Rattle.san_net.specs.declared.part.Part.{Part};
ghost use Rattle.san_core.specs.Machines.{IsNeeded};
ghost use Rattle.san_core.specs.Redone.{RedoneBy};
ghost use Rattle.san_core.specs.Needed.{IsNeed, NeedBy};

use crate::admission::Taking;
use crate::machine::Machine;
use crate::redoing::Redoing;
use san_base::{Kind, LeafId, NoMemory, Tick};
use san_leaf::Piece;
use san_turn::Need;
use std::alloc::Global;

impl Machine {
    /// Whose piece is of this leaf, kind and time.
    fn taking(&self, leaf: LeafId, kind: Kind, time: Tick) -> Taking
        requires { leaf.0 < length self.now.network.parts }
        ensures of { (result.leaf ≡ leaf) × (result.kind ≡ kind) × (result.time ≡ time) }
        ensures first { (p : Part) → slice_get self.now.network.parts leaf.0 ≡ Some p
            → p.first ≡ result.first }
    {
        Taking {
            leaf,
            first: self.flat.get().part(leaf).get().first,
            kind,
            time,
        }
    }

    /// Whose piece is needed next; none where the machine has ended.
    pub fn needed(&self) -> Option<Taking>
        ensures { NeedBy self.now result }
    {
        self.flat.get().is_network();
        match self.held.need() {
            Need::Settle(leaf) => Some(self.taking(leaf, Kind::Settle, self.held.time())),
            Need::Refresh(leaf) => Some(self.taking(leaf, Kind::Refresh, self.held.time())),
            Need::Fire(leaf, act, time) => Some(self.taking(leaf, Kind::Fire(act), time)),
            Need::End => None,
        }
    }

    /// The needed piece, made from the committed values.
    pub fn make(&mut self, alloc: Global, taking: Taking) -> Result<Piece, NoMemory>
        requires { IsNeed self.old taking }
        ensures made { IfOk result (IsNeeded self.old) }
        ensures same { self.new ≡ self.old }
    {
        self.flat.get().is_network();
        self.maker
            .make(alloc, self.flat.get(), &self.held, self.seed, taking)
    }

    /// Makes the needed piece from the committed values and takes it; a machine that has ended
    /// needs none. Without memory nothing changes.
    pub fn take_needed(&mut self, alloc: Global) -> Result<Redoing, NoMemory>
        ensures { RedoneBy self.old self.new result }
    {
        self.follows();
        let Some(taking) = self.needed() else {
            return Ok(Redoing::Ended);
        };
        let piece = self.make(alloc, taking)?;
        self.reserve(1)?;
        self.take(piece);
        Ok(Redoing::Redone)
    }
}
