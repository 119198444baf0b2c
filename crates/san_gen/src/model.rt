//! Which model is generated, and of how many copies.

ghost use Rattle.std.specs.Prelude.{◌≡◌, ◌≤◌, IfOk, length};
ghost use Rattle.san_base.specs.declared.limits.TheConstants.{MAX_MODEL_BYTES};
ghost use Rattle.san_gen.specs.Texts.{model_text};
ghost use Rattle.san_gen.specs.declared.model.TheConstants.{MAX_COPIES, MIN_COPIES};

use crate::farm::farm_text;
use crate::ring::ring_text;
use san_base::NoMemory;
use std::alloc::Global;

/// The fewest copies of a generated model.
pub const MIN_COPIES: u32 = 2;

/// The most copies of a generated model.
pub const MAX_COPIES: u32 = 1_024;

/// A kind of generated model.
#[derive(Clone, Copy, Debug, PartialEq, Eq)]
pub enum ModelKind {
    /// Processors that fail and wait for the one crew that mends them.
    Farm,
    /// Stations that pass tokens on to the next one.
    Ring,
}

/// The text of a model of so many copies, in version 1 of the language, each line ended by a line
/// feed. It isn't longer than a model text may be.
#[tactic(auto, using(crate::proofs::LengthLemmas::short_farm, crate::proofs::LengthLemmas::short_ring))]
pub fn model_of(alloc: Global, copies: u32, kind: ModelKind) -> Result<Vec<u8>, NoMemory>
    requires least { MIN_COPIES ≤ copies }
    requires most { copies ≤ MAX_COPIES }
    ensures text { IfOk result (λ text. text.items ≡ model_text kind copies) }
    ensures short { IfOk result (λ text. length text.items ≤ MAX_MODEL_BYTES) }
{
    match kind {
        ModelKind::Farm => farm_text(alloc, copies),
        ModelKind::Ring => ring_text(alloc, copies),
    }
}
