//! The law of the generated models.

ghost use Rattle.std.specs.Prelude.{◌≡◌, ◌≤◌, ℕ, Ok};
ghost use Rattle.san_gen.specs.Texts.{model_text};
ghost use Rattle.san_gen.specs.declared.model.ModelKind.{ModelKind};
ghost use Rattle.san_gen.specs.declared.model.TheConstants.{MAX_COPIES, MIN_COPIES};
ghost use Rattle.san_net.specs.Network.{Network};
ghost use Rattle.san_serve.specs.Accepted.{accepted};

/// A law, which does nothing when it runs: the text of a generated model is accepted, whatever its
/// kind and the number of its copies.
#[tactic(auto, using(crate::proofs::AcceptedLemmas::made_accepted))]
pub fn generated_models_are_accepted()
    ensures { (kind : ModelKind) (copies : ℕ) → MIN_COPIES ≤ copies → copies ≤ MAX_COPIES
        → (network : Network) × (accepted (model_text kind copies) ≡ Ok network) }
{}
