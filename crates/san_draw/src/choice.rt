//! The choice of a number below another by a draw.
ghost use Rattle.std.specs.Prelude.{◌≡◌, ◌<◌, ◌≤◌, ◌^◌, ℕ};
ghost use Rattle.san_base.specs.Draws.{pick};

/// A number below w, by the high half of a product.
pub fn pick(u: u64, w: u64) -> u64
    requires { (1 ≤ w) × (w ≤ 2 ^ 32) }
    ensures value { result ≡ pick u w }
    ensures below { result < w }
{
    let product = u128::from(u) * u128::from(w);
    (product >> 64) as u64
}

/// Each number below w is picked by some draw.
#[tactic(auto, using(crate::proofs::ChoiceLemmas::picked_by))]
pub fn every_number_is_picked()
    ensures { (w v : ℕ) → w ≤ 2 ^ 32 → v < w → (u : ℕ) × (u < 2 ^ 64) × (pick u w ≡ v) }
{}
