//! Laws: geometric delays end, and the longest delay is reached.

ghost use Rattle.std.specs.Prelude.{◌≡◌, ◌+◌, ◌<◌, ◌≤◌, ℕ, List};
ghost use Rattle.san_expr.specs.Delay.{chance_left, delay_of, geometric};
ghost use Rattle.san_expr.specs.declared.dist.Dist.{Dist};
ghost use Rattle.san_delay.specs.Longest.{IsLongest, longest_of};
ghost use Rattle.san_delay.specs.Series.{IsLeast};
ghost use Rattle.san_delay.specs.Sound.{IsChance, IsSoundDelay};

/// The chance that a geometric delay goes on falls with each tick until it is 0, so that each draw
/// has a least number of ticks.
pub fn geometric_delays_end()
    ensures falls { (p q k : ℕ) → IsChance p q → 0 < chance_left p q k → chance_left p q (k + 1) < chance_left p q k }
    ensures ends { (p q k : ℕ) → IsChance p q → 64001 ≤ k → chance_left p q k ≡ 0 }
    ensures delay { (p q u : ℕ) → IsChance p q → IsLeast (λ d. chance_left p q d ≤ u) (geometric p q u) }
    ensures longest { (p q : ℕ) → IsChance p q → IsLeast (λ d. chance_left p q d ≡ 0) (geometric p q 0) }
    ensures within { (p q u : ℕ) → IsChance p q → geometric p q u ≤ 64001 }
{}

/// No draw gives a longer delay than the longest, and some draw gives that one; a trap of one draw
/// is that of each.
pub fn longest_delay_is_reached()
    ensures { (d : Dist) (m : List ℕ) → IsSoundDelay d → IsLongest (λ u. (delay_of d u m).answer) (longest_of d m).answer }
{}
