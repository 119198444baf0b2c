//! A delay out of a table of delays and their weights.

ghost use Rattle.std.specs.Prelude.{◌≡◌, slice_index, map};
ghost use Rattle.san_base.specs.Draws.{weighted_choice};
ghost use Rattle.san_delay.specs.Longest.{greatest};
ghost use Rattle.san_delay.specs.Sound.{IsDelay, IsTable};

use san_draw::pick;

/// The entries of the longest table.
pub const MAX_ENTRIES: usize = 64;

/// The delay that a draw chooses by the weights.
pub(crate) fn delay(entries: &[(u64, u64)], u: u64) -> u64
    requires { IsTable entries.now }
    ensures value { result ≡ slice_index (map (λ e. e.0) entries.now) (weighted_choice u (map (λ e. e.1) entries.now)) }
    ensures within { IsDelay result }
{
    let total = entries.iter().map(|entry| entry.1).sum();
    let picked = pick(u, total);
    let mut before = 0;
    for (delay, weight) in entries {
        before += *weight;
        if picked < before {
            return *delay;
        }
    }
    unreachable!()
}

/// The greatest delay that has a weight.
pub(crate) fn longest(entries: &[(u64, u64)]) -> u64
    requires { IsTable entries.now }
    ensures value { result ≡ greatest entries.now }
    ensures within { IsDelay result }
{
    let mut most = 0;
    for (delay, weight) in entries {
        if *weight != 0 && most < *delay {
            most = *delay;
        }
    }
    most
}
