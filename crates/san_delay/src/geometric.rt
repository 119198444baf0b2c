//! A geometric delay: counted tick by tick, or looked up in a kept table.

ghost use Rattle.std.specs.Prelude.{◌≡◌, ◌≤◌};
ghost use Rattle.san_delay.specs.Series.{IsSeries};
ghost use Rattle.san_delay.specs.Sound.{IsChance, IsDelay};
ghost use Rattle.san_expr.specs.Delay.{geometric};

use san_base::NoMemory;
use std::alloc::Global;

/// The greatest q of a chance of p in q.
pub const MAX_PARTS: u32 = 1_000;

/// The number of ticks until one of them ends the delay, each with a chance of p in q.
pub(crate) fn delay(p: u32, q: u32, u: u64) -> u64
    requires { IsChance p q }
    ensures value { result ≡ geometric p q u }
    ensures within { IsDelay result }
{
    let stays = u128::from(q - p);
    let parts = u128::from(q);
    let mut ticks = 1;
    let mut left = (1 << 64) * stays / parts;
    while u128::from(u) < left {
        left = left * stays / parts;
        ticks += 1;
    }
    ticks
}

/// The longest delay over all draws.
pub(crate) fn longest(p: u32, q: u32) -> u64
    requires { IsChance p q }
    ensures value { result ≡ geometric p q 0 }
    ensures within { IsDelay result }
{
    delay(p, q, 0)
}

/// The chances that a geometric delay goes on after 1, 2, .. ticks, out of 2^64, down to 0.
#[derive(Debug, Drop)]
pub(crate) struct GeometricTable {
    pub(crate) p: u32,
    pub(crate) q: u32,
    chances: Vec<u64>,
    ghost series: { IsSeries p q chances.items },
}

impl GeometricTable {
    /// Takes memory for so many ticks, which are those of the longest delay.
    pub(crate) fn new(
        alloc: Global,
        p: u32,
        q: u32,
        ticks: usize,
    ) -> Result<GeometricTable, NoMemory>
        requires chance { IsChance p q }
        requires ticks { ticks ≡ geometric p q 0 }
    {
        let stays = u128::from(q - p);
        let parts = u128::from(q);
        let mut chances = Vec::with_capacity(alloc, ticks)?;
        let mut left = 1 << 64;
        'ticks: for _ in 0..ticks {
            left = left * stays / parts;
            chances.push(left as u64)?;
        }
        Ok(GeometricTable { p, q, chances })
    }

    /// The number of ticks, of which a search looks at some sixteen.
    pub(crate) fn delay(&self, u: u64) -> u64
        requires { IsChance self.now.p self.now.q }
        ensures value { result ≡ geometric self.now.p self.now.q u }
        ensures within { IsDelay result }
    {
        self.chances.partition_point(|left| *left > u) as u64 + 1
    }
}
