//! The draws of a seed with a generator for each stream that is drawn from, for draws in turn.
ghost use Rattle.std.specs.Prelude.{◌≡◌, ◌<◌, ◌≤◌, IfOk, length};
ghost use Rattle.san_base.specs.declared.limits.TheConstants.{MAX_DRAWS};
ghost use Rattle.san_draw.specs.Key.{draw_of};
ghost use Rattle.san_draw.specs.Streams.{IsGeneratorOf};

use crate::draws::{draw_from, generator_of};
use rand_chacha::ChaCha20Rng;
use san_base::NoMemory;
use std::alloc::Global;
use std::marker::Model;

/// The draws of a seed in the streams below a number. Those that are drawn from keep the words that
/// their generators make at once: drawn in turn, each in order, they make no block twice.
#[derive(Drop)]
pub struct Streams {
    seed: u64,
    generators: Vec<Option<Box<ChaCha20Rng>>>,
}

impl Model for Streams {
    ghost use Rattle.std.specs.Prelude.{vec_len};
    ghost use Rattle.san_draw.specs.Streams.{AreOf, Seeded};

    ghost Value = { Seeded };

    ghost view = { λ s. record { seed = s.seed; streams = vec_len s.generators } };

    ghost invariant = { λ s. AreOf s.seed 0 s.generators.items };
}

/// The generator of a stream that is drawn from.
fn kept(
    alloc: Global,
    seed: u64,
    stream: u64,
    drawn: bool,
) -> Result<Option<Box<ChaCha20Rng>>, NoMemory>
    ensures { IfOk result (λ g. IsGeneratorOf seed stream g) }
{
    if !drawn {
        return Ok(None);
    }
    Ok(Some(Box::new(alloc, generator_of(seed, stream))?))
}

/// Draw k of a stream, by the generator that is kept or by one for this draw alone.
fn draw_kept(kept: &mut Option<Box<ChaCha20Rng>>, seed: u64, stream: u64, k: u64) -> u64
    requires of { IsGeneratorOf seed stream kept.old }
    requires number { k < MAX_DRAWS }
    ensures value { result ≡ draw_of seed stream k }
    ensures of { IsGeneratorOf seed stream kept.new }
{
    match kept {
        Some(rng) => draw_from(rng, k),
        None => draw_from(&mut generator_of(seed, stream), k),
    }
}

impl Streams {
    /// Takes the memory of as many streams as are listed. Each may be drawn from; one of which
    /// nothing is kept makes its words anew at each draw.
    pub fn open(alloc: Global, seed: u64, drawn: &[bool]) -> Result<Streams, NoMemory>
        ensures { IfOk result (λ s. s ≡ record { seed = seed; streams = length drawn.now }) }
    {
        let mut generators = Vec::with_capacity(alloc, drawn.len())?;
        for stream in 0..drawn.len() {
            generators.push(kept(alloc, seed, stream as u64, drawn[stream])?)?;
        }
        Ok(Streams { seed, generators })
    }

    /// Draw k of a stream.
    pub fn draw(&mut self, stream: u32, k: u64) -> u64
        requires stream { stream < self.old.streams }
        requires number { k < MAX_DRAWS }
        ensures value { result ≡ draw_of self.old.seed stream k }
        ensures same { self.new ≡ self.old }
    {
        let kept = &mut self.generators[stream as usize];
        draw_kept(kept, self.seed, u64::from(stream), k)
    }
}
