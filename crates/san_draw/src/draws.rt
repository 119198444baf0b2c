//! The draws of a seed in any order, from one ChaCha20 generator.
ghost use Rattle.std.specs.Prelude.{◌≡◌, ◌+◌, ◌*◌, ◌<◌, ◌^◌};
ghost use Rattle.rand_chacha.specs.ChaCha.{key_of, word_at};
ghost use Rattle.san_base.specs.declared.limits.TheConstants.{MAX_DRAWS};
ghost use Rattle.san_draw.specs.Key.{draw_of, key_bytes};

use rand_chacha::ChaCha20Rng;
use rand_core::SeedableRng;
use rand_core::utils::NextWord;
use std::marker::Model;

/// A generator of this seed, at the start of stream 0.
fn generator(seed: u64) -> ChaCha20Rng
    ensures key { result.key ≡ key_of (key_bytes seed) }
{
    let mut key = [0u8; 32];
    key[0..8].copy_from_slice(&seed.to_le_bytes());
    ChaCha20Rng::from_seed(key)
}

/// A generator of a stream of this seed.
pub(crate) fn generator_of(seed: u64, stream: u64) -> ChaCha20Rng
    ensures key { result.key ≡ key_of (key_bytes seed) }
    ensures stream { result.stream ≡ stream }
{
    let mut rng = generator(seed);
    rng.set_stream(stream);
    rng
}

/// Draw k of the generator's stream. Draws in order use the words of the blocks that are made.
pub(crate) fn draw_from(rng: &mut ChaCha20Rng, k: u64) -> u64
    requires { k < MAX_DRAWS }
    ensures value { result ≡ word_at 10 rng.old.key rng.old.stream (2 * k) + 2 ^ 32 * word_at 10 rng.old.key
        rng.old.stream (2 * k + 1) }
    ensures same { (rng.new.key ≡ rng.old.key) × (rng.new.stream ≡ rng.old.stream) }
{
    let place = u128::from(k) * 2;
    if rng.get_word_pos() != place {
        rng.set_word_pos(place);
    }
    let low = rng.next_word();
    let high = rng.next_word();
    u64::from(low) + u64::from(high) * (1 << 32)
}

/// The draws of a seed, which contracts see as the seed.
#[derive(Drop)]
pub struct Draws {
    seed: u64,
    rng: ChaCha20Rng,
}

impl Model for Draws {
    ghost use Rattle.std.specs.Prelude.{◌≡◌, ℕ};
    ghost use Rattle.rand_chacha.specs.ChaCha.{key_of};
    ghost use Rattle.san_draw.specs.Key.{key_bytes};

    ghost Value = { ℕ };

    ghost view = { λ d. d.seed };

    ghost invariant = { λ d. d.rng.key ≡ key_of (key_bytes d.seed) };
}

impl Draws {
    /// The draws of a seed.
    pub fn new(seed: u64) -> Draws
        ensures { result ≡ seed }
    {
        Draws {
            seed,
            rng: generator(seed),
        }
    }

    /// Draw k of a stream. Draws of one stream in order are cheap; a change of the stream makes its
    /// blocks anew.
    pub fn draw(&mut self, stream: u64, k: u64) -> u64
        requires { k < MAX_DRAWS }
        ensures value { result ≡ draw_of self.old stream k }
        ensures same { self.new ≡ self.old }
    {
        if self.rng.get_stream() != stream {
            // At a block's start a change of the stream makes no blocks for the place that is left.
            self.rng.set_word_pos(0);
            self.rng.set_stream(stream);
        }
        draw_from(&mut self.rng, k)
    }
}
