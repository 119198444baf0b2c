//! Where the delays and cases of a run draw from: one trait over `Draws` and `Streams`.
ghost use Rattle.std.specs.Prelude.{◌≡◌, ◌<◌, ◌^◌, ℕ};
ghost use Rattle.san_base.specs.declared.limits.TheConstants.{MAX_DRAWS};
ghost use Rattle.san_draw.specs.Key.{draw_of};

use crate::draws::Draws;
use crate::streams::Streams;

/// The draws of one seed, in the streams below a number. A source is the same after each draw.
pub trait DrawSource {
    ghost seed: { Self → ℕ };

    ghost streams: { Self → ℕ };

    /// Draw k of a stream.
    fn draw(&mut self, stream: u32, k: u64) -> u64
        requires stream { stream < streams self.old }
        requires number { k < MAX_DRAWS }
        ensures value { result ≡ draw_of (seed self.old) stream k }
        ensures same { self.new ≡ self.old };
}

impl DrawSource for Draws {
    ghost seed = { λ d. d };

    ghost streams = { λ d. 2 ^ 32 };

    fn draw(&mut self, stream: u32, k: u64) -> u64 {
        self.draw(u64::from(stream), k)
    }
}

impl DrawSource for Streams {
    ghost seed = { λ s. s.seed };

    ghost streams = { λ s. s.streams };

    fn draw(&mut self, stream: u32, k: u64) -> u64 {
        self.draw(stream, k)
    }
}
