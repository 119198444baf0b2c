//! The condition of `sanfirst`: a place has at least a value.

ghost use Rattle.std.specs.Prelude.{◌≡◌, ◌<◌, length};
ghost use Rattle.san_passage.specs.Firsts.{has_at_least};

use san_probe::{Asking, Condition};

/// A place has at least a value.
#[derive(Clone, Copy, Debug, PartialEq, Eq)]
pub struct AtLeast {
    pub place: u32,
    pub least: u32,
}

impl Condition for AtLeast {
    ghost holds = { λ c. has_at_least c.place c.least };
}

impl Asking for AtLeast {
    ghost accepts = { λ c m. c.place < length m };

    ghost answers = { λ c m holds. holds ≡ has_at_least c.place c.least m };

    fn ask(&self, marking: &[u32]) -> bool {
        self.least <= marking[self.place as usize]
    }
}
