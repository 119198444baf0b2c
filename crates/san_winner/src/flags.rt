//! A set of numbers, as flags: the least one that is in it is found fast.

ghost use Rattle.std.specs.Prelude.{◌≡◌, ◌<◌, ◌≤◌, true, IfOk, length, replicate, slice_set};
ghost use Rattle.san_winner.specs.declared.matches.TheConstants.{MAX_KEYS};
ghost use Rattle.san_winner.specs.Flags.{IsKey, SaysNext, is_up};

use crate::winners::Winners;
use san_base::NoMemory;
use std::alloc::Global;
use std::marker::Model;

/// A set of numbers below a bound, as a flag for each number, which is up where the number is in the
/// set.
#[derive(Debug, Drop)]
pub struct Flags {
    keys: Winners,
}

impl Model for Flags {
    ghost use Rattle.std.specs.Prelude.{List, Bool, map};
    ghost use Rattle.san_winner.specs.Flags.{AreKeys, is_up};

    ghost Value = { List Bool };

    ghost view = { λ f. map is_up f.keys };

    ghost invariant = { λ f. AreKeys f.keys };
}

fn key_of(up: bool) -> Option<u64>
    ensures key { IsKey result }
    ensures up { is_up result ≡ up }
{
    if up { Some(0) } else { None }
}

impl Flags {
    /// `many` flags, all up.
    pub fn open(alloc: Global, many: usize) -> Result<Flags, NoMemory>
        requires { many < MAX_KEYS }
        ensures { IfOk result (λ f. f ≡ replicate many true) }
    {
        let mut keys = Winners::open(alloc, many)?;
        'flags: for at in 0..many {
            keys.set(at, Some(0));
        }
        Ok(Flags { keys })
    }

    /// Puts a flag up, or takes it down.
    pub fn set(&mut self, at: usize, up: bool)
        requires { at < length self.old }
        ensures { self.new ≡ slice_set self.old at up }
    {
        self.keys.set(at, key_of(up));
    }

    /// The first flag that is up, from one on.
    pub fn next(&self, from: usize) -> Option<usize>
        requires { from ≤ length self.now }
        ensures { SaysNext from self.now result }
    {
        match self.keys.least_between(from, self.keys.len()) {
            Some((_, at)) => Some(at),
            None => None,
        }
    }
}
