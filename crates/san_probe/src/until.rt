//! Conditions on markings that a function tells.

ghost use Rattle.std.specs.Prelude.{◌≡◌, Bool, List, ℕ};
ghost use Rattle.san_probe.specs.Markings.{IsMarkingOf};

use std::marker::Model;

/// What is asked of a marking. It has a meaning alone, of which contracts speak.
pub trait Condition {
    /// Whether it holds in a marking.
    ghost holds: { Self → List ℕ → Bool };
}

/// A question to a marking.
pub trait Asking {
    /// It may be asked of this marking.
    ghost accepts: { Self → List ℕ → Type 0 };

    /// A call on this marking may answer this.
    ghost answers: { Self → List ℕ → Bool → Type 0 };

    /// The answer for a marking.
    fn ask(&self, marking: &[u32]) -> bool
        requires { accepts self.now marking.now }
        ensures { answers self.now marking.now result };
}

/// A function of markings of so many places that tells on each of them whether a condition holds.
#[derive(Drop)]
pub struct Until<F: Asking, M: Condition> {
    ask: F,
    condition: M,
    places: u32,
}

impl<F: Asking, M: Condition> Model for Until<F, M> {
    ghost use Rattle.std.specs.Prelude.{◌≡◌, ℕ, Bool, List};
    ghost use Rattle.san_probe.specs.Markings.{IsMarkingOf};

    ghost Value = { M × ℕ };

    ghost view = { λ u. (u.condition, u.places) };

    ghost invariant = { λ u. (m : List ℕ) → IsMarkingOf u.places m → F.accepts u.ask m
        × ((holds : Bool) → F.answers u.ask m holds → holds ≡ M.holds u.condition m) };
}

impl<F: Asking, M: Condition> Until<F, M> {
    /// A condition on markings of networks of so many places.
    pub fn new(ask: F, condition: M, places: u32) -> Until<F, M>
        requires callable { (m : List ℕ) → IsMarkingOf places m → F.accepts ask m }
        requires answers { (m : List ℕ) → IsMarkingOf places m → (holds : Bool)
            → F.answers ask m holds → holds ≡ M.holds condition m }
        ensures { result ≡ (condition, places) }
    {
        Until {
            ask,
            condition,
            places,
        }
    }

    /// Whether the condition holds in a marking.
    pub fn at(&self, marking: &[u32]) -> bool
        requires { IsMarkingOf self.now.1 marking.now }
        ensures { result ≡ M.holds self.now.0 marking.now }
    {
        self.ask.ask(marking)
    }
}
