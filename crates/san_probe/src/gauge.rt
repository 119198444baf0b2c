//! Gauges: a number that a function gives for each marking.

ghost use Rattle.std.specs.Prelude.{◌≡◌, ℤ, List, ℕ};
ghost use Rattle.san_probe.specs.Markings.{IsMarkingOf};

use std::marker::Model;

/// What a gauge reads off a marking. It has a meaning alone, of which contracts speak.
pub trait Measure {
    /// A whole number for each marking.
    ghost value: { Self → List ℕ → ℤ };
}

/// A function of a marking.
pub trait Reading {
    /// It may be called on this marking.
    ghost accepts: { Self → List ℕ → Type 0 };

    /// A call on this marking may answer this.
    ghost answers: { Self → List ℕ → ℤ → Type 0 };

    /// The number for a marking.
    fn read(&self, marking: &[u32]) -> i64
        requires { accepts self.now marking.now }
        ensures { answers self.now marking.now result };
}

/// A function of markings of so many places that gives a measure's value on each of them.
#[derive(Drop)]
pub struct Gauge<F: Reading, M: Measure> {
    read: F,
    measure: M,
    places: u32,
}

impl<F: Reading, M: Measure> Model for Gauge<F, M> {
    ghost use Rattle.std.specs.Prelude.{◌≡◌, ℕ, ℤ, List};
    ghost use Rattle.san_probe.specs.Markings.{IsMarkingOf};

    ghost Value = { M × ℕ };

    ghost view = { λ g. (g.measure, g.places) };

    ghost invariant = { λ g. (m : List ℕ) → IsMarkingOf g.places m → F.accepts g.read m
        × ((value : ℤ) → F.answers g.read m value → value ≡ M.value g.measure m) };
}

impl<F: Reading, M: Measure> Gauge<F, M> {
    /// A gauge for networks of so many places.
    pub fn new(read: F, measure: M, places: u32) -> Gauge<F, M>
        requires callable { (m : List ℕ) → IsMarkingOf places m → F.accepts read m }
        requires answers { (m : List ℕ) → IsMarkingOf places m → (value : ℤ)
            → F.answers read m value → value ≡ M.value measure m }
        ensures { result ≡ (measure, places) }
    {
        Gauge {
            read,
            measure,
            places,
        }
    }

    /// The measure of a marking.
    pub fn at(&self, marking: &[u32]) -> i64
        requires { IsMarkingOf self.now.1 marking.now }
        ensures { result ≡ M.value self.now.0 marking.now }
    {
        self.read.read(marking)
    }
}
