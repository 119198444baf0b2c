//! Finding the first fault of a syntax: a walk over its names and numbers in text order.

ghost use Rattle.std.specs.Prelude.{◌≡◌, zero, None};
ghost use Rattle.san_check.specs.walk.Entries.{code, ◌else◌};
ghost use Rattle.san_check.specs.inner.Walks.{seen};

pub(crate) mod activity;
pub(crate) mod atomic;
pub(crate) mod composition;
pub(crate) mod expression;
pub(crate) mod model;
pub(crate) mod reward;

/// A code and the word at which it holds, a number among the names and numbers of the text.
#[derive(Clone, Copy, Debug, PartialEq, Eq)]
pub struct Fault {
    pub code: u32,
    pub word: u32,
}

/// The words that were walked, and the first of them at which a code holds.
#[derive(Clone, Copy, Debug)]
pub struct Walk {
    pub words: u32,
    pub fault: Option<Fault>,
}

/// This code, where it holds.
pub fn code(number: u32, holds: bool) -> Option<u32>
    ensures { result ≡ code number holds }
{
    if holds { Some(number) } else { None }
}

impl Walk {
    pub fn new() -> Walk
        ensures { result ≡ record { words = 0; fault = None } }
    {
        Walk {
            words: 0,
            fault: None,
        }
    }

    /// Walks one word, with the least code that holds there.
    #[tactic(auto, unfolding(crate::specs::inner::Walks::seen))]
    pub fn see(&mut self, code: Option<u32>)
        ensures { self.new ≡ seen self.old code }
    {
        if self.fault.is_none() {
            self.fault = match code {
                Some(code) => Some(Fault {
                    code,
                    word: self.words,
                }),
                None => None,
            };
        }
        self.words = self.words.saturating_add(1);
    }
}
