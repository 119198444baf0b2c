//! What a piece records of its completions as it goes on.

ghost use Rattle.std.specs.Prelude.{◌≡◌, ◌<◌, ◌↔◌, [], IsTrue, length, OnOk};
ghost use Rattle.san_leaf.specs.inner.Recorded.{Recorded, with_event, with_impulse};
ghost use Rattle.san_base.specs.Rated.{term_value};

use san_base::{MAX_ACTS, NoMemory, Rated};
use std::alloc::Global;
use std::marker::Model;

/// The value of an impulse term in the marking that an event reached, by the event's number in its
/// piece.
#[derive(Clone, Copy, Debug, PartialEq, Eq)]
pub struct Impulse {
    pub event: u32,
    pub reward: u32,
    pub rated: Rated,
}

/// The completions that a piece made so far, each an activity of the leaf and a case, and their
/// impulses, with those of the completion that is recorded next.
#[derive(Drop)]
pub(crate) struct Recorder {
    pub(crate) events: Vec<(u32, u32)>,
    pub(crate) impulses: Vec<Impulse>,
}

impl Model for Recorder {
    ghost use Rattle.san_leaf.specs.inner.Recorded.{AreWellRecorded, Recorded, recorded_of};

    ghost Value = { Recorded };

    ghost view = { λ t. recorded_of t.events.items t.impulses.items };

    ghost invariant = { λ t. AreWellRecorded t.events.items t.impulses.items };
}

impl Recorder {
    pub(crate) fn new(alloc: Global) -> Recorder
        ensures { result ≡ record { completions = []; pending = [] } }
    {
        Recorder {
            events: Vec::new(alloc),
            impulses: Vec::new(alloc),
        }
    }

    /// Whether no completion was recorded.
    pub(crate) fn is_empty(&self) -> bool
        ensures { IsTrue result ↔ (self.now.completions ≡ []) }
    {
        self.events.is_empty()
    }

    /// Records an impulse of the completion that is recorded next.
    #[tactic(auto, using(crate::proofs::RecordLemmas::impulse_recorded, crate::proofs::RecordLemmas::recorded_with_impulse))]
    pub(crate) fn impulse(&mut self, reward: u32, rated: Rated) -> Result<(), NoMemory>
        ensures { OnOk result (self.new ≡ with_impulse self.old (record { reward = reward; rated = term_value rated })) }
    {
        let event = self.events.len() as u32;
        self.impulses.push(Impulse {
            event,
            reward,
            rated,
        })?;
        Ok(())
    }

    /// Records a completion, with the impulses that were recorded for it.
    #[tactic(auto, using(crate::proofs::RecordLemmas::event_recorded, crate::proofs::RecordLemmas::recorded_with_event))]
    pub(crate) fn event(&mut self, act: u32, case: u32) -> Result<(), NoMemory>
        requires room { length self.old.completions < 64 }
        requires act { act < MAX_ACTS }
        ensures { OnOk result (self.new ≡ with_event self.old act case) }
    {
        self.events.push((act, case))?;
        Ok(())
    }
}
