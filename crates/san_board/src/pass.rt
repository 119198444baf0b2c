//! Passes of a board behind a lock.

ghost use Rattle.std.specs.Prelude.{◌≡◌, ◌<◌, ◌+◌};
ghost use Rattle.san_board.specs.Passes.{called, claiming, new_pass};

use crate::crew::Crew;
use std::marker::Model;
use std::sync::ledger::{Book, Share};

/// The right of a worker, or of the caller, to a board's calls. It books the steps of its calls.
#[derive(Drop)]
pub struct Pass<L: Crew> {
    worker: u32,
    asked: u64,
    ends: u64,
    share: Share<L>,
}

impl<L: Crew> Model for Pass<L> {
    ghost use Rattle.std.specs.Prelude.{◌≡◌, ◌<◌};
    ghost use Rattle.san_board.specs.Passes.{BookedPass};

    ghost Value = { BookedPass };

    ghost view = { λ p. record {
      pass = record { number = p.worker; asked = p.asked; ends = p.ends };
      booked = p.share.amount;
    } };

    ghost invariant = { λ p. (p.share.parts ≡ 1) × (p.worker < L.passes) };
}

impl<L: Crew> Pass<L> {
    /// A pass that has asked for nothing.
    pub(crate) fn new(worker: u32, share: Share<L>) -> Pass<L>
        requires worker { worker < L.passes }
        requires part { share.parts ≡ 1 }
        requires amount { share.amount ≡ 0 }
        ensures { result ≡ new_pass worker }
    {
        Pass {
            worker,
            asked: 0,
            ends: 0,
            share,
        }
    }

    /// The worker's number.
    pub(crate) fn worker(&self) -> u32
        ensures is { result ≡ self.now.pass.number }
        ensures within { result < L.passes }
    {
        self.worker
    }

    /// Counts a claim that was asked for.
    pub(crate) fn ask(&mut self)
        ensures { self.new ≡ claiming self.old }
    {
        self.asked = self.asked.saturating_add(1);
    }

    /// Counts a call, where it was a worker's last.
    pub(crate) fn call(&mut self, last: bool)
        ensures { self.new ≡ called last self.old }
    {
        if last {
            self.ends = self.ends.saturating_add(1);
        }
    }

    /// Books so many steps.
    pub(crate) fn book(&mut self, steps: &mut Book<L>, count: u64)
        ensures pass { self.new ≡ record self.old { booked = self.old.booked + count } }
        ensures steps { steps.new.total ≡ steps.old.total + count }
    {
        steps.add(&mut self.share, count);
    }

    /// What it has booked, where nothing more is to be.
    pub(crate) fn into_share(self) -> Share<L>
        ensures amount { result.amount ≡ self.booked }
        ensures part { result.parts ≡ 1 }
    {
        let Pass { share, .. } = self;
        share
    }
}
