//! Endings of small networks, computed.

ghost use Rattle.std.specs.Prelude.{◌≡◌, [], ◌∷◌};
ghost use Rattle.san_base.specs.declared.ending.Trap.TheVariants as trap;
ghost use Rattle.san_law.specs.Examples.{event_at, overflowing, spinning};
ghost use Rattle.san_law.specs.Step.{End, Events, Trapped, Unstable};
ghost use Rattle.san_legal.specs.EndingExamples.{alone, delayless, doubtful, opened, risky, spun, within};
ghost use Rattle.san_legal.specs.Endings.{MayEnd};
ghost use Rattle.san_legal.specs.Examples.{at_opening, racing};
ghost use Rattle.san_legal.specs.Laws.{IsKept};

/// Each ending, and what keeps it from coming. Two timers race: the slow one takes 2 to 4 ticks, the
/// steady one 3.
#[tactic(auto, using(crate::proofs::EndingValues::ends_at_two, crate::proofs::EndingValues::over_at_two, crate::proofs::EndingValues::spun_once, crate::proofs::EndingValues::spinning_unstable, crate::proofs::EndingValues::spinning_over, crate::proofs::EndingValues::doubtful_traps, crate::proofs::EndingValues::delayless_traps, crate::proofs::EndingValues::risky_traps, crate::proofs::EndingValues::overflowing_traps))]
pub fn small_endings()
    // by 2 none may be due yet, but by 3 the steady one is
    ensures horizon { MayEnd racing (within 2 5 20) at_opening 2 End }
    ensures not_horizon { MayEnd racing (within 3 5 20) at_opening 3 End → ⊥ }
    // a timer fires, and the limit of events stops its activity, at a time when it may be due
    ensures events { MayEnd racing (within 10 5 0) at_opening 2 Events }
    ensures not_events { MayEnd racing (within 10 5 0) at_opening 4 Events → ⊥ }
    // instantaneous activities that go on and on: the limits of the burst and of the events
    ensures spun { IsKept spinning (within 4 1 20) (event_at 0 0 0 ∷ []) spun }
    ensures unstable { MayEnd spinning (within 4 1 20) spun 0 Unstable }
    ensures instant_events { MayEnd spinning (within 4 5 1) spun 0 Events }
    // traps of a test, of a renewal, of an instantaneous completion and of a timed one
    ensures test { let limits = within 4 5 20 in MayEnd (alone doubtful) limits (opened (alone doubtful) limits) 0 (Trapped 0 0 trap.Arith) }
    ensures renewal { let limits = within 4 5 20 in MayEnd (alone delayless) limits (opened (alone delayless) limits) 0 (Trapped 0 0 trap.Delay) }
    ensures instant { let limits = within 4 5 20 in MayEnd (alone risky) limits (opened (alone risky) limits) 0 (Trapped 0 0 trap.Marking) }
    ensures timed { let limits = within 4 5 20 in MayEnd overflowing limits (opened overflowing limits) 1 (Trapped 0 0 trap.Marking) }
{}
