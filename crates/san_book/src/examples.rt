//! Small cores, step by step.

ghost use Rattle.std.specs.Prelude.{◌≡◌, Some, None, [], ◌∷◌};
ghost use Rattle.san_base.specs.declared.piece.Kind.TheVariants as kind;
ghost use Rattle.san_law.specs.Examples.{event_at, tick_at};
ghost use Rattle.san_law.specs.Piece.{Fire, Refresh, Settle};
ghost use Rattle.san_book.specs.Cores.{Commit, Cut, Publish, Redo};
ghost use Rattle.san_book.specs.Examples.{dividing, four_redone, glance, grabbing, late, of_leaf, plan_in, ran, set_ahead, stale_read, ticking};

/// A division that was made ahead by a value that is changed then isn't committed; it is cut, and
/// made anew.
#[tactic(auto, using(crate::proofs::Computed::first_plans, crate::proofs::Computed::second_plans, crate::proofs::Computed::made_too_early, crate::proofs::Computed::not_committed, crate::proofs::Computed::then_cut, crate::proofs::Computed::then_made_anew))]
pub fn a_stale_read_is_cut()
    ensures first_plan { plan_in dividing 0 (ran dividing (four_redone [])) ≡ Some (record { kind = Fire 0; time = 2 }) }
    ensures second_plan { plan_in dividing 1 (ran dividing (four_redone [])) ≡ Some (record { kind = Fire 0; time = 3 }) }
    ensures made { glance (ran dividing (stale_read [])) ≡ Some (record { events = event_at 2 0 0 ∷ []; chains = 0 ∷ 1 ∷ []; values = 1 ∷ []; versions = 0 ∷ []; claims = None ∷ of_leaf 0 ∷ None ∷ []; rollbacks = 0; taken = 5 }) }
    ensures not_committed { ran dividing (stale_read (Commit 0 1 ∷ [])) ≡ None }
    ensures cut { glance (ran dividing (stale_read (Cut 2 1 ∷ []))) ≡ Some (record { events = event_at 2 0 0 ∷ []; chains = 0 ∷ 0 ∷ []; values = 1 ∷ []; versions = 0 ∷ []; claims = None ∷ of_leaf 0 ∷ None ∷ []; rollbacks = 1; taken = 5 }) }
    ensures made_anew { glance (ran dividing (stale_read (Cut 2 1 ∷ four_redone []))) ≡ Some (record { events = event_at 2 0 0 ∷ event_at 3 1 0 ∷ []; chains = 0 ∷ 0 ∷ []; values = 1 ∷ []; versions = 0 ∷ []; claims = None ∷ of_leaf 0 ∷ None ∷ []; rollbacks = 1; taken = 9 }) }
{}

/// A claim whose piece was made anew in the meantime is late; the next one is published and
/// committed.
#[tactic(auto, using(crate::proofs::Computed::late_plans, crate::proofs::Computed::late_then_committed))]
pub fn a_late_publication_is_dropped()
    ensures plan { plan_in ticking 0 (ran ticking (late [])) ≡ Some (record { kind = Refresh; time = 3 }) }
    ensures committed { glance (ran ticking (late (Publish 1 kind.Refresh 3 ∷ Commit 0 1 ∷ []))) ≡ Some (record { events = tick_at 3 ∷ []; chains = 0 ∷ []; values = []; versions = []; claims = None ∷ None ∷ None ∷ []; rollbacks = 0; taken = 4 }) }
{}

/// A place that is set ahead is seen by the other leaf, and committed with its value where what was
/// read is what is committed; else its version goes, by a cut or when the piece is made anew.
#[tactic(auto, using(crate::proofs::Computed::set_is_seen, crate::proofs::Computed::set_is_awaited, crate::proofs::Computed::set_is_committed, crate::proofs::Computed::misread_is_cut, crate::proofs::Computed::misread_is_not_committed, crate::proofs::Computed::read_is_not_cut, crate::proofs::Computed::misread_falls))]
pub fn a_set_place_is_a_version()
    ensures seen { glance (ran dividing (set_ahead 0 [])) ≡ Some (record { events = []; chains = 1 ∷ 0 ∷ []; values = 0 ∷ []; versions = 1 ∷ []; claims = None ∷ None ∷ None ∷ []; rollbacks = 0; taken = 4 }) }
    ensures awaited { plan_in dividing 1 (ran dividing (set_ahead 0 [])) ≡ Some (record { kind = Settle; time = 2 }) }
    ensures committed { glance (ran dividing (set_ahead 0 (Commit 0 1 ∷ []))) ≡ Some (record { events = event_at 2 0 0 ∷ []; chains = 0 ∷ 0 ∷ []; values = 1 ∷ []; versions = 0 ∷ []; claims = None ∷ None ∷ None ∷ []; rollbacks = 0; taken = 5 }) }
    ensures cut { glance (ran dividing (set_ahead 7 (Cut 1 0 ∷ []))) ≡ Some (record { events = []; chains = 0 ∷ 0 ∷ []; values = 0 ∷ []; versions = 0 ∷ []; claims = None ∷ None ∷ None ∷ []; rollbacks = 1; taken = 4 }) }
    ensures misread { ran dividing (set_ahead 7 (Commit 0 1 ∷ [])) ≡ None }
    ensures current { ran dividing (set_ahead 0 (Cut 1 0 ∷ [])) ≡ None }
    ensures falls { glance (ran dividing (set_ahead 7 (Redo 0 ∷ []))) ≡ Some (record { events = event_at 2 0 0 ∷ []; chains = 0 ∷ 0 ∷ []; values = 1 ∷ []; versions = 0 ∷ []; claims = None ∷ None ∷ None ∷ []; rollbacks = 1; taken = 5 }) }
{}

/// A chain falls where its leaf's state is another than the one that it goes on from, and stays
/// where it is the same.
#[tactic(auto, using(crate::proofs::Computed::grab_is_awaited, crate::proofs::Computed::base_is_another, crate::proofs::Computed::base_is_the_same))]
pub fn a_chain_falls_with_its_base()
    ensures before { glance (ran grabbing (stale_read [])) ≡ Some (record { events = event_at 2 0 0 ∷ []; chains = 0 ∷ 1 ∷ []; values = 1 ∷ []; versions = 0 ∷ []; claims = None ∷ of_leaf 0 ∷ None ∷ []; rollbacks = 0; taken = 5 }) }
    ensures falls { glance (ran grabbing (stale_read (Redo 0 ∷ []))) ≡ Some (record { events = event_at 2 0 0 ∷ event_at 2 1 1 ∷ []; chains = 0 ∷ 0 ∷ []; values = 1 ∷ []; versions = 0 ∷ []; claims = None ∷ of_leaf 0 ∷ None ∷ []; rollbacks = 1; taken = 6 }) }
    ensures stays { glance (ran dividing (stale_read (Redo 0 ∷ []))) ≡ Some (record { events = event_at 2 0 0 ∷ []; chains = 0 ∷ 1 ∷ []; values = 1 ∷ []; versions = 0 ∷ []; claims = None ∷ of_leaf 0 ∷ None ∷ []; rollbacks = 0; taken = 6 }) }
{}
