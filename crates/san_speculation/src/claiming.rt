//! Which leaf is claimed next, and what a worker is to make of its plan.

ghost use Rattle.std.specs.Prelude.{◌≡◌, ◌≤◌, ◌<◌, IfOk, IfSome, None, Some, length, map};
ghost use Rattle.std.specs.Option.{option_map};
ghost use Rattle.san_ahead.specs.Ahead.{AheadValue};
ghost use Rattle.san_base.specs.declared.limits.TheConstants.{MAX_LEAVES};
ghost use Rattle.san_book.specs.Cores.{is_at, is_claimed};
ghost use Rattle.san_plan.specs.Plans.{IsPlannable, LastFits, end_state};
ghost use Rattle.san_plan.specs.Soonest.{is_key};
ghost use Rattle.san_speculation.specs.Speculating.{claim_in};
ghost use Rattle.san_speculation.specs.inner.Claiming.{ArePlannable, IsClaimOf, IsPlanOf, PlannedBy, free_time, goes_with};
ghost use Rattle.san_speculation.specs.inner.Soonest.{AreLow, with_leaf};

use crate::need::is_full;
use san_ahead::{Ahead, sees_all};
use san_base::{LeafId, NoMemory, Shared, Stamp};
use san_core::Machine;
use san_leaf::{Claim, LeafState};
use san_plan::{Plan, next_plan};
use san_winner::Winners;

/// Whether a run goes on: it needs a piece, and hasn't taken as much as a stretch may.
pub(crate) fn goes_on(machine: &Machine) -> bool
    ensures { (a : AheadValue) → goes_with machine.now a result }
{
    machine.follows();
    match machine.needed() {
        Some(_) => !is_full(machine),
        None => false,
    }
}

/// Whether a claim is of a leaf.
fn is_at(claim: Option<LeafId>, leaf: LeafId) -> bool
    ensures { result ≡ is_at leaf.0 (claim_in claim) }
{
    match claim {
        Some(claimed) => claimed.0 == leaf.0,
        None => false,
    }
}

/// Whether somebody has claimed a leaf.
fn is_claimed(claims: &[Option<LeafId>], leaf: LeafId) -> bool
    ensures { result ≡ is_claimed leaf.0 (map claim_in claims.now) }
{
    'claims: for claim in claims {
        if is_at(*claim, leaf) {
            return true;
        }
    }
    false
}

/// The plan of a leaf that nobody has claimed and whose chain has room.
fn free(machine: &Machine, ahead: &Ahead, claims: &[Option<LeafId>], leaf: LeafId) -> Option<Plan>
    requires { IsPlannable machine.now ahead.now leaf.0 }
    ensures time { option_map (λ p. p.time.0) result ≡ free_time machine.now ahead.now (map claim_in
        claims.now) leaf.0 }
    ensures plan { IfSome result (IsPlanOf machine.now ahead.now leaf.0) }
{
    if is_claimed(claims, leaf) {
        return None;
    }
    if ahead.len(leaf) >= machine.limits().window {
        return None;
    }
    next_plan(machine, ahead, leaf)
}

/// A plan's time.
fn time_of(plan: Option<Plan>) -> Option<u64>
    ensures { result ≡ option_map (λ p. p.time.0) plan }
{
    match plan {
        Some(plan) => Some(plan.time.0),
        None => None,
    }
}

/// Whether a key is this time.
fn is_key(time: u64, key: Option<u64>) -> bool
    ensures { result ≡ is_key (Some time) key }
{
    match key {
        Some(key) => time == key,
        None => false,
    }
}

/// A plan with its leaf.
fn with_leaf(leaf: LeafId, plan: Option<Plan>) -> Option<(LeafId, Plan)>
    ensures { result ≡ with_leaf leaf plan }
{
    match plan {
        Some(plan) => Some((leaf, plan)),
        None => None,
    }
}

/// The free leaf whose plan has the least time, and of these the least leaf. A key that turns out to
/// be too low on the way is set to its leaf's plan.
pub(crate) fn planned(
    machine: &Machine,
    ahead: &Ahead,
    claims: &[Option<LeafId>],
    soonest: &mut Winners,
) -> Option<(LeafId, Plan)>
    requires plannable { ArePlannable machine.now ahead.now }
    requires few { length ahead.now.chains ≤ MAX_LEAVES }
    requires going { machine.now.held.core.stop ≡ None }
    requires low { AreLow machine.now ahead.now (map claim_in claims.now) soonest.old }
    ensures planned { PlannedBy machine.now ahead.now (map claim_in claims.now) result }
    ensures low { AreLow machine.now ahead.now (map claim_in claims.now) soonest.new }
{
    'leaves: loop {
        let Some((time, at)) = soonest.least() else {
            return None;
        };
        let leaf = LeafId(at as u32);
        let plan = free(machine, ahead, claims, leaf);
        let key = time_of(plan);
        if is_key(time, key) {
            return with_leaf(leaf, plan);
        }
        soonest.set(at, key);
    }
}

/// One more owner of the state that a leaf's chain ends with.
fn share_end(machine: &Machine, ahead: &Ahead, leaf: LeafId) -> Result<Shared<LeafState>, NoMemory>
    requires { IsPlannable machine.now ahead.now leaf.0 }
    ensures state { IfOk result (λ s. s ≡ end_state machine.now ahead.now leaf.0) }
    ensures fits { LastFits ahead.now leaf.0 }
{
    machine.follows();
    match ahead.last(leaf) {
        Some(piece) => {
            piece.fits();
            piece.is_noted();
            piece.outcome().state.share()
        }
        None => machine.state(leaf).share(),
    }
}

/// What a worker is to make of a leaf's plan.
pub(crate) fn claim_of(
    machine: &Machine,
    ahead: &Ahead,
    leaf: LeafId,
    plan: Plan,
) -> Result<Claim, NoMemory>
    requires plannable { IsPlannable machine.now ahead.now leaf.0 }
    requires number { leaf.0 < length ahead.now.counters }
    ensures claim { IfOk result (IsClaimOf machine.now ahead.now leaf plan) }
    ensures fits { IfOk result (λ c. LastFits ahead.now leaf.0) }
{
    let base = share_end(machine, ahead, leaf)?;
    let part = machine.network().part(leaf).share()?;
    Ok(Claim {
        seed: machine.seed(),
        part,
        base,
        kind: plan.kind,
        time: plan.time,
        stamp: Stamp {
            time: plan.time,
            leaf,
            pos: ahead.number(leaf),
            all: sees_all(plan.kind),
        },
    })
}
