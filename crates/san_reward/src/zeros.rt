//! The tables of a tally that has counted nothing.

ghost use Rattle.std.specs.Prelude.{◌≡◌, IfOk, map, replicate};
ghost use Rattle.san_law.specs.Reward.{zero_sum};
ghost use Rattle.san_reward.specs.inner.Present.{no_present};
ghost use Rattle.san_reward.specs.Running.{no_rates, terms_in};

use crate::present::Present;
use san_base::LeafId;
use san_net::{Flat, RateTerm, Reward, Span};
use std::alloc::{AllocError, Global};

/// The rewards' intervals.
pub(crate) fn spans_of(alloc: Global, rewards: &[Reward]) -> Result<Vec<Span>, AllocError>
    ensures { IfOk result (λ v. v.items ≡ map (λ r. r.span) rewards.now) }
{
    let mut spans = Vec::with_capacity(alloc, rewards.len())?;
    for reward in rewards {
        spans.push(reward.span)?;
    }
    Ok(spans)
}

/// So many sums of 0.
pub(crate) fn no_sums(alloc: Global, count: usize) -> Result<Vec<Option<i128>>, AllocError>
    ensures { IfOk result (λ v. v.items ≡ replicate count zero_sum) }
{
    vec![in alloc; Some(0); count]
}

/// So many rewards without rates.
pub(crate) fn no_presents(alloc: Global, count: usize) -> Result<Vec<Present>, AllocError>
    ensures { IfOk result (λ v. v.items ≡ replicate count no_present) }
{
    vec![in alloc; Present { sum: 0, faults: 0 }; count]
}

/// The rewards of rate terms.
fn rewards_of(alloc: Global, terms: &[RateTerm]) -> Result<Vec<u32>, AllocError>
    ensures { IfOk result (λ v. v.items ≡ map (λ t. t.reward) terms.now) }
{
    let mut rewards = Vec::with_capacity(alloc, terms.len())?;
    for term in terms {
        rewards.push(term.reward)?;
    }
    Ok(rewards)
}

/// So many rates of 0.
fn zeros_at(alloc: Global, count: usize) -> Result<Vec<Option<i64>>, AllocError>
    ensures { IfOk result (λ v. v.items ≡ replicate count zero_sum) }
{
    vec![in alloc; Some(0); count]
}

/// The rewards of each leaf's rate terms.
pub(crate) fn terms_table(alloc: Global, flat: &Flat) -> Result<Vec<Vec<u32>>, AllocError>
    ensures { IfOk result (λ v. map (λ x. x.items) v.items ≡ map terms_in flat.now.parts) }
{
    let mut table = Vec::with_capacity(alloc, flat.leaves() as usize)?;
    'leaves: for leaf in 0..flat.leaves() {
        let part = flat.part(LeafId(leaf)).get();
        let rewards = rewards_of(alloc, part.atomic.get().rates.as_slice())?;
        table.push(rewards)?;
    }
    Ok(table)
}

/// A rate of 0 for each leaf's terms.
pub(crate) fn rates_table(alloc: Global, flat: &Flat) -> Result<Vec<Vec<Option<i64>>>, AllocError>
    ensures { IfOk result (λ v. map (λ x. x.items) v.items ≡ map no_rates flat.now.parts) }
{
    let mut table = Vec::with_capacity(alloc, flat.leaves() as usize)?;
    'leaves: for leaf in 0..flat.leaves() {
        let part = flat.part(LeafId(leaf)).get();
        let rates = zeros_at(alloc, part.atomic.get().rates.as_slice().len())?;
        table.push(rates)?;
    }
    Ok(table)
}
