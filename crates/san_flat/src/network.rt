//! From a model to its network.

ghost use Rattle.std.specs.Prelude.{◌≡◌, ◌<◌, ◌≤◌, ℕ, List, map, All, None, true, length, IfErr, IfOk, IsErrOf};
ghost use Rattle.san_base.specs.declared.limits.TheConstants.{MAX_LEAVES, MAX_PLACES, MAX_ACTS};
ghost use Rattle.san_tree.specs.declared.limits.TheConstants.{MAX_PATH};
ghost use Rattle.san_flat.specs.Flattened.{RefusesModel, limit_passed};
ghost use Rattle.san_flat.specs.Homes.{CellHome, homes_in, same};
ghost use Rattle.san_flat.specs.Networks.{leaf_count, network_of_model, value_at};
ghost use Rattle.san_flat.specs.inner.Models.{act_count, place_count};
ghost use Rattle.san_flat.specs.inner.Models.{homes_of, leaves_of, values_of};
ghost use Rattle.san_flat.specs.inner.Sightings.{AreNumbers, IsEven, HasSeen, Sees};
ghost use Rattle.san_net.specs.Numbering.{ordered};
ghost use Rattle.san_net.specs.Laid.{IsNetwork};
ghost use Rattle.san_tree.specs.Instances.{IsWithin};
ghost use Rattle.san_flat.specs.declared.network.FlatFault.TheVariants as fault;

use crate::initial::initial_of;
use crate::numbers::{Numbers, numbers_of};
use crate::parts::{act_count, parts_of};
use crate::path::paths_of;
use crate::seen::{Seen, see_all};
use san_base::{MAX_ACTS, MAX_LEAVES, Name, NoMemory};
use san_check::Model;
use san_net::{Flat, Reward};
use san_tree::{Homes, Instance};
use std::alloc::Global;
use thiserror::Error;

/// Why a model has no network: too many leaves, else too many places, else too many activities.
#[derive(Clone, Copy, Debug, PartialEq, Eq, Error)]
pub enum FlatFault {
    #[error("Leaves")]
    Leaves,
    #[error("Places")]
    Places,
    #[error("Acts")]
    Acts,
    #[error("NoMemory")]
    NoMemory,
}

impl From<NoMemory> for FlatFault {
    ghost from_gives = { λ _ given. given ≡ fault.NoMemory };

    fn from(_error: NoMemory) -> FlatFault {
        FlatFault::NoMemory
    }
}

fn copy_reward(alloc: Global, reward: &Reward) -> Result<Reward, NoMemory>
    ensures { IfOk result (λ r. r ≡ reward.now) }
{
    Ok(Reward {
        name: Name::new(alloc, reward.name.as_bytes())?,
        atomic: reward.atomic,
        span: reward.span,
    })
}

fn rewards_of(alloc: Global, rewards: &[Reward]) -> Result<Vec<Reward>, NoMemory>
    ensures { IfOk result (λ v. v.items ≡ rewards.now) }
{
    let mut copies = Vec::with_capacity(alloc, rewards.len())?;
    'rewards: for reward in rewards {
        copies.push(copy_reward(alloc, reward)?)?;
    }
    Ok(copies)
}

/// What is known of a model's leaves, and that they make a network where they are few enough.
#[tactic(auto, using(crate::proofs::KnownLemmas::all_even, crate::proofs::KnownLemmas::all_there, crate::proofs::KnownLemmas::is_network))]
fn leaves_are_known(model: &Model)
    ensures even { leaf_count model.now ≤ MAX_LEAVES → All (IsEven model.now) (leaves_of model.now) }
    ensures there { leaf_count model.now ≤ MAX_LEAVES
        → All (λ leaf. leaf.atomic < length model.now.atomics) (leaves_of model.now) }
    ensures network { leaf_count model.now ≤ MAX_LEAVES → place_count model.now ≤ MAX_PLACES
        → act_count model.now ≤ MAX_ACTS → IsNetwork (network_of_model model.now) }
{
    model.is_model();
}

/// The numbers of the homes that were seen, and the initial values of the places by number.
fn places_of(alloc: Global, seen: Seen) -> Result<(Numbers, Vec<u32>), NoMemory>
    requires few { length seen.counts.items ≤ MAX_PLACES }
    requires even { length seen.counts.items ≡ length seen.values.items }
    ensures numbers { IfOk result (λ p. (homes : List CellHome) (initial : List ℕ)
        → HasSeen homes initial seen → AreNumbers homes p.0) }
    ensures initial { IfOk result (λ p. (homes : List CellHome) (initial : List ℕ)
        → HasSeen homes initial seen → p.1.items ≡ map (value_at homes initial) (ordered same
        homes)) }
{
    let initial = initial_of(alloc, seen.counts.as_slice(), seen.values.as_slice())?;
    let numbers = numbers_of(alloc, seen.homes, seen.counts.as_slice())?;
    Ok((numbers, initial))
}

/// The network of a model whose cells were all seen.
fn assembled(
    alloc: Global,
    model: &Model,
    homes: &Homes<'_>,
    leaves: &[Instance],
    seen: Seen,
) -> Result<Flat, NoMemory>
    requires tree { homes.now ≡ model.now.tree }
    requires leaves { leaves.now ≡ leaves_of model.now }
    requires short { All (IsWithin MAX_PATH) leaves.now }
    requires few { leaf_count model.now ≤ MAX_LEAVES }
    requires seen { Sees true (homes_of model.now) (values_of model.now) seen }
    requires acts { act_count model.now ≤ MAX_ACTS }
    ensures { IfOk result (λ flat. flat ≡ network_of_model model.now) }
{
    leaves_are_known(model);
    let (numbers, initial) = places_of(alloc, seen)?;
    let parts = parts_of(alloc, model, homes, &numbers, leaves)?;
    let paths = paths_of(alloc, model, leaves)?;
    let rewards = rewards_of(alloc, model.rewards())?;
    Flat::assemble(alloc, parts, paths, initial, numbers.shared, rewards)
}

/// The network of a model with these leaves.
fn flat_of(
    alloc: Global,
    model: &Model,
    homes: &Homes<'_>,
    leaves: &[Instance],
) -> Result<Flat, FlatFault>
    requires tree { homes.now ≡ model.now.tree }
    requires leaves { leaves.now ≡ leaves_of model.now }
    requires short { All (IsWithin MAX_PATH) leaves.now }
    requires few { leaf_count model.now ≤ MAX_LEAVES }
    ensures network { IfOk result (λ flat. flat ≡ network_of_model model.now) }
    ensures fits { IfOk result (λ _. limit_passed model.now ≡ None) }
    ensures refuses { IfErr result (λ fault. RefusesModel fault model.now) }
{
    leaves_are_known(model);
    let Some(seen) = see_all(alloc, model, homes, leaves)? else {
        return Err(FlatFault::Places);
    };
    if act_count(model, leaves) > MAX_ACTS {
        return Err(FlatFault::Acts);
    }
    Ok(assembled(alloc, model, homes, leaves, seen)?)
}

/// The network of a model: its leaves in tree order over the places that their cells become, the
/// shared ones first. A model of too many leaves is refused before any memory is taken. Own rules.
pub fn flatten(alloc: Global, model: &Model) -> Result<Flat, FlatFault>
    ensures network { IfOk result (λ flat. flat ≡ network_of_model model.now) }
    ensures fits { IfOk result (λ _. limit_passed model.now ≡ None) }
    ensures refuses { IfErr result (λ fault. RefusesModel fault model.now) }
    ensures leaves { MAX_LEAVES < leaf_count model.now → IsErrOf result fault.Leaves }
{
    if model.tree().leaves() > MAX_LEAVES {
        return Err(FlatFault::Leaves);
    }
    let leaves = model.tree().instances(alloc)?;
    let homes = model.tree().homes(alloc)?;
    flat_of(alloc, model, &homes, &leaves)
}
