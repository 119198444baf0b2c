//! Atomics with their terms of the rewards.

ghost use Rattle.std.specs.Prelude.{◌≡◌, ◌≤◌, ◌++◌, [], length, IfOk, OnOk, All, None};
ghost use Rattle.san_net.specs.declared.atomic.TheConstants.{MAX_ATOMIC_ACTS};
ghost use Rattle.san_check.specs.walk.Atomic.{all_acts};
ghost use Rattle.san_check.specs.walk.Model.{syntax_fault};
ghost use Rattle.san_check.specs.build.Atomic.{atomic_over, atomic_of, atomic_in, atomics_from, atomics_of};
ghost use Rattle.san_check.specs.inner.Models.{HasFewActs};

use crate::build::activity::acts_of;
use crate::build::cells::{Cells, all_cells, all_values};
use crate::build::term::{all_impulses, all_rates};
use crate::table::Table;
use san_base::{Items, Name, NoMemory, Shared};
use san_net::{Atomic, instants};
use san_text::{ActDecl, ModelDecl, PlaceDecl, RewardDecl, Syntax};
use std::alloc::Global;

/// The names of the activities of an atomic.
fn named_acts<'a>(alloc: Global, decls: &'a [ActDecl]) -> Result<Table<'a, ()>, NoMemory>
    ensures { IfOk result (λ acts. acts ≡ all_acts [] decls.now) }
{
    let mut acts = Table::new(alloc);
    'acts: for decl in decls {
        acts.declare(decl.name.as_bytes(), ())?;
    }
    Ok(acts)
}

/// An atomic over these cells, with its terms of the rewards.
fn atomic_over<'a>(
    alloc: Global,
    cells: &Table<'a, Cells>,
    name: &Name,
    places: &'a [PlaceDecl],
    decls: &'a [ActDecl],
    rewards: &'a [RewardDecl],
) -> Result<Atomic, NoMemory>
    requires { length decls.now ≤ MAX_ATOMIC_ACTS }
    ensures { IfOk result (λ a. a
        ≡ atomic_over cells.now name.now places.now decls.now rewards.now) }
{
    let known = named_acts(alloc, decls)?;
    let acts = acts_of(alloc, cells, decls)?;
    Ok(Atomic {
        name: Name::new(alloc, name.as_bytes())?,
        initial: Items::from_vec(all_values(alloc, places)?),
        instants: instants(alloc, acts.as_slice())?,
        acts,
        rates: all_rates(alloc, cells, name, rewards)?,
        impulses: all_impulses(alloc, cells, &known, name, rewards)?,
    })
}

/// An atomic of a syntax, with its terms of the rewards.
fn atomic_of<'a>(
    alloc: Global,
    name: &'a Name,
    places: &'a [PlaceDecl],
    acts: &'a [ActDecl],
    rewards: &'a [RewardDecl],
) -> Result<Atomic, NoMemory>
    requires { length acts.now ≤ MAX_ATOMIC_ACTS }
    ensures { IfOk result (λ a. a ≡ atomic_of name.now places.now acts.now rewards.now) }
{
    let cells = all_cells(alloc, places)?;
    atomic_over(alloc, &cells, name, places, acts, rewards)
}

/// Adds the atomic of a model, if it is one.
#[tactic(auto, unfolding(crate::specs::build::Atomic::atomic_in))]
fn put_atomic<'a>(
    alloc: Global,
    atomics: &mut Vec<Shared<Atomic>>,
    decl: &'a ModelDecl,
    rewards: &'a [RewardDecl],
) -> Result<(), NoMemory>
    requires { HasFewActs decl.now }
    ensures { OnOk result (atomics.new.items
        ≡ atomics.old.items ++ atomic_in rewards.now decl.now) }
{
    match decl {
        ModelDecl::Atomic { name, places, acts } => {
            let atomic = atomic_of(alloc, name, places.as_slice(), acts.as_slice(), rewards)?;
            atomics.push(Shared::new(alloc, atomic)?)?;
            Ok(())
        }
        _ => Ok(()),
    }
}

fn atomics_from<'a>(
    alloc: Global,
    decls: &'a [ModelDecl],
    rewards: &'a [RewardDecl],
) -> Result<Items<Shared<Atomic>>, NoMemory>
    requires { All HasFewActs decls.now }
    ensures { IfOk result (λ v. v ≡ atomics_from rewards.now decls.now) }
{
    let mut atomics = Vec::new(alloc);
    'models: for decl in decls {
        put_atomic(alloc, &mut atomics, decl, rewards)?;
    }
    Ok(Items::from_vec(atomics))
}

/// The atomics of a syntax without a fault, in the order of declaration.
#[tactic(auto, unfolding(crate::specs::build::Atomic::atomics_of), using(crate::proofs::AcceptedLemmas::few_acts))]
pub(crate) fn atomics_of(alloc: Global, syntax: &Syntax) -> Result<Items<Shared<Atomic>>, NoMemory>
    requires { syntax_fault syntax.now ≡ None }
    ensures { IfOk result (λ v. v ≡ atomics_of syntax.now) }
{
    atomics_from(alloc, syntax.models.as_slice(), syntax.rewards.as_slice())
}
