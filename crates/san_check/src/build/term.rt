//! The terms of rewards, atomic by atomic.

ghost use Rattle.std.specs.Prelude.{◌≡◌, ◌++◌, cond, [], IfOk, OnOk};
ghost use Rattle.std.specs.Str.{bytes_eq};
ghost use Rattle.san_check.specs.build.Term.{rate_in, impulse_in, rates_in, impulses_in, rates_on, impulses_on, all_rates, all_impulses};

use crate::build::cells::Cells;
use crate::build::expression::expr_of;
use crate::table::Table;
use san_base::{Items, Name, NoMemory};
use san_net::{ImpulseTerm, RateTerm};
use san_text::{RewardDecl, TermDecl};
use std::alloc::Global;

/// Adds a term, if it is a rate term.
#[tactic(auto, unfolding(crate::specs::build::Term::rate_in))]
fn put_rate<'a>(
    alloc: Global,
    rates: &mut Vec<RateTerm>,
    cells: &Table<'a, Cells>,
    reward: u32,
    term: &'a TermDecl,
) -> Result<(), NoMemory>
    ensures { OnOk result (rates.new.items ≡ rates.old.items ++ rate_in cells.now reward term.now) }
{
    if let TermDecl::Rate(e) = term {
        let expr = expr_of(alloc, cells, e)?;
        rates.push(RateTerm { reward, expr })?;
    }
    Ok(())
}

#[tactic(auto, unfolding(crate::specs::build::Term::impulse_in))]
fn put_impulse<'a>(
    alloc: Global,
    impulses: &mut Vec<ImpulseTerm>,
    cells: &Table<'a, Cells>,
    acts: &Table<'a, ()>,
    reward: u32,
    term: &'a TermDecl,
) -> Result<(), NoMemory>
    ensures { OnOk result (impulses.new.items
        ≡ impulses.old.items ++ impulse_in cells.now acts.now reward term.now) }
{
    if let TermDecl::Impulse(act, e) = term {
        let expr = expr_of(alloc, cells, e)?;
        let act = acts.number(act.as_bytes());
        impulses.push(ImpulseTerm { reward, act, expr })?;
    }
    Ok(())
}

fn put_rates<'a>(
    alloc: Global,
    rates: &mut Vec<RateTerm>,
    cells: &Table<'a, Cells>,
    reward: u32,
    terms: &'a [TermDecl],
) -> Result<(), NoMemory>
    ensures { OnOk result (rates.new.items
        ≡ rates.old.items ++ rates_in cells.now reward terms.now) }
{
    'terms: for term in terms {
        put_rate(alloc, rates, cells, reward, term)?;
    }
    Ok(())
}

fn put_impulses<'a>(
    alloc: Global,
    impulses: &mut Vec<ImpulseTerm>,
    cells: &Table<'a, Cells>,
    acts: &Table<'a, ()>,
    reward: u32,
    terms: &'a [TermDecl],
) -> Result<(), NoMemory>
    ensures { OnOk result (impulses.new.items
        ≡ impulses.old.items ++ impulses_in cells.now acts.now reward terms.now) }
{
    'terms: for term in terms {
        put_impulse(alloc, impulses, cells, acts, reward, term)?;
    }
    Ok(())
}

/// Adds the rate terms of a reward, if it is on the atomic of a name.
fn put_rates_on<'a>(
    alloc: Global,
    rates: &mut Vec<RateTerm>,
    cells: &Table<'a, Cells>,
    name: &Name,
    number: u32,
    reward: &'a RewardDecl,
) -> Result<(), NoMemory>
    ensures { OnOk result (rates.new.items
        ≡ rates.old.items ++ rates_on cells.now name.now number reward.now) }
{
    if reward.atomic.as_bytes() == name.as_bytes() {
        put_rates(alloc, rates, cells, number, reward.terms.as_slice())
    } else {
        Ok(())
    }
}

fn put_impulses_on<'a>(
    alloc: Global,
    impulses: &mut Vec<ImpulseTerm>,
    cells: &Table<'a, Cells>,
    acts: &Table<'a, ()>,
    name: &Name,
    number: u32,
    reward: &'a RewardDecl,
) -> Result<(), NoMemory>
    ensures { OnOk result (impulses.new.items
        ≡ impulses.old.items ++ impulses_on cells.now acts.now name.now number reward.now) }
{
    if reward.atomic.as_bytes() == name.as_bytes() {
        put_impulses(
            alloc,
            impulses,
            cells,
            acts,
            number,
            reward.terms.as_slice(),
        )
    } else {
        Ok(())
    }
}

/// The rate terms of the rewards on the atomic of a name.
pub(crate) fn all_rates<'a>(
    alloc: Global,
    cells: &Table<'a, Cells>,
    name: &Name,
    rewards: &'a [RewardDecl],
) -> Result<Items<RateTerm>, NoMemory>
    ensures { IfOk result (λ v. v ≡ all_rates cells.now name.now 0 rewards.now) }
{
    let mut rates = Vec::new(alloc);
    let mut number: u32 = 0;
    'rewards: for reward in rewards {
        put_rates_on(alloc, &mut rates, cells, name, number, reward)?;
        number = number.saturating_add(1);
    }
    Ok(Items::from_vec(rates))
}

/// The impulse terms of the rewards on the atomic of a name, whose activities these are.
pub(crate) fn all_impulses<'a>(
    alloc: Global,
    cells: &Table<'a, Cells>,
    acts: &Table<'a, ()>,
    name: &Name,
    rewards: &'a [RewardDecl],
) -> Result<Items<ImpulseTerm>, NoMemory>
    ensures { IfOk result (λ v. v ≡ all_impulses cells.now acts.now name.now 0 rewards.now) }
{
    let mut impulses = Vec::new(alloc);
    let mut number: u32 = 0;
    'rewards: for reward in rewards {
        put_impulses_on(alloc, &mut impulses, cells, acts, name, number, reward)?;
        number = number.saturating_add(1);
    }
    Ok(Items::from_vec(impulses))
}
