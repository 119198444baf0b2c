//! Rewards with the numbers of their atomics.

ghost use Rattle.std.specs.Prelude.{◌≡◌, [], map, IfOk, OnOk};
ghost use Rattle.san_check.specs.build.Reward.{with_atomic, all_atomics, span_of, reward_of, rewards_of};

use crate::table::Table;
use san_base::{Items, Name, NoMemory, Tick};
use san_net::{Reward, Span};
use san_text::{ModelDecl, RewardDecl, SpanDecl, Syntax};
use std::alloc::Global;

#[tactic(auto, unfolding(crate::specs::build::Reward::with_atomic))]
fn add_atomic<'a>(atomics: &mut Table<'a, ()>, decl: &'a ModelDecl) -> Result<(), NoMemory>
    ensures { OnOk result (atomics.new ≡ with_atomic atomics.old decl.now) }
{
    match decl {
        ModelDecl::Atomic { name, .. } => atomics.declare(name.as_bytes(), ()),
        _ => Ok(()),
    }
}

/// The names of the atomics.
fn all_atomics<'a>(alloc: Global, decls: &'a [ModelDecl]) -> Result<Table<'a, ()>, NoMemory>
    ensures { IfOk result (λ atomics. atomics ≡ all_atomics [] decls.now) }
{
    let mut atomics = Table::new(alloc);
    'models: for decl in decls {
        add_atomic(&mut atomics, decl)?;
    }
    Ok(atomics)
}

#[tactic(auto, unfolding(crate::specs::build::Reward::span_of))]
fn span_of(span: &SpanDecl) -> Span
    ensures { result ≡ span_of span.now }
{
    match span {
        SpanDecl::Over(from, to) => Span::Over(Tick(*from), Tick(*to)),
        SpanDecl::Mean(from, to) => Span::Mean(Tick(*from), Tick(*to)),
        SpanDecl::At(tick) => Span::At(Tick(*tick)),
    }
}

fn reward_of<'a>(
    alloc: Global,
    atomics: &Table<'a, ()>,
    decl: &'a RewardDecl,
) -> Result<Reward, NoMemory>
    ensures { IfOk result (λ r. r ≡ reward_of atomics.now decl.now) }
{
    Ok(Reward {
        name: Name::new(alloc, decl.name.as_bytes())?,
        atomic: atomics.number(decl.atomic.as_bytes()),
        span: span_of(&decl.span),
    })
}

fn all_rewards<'a>(
    alloc: Global,
    atomics: &Table<'a, ()>,
    decls: &'a [RewardDecl],
) -> Result<Items<Reward>, NoMemory>
    ensures { IfOk result (λ v. v ≡ map (reward_of atomics.now) decls.now) }
{
    let mut made = Vec::new(alloc);
    'rewards: for decl in decls {
        let next = reward_of(alloc, atomics, decl)?;
        made.push(next)?;
    }
    Ok(Items::from_vec(made))
}

/// The rewards of a syntax, with the numbers of their atomics.
#[tactic(auto, unfolding(crate::specs::build::Reward::rewards_of))]
pub(crate) fn rewards_of(alloc: Global, syntax: &Syntax) -> Result<Items<Reward>, NoMemory>
    ensures { IfOk result (λ v. v ≡ rewards_of syntax.now) }
{
    let atomics = all_atomics(alloc, syntax.models.as_slice())?;
    all_rewards(alloc, &atomics, syntax.rewards.as_slice())
}
