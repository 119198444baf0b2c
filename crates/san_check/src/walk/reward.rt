//! The words of rewards.

ghost use Rattle.std.specs.Prelude.{◌≡◌, [], OnOk};
ghost use Rattle.san_check.specs.inner.Walks.{seen_all};
ghost use Rattle.san_check.specs.walk.Composition.{nothing};
ghost use Rattle.san_check.specs.walk.Reward.{reward_code, end_code, span_entries, is_at, impulse_code, term_entries, terms_entries, reward_entries, rewards_entries};

use crate::codes::{
    IMPULSE_AT_A_TICK, INTERVAL, NAME_TAKEN, NO_ATOMIC, TOO_MANY_REWARDS, TOO_MANY_TERMS,
    UNKNOWN_ACTIVITY,
};
use crate::known::{Known, known_as};
use crate::limits::MAX_END;
use crate::place::Place;
use crate::table::Table;
use crate::walk::expression::{walk_expr, walk_first};
use crate::walk::{Walk, code};
use san_base::{MAX_HORIZON, Name, NoMemory};
use san_net::{MAX_REWARDS, MAX_TERMS};
use san_text::{RewardDecl, SpanDecl, TermDecl};
use std::alloc::Global;

/// The name of a reward behind `n` others.
#[tactic(auto, unfolding(crate::specs::walk::Reward::reward_code))]
fn reward_code<'a>(rewards: &Table<'a, ()>, n: usize, name: &'a Name) -> Option<u32>
    ensures { result ≡ reward_code rewards.now n name.now }
{
    code(NAME_TAKEN, rewards.is_known(name.as_bytes())).or(code(TOO_MANY_REWARDS, n >= MAX_REWARDS))
}

#[tactic(auto, unfolding(crate::specs::walk::Reward::end_code))]
fn end_code(from: u64, to: u64) -> Option<u32>
    ensures { result ≡ end_code from to }
{
    code(INTERVAL, !(from < to) || to > MAX_END)
}

#[tactic(auto, unfolding(crate::specs::walk::Reward::span_entries))]
fn walk_span(walk: &mut Walk, span: &SpanDecl)
    ensures { walk.new ≡ seen_all walk.old (span_entries span.now) }
{
    match span {
        SpanDecl::Over(from, to) => {
            walk.see(None);
            walk.see(end_code(*from, *to));
        }
        SpanDecl::Mean(from, to) => {
            walk.see(None);
            walk.see(end_code(*from, *to));
        }
        SpanDecl::At(tick) => walk.see(code(INTERVAL, *tick > MAX_HORIZON)),
    }
}

fn is_at(span: &SpanDecl) -> bool
    ensures { result ≡ is_at span.now }
{
    match span {
        SpanDecl::Over(_, _) => false,
        SpanDecl::Mean(_, _) => false,
        SpanDecl::At(_) => true,
    }
}

/// The activity of an impulse, in a term behind `n` others.
#[tactic(auto, unfolding(crate::specs::walk::Reward::impulse_code))]
fn impulse_code<'a>(acts: &Table<'a, ()>, at: bool, n: usize, name: &'a Name) -> Option<u32>
    ensures { result ≡ impulse_code acts.now at n name.now }
{
    code(UNKNOWN_ACTIVITY, !acts.is_known(name.as_bytes()))
        .or(code(IMPULSE_AT_A_TICK, at))
        .or(code(TOO_MANY_TERMS, n >= MAX_TERMS))
}

#[tactic(auto, unfolding(crate::specs::walk::Reward::term_entries))]
fn walk_term<'a>(walk: &mut Walk, known: &Known<'a>, at: bool, n: usize, term: &'a TermDecl)
    ensures { walk.new
        ≡ seen_all walk.old (term_entries known.now.places known.now.acts at n term.now) }
{
    match term {
        TermDecl::Rate(e) => walk_first(walk, &known.places, e, n >= MAX_TERMS),
        TermDecl::Impulse(act, e) => {
            walk.see(impulse_code(&known.acts, at, n, act));
            walk_expr(walk, &known.places, e);
        }
    }
}

fn walk_terms<'a>(walk: &mut Walk, known: &Known<'a>, at: bool, terms: &'a [TermDecl])
    ensures { walk.new
        ≡ seen_all walk.old (terms_entries known.now.places known.now.acts at 0 terms.now) }
{
    'terms: for (n, term) in terms.iter().enumerate() {
        walk_term(walk, known, at, n, term);
    }
}

/// Walks a reward behind its name.
#[tactic(auto, unfolding(crate::specs::walk::Reward::reward_entries), using(crate::proofs::EntryLemmas::seen_append))]
fn walk_reward<'a, 'b>(
    walk: &mut Walk,
    models: &'b Table<'a, Known<'a>>,
    none: &'b Known<'a>,
    reward: &'a RewardDecl,
)
    requires { none.now ≡ nothing }
    ensures { walk.new ≡ seen_all walk.old (reward_entries models.now reward.now) }
{
    let known = known_as(models, none, &reward.atomic);
    walk.see(code(NO_ATOMIC, !known.atomic));
    walk_span(walk, &reward.span);
    walk_terms(walk, known, is_at(&reward.span), reward.terms.as_slice());
}

/// Walks all rewards.
pub(crate) fn walk_rewards<'a>(
    alloc: Global,
    walk: &mut Walk,
    models: &Table<'a, Known<'a>>,
    decls: &'a [RewardDecl],
) -> Result<(), NoMemory>
    ensures { OnOk result (walk.new
        ≡ seen_all walk.old (rewards_entries models.now [] 0 decls.now)) }
{
    let none = Known::nothing(alloc);
    let mut rewards = Table::new(alloc);
    'rewards: for (n, decl) in decls.iter().enumerate() {
        walk.see(reward_code(&rewards, n, &decl.name));
        walk_reward(walk, &*models, &none, decl);
        rewards.declare(decl.name.as_bytes(), ())?;
    }
    Ok(())
}
