//! The words of models and of a whole text.

ghost use Rattle.std.specs.Prelude.{◌≡◌, [], IfOk, OnOk, ◌++◌, ◌∷◌, true, false};
ghost use Rattle.std.specs.Option.{option_map};
ghost use Rattle.san_check.specs.declared.codes.TheConstants.{COPIES};
ghost use Rattle.san_check.specs.declared.limits.TheConstants.{MAX_COPIES};
ghost use Rattle.san_check.specs.walk.Entries.{reported, code};
ghost use Rattle.san_check.specs.inner.Walks.{seen_all};
ghost use Rattle.san_check.specs.walk.Activity.{is_outside};
ghost use Rattle.san_check.specs.walk.Atomic.{places_entries, all_places, acts_entries, all_acts};
ghost use Rattle.san_check.specs.walk.Composition.{name_code, name_of, model_code, model_entries, known_of, models_entries, all_models, nothing, children_entries, all_children, shares_entries, all_shares, shown_entries, all_shown, shown_by};
ghost use Rattle.san_check.specs.walk.Model.{syntax_entries, syntax_fault};

use crate::codes::{COPIES, NAME_TAKEN, TOO_MANY_MODELS};
use crate::known::{Known, known_as};
use crate::limits::MAX_COPIES;
use crate::table::Table;
use crate::walk::activity::is_outside;
use crate::walk::atomic::{walk_acts, walk_places};
use crate::walk::composition::{model_code, walk_children, walk_shares, walk_shown};
use crate::walk::reward::walk_rewards;
use crate::walk::{Fault, Walk, code};
use san_base::{Name, NoMemory};
use san_text::{ActDecl, ChildDecl, ModelDecl, PlaceDecl, ShareDecl, Syntax};
use san_tree::MAX_NODES;
use std::alloc::Global;

type Made<'a> = Result<Known<'a>, NoMemory>;

fn name_of(decl: &ModelDecl) -> &Name
    ensures { result.now ≡ name_of decl.now }
{
    match decl {
        ModelDecl::Atomic { name, .. } => name,
        ModelDecl::Join { name, .. } => name,
        ModelDecl::Rep { name, .. } => name,
    }
}

/// The name of a model behind `n` others.
#[tactic(auto, unfolding(crate::specs::walk::Composition::name_code))]
fn name_code<'a>(models: &Table<'a, Known<'a>>, n: usize, name: &'a Name) -> Option<u32>
    ensures { result ≡ name_code models.now n name.now }
{
    code(NAME_TAKEN, models.is_known(name.as_bytes())).or(code(TOO_MANY_MODELS, n >= MAX_NODES))
}

#[tactic(auto, using(crate::proofs::EntryLemmas::seen_append))]
fn walk_atomic<'a>(
    alloc: Global,
    walk: &mut Walk,
    places: &'a [PlaceDecl],
    acts: &'a [ActDecl],
) -> Made<'a>
    ensures entries { OnOk result (walk.new
        ≡ seen_all walk.old (places_entries [] 0 places.now ++ acts_entries (all_places []
        places.now) [] 0 acts.now)) }
    ensures known { IfOk result (λ known. known
        ≡ record {
          atomic = true;
          places = all_places [] places.now;
          acts = all_acts [] acts.now;
        }) }
{
    let places = walk_places(alloc, walk, places)?;
    let acts = walk_acts(alloc, walk, &places, acts)?;
    Ok(Known {
        atomic: true,
        places,
        acts,
    })
}

#[tactic(auto, using(crate::proofs::EntryLemmas::seen_append))]
fn walk_join<'a>(
    alloc: Global,
    walk: &mut Walk,
    models: &Table<'a, Known<'a>>,
    children: &'a [ChildDecl],
    shares: &'a [ShareDecl],
) -> Made<'a>
    ensures entries { OnOk result (walk.new
        ≡ seen_all walk.old (children_entries models.now [] 0 children.now ++ shares_entries
        (all_children models.now [] children.now) [] [] 0 shares.now)) }
    ensures known { IfOk result (λ known. known
        ≡ record {
          atomic = false;
          places = all_shares (all_children models.now [] children.now)
              [] shares.now;
          acts = [];
        }) }
{
    let none = Known::nothing(alloc);
    let children = walk_children(alloc, walk, &*models, &none, children)?;
    let places = walk_shares(alloc, walk, &children, shares)?;
    Ok(Known {
        atomic: false,
        places,
        acts: Table::new(alloc),
    })
}

fn walk_rep<'a>(
    alloc: Global,
    walk: &mut Walk,
    models: &Table<'a, Known<'a>>,
    of: &'a Name,
    times: u64,
    shares: &'a [Name],
) -> Made<'a>
    ensures entries { OnOk result (walk.new
        ≡ seen_all walk.old (model_code models.now of.now ∷ (code COPIES (is_outside times 1 MAX_COPIES) ∷
        shown_entries (shown_by models.now of.now) [] 0 shares.now))) }
    ensures known { IfOk result (λ known. known
        ≡ record {
          atomic = false;
          places = all_shown (shown_by models.now of.now) [] shares.now;
          acts = [];
        }) }
{
    walk.see(model_code(models, of));
    walk.see(code(COPIES, is_outside(times, 1, MAX_COPIES)));
    let none = Known::nothing(alloc);
    let known = known_as(&*models, &none, of);
    let places = walk_shown(alloc, walk, &known.places, shares)?;
    Ok(Known {
        atomic: false,
        places,
        acts: Table::new(alloc),
    })
}

/// Walks a model behind its name, and answers what it declares.
#[tactic(auto, unfolding(crate::specs::walk::Composition::model_entries, crate::specs::walk::Composition::known_of))]
fn walk_model<'a>(
    alloc: Global,
    walk: &mut Walk,
    models: &Table<'a, Known<'a>>,
    decl: &'a ModelDecl,
) -> Made<'a>
    ensures entries { OnOk result (walk.new
        ≡ seen_all walk.old (model_entries models.now decl.now)) }
    ensures known { IfOk result (λ known. known ≡ known_of models.now decl.now) }
{
    match decl {
        ModelDecl::Atomic { places, acts, .. } => {
            walk_atomic(alloc, walk, places.as_slice(), acts.as_slice())
        }
        ModelDecl::Join {
            children,
            shares,
            ..
        } => walk_join(alloc, walk, models, children.as_slice(), shares.as_slice()),
        ModelDecl::Rep {
            of,
            times,
            shares,
            ..
        } => walk_rep(alloc, walk, models, of, *times, shares.as_slice()),
    }
}

/// Walks all models, and answers them.
fn walk_models<'a>(
    alloc: Global,
    walk: &mut Walk,
    decls: &'a [ModelDecl],
) -> Result<Table<'a, Known<'a>>, NoMemory>
    ensures entries { OnOk result (walk.new ≡ seen_all walk.old (models_entries [] 0 decls.now)) }
    ensures models { IfOk result (λ models. models ≡ all_models [] decls.now) }
{
    let mut models = Table::new(alloc);
    'models: for (n, decl) in decls.iter().enumerate() {
        walk.see(name_code(&models, n, name_of(decl)));
        let known = walk_model(alloc, walk, &models, decl)?;
        models.declare(name_of(decl).as_bytes(), known)?;
    }
    Ok(models)
}

/// Walks a whole text, and answers its models.
#[tactic(auto, unfolding(crate::specs::walk::Model::syntax_entries), using(crate::proofs::EntryLemmas::seen_append))]
fn walk_syntax<'a>(
    alloc: Global,
    walk: &mut Walk,
    syntax: &'a Syntax,
) -> Result<Table<'a, Known<'a>>, NoMemory>
    ensures entries { OnOk result (walk.new ≡ seen_all walk.old (syntax_entries syntax.now)) }
    ensures models { IfOk result (λ models. models ≡ all_models [] syntax.now.models) }
{
    walk.see(None);
    let models = walk_models(alloc, walk, syntax.models.as_slice())?;
    walk.see(model_code(&models, &syntax.system));
    walk_rewards(alloc, walk, &models, syntax.rewards.as_slice())?;
    Ok(models)
}

/// The first word of a text at which a code holds, and the text's models.
#[tactic(auto, using(crate::proofs::EntryLemmas::first_of_walk))]
pub(crate) fn walked<'a>(
    alloc: Global,
    syntax: &'a Syntax,
) -> Result<(Option<Fault>, Table<'a, Known<'a>>), NoMemory>
    ensures fault { IfOk result (λ r. r.0 ≡ option_map reported (syntax_fault syntax.now)) }
    ensures models { IfOk result (λ r. r.1 ≡ all_models [] syntax.now.models) }
{
    let mut walk = Walk::new();
    let models = walk_syntax(alloc, &mut walk, syntax)?;
    Ok((walk.fault, models))
}
