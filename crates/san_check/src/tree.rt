//! The composition tree of a syntax without a fault.

ghost use Rattle.std.specs.Prelude.{◌≡◌, [], None, IfOk};
ghost use Rattle.san_check.specs.declared.tree.CheckFault.TheVariants.{NoMemory as Memory};
ghost use Rattle.san_check.specs.walk.Composition.{all_models};
ghost use Rattle.san_check.specs.walk.Model.{syntax_fault};
ghost use Rattle.san_check.specs.Answers.{Checks};
ghost use Rattle.san_check.specs.build.Composition.{nodes_of, root_of};

use crate::build::composition::nodes_of;
use crate::known::Known;
use crate::table::Table;
use crate::walk::model::walked;
use san_base::NoMemory;
use san_text::Syntax;
use san_tree::Tree;
use std::alloc::Global;
use thiserror::Error;

/// Why a syntax isn't accepted: the least code at the first word at which one holds, and that
/// word's number among the names and numbers of the text, from 0.
#[derive(Clone, Copy, Debug, PartialEq, Eq, Error)]
pub enum CheckFault {
    #[error("Refused")]
    Refused { code: u32, word: u32 },
    #[error("NoMemory")]
    NoMemory,
}

impl From<NoMemory> for CheckFault {
    ghost from_gives = { λ _ fault. fault ≡ Memory };

    fn from(_error: NoMemory) -> CheckFault {
        CheckFault::NoMemory
    }
}

/// The composition tree of a syntax that passes every check. Own rules.
#[tactic(auto, using(crate::proofs::TreeLemmas::passes))]
pub(crate) fn tree_of(alloc: Global, syntax: &Syntax) -> Result<Tree, CheckFault>
    ensures checks { Checks result syntax.now }
    ensures nodes { IfOk result (λ tree. tree.nodes ≡ nodes_of syntax.now) }
    ensures root { IfOk result (λ tree. tree.root ≡ root_of syntax.now) }
{
    match walked(alloc, syntax)? {
        (Some(fault), _) => Err(CheckFault::Refused {
            code: fault.code,
            word: fault.word,
        }),
        (None, models) => made(alloc, &models, syntax),
    }
}

/// The tree of a syntax without a fault, whose models these are.
#[tactic(auto, unfolding(crate::specs::build::Composition::nodes_of, crate::specs::build::Composition::root_of))]
fn made<'a>(
    alloc: Global,
    models: &Table<'a, Known<'a>>,
    syntax: &'a Syntax,
) -> Result<Tree, CheckFault>
    requires passes { syntax_fault syntax.now ≡ None }
    requires models { models.now ≡ all_models [] syntax.now.models }
    ensures checks { Checks result syntax.now }
    ensures nodes { IfOk result (λ tree. tree.nodes ≡ nodes_of syntax.now) }
    ensures root { IfOk result (λ tree. tree.root ≡ root_of syntax.now) }
{
    let nodes = nodes_of(alloc, models, syntax.models.as_slice())?;
    Ok(Tree {
        nodes,
        root: models.number(syntax.system.as_bytes()),
    })
}
