//! A model that passed every check, and the checks as a whole.

ghost use Rattle.std.specs.Prelude.{◌≡◌, None, IfOk};
ghost use Rattle.san_check.specs.walk.Model.{syntax_fault};
ghost use Rattle.san_check.specs.Answers.{Checks};
ghost use Rattle.san_check.specs.Checked.{IsOfText};
ghost use Rattle.san_check.specs.inner.Models.{IsModel};
ghost use Rattle.san_check.specs.Composed.{IsComposed};
ghost use Rattle.san_check.specs.build.Composition.{nodes_of, root_of};
ghost use Rattle.san_check.specs.build.Atomic.{atomics_of};
ghost use Rattle.san_check.specs.build.Reward.{rewards_of};
ghost use Rattle.san_check.specs.build.Cells.{elements_of};

use crate::build::atomic::atomics_of;
use crate::build::element::cells_of;
use crate::build::reward::rewards_of;
use crate::tree::{CheckFault, tree_of};
use san_base::{Items, Name, NoMemory, Shared};
use san_net::{Atomic, Reward};
use san_text::Syntax;
use san_tree::Tree;
use std::alloc::Global;

/// A model that passed every check: the name of its system, its atomics, its composition tree, its
/// rewards, and for each atomic the place and the element of each cell.
#[derive(Drop)]
pub struct Model {
    system: Name,
    atomics: Items<Shared<Atomic>>,
    tree: Tree,
    rewards: Items<Reward>,
    cells: Items<Items<(u32, u32)>>,
    ghost kept: { ∥ IsModel system atomics tree.nodes tree.root rewards cells ∥₁ },
}

impl Model {
    /// The name of the model that the system is.
    pub fn system(&self) -> &Name
        ensures { result.now ≡ self.now.system }
    {
        &self.system
    }

    /// The atomics, in the order of declaration.
    pub fn atomics(&self) -> &[Shared<Atomic>]
        ensures { result.now ≡ self.now.atomics }
    {
        self.atomics.as_slice()
    }

    /// The composition tree.
    pub fn tree(&self) -> &Tree
        ensures { result.now ≡ self.now.tree }
    {
        &self.tree
    }

    /// The rewards, in the order of declaration.
    pub fn rewards(&self) -> &[Reward]
        ensures { result.now ≡ self.now.rewards }
    {
        self.rewards.as_slice()
    }

    /// For each atomic the place and the element of each cell, by numbers in the order of
    /// declaration.
    pub fn cells(&self) -> &[Items<(u32, u32)>]
        ensures { result.now ≡ self.now.cells }
    {
        self.cells.as_slice()
    }

    /// What is known of a model: its atomics, tree, rewards and cells fit together.
    #[tactic(auto, using(crate::proofs::ModelLemmas::composed))]
    pub fn is_model(&self)
        ensures composed { ∥ IsComposed self.now.system self.now.atomics self.now.tree.nodes
            self.now.rewards self.now.cells ∥₁ }
    {
        let _ = &self.rewards;
    }
}

/// The model of a syntax that passes every check. Own rules.
pub fn check(alloc: Global, syntax: &Syntax) -> Result<Model, CheckFault>
    requires { IsOfText syntax.now }
    ensures checks { Checks result syntax.now }
    ensures system { IfOk result (λ m. m.system ≡ syntax.now.system) }
    ensures atomics { IfOk result (λ m. m.atomics ≡ atomics_of syntax.now) }
    ensures nodes { IfOk result (λ m. m.tree.nodes ≡ nodes_of syntax.now) }
    ensures root { IfOk result (λ m. m.tree.root ≡ root_of syntax.now) }
    ensures rewards { IfOk result (λ m. m.rewards ≡ rewards_of syntax.now) }
    ensures cells { IfOk result (λ m. m.cells ≡ elements_of syntax.now) }
{
    let tree = tree_of(alloc, syntax)?;
    with_tree(alloc, syntax, tree)
}

type Parts = (
    Name,
    Items<Shared<Atomic>>,
    Items<Reward>,
    Items<Items<(u32, u32)>>,
);

fn parts_of(alloc: Global, syntax: &Syntax) -> Result<Parts, NoMemory>
    requires { syntax_fault syntax.now ≡ None }
    ensures system { IfOk result (λ p. p.0 ≡ syntax.now.system) }
    ensures atomics { IfOk result (λ p. p.1 ≡ atomics_of syntax.now) }
    ensures rewards { IfOk result (λ p. p.2 ≡ rewards_of syntax.now) }
    ensures cells { IfOk result (λ p. p.3 ≡ elements_of syntax.now) }
{
    let system = Name::new(alloc, syntax.system.as_bytes())?;
    let atomics = atomics_of(alloc, syntax)?;
    let rewards = rewards_of(alloc, syntax)?;
    let cells = cells_of(alloc, syntax)?;
    Ok((system, atomics, rewards, cells))
}

/// The model of a syntax without a fault, whose tree this is.
#[tactic(auto, using(crate::proofs::ModelLemmas::kept))]
fn with_tree(alloc: Global, syntax: &Syntax, tree: Tree) -> Result<Model, CheckFault>
    requires read { IsOfText syntax.now }
    requires passes { syntax_fault syntax.now ≡ None }
    requires nodes { tree.nodes ≡ nodes_of syntax.now }
    requires root { tree.root ≡ root_of syntax.now }
    ensures checks { Checks result syntax.now }
    ensures system { IfOk result (λ m. m.system ≡ syntax.now.system) }
    ensures atomics { IfOk result (λ m. m.atomics ≡ atomics_of syntax.now) }
    ensures nodes { IfOk result (λ m. m.tree.nodes ≡ nodes_of syntax.now) }
    ensures root { IfOk result (λ m. m.tree.root ≡ root_of syntax.now) }
    ensures rewards { IfOk result (λ m. m.rewards ≡ rewards_of syntax.now) }
    ensures cells { IfOk result (λ m. m.cells ≡ elements_of syntax.now) }
{
    let (system, atomics, rewards, cells) = parts_of(alloc, syntax)?;
    Ok(Model {
        system,
        atomics,
        tree,
        rewards,
        cells,
    })
}
