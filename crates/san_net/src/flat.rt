//! The flat network of parts, with its readers.

ghost use Rattle.std.specs.Prelude.{◌≡◌, ◌↔◌, ◌<◌, ◌≤◌, ◌+◌, All, ℕ, length, map, IfOk, IsTrue, slice_get, Some};
ghost use Rattle.std.specs.List.Sorted.{IsStrictlyIncreasing};
ghost use Rattle.san_law.specs.Lawful.{IsLaid, IsLawful};
ghost use Rattle.san_law.specs.Network.{Limits};
ghost use Rattle.san_net.specs.Laid.{IsNetwork, acts_of};
ghost use Rattle.san_net.specs.Network.{net_of, network_of};
ghost use Rattle.san_net.specs.Tables.{IsActOf, act_of, importers_of, leaves_of_acts};
ghost use Rattle.san_net.specs.declared.part.Part.{Part};

use crate::part::{Part, Reward};
use crate::path::Path;
use crate::tables::{importers_table, leaf_table};
use san_base::{ActId, LeafId, NoMemory, PlaceId, Same, Shared, all_same};
use std::alloc::Global;
use std::marker::Model;

/// A network of parts. Each reader answers in constant time.
#[derive(Drop)]
pub struct Flat {
    parts: Vec<Shared<Part>>,
    paths: Vec<Path>,
    initial: Vec<u32>,
    shared: u32,
    rewards: Vec<Reward>,
    leaf_of: Vec<LeafId>,
    importers: Vec<Vec<LeafId>>,
}

impl Model for Flat {
    ghost use Rattle.std.specs.Prelude.{map};
    ghost use Rattle.san_net.specs.Network.{Network, network_of};
    ghost use Rattle.san_net.specs.Tables.{IsFlat};
    ghost use Rattle.san_net.specs.contracts.part.Part as of_part;
    ghost use Rattle.std.specs.Coded.{codes};

    ghost Value = { Network };

    ghost coded = { Prim.hlevel (codes, of_part.the_row.coded) };

    ghost view = { λ f.
        network_of f.parts.items f.paths.items f.initial.items f.shared f.rewards.items };

    ghost invariant = { λ f.
        IsFlat (network_of f.parts.items f.paths.items f.initial.items f.shared f.rewards.items)
        (map (λ x. x.items) f.importers.items) f.leaf_of.items };
}

impl Flat {
    /// The network of just these values: the leaves in order with their paths, the places' initial
    /// values, the number of shared places, which come first, and the rewards.
    #[tactic(auto, using(crate::proofs::FlatLemmas::places_within))]
    pub fn assemble(
        alloc: Global,
        parts: Vec<Shared<Part>>,
        paths: Vec<Path>,
        initial: Vec<u32>,
        shared: u32,
        rewards: Vec<Reward>,
    ) -> Result<Flat, NoMemory>
        requires { IsNetwork (network_of parts.items paths.items initial.items shared
            rewards.items) }
        ensures { IfOk result (λ flat. flat
            ≡ network_of parts.items paths.items initial.items shared rewards.items) }
    {
        let importers = importers_table(alloc, &parts, initial.len())?;
        let leaf_of = leaf_table(alloc, &parts)?;
        Ok(Flat {
            parts,
            paths,
            initial,
            shared,
            rewards,
            leaf_of,
            importers,
        })
    }

    /// What is known of a network: its parts and rewards fit together, its leaves lie apart over its
    /// places, and they do what the law asks, whatever the draws. A shared place is of two or more
    /// leaves, a private one of just one.
    #[tactic(auto, using(crate::proofs::LaidLemmas::laid, crate::proofs::LaidLemmas::lawful, crate::proofs::ImporterLemmas::two_or_more, crate::proofs::ImporterLemmas::just_one, crate::proofs::ReaderLemmas::importers_below, crate::proofs::ReaderLemmas::importers_ascend))]
    pub fn is_network(&self)
        ensures network { IsNetwork self.now }
        ensures laid { (draw : ℕ → ℕ → ℕ) (limits : Limits)
            → IsLaid (net_of self.now draw limits) (length self.now.initial) }
        ensures lawful { (draw : ℕ → ℕ → ℕ) (limits : Limits)
            → IsLawful (net_of self.now draw limits) }
        ensures shared { (place : ℕ) → place < self.now.shared
            → 2 ≤ length (importers_of self.now.parts place) }
        ensures private { (place : ℕ) → self.now.shared ≤ place → place < length self.now.initial
            → length (importers_of self.now.parts place) ≡ 1 }
        ensures importers { (place : ℕ) → All (λ leaf. leaf.0 < length self.now.parts)
            (importers_of self.now.parts place) }
        ensures ascending { (place : ℕ) → IsStrictlyIncreasing (map (λ leaf. leaf.0)
            (importers_of self.now.parts place)) }
    {
        let _ = &self.shared;
    }

    /// The number of leaves.
    pub fn leaves(&self) -> u32
        ensures { result ≡ length self.now.parts }
    {
        self.parts.len() as u32
    }

    /// The part of a leaf.
    pub fn part(&self, leaf: LeafId) -> &Shared<Part>
        requires { leaf.0 < length self.now.parts }
        ensures { slice_get self.now.parts leaf.0 ≡ Some result.now }
    {
        &self.parts[leaf.0 as usize]
    }

    /// The leaf that has an activity.
    #[tactic(auto, using(crate::proofs::FlatLemmas::acts_counted))]
    pub fn leaf_of(&self, act: ActId) -> LeafId
        requires { act.0 < acts_of self.now.parts }
        ensures value { slice_get (leaves_of_acts self.now.parts) act.0 ≡ Some result }
        ensures leaf { result.0 < length self.now.parts }
        ensures act { (p : Part) → slice_get self.now.parts result.0 ≡ Some p
            → (p.first.0 ≤ act.0) × (act.0 < p.first.0 + length p.atomic.acts) }
    {
        self.leaf_of[act.0 as usize]
    }

    /// The network's number of an activity of a leaf, by its number there.
    pub fn act_of(&self, leaf: LeafId, act: u32) -> ActId
        requires { IsActOf self.now leaf.0 act }
        ensures { result ≡ act_of self.now leaf.0 act }
    {
        self.is_network();
        ActId(self.part(leaf).get().first.0 + act)
    }

    /// The number of activities.
    #[tactic(auto, using(crate::proofs::FlatLemmas::acts_counted))]
    pub fn acts(&self) -> u32
        ensures { result ≡ acts_of self.now.parts }
    {
        self.leaf_of.len() as u32
    }

    /// The number of places.
    pub fn places(&self) -> u32
        ensures { result ≡ length self.now.initial }
    {
        self.initial.len() as u32
    }

    /// The number of shared places, which come before the private ones.
    pub fn shared(&self) -> u32
        ensures { result ≡ self.now.shared }
    {
        self.shared
    }

    /// The initial value of a place.
    pub fn initial(&self, place: PlaceId) -> u32
        requires { place.0 < length self.now.initial }
        ensures { slice_get self.now.initial place.0 ≡ Some result }
    {
        self.initial[place.0 as usize]
    }

    /// A copy of the initial marking.
    pub fn initial_marking(&self, alloc: Global) -> Result<Vec<u32>, NoMemory>
        ensures { IfOk result (λ marking. marking.items ≡ self.now.initial) }
    {
        Ok(self.initial.to_vec(alloc)?)
    }

    /// The leaves that have a place, in order.
    pub fn importers(&self, place: PlaceId) -> &[LeafId]
        requires { place.0 < length self.now.initial }
        ensures { result.now ≡ importers_of self.now.parts place.0 }
    {
        let leaves = &self.importers[place.0 as usize];
        leaves.as_slice()
    }

    /// The path of a leaf.
    pub fn path(&self, leaf: LeafId) -> &[u8]
        requires { leaf.0 < length self.now.parts }
        ensures { slice_get self.now.paths leaf.0 ≡ Some result.now }
    {
        let path = &self.paths[leaf.0 as usize];
        path.as_bytes()
    }

    /// The rewards, by number.
    pub fn rewards(&self) -> &[Reward]
        ensures { result.now ≡ self.now.rewards }
    {
        self.rewards.as_slice()
    }

    /// Whether both are equal, part by part.
    pub fn same(&self, other: &Flat) -> bool
        ensures { IsTrue result ↔ (self.now ≡ other.now) }
    {
        self.shared == other.shared
            && all_same(&self.initial, &other.initial)
            && same_parts(&self.parts, &other.parts)
            && all_same(&self.paths, &other.paths)
            && all_same(&self.rewards, &other.rewards)
    }
}

fn same_parts(a: &[Shared<Part>], b: &[Shared<Part>]) -> bool
    ensures { IsTrue result ↔ (a.now ≡ b.now) }
{
    if a.len() != b.len() {
        return false;
    }
    for (at, part) in a.iter().enumerate() {
        if !part.get().same(b[at].get()) {
            return false;
        }
    }
    true
}
