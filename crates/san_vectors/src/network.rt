//! The network of two small leaves that share a place, assembled and read back.

ghost use Rattle.std.specs.Prelude.{◌≡◌, ◌≤◌, [], ◌∷◌, IfOk};
ghost use Rattle.san_net.specs.Examples.{get_part, getter, moving, one_case, put_and_get, put_part, putter, taking};
ghost use Rattle.san_net.specs.declared.activity.Output.TheVariants as output;

use san_base::{ActId, LeafId, Name, NoMemory, PlaceId, Same, Shared, Tick};
use san_expr::{Dist, Expr, Items};
use san_net::{
    ActKind, Activity, Atomic, Case, Flat, Input, Output, Part, Path, Reward, Slot, Span,
    example_network, instants,
};
use std::alloc::Global;
use std::test::Fail;

fn name(alloc: Global, letter: u8) -> Result<Name, NoMemory>
    ensures { IfOk result (λ name. name ≡ letter ∷ []) }
{
    Name::new(alloc, &[letter])
}

/// One case of weight 1 that adds a token.
fn one_case(alloc: Global, place: u32) -> Result<Items<Case>, NoMemory>
    ensures { IfOk result (λ cases. cases ≡ one_case (output.Arc place 1 ∷ [])) }
{
    let mut outputs = Items::new(alloc);
    outputs.push(Output::Arc(place, 1))?;
    let mut cases = Items::new(alloc);
    cases.push(Case {
        weight: Expr::Number(1),
        outputs,
    })?;
    Ok(cases)
}

/// `in p; delay table 2:1; out q;`
fn moving(alloc: Global, p: u32, q: u32) -> Result<Activity, NoMemory>
    ensures { IfOk result (λ a. a ≡ moving p q) }
{
    let mut inputs = Items::new(alloc);
    inputs.push(Input::Arc(p, 1))?;
    let mut entries = Items::new(alloc);
    entries.push((2, 1))?;
    Ok(Activity {
        kind: ActKind::Timed {
            delay: Dist::Table(entries),
            pair: None,
        },
        inputs,
        cases: one_case(alloc, q)?,
    })
}

/// Instantaneous, with a priority: `in p w; out q;`
fn taking(alloc: Global, priority: u32, p: u32, w: u32, q: u32) -> Result<Activity, NoMemory>
    ensures { IfOk result (λ a. a ≡ taking priority p w q) }
{
    let mut inputs = Items::new(alloc);
    inputs.push(Input::Arc(p, w))?;
    Ok(Activity {
        kind: ActKind::Instant { priority },
        inputs,
        cases: one_case(alloc, q)?,
    })
}

/// `place s; place once = 1; timed a { in once; delay table 2:1; out s; }`
fn putter(alloc: Global) -> Result<Atomic, NoMemory>
    ensures { IfOk result (λ a. a ≡ putter) }
{
    let mut acts = Items::new(alloc);
    acts.push((name(alloc, b'a')?, moving(alloc, 1, 0)?))?;
    Ok(Atomic {
        name: name(alloc, b'a')?,
        initial: Items::from_slice(alloc, &[0, 1])?,
        instants: instants(alloc, acts.as_slice())?,
        acts,
        rates: Items::new(alloc),
        impulses: Items::new(alloc),
    })
}

/// `place n; place s; instant a { in s; out n; } instant b priority 5 { in s 2; out n; }`
fn getter(alloc: Global) -> Result<Atomic, NoMemory>
    ensures { IfOk result (λ a. a ≡ getter) }
{
    let mut acts = Items::new(alloc);
    acts.push((name(alloc, b'a')?, taking(alloc, 0, 1, 1, 0)?))?;
    acts.push((name(alloc, b'b')?, taking(alloc, 5, 1, 2, 0)?))?;
    Ok(Atomic {
        name: name(alloc, b'a')?,
        initial: Items::from_slice(alloc, &[0, 0])?,
        instants: instants(alloc, acts.as_slice())?,
        acts,
        rates: Items::new(alloc),
        impulses: Items::new(alloc),
    })
}

fn put_part(alloc: Global) -> Result<Part, NoMemory>
    ensures { IfOk result (λ p. p ≡ put_part) }
{
    let mut slots = Items::new(alloc);
    slots.push(Slot::Shared(PlaceId(0)))?;
    slots.push(Slot::Private(PlaceId(1)))?;
    Ok(Part {
        leaf: LeafId(0),
        first: ActId(0),
        atomic: Shared::new(alloc, putter(alloc)?)?,
        slots,
    })
}

fn get_part(alloc: Global) -> Result<Part, NoMemory>
    ensures { IfOk result (λ p. p ≡ get_part) }
{
    let mut slots = Items::new(alloc);
    slots.push(Slot::Private(PlaceId(2)))?;
    slots.push(Slot::Shared(PlaceId(0)))?;
    Ok(Part {
        leaf: LeafId(1),
        first: ActId(1),
        atomic: Shared::new(alloc, getter(alloc)?)?,
        slots,
    })
}

pub(crate) fn put_and_get(alloc: Global) -> Result<Flat, NoMemory>
    ensures { IfOk result (λ flat. flat ≡ put_and_get) }
{
    let mut parts = Vec::new(alloc);
    parts.push(Shared::new(alloc, put_part(alloc)?)?)?;
    parts.push(Shared::new(alloc, get_part(alloc)?)?)?;
    let mut paths = Vec::new(alloc);
    paths.push(Path::new(Vec::from_slice(alloc, b"a")?))?;
    paths.push(Path::new(Vec::from_slice(alloc, b"b")?))?;
    let mut rewards = Vec::new(alloc);
    rewards.push(Reward {
        name: name(alloc, b'a')?,
        atomic: 0,
        span: Span::At(Tick(6)),
    })?;
    let initial = Vec::from_slice(alloc, &[0, 1, 0])?;
    example_network();
    Flat::assemble(alloc, parts, paths, initial, 1, rewards)
}

/// The same network, of which nothing is known but what is asked.
pub(crate) fn example(alloc: Global) -> Result<Flat, NoMemory> {
    put_and_get(alloc)
}

#[test]
fn assembled_and_read_back(rt: HostRuntime) -> Result<(), Fail> {
    let flat = example(rt.alloc())?;
    assert!(rt; flat.leaves() == 2);
    assert_eq!(rt; (flat.acts(), flat.places(), flat.shared()), (3, 3, 1));
    assert_eq!(rt; flat.path(LeafId(0)), b"a".as_slice());
    assert_eq!(rt; flat.path(LeafId(1)), b"b".as_slice());
    assert_eq!(rt; flat.rewards().len(), 1);
    assert!(rt; flat.same(&example(rt.alloc())?));
    Ok(())
}

#[test]
fn parts_read_back(rt: HostRuntime) -> Result<(), Fail> {
    let flat = example(rt.alloc())?;
    assert!(rt; flat.leaves() == 2);
    let put = put_part(rt.alloc())?;
    let get = get_part(rt.alloc())?;
    assert!(rt; flat.part(LeafId(0)).get().same(&put));
    assert!(rt; flat.part(LeafId(1)).get().same(&get));
    Ok(())
}

/// A place's initial value and the leaves that have it, where there is such a place.
fn place_of(flat: &Flat, place: u32) -> Option<(u32, &[LeafId])> {
    if place < flat.places() {
        let place = PlaceId(place);
        Some((flat.initial(place), flat.importers(place)))
    } else {
        None
    }
}

/// The leaf of an activity, where there is such a one.
fn leaf_of(flat: &Flat, act: u32) -> Option<LeafId> {
    if act < flat.acts() {
        Some(flat.leaf_of(ActId(act)))
    } else {
        None
    }
}

#[test]
fn places_and_activities(rt: HostRuntime) -> Result<(), Fail> {
    let flat = example(rt.alloc())?;
    let both = [LeafId(0), LeafId(1)];
    assert_eq!(rt; place_of(&flat, 0), Some((0, both.as_slice())));
    assert_eq!(rt; place_of(&flat, 1), Some((1, [LeafId(0)].as_slice())));
    assert_eq!(rt; place_of(&flat, 2), Some((0, [LeafId(1)].as_slice())));
    assert_eq!(rt; place_of(&flat, 3), None);
    assert_eq!(rt; leaf_of(&flat, 0), Some(LeafId(0)));
    assert_eq!(rt; leaf_of(&flat, 1), Some(LeafId(1)));
    assert_eq!(rt; leaf_of(&flat, 2), Some(LeafId(1)));
    Ok(())
}
