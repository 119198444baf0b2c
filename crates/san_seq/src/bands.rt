//! The bands of each place, as they are made when a run is opened.

ghost use Rattle.std.specs.Prelude.{◌≡◌, ◌<◌, ◌≤◌, ◌∷◌, ◌++◌, ℕ, [], true, length, map, replicate, IfOk, IfSome, OnOk, slice_get, slice_set, Some};
ghost use Rattle.san_net.specs.Laid.{places_of};
ghost use Rattle.san_seq.specs.inner.Wakes.{EachInstant, EachOf, EachOfAct, EachTimed, EachWeight, Gains, IsIndexed, IsIndex, TakesIn, Stands, bands_at, weight_at};
ghost use Rattle.san_seq.specs.declared.wakes.Band.{Band};

use crate::concern::{Concern, weight_at};
use crate::wakes::Band;
use san_base::{LeafId, MAX_CELLS, Name, NoMemory, PlaceId};
use san_net::{ActKind, Activity, Flat, Input, Part};
use std::alloc::Global;

/// Whether a leaf is the last of some.
fn is_last(leaves: &[LeafId], leaf: LeafId) -> bool
    ensures { result ≡ true → (k : ℕ) × (slice_get leaves.now k ≡ Some leaf) }
{
    match leaves.last() {
        Some(last) => last.0 == leaf.0,
        None => false,
    }
}

/// Puts a leaf behind others, unless it is the last of them.
fn join(leaves: &mut Vec<LeafId>, leaf: LeafId) -> Result<(), NoMemory>
    ensures { OnOk result (TakesIn leaf leaves.old.items leaves.new.items) }
{
    if is_last(leaves, leaf) {
        return Ok(());
    }
    leaves.push(leaf)?;
    Ok(())
}

/// The band of a weight, if there is one.
fn band_of(bands: &[Band], weight: u32) -> Option<usize>
    ensures within { IfSome result (λ at. at < length bands.now) }
    ensures weight { IfSome result (λ at. (band : Band) → slice_get bands.now at ≡ Some band
        → band.weight ≡ weight) }
{
    'bands: for at in 0..bands.len() {
        if bands[at].weight == weight {
            return Some(at);
        }
    }
    None
}

/// A leaf joins a band.
fn join_band(bands: &mut [Band], at: usize, leaf: LeafId) -> Result<(), NoMemory>
    requires { at < length bands.old }
    ensures gains { OnOk result (Gains leaf bands.old bands.new) }
    ensures there { OnOk result ((weight : ℕ) → ((band : Band) → slice_get bands.old at ≡ Some band
        → band.weight ≡ weight) → Stands bands.new weight leaf.0) }
{
    let band = &mut bands[at];
    join(&mut band.leaves, leaf)
}

/// A band of one leaf goes behind the others.
fn begin(alloc: Global, bands: &mut Vec<Band>, weight: u32, leaf: LeafId) -> Result<(), NoMemory>
    ensures gains { OnOk result (Gains leaf bands.old.items bands.new.items) }
    ensures there { OnOk result (Stands bands.new.items weight leaf.0) }
{
    let mut leaves = Vec::new(alloc);
    leaves.push(leaf)?;
    bands.push(Band { weight, leaves })?;
    Ok(())
}

/// A leaf joins the band of a weight.
fn put(alloc: Global, bands: &mut Vec<Band>, weight: u32, leaf: LeafId) -> Result<(), NoMemory>
    ensures gains { OnOk result (Gains leaf bands.old.items bands.new.items) }
    ensures there { OnOk result (Stands bands.new.items weight leaf.0) }
{
    match band_of(bands, weight) {
        Some(at) => join_band(bands, at, leaf),
        None => begin(alloc, bands, weight, leaf),
    }
}

/// A leaf joins the band by which a predicate looks at a cell, if it does.
fn note_input(
    alloc: Global,
    bands: &mut Vec<Band>,
    input: &Input,
    leaf: LeafId,
    cell: u32,
) -> Result<(), NoMemory>
    ensures gains { OnOk result (Gains leaf bands.old.items bands.new.items) }
    ensures there { OnOk result (IfSome (weight_at input.now cell) (λ w. Stands bands.new.items w
        leaf.0)) }
{
    match weight_at(input, cell) {
        Some(weight) => put(alloc, bands, weight, leaf),
        None => Ok(()),
    }
}

/// A leaf joins the bands by which an activity's predicates look at a cell.
fn note_inputs(
    alloc: Global,
    bands: &mut Vec<Band>,
    inputs: &[Input],
    leaf: LeafId,
    cell: u32,
) -> Result<(), NoMemory>
    ensures gains { OnOk result (Gains leaf bands.old.items bands.new.items) }
    ensures there { OnOk result (EachOf inputs.now cell (λ w. Stands bands.new.items w leaf.0)) }
{
    'inputs: for k in 0..inputs.len() {
        note_input(alloc, bands, &inputs[k], leaf, cell)?;
    }
    Ok(())
}

/// A leaf joins the bands by which an activity hangs on a cell, if it is an instantaneous one.
fn note_instant(
    alloc: Global,
    bands: &mut Vec<Band>,
    activity: &Activity,
    leaf: LeafId,
    cell: u32,
) -> Result<(), NoMemory>
    ensures gains { OnOk result (Gains leaf bands.old.items bands.new.items) }
    ensures there { OnOk result (EachInstant activity.now.kind activity.now cell
        (λ w. Stands bands.new.items w leaf.0)) }
{
    match &activity.kind {
        ActKind::Timed { .. } => Ok(()),
        ActKind::Instant { .. } => {
            note_inputs(alloc, bands, activity.inputs.as_slice(), leaf, cell)
        }
    }
}

/// A leaf joins the bands by which an activity's timer hangs on a cell. With a pair it hangs on each
/// value of its leaf.
fn note_timer(
    alloc: Global,
    bands: &mut Vec<Band>,
    activity: &Activity,
    leaf: LeafId,
    cell: u32,
) -> Result<(), NoMemory>
    ensures gains { OnOk result (Gains leaf bands.old.items bands.new.items) }
    ensures there { OnOk result (EachTimed activity.now.kind activity.now cell
        (λ w. Stands bands.new.items w leaf.0)) }
{
    match &activity.kind {
        ActKind::Timed { pair: None, .. } => {
            note_inputs(alloc, bands, activity.inputs.as_slice(), leaf, cell)
        }
        ActKind::Timed { pair: Some(_), .. } => put(alloc, bands, 0, leaf),
        ActKind::Instant { .. } => Ok(()),
    }
}

fn note_act(
    alloc: Global,
    concern: Concern,
    bands: &mut Vec<Band>,
    activity: &Activity,
    leaf: LeafId,
    cell: u32,
) -> Result<(), NoMemory>
    ensures gains { OnOk result (Gains leaf bands.old.items bands.new.items) }
    ensures there { OnOk result (EachOfAct concern activity.now cell (λ w. Stands bands.new.items w
        leaf.0)) }
{
    match concern {
        Concern::Instants => note_instant(alloc, bands, activity, leaf, cell),
        Concern::Timers => note_timer(alloc, bands, activity, leaf, cell),
    }
}

/// A leaf joins the bands by which its activities hang on a cell.
fn note_cell(
    alloc: Global,
    concern: Concern,
    bands: &mut Vec<Band>,
    acts: &[(Name, Activity)],
    leaf: LeafId,
    cell: u32,
) -> Result<(), NoMemory>
    ensures gains { OnOk result (Gains leaf bands.old.items bands.new.items) }
    ensures there { OnOk result (EachWeight concern acts.now cell (λ w. Stands bands.new.items w
        leaf.0)) }
{
    'acts: for k in 0..acts.len() {
        note_act(alloc, concern, bands, &acts[k].1, leaf, cell)?;
    }
    Ok(())
}

/// The same at the place of a cell.
fn note_place(
    alloc: Global,
    concern: Concern,
    table: &mut Vec<Vec<Band>>,
    acts: &[(Name, Activity)],
    leaf: LeafId,
    cell: u32,
    place: PlaceId,
) -> Result<(), NoMemory>
    requires { place.0 < length table.old.items }
    ensures sized { length table.new.items ≡ length table.old.items }
    ensures gains { OnOk result ((q : ℕ) → Gains leaf (bands_at (map (λ v. v.items) table.old.items)
        q) (bands_at (map (λ v. v.items) table.new.items) q)) }
    ensures there { OnOk result (EachWeight concern acts.now cell (λ w. Stands (bands_at
        (map (λ v. v.items) table.new.items) place.0) w leaf.0)) }
{
    let bands = &mut table[place.0 as usize];
    note_cell(alloc, concern, bands, acts, leaf, cell)
}

/// A leaf joins the bands of all its places.
fn note(
    alloc: Global,
    table: &mut Vec<Vec<Band>>,
    concern: Concern,
    part: &Part,
) -> Result<(), NoMemory>
    requires cells { length part.now.slots ≤ MAX_CELLS }
    requires within { (i place : ℕ) → slice_get (places_of part.now) i ≡ Some place
        → place < length table.old.items }
    ensures sized { length table.new.items ≡ length table.old.items }
    ensures noted { OnOk result (IsIndexed concern part.now.atomic.acts part.now.leaf (places_of
        part.now) (map (λ v. v.items) table.old.items) (map (λ v. v.items) table.new.items)) }
{
    let slots = part.slots.as_slice();
    let acts = part.atomic.get().acts.as_slice();
    'cells: for k in 0..slots.len() {
        let place = slots[k].place();
        note_place(alloc, concern, table, acts, part.leaf, k as u32, place)?;
    }
    Ok(())
}

/// `places` empty lists.
fn empty_lists(alloc: Global, places: usize) -> Result<Vec<Vec<Band>>, NoMemory>
    ensures { IfOk result (λ v. map (λ x. x.items) v.items ≡ replicate places []) }
{
    let mut table = Vec::with_capacity(alloc, places)?;
    'places: for _ in 0..places {
        table.push(Vec::new(alloc))?;
    }
    Ok(table)
}

/// For each place the bands of the leaves that it concerns.
pub(crate) fn table(
    alloc: Global,
    flat: &Flat,
    concern: Concern,
) -> Result<Vec<Vec<Band>>, NoMemory>
    ensures { IfOk result (λ v. IsIndex concern flat.now (length flat.now.parts) (map (λ x. x.items)
        v.items)) }
{
    flat.is_network();
    let mut table = empty_lists(alloc, flat.places() as usize)?;
    'leaves: for j in 0..flat.leaves() {
        note(alloc, &mut table, concern, flat.part(LeafId(j)).get())?;
    }
    Ok(table)
}
