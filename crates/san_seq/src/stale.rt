//! Which leaves may have to be looked at again, and which places have changed: sets of numbers, as flags
//! and the list of those that are up, in no order.

ghost use Rattle.std.specs.Prelude.{◌≡◌, ◌+◌, ◌<◌, ◌∷◌, ℕ, [], true, false, length, replicate, slice_get, slice_index, slice_set, Some, IfOk};
ghost use Rattle.san_net.specs.Laid.{places_of};
ghost use Rattle.san_net.specs.declared.part.Part.{Part};
ghost use Rattle.san_seq.specs.inner.Flagged.{AreListed, IsListed};
ghost use Rattle.san_seq.specs.inner.Known.{AreAsleep, AreRaised, AreTouched, HasFlags, HaveFlags, HaveSame, Raised, WakesUp};
ghost use Rattle.san_seq.specs.inner.Wakes.{AreOrdered, AreWoken, EachOrdered};

use crate::wakes::{Band, Looks, Wakes, is_asleep};
use san_base::{LeafId, NoMemory, PlaceId};
use san_net::Flat;
use san_winner::Flags;
use std::alloc::{AllocError, Global};
use std::marker::Model;

/// A flag for each number below a bound, with a list of the numbers whose flags are up.
#[derive(Debug, Drop)]
pub(crate) struct Flagged {
    flags: Vec<bool>,
    /// The numbers stand at the front, as many as `count`.
    list: Vec<usize>,
    count: usize,
}

impl Model for Flagged {
    ghost use Rattle.std.specs.Prelude.{Bool, List};
    ghost use Rattle.san_seq.specs.inner.Flagged.{IsListed};

    ghost Value = { List Bool };

    ghost view = { λ f. f.flags.items };

    ghost invariant = { λ f. IsListed f.flags.items f.list.items f.count };
}

fn flags_down(alloc: Global, many: usize) -> Result<Vec<bool>, AllocError>
    ensures { IfOk result (λ v. v.items ≡ replicate many false) }
{
    vec![in alloc; false; many]
}

fn no_numbers(alloc: Global, many: usize) -> Result<Vec<usize>, AllocError>
    ensures { IfOk result (λ v. v.items ≡ replicate many 0) }
{
    vec![in alloc; 0; many]
}

/// Puts a number behind the first so many of a list: how many they are then.
fn push(list: &mut [usize], count: usize, at: usize) -> usize
    requires { count < length list.old }
    ensures list { list.new ≡ slice_set list.old count at }
    ensures more { result ≡ count + 1 }
{
    list[count] = at;
    count + 1
}

/// Puts a flag up: how many are up then.
fn put_up(flags: &mut [bool], list: &mut [usize], count: usize, at: usize) -> usize
    requires listed { IsListed flags.old list.old count }
    requires at { at < length flags.old }
    ensures flags { flags.new ≡ slice_set flags.old at true }
    ensures listed { IsListed flags.new list.new result }
{
    if flags[at] {
        return count;
    }
    flags[at] = true;
    push(list, count, at)
}

/// Takes down all flags by the list of those that are up: how many are up then.
fn take_down(flags: &mut [bool], list: &[usize], count: usize) -> usize
    requires { IsListed flags.old list.now count }
    ensures flags { flags.new ≡ replicate (length flags.old) false }
    ensures listed { IsListed flags.new list.now result }
{
    let up = &list[..count];
    'list: for k in 0..up.len() {
        let at = up[k];
        flags[at] = false;
    }
    0
}

impl Flagged {
    /// `many` flags, all down.
    pub(crate) fn open(alloc: Global, many: usize) -> Result<Flagged, NoMemory>
        ensures { IfOk result (λ f. f ≡ replicate many false) }
    {
        let flags = flags_down(alloc, many)?;
        let list = no_numbers(alloc, many)?;
        Ok(Flagged {
            flags,
            list,
            count: 0,
        })
    }

    /// Puts a flag up.
    pub(crate) fn raise(&mut self, at: usize)
        requires { at < length self.old }
        ensures { self.new ≡ slice_set self.old at true }
    {
        self.count = put_up(
            self.flags.as_mut_slice(),
            self.list.as_mut_slice(),
            self.count,
            at,
        );
    }

    /// The numbers whose flags are up, each once.
    pub(crate) fn list(&self) -> &[usize]
        ensures { AreListed result.now self.now }
    {
        let list = self.list.as_slice();
        &list[..self.count]
    }

    /// Takes all flags down.
    pub(crate) fn clear(&mut self)
        ensures { self.new ≡ replicate (length self.old) false }
    {
        self.count = take_down(self.flags.as_mut_slice(), self.list.as_slice(), self.count);
    }
}

/// What may have to be looked at in the next step.
#[derive(Drop)]
pub(crate) struct Stale {
    /// Whether the last stable marking was one; before the first timer fires it is the initial one,
    /// in which something may be enabled at once.
    pub(crate) settled: bool,
    /// For each leaf whether one of its timers may have to be renewed.
    pub(crate) timers: Flagged,
    /// For each place whether its value may differ from that at the last stable point.
    pub(crate) places: Flagged,
    /// For each leaf whether something may become enabled there by places that others have too.
    pub(crate) awake: Flags,
    looks: Looks,
}

/// Puts up all of so many flags.
fn raise_all(flags: &mut Flagged, many: usize)
    requires { length flags.old ≡ many }
    ensures { flags.new ≡ replicate many true }
{
    'flags: for at in 0..many {
        flags.raise(at);
    }
}

impl Stale {
    /// At the initial marking, which counts as the last stable one, no place has changed, all timers
    /// are to be renewed, and all leaves are awake.
    pub(crate) fn open(alloc: Global, flat: &Flat) -> Result<Stale, NoMemory>
        ensures settled { IfOk result (λ s. s.settled ≡ false) }
        ensures timers { IfOk result (λ s. s.timers ≡ replicate (length flat.now.parts) true) }
        ensures places { IfOk result (λ s. s.places ≡ replicate (length flat.now.initial) false) }
        ensures awake { IfOk result (λ s. s.awake ≡ replicate (length flat.now.parts) true) }
    {
        flat.is_network();
        let leaves = flat.leaves() as usize;
        let mut timers = Flagged::open(alloc, leaves)?;
        raise_all(&mut timers, leaves);
        let places = Flagged::open(alloc, flat.places() as usize)?;
        let awake = Flags::open(alloc, leaves)?;
        let looks = Looks::open(alloc)?;
        Ok(Stale {
            settled: false,
            timers,
            places,
            awake,
            looks,
        })
    }
}

/// The flags of these leaves go up.
fn raise(flags: &mut Flagged, leaves: &[LeafId])
    requires within { (k : ℕ) (leaf : LeafId) → slice_get leaves.now k ≡ Some leaf
        → leaf.0 < length flags.old }
    ensures { Raised leaves.now flags.old flags.new }
{
    'leaves: for k in 0..leaves.len() {
        let leaf = leaves[k].0;
        flags.raise(leaf as usize);
    }
}

/// The flags of a band's leaves go up where a change of its place crosses its weight.
fn raise_band(flags: &mut Flagged, band: &Band, was: u32, is: u32)
    requires { AreOrdered (length flags.old) band.now.leaves.items }
    ensures { AreRaised (band.now ∷ []) was is flags.old flags.new }
{
    if band.is_crossed(was, is) {
        raise(flags, &band.leaves);
    }
}

/// The same of all bands of a place.
fn raise_bands(flags: &mut Flagged, bands: &[Band], was: u32, is: u32)
    requires { EachOrdered (length flags.old) bands.now }
    ensures { AreRaised bands.now was is flags.old flags.new }
{
    'bands: for k in 0..bands.len() {
        raise_band(flags, &bands[k], was, is);
    }
}

/// Where a place has another value than at the last stable point, it and the timers of all leaves
/// that this concerns are stale.
fn touch_place(wakes: &Wakes, place: PlaceId, stable: &[u32], marking: &[u32], stale: &mut Stale)
    requires flags { HaveFlags wakes.now stale.old }
    requires place { place.0 < length stable.now }
    requires stable { length stable.now ≡ length stale.old.places }
    requires marking { length marking.now ≡ length stale.old.places }
    ensures touched { AreTouched wakes.now (place.0 ∷ []) stable.now marking.now stale.old
        stale.new }
    ensures awake { stale.new.awake ≡ stale.old.awake }
{
    let at = place.0 as usize;
    let was = stable[at];
    let is = marking[at];
    if was != is {
        stale.places.raise(at);
        raise_bands(&mut stale.timers, wakes.timers(place), was, is);
    }
}

/// The timers of a leaf that completed are stale. So is each place of it that has another value than
/// at the last stable point, with the timers of all leaves that this concerns.
fn touch_places(
    flat: &Flat,
    wakes: &Wakes,
    leaf: LeafId,
    stable: &[u32],
    marking: &[u32],
    stale: &mut Stale,
)
    requires leaf { leaf.0 < length flat.now.parts }
    requires stable { length stable.now ≡ length flat.now.initial }
    requires marking { length marking.now ≡ length flat.now.initial }
    requires woken { AreWoken flat.now wakes.now }
    requires flags { HasFlags flat.now stale.old }
    ensures touched { (p : Part) → slice_get flat.now.parts leaf.0 ≡ Some p → AreTouched wakes.now
        (places_of p) stable.now marking.now stale.old stale.new }
    ensures own { slice_get stale.new.timers leaf.0 ≡ Some true }
    ensures awake { stale.new.awake ≡ stale.old.awake }
{
    flat.is_network();
    let slots = flat.part(leaf).get().slots.as_slice();
    stale.timers.raise(leaf.0 as usize);
    'cells: for k in 0..slots.len() {
        touch_place(wakes, slots[k].place(), stable, marking, stale);
    }
}

/// A leaf is awake, unless it has no instantaneous activity.
fn wake(flat: &Flat, leaf: LeafId, awake: &mut Flags)
    requires leaf { leaf.0 < length flat.now.parts }
    requires flags { length awake.old ≡ length flat.now.parts }
    ensures { WakesUp flat.now leaf.0 awake.old awake.new }
{
    let atomic = flat.part(leaf).get().atomic.get();
    if !atomic.instants.as_slice().is_empty() {
        awake.set(leaf.0 as usize, true);
    }
}

/// What is stale by the completion of a leaf's activity; the leaf is awake.
pub(crate) fn touch(
    flat: &Flat,
    wakes: &Wakes,
    leaf: LeafId,
    stable: &[u32],
    marking: &[u32],
    stale: &mut Stale,
)
    requires leaf { leaf.0 < length flat.now.parts }
    requires stable { length stable.now ≡ length flat.now.initial }
    requires marking { length marking.now ≡ length flat.now.initial }
    requires woken { AreWoken flat.now wakes.now }
    requires flags { HasFlags flat.now stale.old }
    ensures touched { (p : Part) → slice_get flat.now.parts leaf.0 ≡ Some p → AreTouched wakes.now
        (places_of p) stable.now marking.now stale.old stale.new }
    ensures own { slice_get stale.new.timers leaf.0 ≡ Some true }
    ensures awake { WakesUp flat.now leaf.0 stale.old.awake stale.new.awake }
{
    wake(flat, leaf, &mut stale.awake);
    touch_places(flat, wakes, leaf, stable, marking, stale);
}

/// Copies a place's value.
fn copy_at(stable: &mut [u32], marking: &[u32], at: usize)
    requires at { at < length marking.now }
    requires sized { length stable.old ≡ length marking.now }
    ensures { stable.new ≡ slice_set stable.old at (slice_index marking.now at) }
{
    stable[at] = marking[at];
}

/// The last stable marking becomes the present one, from which it differs at flagged places alone.
fn catch_up(places: &Flagged, marking: &[u32], stable: &mut [u32])
    requires flags { length places.now ≡ length marking.now }
    requires stable { length stable.old ≡ length marking.now }
    requires same { HaveSame places.now stable.old marking.now }
    ensures { stable.new ≡ marking.now }
{
    let changed = places.list();
    'places: for k in 0..changed.len() {
        copy_at(stable, marking, changed[k]);
    }
}

/// A leaf that is asleep isn't awake any more.
fn doze(flat: &Flat, looks: &mut Looks, awake: &mut Flags, leaf: LeafId, marking: &[u32])
    requires leaf { leaf.0 < length flat.now.parts }
    requires flags { length awake.old ≡ length flat.now.parts }
    requires marking { length marking.now ≡ length flat.now.initial }
    requires asleep { AreAsleep flat.now awake.old marking.now }
    ensures flags { length awake.new ≡ length flat.now.parts }
    ensures asleep { AreAsleep flat.now awake.new marking.now }
{
    if is_asleep(flat, looks, leaf, marking) {
        awake.set(leaf.0 as usize, false);
    }
}

/// The same of some leaves.
fn doze_all(flat: &Flat, leaves: &Flagged, looks: &mut Looks, awake: &mut Flags, marking: &[u32])
    requires leaves { length leaves.now ≡ length flat.now.parts }
    requires flags { length awake.old ≡ length flat.now.parts }
    requires marking { length marking.now ≡ length flat.now.initial }
    requires asleep { AreAsleep flat.now awake.old marking.now }
    ensures flags { length awake.new ≡ length flat.now.parts }
    ensures asleep { AreAsleep flat.now awake.new marking.now }
{
    flat.is_network();
    let list = leaves.list();
    'leaves: for k in 0..list.len() {
        let leaf = LeafId(list[k] as u32);
        doze(flat, looks, awake, leaf, marking);
    }
}

/// The present marking is the last stable one, since nothing is enabled in it at once and all timers
/// are as they are to be. Nothing is stale any more.
pub(crate) fn settle(flat: &Flat, stale: &mut Stale, marking: &[u32], stable: &mut [u32])
    requires flags { HasFlags flat.now stale.old }
    requires marking { length marking.now ≡ length flat.now.initial }
    requires stable { length stable.old ≡ length flat.now.initial }
    requires same { HaveSame stale.old.places stable.old marking.now }
    requires asleep { AreAsleep flat.now stale.old.awake marking.now }
    ensures stable { stable.new ≡ marking.now }
    ensures flags { HasFlags flat.now stale.new }
    ensures asleep { AreAsleep flat.now stale.new.awake marking.now }
{
    catch_up(&stale.places, marking, stable);
    doze_all(
        flat,
        &stale.timers,
        &mut stale.looks,
        &mut stale.awake,
        marking,
    );
    stale.settled = true;
    stale.timers.clear();
    stale.places.clear();
}
