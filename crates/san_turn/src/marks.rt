//! Sets of leaves, as flags: read, copied, compared, and spread over the leaves of written places.

ghost use Rattle.std.specs.Option.{option_map};
ghost use Rattle.std.specs.Prelude.{◌≡◌, ◌↔◌, ◌<◌, ◌^◌, All, IfOk, IsTrue, ℕ, length, map};
ghost use Rattle.san_law.specs.Network.{Limits};
ghost use Rattle.san_law.specs.Order.{first_true, flag, flags_from};
ghost use Rattle.san_net.specs.Network.{net_of};
ghost use Rattle.san_turn.specs.Changes.{flag_after};
ghost use Rattle.san_turn.specs.inner.Marks.{raised, raised_all};

use san_base::{LeafId, NoMemory, PlaceId};
use san_net::Flat;
use san_winner::Flags;
use std::alloc::Global;

/// Whether a leaf is in a set.
pub(crate) fn is_up(flags: &Flags, at: usize) -> bool
    requires { at < length flags.now }
    ensures { result ≡ flag flags.now at }
{
    match flags.next(at) {
        Some(next) => next == at,
        None => false,
    }
}

/// The least leaf of a set.
pub(crate) fn first(flags: &Flags) -> Option<LeafId>
    requires { length flags.now < 2 ^ 32 }
    ensures { option_map (λ leaf. leaf.0) result ≡ first_true 0 flags.now }
{
    match flags.next(0) {
        Some(leaf) => Some(LeafId(leaf as u32)),
        None => None,
    }
}

/// These leaves go into a set.
fn raise(flags: &mut Flags, leaves: &[LeafId])
    requires { All (λ leaf. leaf.0 < length flags.old) leaves.now }
    ensures { flags.new ≡ raised leaves.now flags.old }
{
    'leaves: for leaf in leaves {
        flags.set(leaf.0 as usize, true);
    }
}

/// The leaves that have one of these places go into a set.
fn raise_all(flat: &Flat, places: &[PlaceId], flags: &mut Flags)
    requires places { All (λ place. place.0 < length flat.now.initial) places.now }
    requires flags { length flags.old ≡ length flat.now.parts }
    ensures { flags.new ≡ raised_all flat.now.parts places.now flags.old }
{
    flat.is_network();
    'places: for place in places {
        raise(flags, flat.importers(*place));
    }
}

/// A piece's leaf goes into a set or out of it, the others that have a written place go into it.
pub(crate) fn spread(flat: &Flat, written: &[PlaceId], leaf: LeafId, own: bool, flags: &mut Flags)
    requires written { All (λ place. place.0 < length flat.now.initial) written.now }
    requires leaf { leaf.0 < length flat.now.parts }
    requires flags { length flags.old ≡ length flat.now.parts }
    ensures { (draw : ℕ → ℕ → ℕ) (limits : Limits)
        → flags.new ≡ flags_from (flag_after (net_of flat.now draw limits) leaf.0
        (map (λ place. place.0) written.now) own) 0 flags.old }
{
    flat.is_network();
    raise_all(flat, written, flags);
    flags.set(leaf.0 as usize, own);
}

/// An equal set, of leaves below a number.
pub(crate) fn copy_flags(alloc: Global, flags: &Flags, leaves: usize) -> Result<Flags, NoMemory>
    requires leaves { leaves ≡ length flags.now }
    requires few { leaves < 2 ^ 32 }
    ensures { IfOk result (λ copy. copy ≡ flags.now) }
{
    let mut copy = Flags::open(alloc, leaves)?;
    'leaves: for leaf in 0..leaves {
        copy.set(leaf, is_up(flags, leaf));
    }
    Ok(copy)
}

/// Whether two sets of leaves below a number are equal.
pub(crate) fn same_flags(a: &Flags, b: &Flags, leaves: usize) -> bool
    requires a { leaves ≡ length a.now }
    requires b { leaves ≡ length b.now }
    ensures { IsTrue result ↔ (a.now ≡ b.now) }
{
    'leaves: for leaf in 0..leaves {
        if is_up(a, leaf) != is_up(b, leaf) {
            return false;
        }
    }
    true
}
