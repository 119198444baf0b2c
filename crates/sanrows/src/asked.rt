//! The piece of one leaf's work that a row's words ask for.

ghost use Rattle.std.specs.Prelude.{◌<◌, [], IfOk, IfSome, IsTrue, None, Some, ◌≡◌, length, slice_get};
ghost use Rattle.san_leaf.specs.Claims.{claimed};
ghost use Rattle.san_leaf.specs.Fits.{Fits, IsTimed, KindFits};
ghost use Rattle.san_net.specs.Instants.{Named};

use crate::words::{number_after, word_after};
use san_base::{ActId, Kind, LeafId, MAX_HORIZON, Name, NoMemory, Shared, Stamp, Tick};
use san_leaf::{Claim, claims_of_a_network_fit, first_state, first_states_fit};
use san_net::{ActKind, Activity, Flat, Part};
use std::alloc::Global;

/// Whether an activity is there and timed.
fn is_timed(acts: &[(Name, Activity)], act: u32) -> bool
    ensures { IsTrue result → (a : Named) × (slice_get acts.now act ≡ Some a) × IsTimed a.1.kind }
{
    match acts.get(act as usize) {
        Some(act) => match &act.1.kind {
            ActKind::Timed { .. } => true,
            ActKind::Instant { .. } => false,
        },
        None => false,
    }
}

/// Whether a part has such a piece.
fn is_fit(part: &Part, kind: Kind) -> bool
    ensures { IsTrue result → KindFits part.now kind }
{
    match kind {
        Kind::Fire(act) => {
            part.first.0 <= act.0
                && is_timed(part.atomic.get().acts.as_slice(), act.0 - part.first.0)
        }
        Kind::Settle | Kind::Refresh => true,
    }
}

/// The leaf of a path.
fn leaf_of(flat: &Flat, path: &str) -> Option<LeafId>
    ensures { IfSome result (λ leaf. leaf.0 < length flat.now.parts) }
{
    for leaf in 0..flat.leaves() {
        if flat.path(LeafId(leaf)) == path.as_bytes() {
            return Some(LeafId(leaf));
        }
    }
    None
}

/// The activity of a name.
fn act_of(part: &Part, name: &str) -> Option<ActId> {
    let mut act = part.first.0;
    for named in part.atomic.get().acts.as_slice() {
        if named.0.as_bytes() == name.as_bytes() {
            return Some(ActId(act));
        }
        act = act.checked_add(1)?;
    }
    None
}

/// The kind of the piece, where the part has such a one.
fn kind_of(part: &Part, words: &str) -> Option<Kind>
    ensures { IfSome result (KindFits part.now) }
{
    let kind = match word_after(words, "--piece ")? {
        "fire" => Kind::Fire(act_of(part, word_after(words, "--act ")?)?),
        "settle" => Kind::Settle,
        "refresh" => Kind::Refresh,
        _ => return None,
    };
    if is_fit(part, kind) { Some(kind) } else { None }
}

/// Where a leaf's piece stands before its first completion.
fn stamp_at(leaf: LeafId, time: u64) -> Stamp {
    Stamp {
        time: Tick(time),
        leaf,
        pos: 0,
        all: false,
    }
}

/// The claim of the piece, from the leaf's first state; none where there is no such piece.
pub(crate) fn claim(alloc: Global, flat: &Flat, words: &str) -> Result<Option<Claim>, NoMemory>
    ensures { IfOk result (λ o. IfSome o (λ c. Fits (claimed c))) }
{
    flat.is_network();
    first_states_fit();
    claims_of_a_network_fit();
    let seed = number_after(words, "--seed ");
    let time = number_after(words, "--time ");
    let leaf = leaf_of(flat, word_after(words, "--leaf ").unwrap_or(""));
    let (Some(seed), Some(time), Some(leaf)) = (seed, time, leaf) else {
        return Ok(None);
    };
    if time > MAX_HORIZON {
        return Ok(None);
    }
    let part = flat.part(leaf).share()?;
    let Some(kind) = kind_of(part.get(), words) else {
        return Ok(None);
    };
    let base = Shared::new(alloc, first_state(alloc, part.get())?)?;
    Ok(Some(Claim {
        seed,
        part,
        base,
        kind,
        time: Tick(time),
        stamp: stamp_at(leaf, time),
    }))
}
