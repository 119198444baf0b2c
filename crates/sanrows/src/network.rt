//! A network, leaf by leaf.

ghost use Rattle.std.specs.Prelude.{◌<◌, length};

use san_base::{LeafId, NoMemory, PlaceId};
use san_net::{Flat, Slot};
use std::alloc::Global;

/// Adds the place of a cell, in brackets where other leaves have it too.
fn put_slot(alloc: Global, page: &mut Vec<u8>, slot: Slot) -> Result<(), NoMemory> {
    let text = match slot {
        Slot::Private(place) => format!(in alloc; " {}", place.0)?,
        Slot::Shared(place) => format!(in alloc; " ({})", place.0)?,
    };
    page.extend_from_slice(text.as_bytes())?;
    Ok(())
}

/// Adds a leaf: its path, the number of its first activity, and the places of its cells.
fn put_leaf(alloc: Global, page: &mut Vec<u8>, flat: &Flat, leaf: LeafId) -> Result<(), NoMemory>
    requires { leaf.0 < length flat.now.parts }
{
    page.extend_from_slice(flat.path(leaf))?;
    let part = flat.part(leaf).get();
    page.extend_from_slice(format!(in alloc; " {}:", part.first.0)?.as_bytes())?;
    for slot in part.slots.as_slice() {
        put_slot(alloc, page, *slot)?;
    }
    page.extend_from_slice(b"\n")?;
    Ok(())
}

/// The lines of a network: its leaves, and then the initial values of its places.
pub(crate) fn network_lines(alloc: Global, flat: &Flat) -> Result<Vec<u8>, NoMemory> {
    let mut page = Vec::new(alloc);
    for leaf in 0..flat.leaves() {
        put_leaf(alloc, &mut page, flat, LeafId(leaf))?;
    }
    page.extend_from_slice(b"initial")?;
    for place in 0..flat.places() {
        let value = flat.initial(PlaceId(place));
        page.extend_from_slice(format!(in alloc; " {value}")?.as_bytes())?;
    }
    page.extend_from_slice(b"\n")?;
    Ok(page)
}
