//! The initial values of the places.

ghost use Rattle.std.specs.Prelude.{◌≡◌, ◌∷◌, ◌++◌, [], if◌then◌else◌, length, true, false, IfOk, OnOk};
ghost use Rattle.san_flat.specs.inner.Sightings.{picked};

use san_base::NoMemory;
use std::alloc::Global;

fn push_if(out: &mut Vec<u32>, value: u32, wanted: bool) -> Result<(), NoMemory>
    ensures { OnOk result (out.new.items ≡ out.old.items ++ (if wanted then value ∷ [] else [])) }
{
    if wanted {
        out.push(value)?;
    }
    Ok(())
}

/// Adds the values of the homes that were seen twice or more, or of the others.
fn push_picked(
    out: &mut Vec<u32>,
    counts: &[u8],
    values: &[u32],
    twice: bool,
) -> Result<(), NoMemory>
    requires { length counts.now ≡ length values.now }
    ensures { OnOk result (out.new.items ≡ out.old.items ++ picked twice counts.now values.now) }
{
    'counts: for (at, count) in counts.iter().enumerate() {
        push_if(out, values[at], (*count == 2) == twice)?;
    }
    Ok(())
}

/// The initial values of the places, from those of the homes in the order in which they were seen.
pub(crate) fn initial_of(alloc: Global, counts: &[u8], values: &[u32]) -> Result<Vec<u32>, NoMemory>
    requires { length counts.now ≡ length values.now }
    ensures { IfOk result (λ initial. initial.items ≡ picked true counts.now values.now ++ picked
        false counts.now values.now) }
{
    let mut initial = Vec::with_capacity(alloc, values.len())?;
    push_picked(&mut initial, counts, values, true)?;
    push_picked(&mut initial, counts, values, false)?;
    Ok(initial)
}
