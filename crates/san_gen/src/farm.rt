//! The farm: processors that share one crew.

ghost use Rattle.std.specs.Prelude.{◌≡◌, IfOk};
ghost use Rattle.san_gen.specs.Texts.{farm_text};

use crate::lines::push_number;
use san_base::NoMemory;
use std::alloc::Global;

/// The lines before the number of processors.
const HEAD: &[u8] = b"san 1;\n\
    atomic cpu {\n  place up = 1;\n  place failed;\n  place mended;\n  \
    timed fail { in up; delay geom 1 50; out failed; }\n  \
    instant start { gate up == 0; in mended; out up; }\n}\n\
    atomic crew {\n  place failed;\n  place mended;\n  \
    timed fix { in failed; delay uniform 1, 4; out mended; }\n}\n\
    rep cpus = cpu times ";

/// What stands behind the number of processors.
const TAIL: &[u8] = b" { share failed; share mended; }\n\
    join farm {\n  child cpus = cpus;\n  child crew = crew;\n  \
    share failed = cpus.failed, crew.failed;\n  \
    share mended = cpus.mended, crew.mended;\n}\n\
    system farm;\n\
    reward down on cpu over 0 1000 { rate 1 - up; impulse fail 3; }\n\
    reward queue on crew mean 0 1000 { rate failed; }\n";

/// The text of a farm of so many processors.
#[tactic(auto, unfolding(crate::specs::Texts::farm_text))]
pub(crate) fn farm_text(alloc: Global, copies: u32) -> Result<Vec<u8>, NoMemory>
    ensures { IfOk result (λ text. text.items ≡ farm_text copies) }
{
    let mut text = Vec::from_slice(alloc, HEAD)?;
    push_number(&mut text, copies)?;
    text.extend_from_slice(TAIL)?;
    Ok(text)
}
