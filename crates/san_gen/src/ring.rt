//! The ring: stations, each of which passes on to the next one.

ghost use Rattle.std.specs.Prelude.{◌≡◌, ◌<◌, ◌≤◌, ◌++◌, IfOk, OnOk};
ghost use Rattle.san_gen.specs.Texts.{child_line, lines_from, next_station, ring_text, share_line};
ghost use Rattle.san_gen.specs.declared.model.TheConstants.{MAX_COPIES};

use crate::lines::push_number;
use san_base::NoMemory;
use std::alloc::Global;

/// The lines before the stations.
const HEAD: &[u8] = b"san 1;\n\
    atomic station {\n  place inbox = 1;\n  place outbox = 1;\n  place done;\n  \
    timed local { delay geom 1 5; out done; }\n  \
    timed pass { in inbox; delay uniform 3, 9; out outbox; }\n}\n\
    join ring {\n";

/// The lines behind the stations.
const TAIL: &[u8] = b"}\n\
    system ring;\n\
    reward work on station over 0 1000 { impulse local 1; impulse pass 10; }\n";

/// The station behind one: behind the last stands the first.
fn next_station(copies: u32, station: u32) -> u32
    requires { station < copies }
    ensures { result ≡ next_station copies station }
{
    if station + 1 < copies { station + 1 } else { 0 }
}

fn push_child(text: &mut Vec<u8>, station: u32) -> Result<(), NoMemory>
    ensures { OnOk result (text.new.items ≡ text.old.items ++ child_line station) }
{
    text.extend_from_slice(b"  child s")?;
    push_number(text, station)?;
    text.extend_from_slice(b" = station;\n")?;
    Ok(())
}

#[tactic(auto, unfolding(crate::specs::Texts::share_line))]
fn push_share(text: &mut Vec<u8>, copies: u32, station: u32) -> Result<(), NoMemory>
    requires { station < copies }
    ensures { OnOk result (text.new.items ≡ text.old.items ++ share_line copies station) }
{
    text.extend_from_slice(b"  share w")?;
    push_number(text, station)?;
    text.extend_from_slice(b" = s")?;
    push_number(text, station)?;
    text.extend_from_slice(b".outbox, s")?;
    push_number(text, next_station(copies, station))?;
    text.extend_from_slice(b".inbox;\n")?;
    Ok(())
}

#[tactic(auto, using(crate::proofs::LineLemmas::all_lines))]
fn push_children(text: &mut Vec<u8>, copies: u32) -> Result<(), NoMemory>
    ensures { OnOk result (text.new.items ≡ text.old.items ++ lines_from child_line 0 copies) }
{
    'stations: for station in 0..copies {
        push_child(text, station)?;
    }
    Ok(())
}

#[tactic(auto, using(crate::proofs::LineLemmas::all_lines))]
fn push_shares(text: &mut Vec<u8>, copies: u32) -> Result<(), NoMemory>
    ensures { OnOk result (text.new.items ≡ text.old.items ++ lines_from (share_line copies) 0 copies) }
{
    'stations: for station in 0..copies {
        push_share(text, copies, station)?;
    }
    Ok(())
}

/// The text of a ring of so many stations.
#[tactic(auto, unfolding(crate::specs::Texts::ring_text))]
pub(crate) fn ring_text(alloc: Global, copies: u32) -> Result<Vec<u8>, NoMemory>
    ensures { IfOk result (λ text. text.items ≡ ring_text copies) }
{
    let mut text = Vec::from_slice(alloc, HEAD)?;
    push_children(&mut text, copies)?;
    push_shares(&mut text, copies)?;
    text.extend_from_slice(TAIL)?;
    Ok(text)
}
