//! A piece of one leaf's work, line by line.

ghost use Rattle.std.specs.Prelude.{◌≡◌, [], None};

use crate::asked::claim;
use crate::words::numbers_after;
use san_base::{ActId, Event, MAX_TOKENS, NoMemory, PlaceId, Rated, Trap};
use san_clock::{Row, Timer};
use san_delay::DelayTables;
use san_draw::Draws;
use san_leaf::{Claim, Fault, Impulse, Piece, View, make_piece};
use san_net::{Flat, Part};
use std::alloc::Global;

/// The values of the shared places, by their numbers; 0 where there are no more.
#[derive(Drop)]
struct Listed {
    values: Vec<u32>,
}

impl View for Listed {
    ghost marking = { λ v. None };

    ghost kept = { λ v. [] };

    fn read(&mut self, place: PlaceId) -> u32 {
        match self.values.get(place.0 as usize) {
            Some(value) => (*value).min(MAX_TOKENS),
            None => 0,
        }
    }
}

/// The name of a part's activity.
fn name<'a>(part: &'a Part, act: ActId) -> &'a [u8] {
    let k = act.0.saturating_sub(part.first.0);
    match part.atomic.get().acts.as_slice().get(k as usize) {
        Some(act) => act.0.as_bytes(),
        None => b"?",
    }
}

/// Adds places with their values, one a line behind a word.
fn put_places(
    alloc: Global,
    page: &mut Vec<u8>,
    word: &str,
    places: &[(PlaceId, u32)],
) -> Result<(), NoMemory> {
    for (place, value) in places {
        let line = format!(in alloc; "{word} {} {value}\n", place.0)?;
        page.extend_from_slice(line.as_bytes())?;
    }
    Ok(())
}

/// Adds completions.
fn put_events(
    alloc: Global,
    page: &mut Vec<u8>,
    part: &Part,
    events: &[Event],
) -> Result<(), NoMemory> {
    for event in events {
        page.extend_from_slice(format!(in alloc; "event {} ", event.time.0)?.as_bytes())?;
        page.extend_from_slice(name(part, event.act))?;
        page.extend_from_slice(format!(in alloc; " {}\n", event.case)?.as_bytes())?;
    }
    Ok(())
}

/// Adds a term's value and the end of its line.
fn put_rated(alloc: Global, page: &mut Vec<u8>, rated: Rated) -> Result<(), NoMemory> {
    match rated {
        Rated::Value(value) => {
            page.extend_from_slice(format!(in alloc; " {value}\n")?.as_bytes())?;
        }
        Rated::Fault => page.extend_from_slice(b" fault\n")?,
    }
    Ok(())
}

/// Adds impulses, with the numbers of their events and rewards.
fn put_impulses(alloc: Global, page: &mut Vec<u8>, impulses: &[Impulse]) -> Result<(), NoMemory> {
    for impulse in impulses {
        let line = format!(in alloc; "impulse {} {}", impulse.event, impulse.reward)?;
        page.extend_from_slice(line.as_bytes())?;
        put_rated(alloc, page, impulse.rated)?;
    }
    Ok(())
}

/// Adds the values of the rate terms.
fn put_rates(alloc: Global, page: &mut Vec<u8>, rates: &[Rated]) -> Result<(), NoMemory> {
    for rated in rates {
        page.extend_from_slice(b"rate")?;
        put_rated(alloc, page, *rated)?;
    }
    Ok(())
}

/// Adds a list of numbers behind a word, if there are any.
fn put_numbers(
    alloc: Global,
    page: &mut Vec<u8>,
    word: &[u8],
    numbers: &[u32],
) -> Result<(), NoMemory> {
    if numbers.is_empty() {
        return Ok(());
    }
    page.extend_from_slice(word)?;
    for number in numbers {
        page.extend_from_slice(format!(in alloc; " {number}")?.as_bytes())?;
    }
    page.extend_from_slice(b"\n")?;
    Ok(())
}

/// Adds an activity's timer.
fn put_timer(alloc: Global, page: &mut Vec<u8>, name: &[u8], timer: Timer) -> Result<(), NoMemory> {
    page.extend_from_slice(b"timer ")?;
    page.extend_from_slice(name)?;
    let held = if timer.held { " held" } else { "" };
    page.extend_from_slice(format!(in alloc; " {}{held}\n", timer.due)?.as_bytes())?;
    Ok(())
}

/// Adds the timers of a leaf's activities, and how many delay draws and case draws those took that
/// took any.
fn put_row(alloc: Global, page: &mut Vec<u8>, part: &Part, row: &Row) -> Result<(), NoMemory> {
    for (k, act) in part.atomic.get().acts.as_slice().iter().enumerate() {
        let name = act.0.as_bytes();
        if let Some(Some(timer)) = row.timers().get(k) {
            put_timer(alloc, page, name, *timer)?;
        }
        let delays = row.delays().get(k).copied().unwrap_or(0);
        let cases = row.cases().get(k).copied().unwrap_or(0);
        if delays > 0 || cases > 0 {
            page.extend_from_slice(b"draws ")?;
            page.extend_from_slice(name)?;
            page.extend_from_slice(format!(in alloc; " {delays} {cases}\n")?.as_bytes())?;
        }
    }
    Ok(())
}

/// The word of a trap.
fn trap_word(trap: Trap) -> &'static [u8] {
    match trap {
        Trap::Arith => b"arith",
        Trap::Marking => b"marking",
        Trap::Delay => b"delay",
        Trap::Weight => b"weight",
        Trap::Index => b"index",
    }
}

/// Adds a fault.
fn put_fault(page: &mut Vec<u8>, part: &Part, fault: Fault) -> Result<(), NoMemory> {
    page.extend_from_slice(b"fault ")?;
    page.extend_from_slice(trap_word(fault.trap))?;
    page.extend_from_slice(b" ")?;
    page.extend_from_slice(name(part, fault.act))?;
    if fault.picked {
        page.extend_from_slice(b" picked")?;
    }
    page.extend_from_slice(b"\n")?;
    Ok(())
}

/// What a piece read and made.
fn outcome_lines(alloc: Global, piece: &Piece) -> Result<Vec<u8>, NoMemory> {
    let mut page = Vec::new(alloc);
    let part = piece.part().get();
    let outcome = piece.outcome();
    let state = outcome.state.get();
    put_places(alloc, &mut page, "read", piece.log())?;
    put_events(alloc, &mut page, part, outcome.events.as_slice())?;
    put_impulses(alloc, &mut page, outcome.impulses.as_slice())?;
    put_places(alloc, &mut page, "write", outcome.writes.as_slice())?;
    put_numbers(alloc, &mut page, b"values", state.values.as_slice())?;
    put_numbers(alloc, &mut page, b"seen", state.seen.as_slice())?;
    put_row(alloc, &mut page, part, &state.row)?;
    put_rates(alloc, &mut page, outcome.rates.as_slice())?;
    if let Some(fault) = outcome.fault {
        put_fault(&mut page, part, fault)?;
    }
    if outcome.more {
        page.extend_from_slice(b"more\n")?;
    }
    Ok(page)
}

/// The lines of the piece that words ask for; none where there is no such piece.
pub(crate) fn piece_lines(
    alloc: Global,
    flat: &Flat,
    words: &str,
) -> Result<Option<Vec<u8>>, NoMemory> {
    let Some(claim) = claim(alloc, flat, words)? else {
        return Ok(None);
    };
    let tables = DelayTables::open(alloc, &[])?;
    let mut draws = Draws::new(claim.seed);
    let view = Listed {
        values: numbers_after(alloc, words, "--shared ")?,
    };
    let (piece, _) = make_piece(alloc, &claim, &mut draws, &tables, view);
    Ok(Some(outcome_lines(alloc, &piece?)?))
}
