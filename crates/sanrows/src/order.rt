//! A run by the needed piece each time, as its report.

ghost use Rattle.std.specs.Prelude.{◌≡◌, ◌≤◌, IsTrue, length};
ghost use Rattle.san_base.specs.Limits.{IsInRange};
ghost use Rattle.san_base.specs.declared.limits.TheConstants.{MAX_TEXT_BYTES};
ghost use Rattle.san_report.specs.Puts.{EndsIn};

use san_base::{Ending, Limits, MAX_TEXT_BYTES, NoMemory, Shared, Status, Stop};
use san_core::{Ran, run_order};
use san_net::Flat;
use san_report::{ending_line, event_line, reward_line, worth_at};
use san_serve::{NotAccepted, accept};
use san_words::{Heard, hear_plain};
use std::alloc::Global;

/// Whether an ending names no activity but the network's.
fn ends_in(flat: &Flat, ending: Ending) -> bool
    ensures { IsTrue result → EndsIn flat.now ending }
{
    match ending {
        Ending::Stop(Stop::Trap(_, _, act)) => act.0 < flat.acts(),
        _ => true,
    }
}

/// Adds the lines of the completions; false at one that isn't of the network.
fn put_events(alloc: Global, page: &mut Vec<u8>, flat: &Flat, ran: &Ran) -> Result<bool, NoMemory> {
    let mut number = 0u64;
    for event in &ran.events {
        if event.act.0 >= flat.acts() {
            return Ok(false);
        }
        page.extend_from_slice(event_line(alloc, flat, number, *event)?.as_slice())?;
        number = number.saturating_add(1);
    }
    Ok(true)
}

/// Adds the lines of the rewards.
fn put_rewards(alloc: Global, page: &mut Vec<u8>, flat: &Flat, ran: &Ran) -> Result<(), NoMemory>
    requires { length ran.now.tally.spans ≡ length flat.now.rewards }
{
    flat.is_network();
    for (at, reward) in flat.rewards().iter().enumerate() {
        let worth = worth_at(&ran.tally, ran.ending, at as u32);
        page.extend_from_slice(reward_line(alloc, reward, worth)?.as_slice())?;
    }
    Ok(())
}

/// The report of a run; none where it names what isn't in the network.
fn report(alloc: Global, flat: &Flat, ran: &Ran) -> Result<Option<Vec<u8>>, NoMemory>
    requires { length ran.now.tally.spans ≡ length flat.now.rewards }
{
    let mut page = Vec::new(alloc);
    if !ends_in(flat, ran.ending) || !put_events(alloc, &mut page, flat, ran)? {
        return Ok(None);
    }
    let count = ran.events.len() as u64;
    page.extend_from_slice(ending_line(alloc, flat, count, ran.ending)?.as_slice())?;
    put_rewards(alloc, &mut page, flat, ran)?;
    Ok(Some(page))
}

/// The status and the report of the run of a network.
fn run_network(
    alloc: Global,
    flat: Flat,
    seed: u64,
    limits: Limits,
) -> Result<(Status, Vec<u8>), NoMemory>
    requires { IsInRange limits }
{
    let flat = Shared::new(alloc, flat)?;
    let ran = run_order(alloc, &flat, seed, limits)?;
    match report(alloc, flat.get(), &ran)? {
        Some(report) => match ran.ending {
            Ending::End(_) => Ok((Status::Done, report)),
            Ending::Stop(_) => Ok((Status::Stopped, report)),
        },
        None => Ok((Status::Words, Vec::new(alloc))),
    }
}

/// The status and the report of the run of a text, as the words of `sanplain` order it.
pub(crate) fn run_by_pieces(
    alloc: Global,
    words: &[String],
    text: &[u8],
) -> Result<(Status, Vec<u8>), NoMemory> {
    let orders = match hear_plain(alloc, words) {
        Heard::Run(orders) => orders,
        Heard::Refused => return Ok((Status::Words, Vec::new(alloc))),
        Heard::NoMemory => return Err(NoMemory),
    };
    if text.len() > MAX_TEXT_BYTES {
        return Ok((Status::Refused, Vec::new(alloc)));
    }
    match accept(alloc, text) {
        Ok(accepted) => run_network(alloc, accepted.flat, orders.seed, orders.limits),
        Err(NotAccepted::Refused(_)) => Ok((Status::Refused, Vec::new(alloc))),
        Err(NotAccepted::NoMemory) => Err(NoMemory),
    }
}
