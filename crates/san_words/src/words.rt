//! The words of a command line, heard: what they order, or that the program's command doesn't take
//! them.

ghost use Rattle.std.specs.Prelude.{map, string_bytes};
ghost use Rattle.san_words.specs.Commands.{plain_app, run_app};
ghost use Rattle.san_words.specs.Hears.{CanRun, CanRunBatch, CanRunFirst, Hears, HearsBatch};
ghost use Rattle.san_words.specs.Hears.{HearsFirst, OrdersSay, PlainSay};

use crate::command::{batch_command, first_command, plain_command, run_command};
use crate::matches::{Unheard, find};
use crate::orders::{Heard, HeardBatch, HeardFirst};
use crate::values::{batch_orders, first_orders, has_seeds, plain_orders, run_orders};
use std::alloc::Global;

/// The run that the words of `sanrun` order; Refused where its command doesn't take them.
pub fn hear(alloc: Global, words: &[String]) -> Heard
    ensures heard { Hears OrdersSay run_app (map string_bytes words.now) result }
    ensures can_run { CanRun result }
{
    let Ok(command) = run_command(alloc) else {
        return Heard::NoMemory;
    };
    match find(command, words) {
        Ok(matches) => Heard::Run(run_orders(&matches)),
        Err(Unheard::Refused) => Heard::Refused,
        Err(Unheard::NoMemory) => Heard::NoMemory,
    }
}

/// The run that the words of `sanplain` order; Refused where its command doesn't take them.
pub fn hear_plain(alloc: Global, words: &[String]) -> Heard
    ensures heard { Hears PlainSay plain_app (map string_bytes words.now) result }
    ensures can_run { CanRun result }
{
    let Ok(command) = plain_command(alloc) else {
        return Heard::NoMemory;
    };
    match find(command, words) {
        Ok(matches) => Heard::Run(plain_orders(&matches)),
        Err(Unheard::Refused) => Heard::Refused,
        Err(Unheard::NoMemory) => Heard::NoMemory,
    }
}

/// The runs that the words of `sanbatch` order; Refused where its command doesn't take them, or the
/// last run has no seed.
pub fn hear_batch(alloc: Global, words: &[String]) -> HeardBatch
    ensures heard { HearsBatch (map string_bytes words.now) result }
    ensures can_run { CanRunBatch result }
{
    let Ok(command) = batch_command(alloc) else {
        return HeardBatch::NoMemory;
    };
    match find(command, words) {
        Ok(matches) => {
            let orders = batch_orders(&matches);
            if has_seeds(orders) {
                HeardBatch::Batch(orders)
            } else {
                HeardBatch::Refused
            }
        }
        Err(Unheard::Refused) => HeardBatch::Refused,
        Err(Unheard::NoMemory) => HeardBatch::NoMemory,
    }
}

/// The runs that the words of `sanfirst` order; Refused where its command doesn't take them, or the
/// last run has no seed.
pub fn hear_first(alloc: Global, words: &[String]) -> HeardFirst
    ensures heard { HearsFirst (map string_bytes words.now) result }
    ensures can_run { CanRunFirst result }
{
    let Ok(command) = first_command(alloc) else {
        return HeardFirst::NoMemory;
    };
    match find(command, words) {
        Ok(matches) => {
            let orders = first_orders(&matches);
            if has_seeds(orders.batch) {
                HeardFirst::First(orders)
            } else {
                HeardFirst::Refused
            }
        }
        Err(Unheard::Refused) => HeardFirst::Refused,
        Err(Unheard::NoMemory) => HeardFirst::NoMemory,
    }
}
