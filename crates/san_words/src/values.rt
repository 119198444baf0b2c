//! The numbers that the options of a command line set.

ghost use Rattle.std.specs.Prelude.{◌≡◌, ◌≤◌, ◌↔◌, IsTrue, is_some};
ghost use Rattle.clap.specs.Words.{found_of, one_text};
ghost use Rattle.san_base.specs.Limits.{IsInRange};
ghost use Rattle.san_base.specs.declared.limits.TheConstants.{MAX_ROLLBACKS, MAX_WINDOW};
ghost use Rattle.san_base.specs.declared.limits.TheConstants.{MAX_TOKENS, MAX_WORKERS};
ghost use Rattle.san_summary.specs.declared.batch.TheConstants.{MAX_RUNS};
ghost use Rattle.san_words.specs.Hears.{BatchSay, BoundsSay, CanMake, CanRunMany, FirstSay, HasSeeds};
ghost use Rattle.san_words.specs.Hears.{MakeSays, OrdersSay, PlainSay, Says, SetsNumber};
ghost use Rattle.san_words.specs.declared.options.NumberOption.TheVariants.{BatchWorkers, Rollbacks, Window};
ghost use Rattle.san_words.specs.Options.{default_in, kind_of, least_of, most_of, row_of};

use crate::options::NumberOption::{
    BatchWorkers, Burst, Events, FirstRuns, Horizon, Kind, Least, Make, Place, Rollbacks, Runs,
    Seed, Window, Workers,
};
use crate::options::{FARM_NUMBER, NumberOption, row};
use crate::orders::{BatchOrders, FirstOrders, Made, Orders};
use clap::ArgMatches;
use san_base::{Limits, Tick};
use san_gen::ModelKind;

/// The number that an option's text writes, or another.
fn written(matches: &ArgMatches<'_>, id: &str, other: u64) -> u64
    ensures { Says other (one_text (found_of matches.now) id.now) result }
{
    matches.get_one::<u64>(id).unwrap_or(other)
}

/// The number that an option sets.
fn value(matches: &ArgMatches<'_>, option: NumberOption) -> u64
    ensures set { SetsNumber (one_text (found_of matches.now)) option result }
    ensures low { least_of (row_of option).range ≤ result }
    ensures high { result ≤ most_of (row_of option).range }
{
    let row = row(option);
    written(matches, row.name, row.default_number())
        .min(row.range.most())
        .max(row.range.least())
}

/// Whether an option is there.
fn is_given(matches: &ArgMatches<'_>, option: NumberOption) -> bool
    ensures { result ≡ is_some (one_text (found_of matches.now) (row_of option).name) }
{
    match matches.try_get_one::<u64>(row(option).name) {
        Ok(None) => false,
        Ok(Some(_)) | Err(_) => true,
    }
}

/// The kind of a generated model, by its number.
fn kind(number: u32) -> ModelKind
    ensures { result ≡ kind_of number }
{
    if number == FARM_NUMBER {
        ModelKind::Farm
    } else {
        ModelKind::Ring
    }
}

/// The model that is generated, where one is.
fn made(matches: &ArgMatches<'_>) -> Option<Made>
    ensures say { MakeSays (one_text (found_of matches.now)) result }
    ensures can_make { CanMake result }
{
    if is_given(matches, Make) {
        Some(Made {
            copies: value(matches, Make) as u32,
            kind: kind(value(matches, Kind) as u32),
        })
    } else {
        None
    }
}

/// The seed and the bounds of a run.
#[derive(Clone, Copy)]
struct Bounds {
    seed: u64,
    limits: Limits,
}

/// The seed and the bounds of a run that may be so far ahead.
fn bounds_of(matches: &ArgMatches<'_>, window: u32, rollbacks: u64) -> Bounds
    requires window { (1 ≤ window) × (window ≤ MAX_WINDOW) }
    requires rollbacks { rollbacks ≤ MAX_ROLLBACKS }
    ensures bounds { BoundsSay (one_text (found_of matches.now)) result.seed result.limits }
    ensures window { result.limits.window ≡ window }
    ensures rollbacks { result.limits.rollbacks ≡ rollbacks }
    ensures in_range { IsInRange result.limits }
{
    Bounds {
        seed: value(matches, Seed),
        limits: Limits {
            horizon: Tick(value(matches, Horizon)),
            burst: value(matches, Burst) as u32,
            events: value(matches, Events),
            window,
            rollbacks,
        },
    }
}

/// The seed and the bounds of a run that is never ahead.
fn plain_bounds(matches: &ArgMatches<'_>) -> Bounds
    ensures bounds { BoundsSay (one_text (found_of matches.now)) result.seed result.limits }
    ensures window { result.limits.window ≡ default_in (row_of Window) }
    ensures rollbacks { result.limits.rollbacks ≡ default_in (row_of Rollbacks) }
    ensures in_range { IsInRange result.limits }
{
    let window = row(Window).default_number() as u32;
    let rollbacks = row(Rollbacks).default_number();
    bounds_of(matches, window, rollbacks)
}

/// The run of `sanrun`.
pub(crate) fn run_orders(matches: &ArgMatches<'_>) -> Orders
    ensures say { OrdersSay (one_text (found_of matches.now)) result }
    ensures in_range { IsInRange result.limits }
    ensures workers { result.workers ≤ MAX_WORKERS }
    ensures can_make { CanMake result.make }
{
    let window = value(matches, Window) as u32;
    let rollbacks = value(matches, Rollbacks);
    let bounds = bounds_of(matches, window, rollbacks);
    Orders {
        seed: bounds.seed,
        limits: bounds.limits,
        workers: value(matches, Workers) as u32,
        make: made(matches),
    }
}

/// The run of `sanplain`, which is never ahead.
pub(crate) fn plain_orders(matches: &ArgMatches<'_>) -> Orders
    ensures say { PlainSay (one_text (found_of matches.now)) result }
    ensures in_range { IsInRange result.limits }
    ensures workers { result.workers ≤ MAX_WORKERS }
    ensures can_make { CanMake result.make }
{
    let bounds = plain_bounds(matches);
    Orders {
        seed: bounds.seed,
        limits: bounds.limits,
        workers: 0,
        make: made(matches),
    }
}

/// So many runs.
fn many(matches: &ArgMatches<'_>, runs: u32) -> BatchOrders
    requires { (1 ≤ runs) × (runs ≤ MAX_RUNS) }
    ensures bounds { BoundsSay (one_text (found_of matches.now)) result.seed result.limits }
    ensures window { result.limits.window ≡ default_in (row_of Window) }
    ensures rollbacks { result.limits.rollbacks ≡ default_in (row_of Rollbacks) }
    ensures runs { result.runs ≡ runs }
    ensures workers { SetsNumber (one_text (found_of matches.now)) BatchWorkers result.workers }
    ensures can_run { CanRunMany result }
{
    let bounds = plain_bounds(matches);
    BatchOrders {
        seed: bounds.seed,
        limits: bounds.limits,
        runs,
        workers: value(matches, BatchWorkers) as u32,
    }
}

/// The runs of `sanbatch`.
pub(crate) fn batch_orders(matches: &ArgMatches<'_>) -> BatchOrders
    ensures say { BatchSay (one_text (found_of matches.now)) result }
    ensures can_run { CanRunMany result }
{
    many(matches, value(matches, Runs) as u32)
}

/// The runs of `sanfirst`.
pub(crate) fn first_orders(matches: &ArgMatches<'_>) -> FirstOrders
    ensures say { FirstSay (one_text (found_of matches.now)) result }
    ensures can_run { CanRunMany result.batch }
    ensures least { result.least ≤ MAX_TOKENS }
{
    FirstOrders {
        batch: many(matches, value(matches, FirstRuns) as u32),
        place: value(matches, Place) as u32,
        least: value(matches, Least) as u32,
    }
}

/// Whether the last of the runs has a seed.
pub(crate) fn has_seeds(orders: BatchOrders) -> bool
    ensures { IsTrue result ↔ HasSeeds orders }
{
    u64::from(orders.runs).saturating_sub(1) <= u64::MAX - orders.seed
}
