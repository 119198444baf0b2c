//! The commands of the programs, as clap is given them.

ghost use Rattle.std.specs.Prelude.{◌≡◌, IfOk};
ghost use Rattle.clap.specs.Words.{app_of};
ghost use Rattle.san_words.specs.Commands.{bare, batch_app, first_app, plain_app, run_app};
ghost use Rattle.san_words.specs.Commands.{with_bounds, with_limits, with_model, with_place, with_runs};

use crate::argument::argument;
use crate::options::NumberOption;
use crate::options::NumberOption::{
    BatchWorkers, Burst, Events, FirstRuns, Horizon, Kind, Least, Make, Place, Rollbacks, Runs,
    Seed, Window, Workers,
};
use clap::Command;
use std::alloc::{AllocError, Global};

fn bare<'a>(alloc: Global, name: &'a str) -> Command<'a>
    ensures { app_of result ≡ bare name.entry.now }
{
    Command::new(alloc, name)
        .no_binary_name(true)
        .disable_help_flag(true)
}

/// A command with the options of how far a run may go.
fn with_limits<'a>(alloc: Global, command: Command<'a>) -> Result<Command<'a>, AllocError>
    ensures { IfOk result (λ c. app_of c ≡ with_limits (app_of command.entry)) }
{
    command
        .arg(argument(alloc, Horizon))?
        .arg(argument(alloc, Burst))?
        .arg(argument(alloc, Events))
}

/// A command with the options of every run.
fn with_bounds<'a>(alloc: Global, command: Command<'a>) -> Result<Command<'a>, AllocError>
    ensures { IfOk result (λ c. app_of c ≡ with_bounds (app_of command.entry)) }
{
    with_limits(alloc, command.arg(argument(alloc, Seed))?)
}

/// A command with the options of a generated model.
fn with_model<'a>(alloc: Global, command: Command<'a>) -> Result<Command<'a>, AllocError>
    ensures { IfOk result (λ c. app_of c ≡ with_model (app_of command.entry)) }
{
    command
        .arg(argument(alloc, Make))?
        .arg(argument(alloc, Kind))
}

/// The command of a run with workers.
pub(crate) fn run_command<'a>(alloc: Global) -> Result<Command<'a>, AllocError>
    ensures { IfOk result (λ c. app_of c ≡ run_app) }
{
    with_model(alloc, with_bounds(alloc, bare(alloc, "sanrun"))?)?
        .arg(argument(alloc, Workers))?
        .arg(argument(alloc, Window))?
        .arg(argument(alloc, Rollbacks))
}

/// The command of a run in one thread.
#[tactic(auto, unfolding(crate::specs::Commands::plain_app))]
pub(crate) fn plain_command<'a>(alloc: Global) -> Result<Command<'a>, AllocError>
    ensures { IfOk result (λ c. app_of c ≡ plain_app) }
{
    with_model(alloc, with_bounds(alloc, bare(alloc, "sanplain"))?)
}

/// A command with the options of many runs, whose number one of them sets.
fn with_runs<'a>(
    alloc: Global,
    command: Command<'a>,
    runs: NumberOption,
) -> Result<Command<'a>, AllocError>
    ensures { IfOk result (λ c. app_of c ≡ with_runs runs (app_of command.entry)) }
{
    command
        .arg(argument(alloc, runs))?
        .arg(argument(alloc, BatchWorkers))
}

/// A command with the options of a place's value.
fn with_place<'a>(alloc: Global, command: Command<'a>) -> Result<Command<'a>, AllocError>
    ensures { IfOk result (λ c. app_of c ≡ with_place (app_of command.entry)) }
{
    command
        .arg(argument(alloc, Place))?
        .arg(argument(alloc, Least))
}

/// The command of a batch.
#[tactic(auto, unfolding(crate::specs::Commands::batch_app))]
pub(crate) fn batch_command<'a>(alloc: Global) -> Result<Command<'a>, AllocError>
    ensures { IfOk result (λ c. app_of c ≡ batch_app) }
{
    with_runs(alloc, with_bounds(alloc, bare(alloc, "sanbatch"))?, Runs)
}

/// The command of runs up to a marking.
#[tactic(auto, unfolding(crate::specs::Commands::first_app))]
pub(crate) fn first_command<'a>(alloc: Global) -> Result<Command<'a>, AllocError>
    ensures { IfOk result (λ c. app_of c ≡ first_app) }
{
    let command = with_place(alloc, with_bounds(alloc, bare(alloc, "sanfirst"))?)?;
    with_runs(alloc, command, FirstRuns)
}
