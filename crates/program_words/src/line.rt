//! The command line of the program, as `clap` reads it.
ghost use Rattle.std.specs.Prelude.{◌≡◌, IfOk, false};
ghost use Rattle.clap.specs.Words.{app_of, rule_of};
ghost use Rattle.program_words.specs.Line.{bare, job_rule, least_rule, mincut, values_rule, workers_rule};

use cut_definitions::NoMemory;
use std::alloc::Global;

/// The job's name.
fn job_argument<'a>(alloc: Global) -> clap::Arg<'a>
    ensures rule { rule_of result ≡ job_rule }
    ensures local { result.global ≡ false }
{
    clap::Arg::new(alloc, "job")
        .action(clap::ArgAction::Set)
        .required(true)
}

/// The further values.
fn values_argument<'a>(alloc: Global) -> clap::Arg<'a>
    ensures rule { rule_of result ≡ values_rule }
    ensures local { result.global ≡ false }
{
    clap::Arg::new(alloc, "values").action(clap::ArgAction::Append)
}

/// The option for the number of workers.
fn workers_argument<'a>(alloc: Global) -> clap::Arg<'a>
    ensures rule { rule_of result ≡ workers_rule }
    ensures local { result.global ≡ false }
{
    clap::Arg::new(alloc, "workers")
        .long("workers")
        .action(clap::ArgAction::Set)
        .default_value("4")
}

/// The option for the least balance.
fn least_argument<'a>(alloc: Global) -> clap::Arg<'a>
    ensures rule { rule_of result ≡ least_rule }
    ensures local { result.global ≡ false }
{
    clap::Arg::new(alloc, "least")
        .long("least")
        .action(clap::ArgAction::Set)
}

/// The command before it has arguments.
fn bare_command<'a>(alloc: Global) -> clap::Command<'a>
    ensures { app_of result ≡ bare }
{
    clap::Command::new(alloc, "mincut")
        .no_binary_name(true)
        .disable_help_flag(true)
}

/// A job, its further values, and the options for the number of workers and the least balance. It
/// fails only if it runs out of memory.
pub fn command_line<'a>(alloc: Global) -> Result<clap::Command<'a>, NoMemory>
    ensures { IfOk result (λ command. app_of command ≡ mincut) }
{
    let named = bare_command(alloc).arg(job_argument(alloc))?;
    let valued = named.arg(values_argument(alloc))?;
    let shared = valued.arg(workers_argument(alloc))?;
    shared.arg(least_argument(alloc))
}
