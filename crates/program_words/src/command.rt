//! What the words ask for.

ghost use Rattle.std.specs.Prelude.{◌≡◌, ◌≤◌, ◌+◌, ◌∷◌, [], drop, length, IfOk, IfSome, IsErrOf, Some, None, map, option_map};
ghost use Rattle.clap.specs.Words.{found_of, kind_of, rows_of};
ghost use Rattle.program_words.specs.Numbers.{number_of};
ghost use Rattle.program_words.specs.Words.{command_of, command_from, command_in, command_of_job, before_all, grow_of, insertion_of, insertions_of, job_named, job_of, long_job_of, named_job_of, part_of, texts, trial_of, with_least, within, workers_of};

use crate::insertions::Insertions;
use crate::line::command_line;
use crate::number::read_number;
use clap::ArgMatches;
use clap::error::ErrorKind;
use cut_definitions::{MOST_WORKERS, NoMemory};
use std::alloc::Global;

/// What is asked for.
#[derive(Debug, Drop)]
pub enum Job {
    /// The least weight of a cut.
    Value,
    /// All minimum cuts, as a cactus.
    Cactus,
    /// The list of all minimum cuts.
    Cuts,
    /// The list of those that separate two vertices.
    Part(u64, u64),
    /// The number of all minimum cuts.
    Count,
    /// A most balanced minimum cut.
    Balanced,
    /// The fewest unit edges that raise the value.
    Augment,
    /// The cactus after insertions, and the value and the number of minimum cuts after each.
    Grow(Insertions),
    /// Five facts about the graph that is made for a number of 12 to 100,000.
    Trial(u32),
}

/// A job, the number of workers, 1 to 64, and for the job `cuts` the least balance of the cuts
/// that are listed, if one is given.
#[derive(Debug, Drop)]
pub struct Command {
    pub job: Job,
    pub workers: u32,
    pub least: Option<u64>,
}

/// Why words give no command.
#[derive(Clone, Copy, Debug, PartialEq, Eq)]
pub enum WordsRefusal {
    BadWords,
    NoMemory,
}

fn read_workers(text: &str) -> Option<u32>
    ensures value { result ≡ workers_of text.now }
    ensures range { IfSome result (λ n. (1 ≤ n) × (n ≤ 64)) }
{
    match read_number(text) {
        Some(n) if 1 <= n && n <= u64::from(MOST_WORKERS) => Some(n as u32),
        _ => None,
    }
}

fn plain_job(name: &str) -> Option<Job>
    ensures { result ≡ job_named name.now }
{
    match name {
        "value" => Some(Job::Value),
        "cactus" => Some(Job::Cactus),
        "cuts" => Some(Job::Cuts),
        "count" => Some(Job::Count),
        "balanced" => Some(Job::Balanced),
        "augment" => Some(Job::Augment),
        _ => None,
    }
}

fn read_part(first: &str, second: &str) -> Option<Job>
    ensures { result ≡ part_of (number_of first.now) (number_of second.now) }
{
    let u = read_number(first)?;
    let v = read_number(second)?;
    Some(Job::Part(u, v))
}

fn read_trial(number: &str) -> Option<Job>
    ensures { result ≡ trial_of (within 12 100000 (number_of number.now)) }
{
    match read_number(number) {
        Some(n) if 12 <= n && n <= 100_000 => Some(Job::Trial(n as u32)),
        _ => None,
    }
}

/// An insertion of three numbers.
fn read_insertion(u: &str, v: &str, w: &str) -> Option<(u64, u64, u64)>
    ensures { result ≡ insertion_of (number_of u.now) (number_of v.now) (number_of w.now) }
{
    let u = read_number(u)?;
    let v = read_number(v)?;
    let w = read_number(w)?;
    if u != v && 1 <= w {
        Some((u, v, w))
    } else {
        None
    }
}

/// The insertion of the three texts from a place on.
fn insertion_at(values: &[&str], place: usize) -> Option<(u64, u64, u64)>
    requires { place + 3 ≤ length values.now }
    ensures { insertions_of (map (λ v. v.now) (drop place values.now)) ≡ before_all result (insertions_of (map (λ v. v.now) (drop (place + 3) values.now))) }
{
    read_insertion(values[place], values[place + 1], values[place + 2])
}

/// The insertions of texts, three each.
fn read_insertions(alloc: Global, values: &[&str]) -> Result<Option<Insertions>, NoMemory>
    requires { length values.now ≤ 3000 }
    ensures { IfOk result (λ list. list ≡ insertions_of (map (λ v. v.now) values.now)) }
{
    let count = values.len() / 3;
    let mut insertions = Insertions::new(alloc);
    'triples: for i in 0..count {
        match insertion_at(values, 3 * i) {
            Some(insertion) => insertions.push(insertion)?,
            None => return Ok(None),
        }
    }
    if 3 * count == values.len() {
        Ok(Some(insertions))
    } else {
        Ok(None)
    }
}

/// The job `grow` with 3 to 3,000 values.
fn read_grow(alloc: Global, values: &[&str]) -> Result<Option<Job>, NoMemory>
    ensures { IfOk result (λ job. job ≡ grow_of (map (λ v. v.now) values.now)) }
{
    if values.len() > 3000 {
        return Ok(None);
    }
    match read_insertions(alloc, values)? {
        Some(insertions) => Ok(Some(Job::Grow(insertions))),
        None => Ok(None),
    }
}

/// The job with a name and one value.
fn single_job(name: &str, number: &str) -> Option<Job>
    ensures { result ≡ job_of name.now (number.now ∷ []) }
{
    if name == "trial" {
        read_trial(number)
    } else {
        None
    }
}

/// The job with a name and two values.
fn pair_job(name: &str, first: &str, second: &str) -> Option<Job>
    ensures { result ≡ job_of name.now (first.now ∷ second.now ∷ []) }
{
    if name == "part" {
        read_part(first, second)
    } else {
        None
    }
}

/// The job with a name and three or more values.
fn long_job(alloc: Global, name: &str, values: &[&str]) -> Result<Option<Job>, NoMemory>
    ensures { IfOk result (λ job. job ≡ long_job_of name.now (map (λ v. v.now) values.now)) }
{
    if name == "grow" {
        read_grow(alloc, values)
    } else {
        Ok(None)
    }
}

fn read_job(alloc: Global, name: &str, values: &[&str]) -> Result<Option<Job>, NoMemory>
    ensures { IfOk result (λ job. job ≡ job_of name.now (map (λ v. v.now) values.now)) }
{
    match values {
        [] => Ok(plain_job(name)),
        [number] => Ok(single_job(name, number)),
        [first, second] => Ok(pair_job(name, first, second)),
        [_, _, _, ..] => long_job(alloc, name, values),
    }
}

/// A command with a least balance, which only the job `cuts` takes.
fn read_least(command: Command, least: &str) -> Option<Command>
    ensures value { result ≡ with_least (Some least.now) command }
    ensures workers { IfSome result (λ asked. asked.workers ≡ command.workers) }
{
    let number = match command.job {
        Job::Cuts => read_number(least)?,
        _ => return None,
    };
    Some(Command {
        least: Some(number),
        ..command
    })
}

/// A command without a least balance, of a job that was read.
fn plain_command(job: Option<Job>, workers: &str) -> Option<Command>
    ensures value { result ≡ command_from job (workers_of workers.now) }
    ensures workers { IfSome result (λ command. (1 ≤ command.workers) × (command.workers ≤ 64)) }
{
    let job = job?;
    let workers = read_workers(workers)?;
    Some(Command {
        job,
        workers,
        least: None,
    })
}

/// A command of a job that was read.
fn read_command(job: Option<Job>, workers: Option<&str>, least: Option<&str>) -> Option<Command>
    ensures value { result ≡ command_of_job job (option_map (λ s. s.now) workers.entry) (option_map (λ s. s.now) least.entry) }
    ensures workers { IfSome result (λ command. (1 ≤ command.workers) × (command.workers ≤ 64)) }
{
    let command = plain_command(job, workers?)?;
    match least {
        Some(text) => read_least(command, text),
        None => Some(command),
    }
}

/// The job with a name, if there is one, and its further values.
fn named_job(alloc: Global, name: Option<&str>, values: &[&str]) -> Result<Option<Job>, NoMemory>
    ensures { IfOk result (λ job. job ≡ named_job_of (option_map (λ s. s.now) name.entry) (map (λ v. v.now) values.now)) }
{
    match name {
        Some(name) => read_job(alloc, name, values),
        None => Ok(None),
    }
}

/// The command that the matches ask for, if they follow the rules.
fn read_matches(alloc: Global, matches: &ArgMatches) -> Result<Option<Command>, NoMemory>
    ensures value { IfOk result (λ command. command ≡ command_in (rows_of (found_of matches.now))) }
    ensures workers { IfOk result (λ o. IfSome o (λ command. (1 ≤ command.workers) × (command.workers ≤ 64))) }
{
    let values: &[&str] = matches.get_strs("values").unwrap_or(&[]);
    let job = named_job(alloc, matches.get_str("job"), values)?;
    Ok(read_command(job, matches.get_str("workers"), matches.get_str("least")))
}

/// The refusal of words: they are bad unless they were refused for lack of memory.
fn refusal_of(error: &clap::Error) -> WordsRefusal
    ensures { result ≡ WordsRefusal.BadWords → ¬ (kind_of error.now ≡ ErrorKind.OutOfMemory) }
{
    match error.kind() {
        ErrorKind::OutOfMemory => WordsRefusal::NoMemory,
        _ => WordsRefusal::BadWords,
    }
}

/// The command of the words after the program's name. It fails with `BadWords` if they form no
/// command, and otherwise only if it runs out of memory.
pub fn read_words(alloc: Global, words: &[String]) -> Result<Command, WordsRefusal>
    ensures ok { IfOk result (λ command. command_of (texts words.now) ≡ Some command) }
    ensures workers { IfOk result (λ command. (1 ≤ command.workers) × (command.workers ≤ 64)) }
    ensures bad_words { IsErrOf result WordsRefusal.BadWords → command_of (texts words.now) ≡ None }
{
    let Ok(line) = command_line(alloc) else {
        return Err(WordsRefusal::NoMemory);
    };
    match line.try_get_matches_from(words) {
        Ok(matches) => match read_matches(alloc, &matches) {
            Ok(Some(command)) => Ok(command),
            Ok(None) => Err(WordsRefusal::BadWords),
            Err(_) => Err(WordsRefusal::NoMemory),
        },
        Err(error) => Err(refusal_of(&error)),
    }
}
