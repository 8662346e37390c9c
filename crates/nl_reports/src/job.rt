//! The commands of a build, with the entries of their outputs, and its numbers.
ghost use Rattle.std.specs.Prelude.{◌≡◌, map, IfOk, All, ◌-◌};
ghost use Rattle.nl_reports.specs.{Jobs.{commands_between, commands_to, entries_to, first_name, jobs_between, jobs_from, seen, told}, Rows.{by_start}, Spans.{IsEarly}, Numbers.{IsSmall, numbers_of, spans_of}};

use crate::moments::{NO_MOMENT, Span};
use nl_builds::{Builds, Command};
use nl_fields::EntryRef;
use nl_tool_texts::{AllocResult, between};
use std::alloc::Global;

#[derive(Clone, Copy, Drop)]
pub struct Job<'s, 'a> {
    pub span: Span,
    pub hash: u64,
    pub outputs: &'s [EntryRef<'a>],
}

impl<'a> Job<'_, 'a> {
    /// The name of its first output; empty if it has none.
    pub fn name(&self) -> &'a [u8]
        ensures { result.now ≡ first_name self.now.outputs.now }
    {
        let first = self.outputs.first();
        first.map_or(b"".as_slice(), |entry| entry.name())
    }
}

pub type JobsResult<'s, 'a> = AllocResult<Vec<Job<'s, 'a>>>;

/// The commands of builds, which are numbered from 1, and the place of their first entry. No commands of builds that aren't there.
pub(crate) fn made_by<'s>(from: &'s Builds, first: usize, last: usize) -> (&'s [Command], usize)
    ensures commands { result.0.now ≡ commands_between (told from.now) first last }
    ensures place { result.1 ≡ entries_to (commands_to (first - 1) from.now.builds.items) from.now.commands.items }
{
    let (start, place) = ends_of(first.saturating_sub(1), from);
    let (end, _) = ends_of(last, from);
    (between(start, end, from.commands.as_slice()), place)
}

// How many commands the first builds have, and how many entries these.
fn ends_of(count: usize, from: &Builds) -> (usize, usize)
    ensures commands { result.0 ≡ commands_to count from.now.builds.items }
    ensures entries { result.1 ≡ entries_to result.0 from.now.commands.items }
{
    let (builds, commands) = (from.builds.as_slice(), from.commands.as_slice());
    let build = count.checked_sub(1).and_then(|at| builds.get(at));
    let to = build.map_or(0, |build| build.to);
    let command = to.checked_sub(1).and_then(|at| commands.get(at));
    (to, command.map_or(0, |command| command.to))
}

/// The first command has the entries from `place` on.
pub(crate) fn jobs_from<'s, 'a>(
    alloc: Global,
    place: usize,
    commands: &[Command],
    entries: &'s [EntryRef<'a>],
) -> JobsResult<'s, 'a>
    ensures value { IfOk result (λ jobs. map seen jobs.items ≡ jobs_from entries.now place commands.now) }
    ensures early { IfOk result (λ jobs. All (λ j. IsEarly j.span) jobs.items) }
{
    let mut jobs = Vec::with_capacity(alloc, commands.len())?;
    let mut start = place;
    for command in commands {
        jobs.push(Job {
            span: Span::of(command),
            hash: command.hash,
            outputs: between(start, command.to, entries),
        })?;
        start = command.to;
    }
    Ok(jobs)
}

/// Commands of one START keep their order.
pub fn jobs_by_start<'s, 'a>(mut jobs: Vec<Job<'s, 'a>>) -> JobsResult<'s, 'a>
    requires early { All (λ j. IsEarly j.span) jobs.items }
    ensures value { IfOk result (λ sorted. map seen sorted.items ≡ by_start (map seen jobs.entry.items)) }
    ensures early { IfOk result (λ sorted. All (λ j. IsEarly j.span) sorted.items) }
{
    jobs.sort_by(|a, b| {
        NO_MOMENT
            .saturating_sub(b.span.began)
            .cmp(&NO_MOMENT.saturating_sub(a.span.began))
    })?;
    Ok(jobs)
}

/// Times are in milliseconds.
#[derive(Clone, Copy, Drop)]
pub struct Numbers {
    pub commands: usize,
    pub outputs: usize,
    /// From the first START to the last END.
    pub wall: u64,
    /// The sum of the times of the commands.
    pub total: u128,
}

pub fn numbers_of(from: &Builds, number: usize) -> Numbers
    ensures value { result ≡ numbers_of (told from.now) number }
    ensures small { IsSmall result }
{
    let mut began = NO_MOMENT;
    let mut ended = 0;
    let mut total: u128 = 0;
    let (commands, place) = made_by(from, number, number);
    for command in commands {
        let span = Span::of(command);
        began = began.min(span.began);
        ended = ended.max(span.ended);
        total += u128::from(span.time());
    }
    Numbers {
        commands: commands.len(),
        outputs: ends_of(number, from).1.saturating_sub(place),
        wall: ended.saturating_sub(began),
        total,
    }
}

pub fn spans_of(alloc: Global, jobs: &[Job]) -> AllocResult<Vec<Span>>
    ensures value { IfOk result (λ spans. spans.items ≡ spans_of (map seen jobs.now)) }
    ensures early { All (λ j. IsEarly j.span) jobs.now → IfOk result (λ spans. All IsEarly spans.items) }
{
    let mut spans = Vec::with_capacity(alloc, jobs.len())?;
    for job in jobs {
        spans.push(job.span)?;
    }
    Ok(spans)
}
