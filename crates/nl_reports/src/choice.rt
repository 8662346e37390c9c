//! Which builds are told of, and their commands, one build after another on one clock.
ghost use Rattle.std.specs.Prelude.{◌≡◌, ◌<◌, ◌^◌, map, IfOk, IfSome, All};
ghost use Rattle.nl_reports.specs.{Jobs.{build_commands, is_manifest_alone, last_number, seen, told, build_jobs}, Choice.{chosen, chosen_jobs}, Spans.{IsEarly}, Rows.{by_start}, Turns.{jobs_in_turn, turned}};

use crate::job::{Job, JobsResult, jobs_by_start, jobs_from, made_by};
use crate::moments::Span;
use nl_builds::Builds;
use nl_tool_texts::between;
use std::alloc::Global;

/// Which builds a report tells of.
#[derive(Clone, Copy, Drop)]
pub enum Scope {
    /// The last one that isn't the manifest's alone; if each is, the last one.
    Last,
    /// The build of this number, from 1.
    Numbered(u64),
    /// All of them, one after another, with the last entry of each output alone.
    All,
}

/// Builds from a number on up to another, which is told of too; none, where the second is less than the first.
#[derive(Clone, Copy, Drop)]
pub struct Choice {
    pub first: usize,
    pub last: usize,
}

/// The builds that are told of; None, where there aren't so many.
pub fn chosen(scope: Scope, from: &Builds) -> Option<Choice>
    ensures value { result ≡ chosen scope (told from.now) }
    ensures small { IfSome result (λ c. c.first < 2 ^ 63) }
{
    let count = from.builds.len();
    let last = match scope {
        Scope::Last => last_number(from),
        Scope::Numbered(number) if number > count as u64 => return None,
        Scope::Numbered(number) => number as usize,
        Scope::All => return Some(Choice {
            first: 1,
            last: count,
        }),
    };
    let first = last.max(1);
    Some(Choice { first, last })
}

/// The commands of these builds in the order of START; none, where there aren't so many.
pub fn chosen_jobs<'s, 'a>(alloc: Global, scope: Scope, from: &'s Builds<'a>) -> JobsResult<'s, 'a>
    ensures value { IfOk result (λ jobs. map seen jobs.items ≡ chosen_jobs scope (told from.now)) }
    ensures early { IfOk result (λ jobs. All (λ j. IsEarly j.span) jobs.items) }
{
    let Some(Choice { first, last }) = chosen(scope, from) else {
        return Ok(Vec::new(alloc));
    };
    let (commands, place) = made_by(from, first, last);
    jobs_by_start(jobs_from(alloc, place, commands, from.entries.as_slice())?)
}

/// The number of the last build that isn't the manifest's alone, or else of the last; 0 if there is none.
pub fn last_number(from: &Builds) -> usize
    ensures value { result ≡ last_number (told from.now) }
    ensures small { result < 2 ^ 63 }
{
    let count = from.builds.as_slice().len();
    let mut number = count;
    'builds: while number > 0 {
        let commands = made_by(from, number, number).0;
        if commands.len() != 1 || !commands[0].is_manifest {
            return number;
        }
        number -= 1;
    }
    count
}

// The last moment of the clock.
pub(crate) const LAST: u64 = 4_294_967_295;

/// The commands of these builds by START, on a clock on which each build begins as the one before it has ended, and the first at 0.
pub fn jobs_in_turn<'s, 'a>(alloc: Global, scope: Scope, from: &'s Builds<'a>) -> JobsResult<'s, 'a>
    ensures value { IfOk result (λ jobs. map seen jobs.items ≡ jobs_in_turn scope (told from.now)) }
    ensures early { IfOk result (λ jobs. All (λ j. IsEarly j.span) jobs.items) }
{
    let mut all = Vec::new(alloc);
    let Some(Choice { first, last }) = chosen(scope, from) else {
        return Ok(all);
    };
    let builds = between(first.saturating_sub(1), last, from.builds.as_slice());
    let mut clock = 0;
    let mut number = first;
    for _build in builds {
        let (commands, place) = made_by(from, number, number);
        let sorted = jobs_by_start(jobs_from(alloc, place, commands, from.entries.as_slice())?)?;
        let jobs = sorted.as_slice();
        let (start, began) = (clock, jobs.first().map_or(0, |job| job.span.began));
        for job in jobs {
            let span = Span {
                began: turned(job.span.began, began, start),
                ended: turned(job.span.ended, began, start),
            };
            clock = clock.max(span.closed());
            all.push(Job { span, ..*job })?;
        }
        number += 1;
    }
    Ok(all)
}

fn turned(at: u64, began: u64, clock: u64) -> u64
    requires early { at < 2 ^ 32 }
    requires clock { clock < 2 ^ 32 }
    ensures value { result ≡ turned began clock at }
    ensures bound { result < 2 ^ 32 }
{
    (at.saturating_sub(began) + clock).min(LAST)
}
