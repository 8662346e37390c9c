//! When the builds of a log's lines began, in whole milliseconds.
ghost use Rattle.std.specs.{Prelude.{◌≡◌, ◌<◌, ◌≤◌, ◌^◌, IfOk, filter}, List.{list_all}};
ghost use Rattle.nl_builds.specs.Commands.{moment};
ghost use Rattle.nl_tool_doubt.specs.{Known.{line_of}, Moments.{begun, is_sure, is_whole, length_of, lines_that_tell, nearest, tells, tick_of}};

use crate::spans::{Span, greatest_up_to, least_from, merged, rising, summed, within};
use nl_builds::moment;
use nl_fields::EntryRef;
use nl_tool_texts::AllocResult;
use nl_versions::Stamps;
use std::alloc::Global;
use std::marker::Model;

pub const NANOSECONDS: u64 = 1_000_000;

const SECOND: u64 = 1_000_000_000;

/// Milliseconds: no START or END is so much later than the earliest that there can be.
pub const NONE: u64 = 1 << 32;

// MTIME, MTIME less START, and MTIME less END.
#[derive(Clone, Copy, Drop)]
struct Line {
    at: u64,
    m: u64,
    lo: u64,
}

impl Line {
    fn of(entry: &EntryRef) -> Line
        ensures value { result ≡ line_of entry.now }
        ensures bound { result.m < 2 ^ 45 }
    {
        let at = entry.mtime.unsigned_abs() / NANOSECONDS;
        Line {
            at,
            m: at + (NONE - u64::from(moment(entry.start_ms))),
            lo: at + (NONE - u64::from(moment(entry.end_ms))),
        }
    }
}

/// 0 if the command ended before it began.
pub fn length_of(entry: &EntryRef) -> u64
    ensures value { result ≡ length_of entry.now }
    ensures bound { result < 2 ^ 32 }
{
    u64::from(moment(entry.end_ms).saturating_sub(moment(entry.start_ms)))
}

pub fn tells(entry: &EntryRef) -> bool
    ensures { result ≡ tells entry.now }
{
    entry.mtime > 0
}

/// Each question takes time by the logarithm of the number of lines.
#[derive(Drop)]
pub struct Moments<'a> {
    stamps: Stamps,
    entries: Vec<EntryRef<'a>>,
    is_coarse: bool,
    // MTIME less END of the lines up to each MTIME.
    bounds: Vec<Span>,
    // The lengths of the commands of each moment.
    starts: Vec<Span>,
}

impl<'a> Model for Moments<'a> {
    ghost use Rattle.std.specs.Prelude.{List};
    ghost use Rattle.nl_fields.specs.declared.entry.Entry.{Entry};
    ghost use Rattle.nl_tool_doubt.specs.{Known.{IsKnownOf}, Moments.{lines_that_tell}};

    ghost Value = { List Entry };

    ghost view = { λ m. lines_that_tell m.stamps m.entries.items };

    ghost invariant = { λ m. IsKnownOf (lines_that_tell m.stamps m.entries.items) m.is_coarse m.bounds.items m.starts.items };
}

impl<'a> Moments<'a> {
    /// It takes the time of sorting what the entries tell.
    pub fn of(alloc: Global, stamps: Stamps, entries: Vec<EntryRef<'a>>) -> AllocResult<Moments<'a>>
        ensures value { IfOk result (λ moments. moments ≡ lines_that_tell stamps entries.entry.items) }
    {
        let mut ends = Vec::new(alloc);
        let mut starts = Vec::new(alloc);
        let lines = lines_of(stamps, entries.as_slice());
        let is_coarse = are_whole(lines);
        for entry in lines {
            if tells(entry) {
                let line = Line::of(entry);
                ends.push(Span::one(line.at, line.lo))?;
                starts.push(Span::one(line.m, length_of(entry)))?;
            }
        }
        let bounds = summed(alloc, rising(ends).as_slice())?;
        let starts = merged(alloc, rising(starts).as_slice())?;
        Ok(Moments {
            stamps,
            entries,
            is_coarse,
            bounds,
            starts,
        })
    }

    /// Milliseconds by which the times of the file system may be early.
    pub fn tick(&self) -> u64
        ensures value { result ≡ tick_of self.now }
        ensures bound { result ≤ 1000 }
    {
        if self.is_coarse { 1000 } else { 0 }
    }

    pub fn begun(&self, entry: &EntryRef) -> u64
        ensures value { result ≡ begun self.now entry.now }
        ensures bound { result < 2 ^ 45 }
    {
        let line = Line::of(entry);
        let bound = greatest_up_to(self.bounds.as_slice(), line.at);
        let low = bound.saturating_sub(5 + self.tick());
        let from = low.max(self.nearest(line.m));
        least_from(self.starts.as_slice(), from, line.m)
    }

    fn nearest(&self, own: u64) -> u64
        requires bound { own < 2 ^ 45 }
        ensures value { result ≡ nearest self.now own }
    {
        match within(self.starts.as_slice(), own.saturating_sub(8), own + 8) {
            Some(near) if near.above() > (near.least / 5).max(12) => own.saturating_sub(8),
            _ => 0,
        }
    }

    pub fn is_sure(&self, moment: u64) -> bool
        requires { moment < 2 ^ 45 }
        ensures value { result ≡ is_sure self.now moment }
    {
        match within(self.starts.as_slice(), moment, moment + 6) {
            Some(near) => near.least <= 12 || near.above() > 12,
            None => false,
        }
    }
}

// None of a log of version 4 or 5, because no line there tells when its build began.
fn lines_of<'e, 'a>(stamps: Stamps, entries: &'e [EntryRef<'a>]) -> &'e [EntryRef<'a>]
    ensures value { filter tells result.now ≡ lines_that_tell stamps entries.now }
{
    match stamps {
        Stamps::OfStart => entries,
        Stamps::OfEnd | Stamps::Unknown => &[],
    }
}

fn are_whole(lines: &[EntryRef]) -> bool
    ensures { result ≡ list_all is_whole (filter tells lines.now) }
{
    let mut telling = lines.iter().filter(|line| tells(line));
    telling.all(|line| line.mtime.unsigned_abs() % SECOND == 0)
}
