//! The text of `builds`, and what it tells at a terminal.
ghost use Rattle.std.specs.Prelude.{◌≡◌, ◌++◌, ℕ, List, IfOk, OnOk};
ghost use Rattle.nl_reports.specs.{BuildsTable.{IsBegun, IsBuildsScreen}, BuildsText.{border_word, builds_text}, Jobs.{told}};

use crate::job::numbers_of;
use jiff_core::Timestamp;
use jiff_core::civil::DateTime;
use jiff_tz::TimeZone;
use nl_builds::{Build, Builds, How};
use nl_tool_texts::{AllocResult, Part, append, put};
use std::alloc::Global;

// The moments of builds count from so many nanoseconds before 1970.
const ZERO: i128 = 2_147_483_648_000_000;

/// A heading, and for each build its number, when it began in this time zone, its time, commands and outputs, and how it is known, by tabs.
pub fn builds_screen(alloc: Global, zone: &TimeZone, from: &Builds) -> AllocResult<Vec<u8>>
    ensures value { IfOk result (λ lines. IsBuildsScreen zone.now (told from.now) lines.items) }
{
    let utc: &[u8] = match zone {
        TimeZone::UTC | TimeZone::Unknown => b" (UTC)",
        TimeZone::Fixed(_) | TimeZone::Posix(_) | TimeZone::Tzif(_) => b"",
    };
    let mut lines = Vec::new(alloc);
    put!(&mut lines; b"Build\tBegan" [Part::Text(utc)] b"\tElapsed\tCommands\tOutputs\tKnown\n")?;
    for place in 0..from.builds.len() {
        let build = from.builds[place];
        let number = place + 1;
        let numbers = numbers_of(from, number);
        put!(&mut lines; {number} b"\t")?;
        append_began(zone, build.began, &mut lines)?;
        put!(&mut lines; b"\t" [Part::Time(numbers.wall)] b"\t" {numbers.commands} b"\t"
            {numbers.outputs} b"\t" [Part::Text(border_word(&build))] b"\n")?;
    }
    Ok(lines)
}

fn append_began(zone: &TimeZone, began: Option<u64>, lines: &mut Vec<u8>) -> AllocResult
    ensures items { OnOk result ((text : List ℕ) × IsBegun zone.now began text × (lines.new.items ≡ lines.old.items ++ text)) }
{
    let Some(began) = began else {
        return append(b"unknown", lines);
    };
    let nanosecond = i128::from(began) - ZERO;
    let DateTime { date, time } = zone.to_datetime(Timestamp { nanosecond });
    put!(lines; {date.year.unsigned_abs()} b"-" {date.month / 10} {date.month % 10} b"-"
        {date.day / 10} {date.day % 10} b" " {time.hour / 10} {time.hour % 10} b":"
        {time.minute / 10} {time.minute % 10} b":" {time.second / 10} {time.second % 10})
}

/// A line for each build: its number, commands, outputs, the milliseconds from its first START to its last END, the sum of its commands' times,
/// and `sure` or `unsure`, by its borders, or `again` if it was found again, and how many of its outputs later builds may have taken.
pub fn builds_lines(alloc: Global, from: &Builds) -> AllocResult<Vec<u8>>
    ensures value { IfOk result (λ lines. lines.items ≡ builds_text (told from.now)) }
{
    let mut lines = Vec::new(alloc);
    let mut number = 0;
    for build in &from.builds {
        number += 1;
        let numbers = numbers_of(from, number);
        put!(&mut lines; {number} b"\t" {numbers.commands} b"\t" {numbers.outputs} b"\t"
            {numbers.wall} b"\t" {numbers.total} b"\t" [Part::Text(border_word(build))])?;
        match build.how {
            How::FoundAgain { taken } => put!(&mut lines; b"\t" {taken} b"\n")?,
            How::AsWritten => append(b"\n", &mut lines)?,
        }
    }
    Ok(lines)
}

pub(crate) fn border_word(build: &Build) -> &'static [u8]
    ensures { result.now ≡ border_word build.now.how build.now.is_sure }
{
    match build.how {
        How::FoundAgain { .. } => b"again",
        How::AsWritten => if build.is_sure { b"sure" } else { b"unsure" },
    }
}
