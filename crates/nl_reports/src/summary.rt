//! The text of `summary`.
ghost use Rattle.std.specs.Prelude.{◌≡◌, ◌+◌, ◌++◌, ◌<◌, ◌^◌, ℕ, true, map, IfOk, OnOk};
ghost use Rattle.nl_reports.specs.{Jobs.{build_jobs, told}, Kinds.{AreSumsOf}, Numbers.{spans_of}, Rows.{rank_told, told_row, told_jobs}, Summary.{AreTotalsOf, count_line, first_of, lists_text, most_taken, no_totals, number_lines, rows_from, slowest_line, summary_text, taken_in, title, total_of, totals_from, unfinished_line, with_build}, declared.rows.Rank.TheVariants.{Time}};
ghost use Rattle.nl_tool_texts.specs.Falling.{falling};

use crate::choice::{Scope, chosen};
use crate::job::{Job, made_by, numbers_of};
use crate::kinds::kinds_of;
use crate::moments::{Near, Shares, Span};
use crate::rows::{Lists, Rank, Ranked, Row};
use nl_builds::{Build, Builds, How};
use nl_tool_texts::{AllocResult, Part, append_line, between, highest, item_at, put, ratio};
use std::alloc::Global;

/// The sums of the numbers of builds, one after another. Times are in milliseconds.
#[derive(Clone, Copy, Default, Drop)]
pub struct Totals {
    pub outputs: u128,
    pub wall: u128,
    /// In which one command at least ran, and in which one alone did.
    pub busy: u128,
    pub alone: u128,
    /// How many commands ran at a time at most, in one of them.
    pub most: u64,
}

impl Totals {
    // Adds the numbers of a build, and puts its commands behind others.
    fn add<'a>(&mut self, from: &Builds<'a>, number: usize, found: &mut Vec<Row<'a>>) -> AllocResult
        requires few { (n : ℕ) × ((n < 2 ^ 63) × AreTotalsOf n self.old) }
        ensures totals { OnOk result (self.new ≡ with_build self.old (told from.now) number) }
        ensures few { (n : ℕ) → AreTotalsOf n self.old → OnOk result (AreTotalsOf (n + 1) self.new) }
        ensures commands { OnOk result (map told_row found.new.items ≡ map told_row found.old.items ++ told_jobs (build_jobs (told from.now) number)) }
        ensures small { AreSumsOf 1 (map told_row found.old.items) → OnOk result (AreSumsOf 1 (map told_row found.new.items)) }
    {
        let alloc = *found.allocator();
        let (commands, place) = made_by(from, number, number);
        let mut weights = Vec::with_capacity(alloc, commands.len())?;
        let mut spans = Vec::with_capacity(alloc, commands.len())?;
        for command in commands {
            spans.push(Span::of(command))?;
        }
        let shares = Shares::of(alloc, spans.as_slice())?;
        let numbers = numbers_of(from, number);
        self.outputs += numbers.outputs as u128;
        self.wall += u128::from(numbers.wall);
        self.busy += u128::from(shares.sums.busy);
        self.alone += u128::from(shares.sums.alone);
        self.most = self.most.max(shares.most());
        let mut near = Near::default();
        for span in &spans {
            weights.push(shares.weight(&mut near, span))?;
        }
        drop(shares);
        drop(spans);
        // The rows are as large, so they take their place.
        found.reserve(commands.len())?;
        let mut start = place;
        for at in 0..commands.len() {
            let command = &commands[at];
            let job = Job {
                span: Span::of(command),
                hash: command.hash,
                outputs: between(start, command.to, from.entries.as_slice()),
            };
            found.push(Row {
                name: job.name(),
                commands: 1,
                time: job.span.time(),
                weight: u128::from(item_at(&weights, at, 0)),
            })?;
            start = command.to;
        }
        Ok(())
    }

    // The slowest command comes last. At a terminal it heads the list.
    fn append(&self, screen: bool, total: u128, rows: &[Row], lines: &mut Vec<u8>) -> AllocResult
        requires room { self.now.wall < 2 ^ 120 }
        requires total { total ≡ total_of (map told_row rows.now) }
        requires bound { total < 2 ^ 120 }
        ensures items { OnOk result (lines.new.items ≡ lines.old.items ++ (number_lines screen self.now (map told_row rows.now)
            ++ slowest_line screen (first_of (falling (rank_told Time) (map told_row rows.now))))) }
    {
        let alloc = *lines.allocator();
        let count = rows.len();
        let parallel = ratio(alloc, total, self.wall)?;
        let parallel = Part::Text(parallel.as_bytes());
        let slowest = highest(alloc, &Rank::Time, 1, rows)?;
        let slowest = slowest.as_slice().first();
        if screen {
            let most = u128::from(self.most);
            // They take no less, if no more run at a time: the slowest takes as long as it takes.
            let best = (total / most.max(1)).max(slowest.map_or(0, |it| u128::from(it.time)));
            let none = self.wall.saturating_sub(self.busy);
            return put!(lines; [Part::Took(true, self.wall)] b"\telapsed\n" [Part::Took(true, total)]
                b"\tof work\n" {count} b"\tcommands\n" {self.outputs} b"\toutputs\n" [parallel]
                b"\tat a time on average\n" {most} b"\tat a time at most\n"
                [Part::Took(true, best)] b"\tat best with " {most} b" at a time\n"
                [Part::Took(true, self.alone)] b"\twith one command alone\n"
                [Part::Took(true, none)] b"\twith none\n");
        }
        put!(lines; b"commands\t" {count} b"\noutputs\t" {self.outputs} b"\nwall\t" {self.wall}
            b"\ntotal\t" {total} b"\nbusy\t" {self.busy} b"\nalone\t" {self.alone}
            b"\nparallel\t" [parallel] b"\n")?;
        match slowest {
            Some(it) => put!(lines; b"slowest\t" {it.time} b"\t" [Part::Text(it.name)] b"\n"),
            None => Ok(()),
        }
    }
}

/// What `summary` tells of the builds that are asked for, where so many outputs wait for a command that didn't end: eight lines, how
/// many outputs later builds may have taken if they were found again, how many outputs wait, and the lists. If there are fewer builds
/// than the number that is asked for, it tells how many there are. At a terminal each number stands before what it is of.
pub fn summary_lines(
    alloc: Global,
    scope: Scope,
    lists: Lists,
    unfinished: usize,
    from: &Builds,
) -> AllocResult<Vec<u8>>
    ensures value { IfOk result (λ lines. lines.items ≡ summary_text scope lists unfinished (told from.now)) }
{
    let mut lines = Vec::new(alloc);
    let screen = lists.screen;
    let Some(choice) = chosen(scope, from) else {
        let (words, count) = (b"builds in LOG", from.builds.len());
        append_count(screen, b"builds", words, Some(count), &mut lines)?;
        append_unfinished(screen, unfinished, &mut lines)?;
        return Ok(lines);
    };
    let before = choice.first.saturating_sub(1);
    let told = between(before, choice.last, from.builds.as_slice());
    if told.is_empty() {
        append_unfinished(screen, unfinished, &mut lines)?;
        return Ok(lines);
    }
    let mut totals = Totals::default();
    let mut commands = Vec::new(alloc);
    for place in 0..told.len() {
        totals.add(from, choice.first + place, &mut commands)?;
    }
    let commands = commands.as_slice();
    let mut total = 0;
    for command in commands {
        total += u128::from(command.time);
    }
    if screen {
        let count = Part::Number(from.builds.len() as u128);
        match scope {
            Scope::All => put!(&mut lines; b"All " [count] b" builds, each output once\n")?,
            Scope::Last | Scope::Numbered(_) => {
                put!(&mut lines; b"Build " {choice.first} b" of " [count] b"\n")?
            }
        }
    }
    totals.append(screen, total, commands, &mut lines)?;
    let words = b"outputs lost to later builds";
    // None for all builds, because what later ones took is told of there.
    let taken = match scope {
        Scope::All => None,
        Scope::Last | Scope::Numbered(_) => most_taken(told),
    };
    append_count(screen, b"again", words, taken, &mut lines)?;
    append_unfinished(screen, unfinished, &mut lines)?;
    if lists.most > 0 {
        let mut ranked = Ranked {
            lists,
            of_kinds: false,
            total,
        };
        ranked.append(commands, &mut lines)?;
        let kinds = kinds_of(alloc, lists.secret, lists.rule, commands)?;
        ranked.of_kinds = true;
        ranked.append(kinds.as_slice(), &mut lines)?;
    }
    Ok(lines)
}

/// How many outputs later builds may have taken at most of one of the builds that are told of, if one was found again.
pub fn taken_in(scope: Scope, from: &Builds) -> Option<usize>
    ensures value { result ≡ taken_in scope (told from.now) }
{
    let choice = chosen(scope, from)?;
    let before = choice.first.saturating_sub(1);
    most_taken(between(before, choice.last, from.builds.as_slice()))
}

/// How many outputs later builds may have taken at most of one of these.
pub(crate) fn most_taken(builds: &[Build]) -> Option<usize>
    ensures { result ≡ most_taken None builds.now }
{
    let mut most: Option<usize> = None;
    for build in builds {
        if let How::FoundAgain { taken } = build.how {
            most = Some(most.unwrap_or(0).max(taken));
        }
    }
    most
}

fn append_unfinished(screen: bool, count: usize, lines: &mut Vec<u8>) -> AllocResult
    ensures items { OnOk result (lines.new.items ≡ lines.old.items ++ unfinished_line screen count) }
{
    let count = (count > 0).then_some(count);
    let words = b"outputs have yet to be made";
    append_count(screen, b"unfinished", words, count, lines)
}

fn append_count(
    screen: bool,
    key: &[u8],
    words: &[u8],
    count: Option<usize>,
    lines: &mut Vec<u8>,
) -> AllocResult
    ensures items { OnOk result (lines.new.items ≡ lines.old.items ++ count_line screen key.now words.now count) }
{
    match (count, screen) {
        (None, _) => Ok(()),
        (Some(it), true) => append_line(&[Part::Number(it as u128), Part::Text(words)], lines),
        (Some(it), false) => append_line(&[Part::Text(key), Part::Number(it as u128)], lines),
    }
}
