//! The commands of two logs, side by side, and the text of `compare`.
ghost use Rattle.std.specs.Prelude.{◌≡◌, ◌++◌, ℕ, List, map, option_map, IfOk, OnOk};
ghost use Rattle.nl_reports.specs.{Compare.{are_comparable, class_lines, compare_text, compared, compared_of, cost_of, head, held_side, job_at, or_unfinished, pair_of, partner, side_of, time_in, told_pair, total_line, waits, with_taken}, Jobs.{seen}, Outputs.{HoldPlaces}};

use crate::critical::append_keyed;
use crate::job::{Job, jobs_from};
use crate::last_entries::{Outputs, any_named, names_of, outputs_of};
use indexmap::IndexSet;
use nl_builds::Builds;
use nl_table::{NameKey, Secret};
use nl_tool_texts::{
    AllocResult, Part, Ranking, append, append_line, highest, item_at, put, set_at,
};
use nl_versions::LogVersion;
use std::alloc::Global;

/// A log that is compared. `told` has only the last entry of each output; `waiting` are the outputs of commands that didn't end.
#[derive(Drop)]
pub struct Side<'a> {
    pub version: LogVersion,
    pub told: Builds<'a>,
    pub waiting: Vec<&'a [u8]>,
}

/// `hashes` says whether hashes can be compared; `least` is the least difference in milliseconds.
#[derive(Clone, Copy, Drop)]
pub struct Rules {
    pub hashes: bool,
    pub least: u64,
}

/// How a command stands in two logs.
#[derive(Clone, Copy, Debug, PartialEq, Eq, Drop)]
pub enum Class {
    /// Only the new log has it.
    New,
    /// Only the old log has it.
    Gone,
    /// Another one makes its output, as the hash says.
    Changed,
    Slower,
    Faster,
    /// One of the two says that it didn't end.
    Unfinished,
    Same,
}

/// Times are in milliseconds, and 0 where the command isn't there or didn't end. The output is its first.
#[derive(Clone, Copy, Drop)]
pub struct ComparedRow<'a> {
    pub class: Class,
    pub old: u64,
    pub new: u64,
    pub output: &'a [u8],
}

#[derive(Drop)]
struct Held<'s, 'a> {
    jobs: Vec<Job<'s, 'a>>,
    waiting: IndexSet<NameKey<'a>, Secret>,
}

impl<'s, 'a> Held<'s, 'a> {
    fn of(alloc: Global, secret: Secret, side: &'s Side<'a>) -> AllocResult<Held<'s, 'a>>
        ensures value { IfOk result (λ held. held_side held ≡ side_of side.now) }
    {
        let told = &side.told;
        let jobs = jobs_from(alloc, 0, told.commands.as_slice(), told.entries.as_slice())?;
        let waiting = names_of(alloc, secret, side.waiting.as_slice())?;
        Ok(Held { jobs, waiting })
    }

    fn waits(&self, job: &Job<'_, 'a>) -> bool
        ensures { result ≡ waits (held_side self.now) (seen job.now) }
    {
        any_named(&self.waiting, job.outputs)
    }

    // 0 if it didn't end.
    fn time(&self, job: &Job<'_, 'a>) -> u64
        ensures { result ≡ time_in (held_side self.now) (seen job.now) }
    {
        if self.waits(job) { 0 } else { job.span.time() }
    }
}

/// The commands of the old log come first, and then those that only the new one has. The outputs of a command of the old log are tried in
/// order, and it meets the first command of the new log that has one of them and met none before. Names are hashed under a secret.
pub fn compared<'a>(
    alloc: Global,
    secret: Secret,
    rules: Rules,
    old: &Side<'a>,
    new: &Side<'a>,
) -> AllocResult<Vec<ComparedRow<'a>>>
    ensures value { IfOk result (λ rows. map compared_of rows.items ≡ compared rules (side_of old.now) (side_of new.now)) }
{
    let before = Held::of(alloc, secret, old)?;
    let after = Held::of(alloc, secret, new)?;
    rows_of(alloc, secret, rules, &before, &after)
}

fn rows_of<'a>(
    alloc: Global,
    secret: Secret,
    rules: Rules,
    old: &Held<'_, 'a>,
    new: &Held<'_, 'a>,
) -> AllocResult<Vec<ComparedRow<'a>>>
    ensures value { IfOk result (λ rows. map compared_of rows.items ≡ compared rules (held_side old.now) (held_side new.now)) }
{
    let outputs = outputs_of(alloc, secret, new.jobs.as_slice())?;
    let mut left = vec![in alloc; true; new.jobs.len()]?;
    let mut rows = Vec::new(alloc);
    for job in &old.jobs {
        let other = take_partner(&outputs, new.jobs.as_slice(), left.as_mut_slice(), job);
        rows.push(met(rules, old, new, job, other))?;
    }
    for (place, other) in new.jobs.iter().enumerate() {
        if item_at(left.as_slice(), place, false) {
            let (waits, time) = (old.waits(other), new.time(other));
            rows.push(row(Class::New, waits, 0, time, other.name()))?;
        }
    }
    Ok(rows)
}

// The first command that is left and has one of the outputs of another. It is then left no more.
fn take_partner<'j, 's, 'a>(
    outputs: &Outputs,
    jobs: &'j [Job<'s, 'a>],
    left: &mut [bool],
    job: &Job,
) -> Option<&'j Job<'s, 'a>>
    ensures value { (ps : List (List ℕ × ℕ)) → HoldPlaces ps outputs.now.entries
        → option_map (λ k. seen k.now) result ≡ job_at (map seen jobs.now) (partner ps left.old job.now.outputs.now) }
    ensures left { (ps : List (List ℕ × ℕ)) → HoldPlaces ps outputs.now.entries → left.new ≡ with_taken left.old (partner ps left.old job.now.outputs.now) }
{
    for entry in job.outputs {
        if let Some(place) = outputs.get(entry.name()) {
            if item_at(left, *place, false) {
                set_at(left, *place, false);
                return jobs.get(*place);
            }
        }
    }
    None
}

fn met<'a>(
    rules: Rules,
    old: &Held<'_, 'a>,
    new: &Held<'_, 'a>,
    job: &Job<'_, 'a>,
    other: Option<&Job<'_, 'a>>,
) -> ComparedRow<'a>
    ensures value { compared_of result ≡ told_pair rules (held_side old.now) (held_side new.now)
        (pair_of (seen job.now) (option_map (λ k. seen k.now) other.entry)) }
{
    let before = old.time(job);
    let Some(partner) = other else {
        return row(Class::Gone, new.waits(job), before, 0, job.name());
    };
    let after = new.time(partner);
    let class = if rules.hashes && job.hash != partner.hash {
        Class::Changed
    } else if before.abs_diff(after) < rules.least || before == after {
        Class::Same
    } else if before < after {
        Class::Slower
    } else {
        Class::Faster
    };
    let is_waiting = old.waits(job) || new.waits(partner);
    row(class, is_waiting, before, after, job.name())
}

// If one of its outputs waits, the command is unfinished, whatever `class` is.
fn row(class: Class, is_waiting: bool, old: u64, new: u64, output: &[u8]) -> ComparedRow<'_>
    ensures value { compared_of result ≡ record { class = or_unfinished class is_waiting; old = old; new = new; output = output.now } }
{
    ComparedRow {
        class: if is_waiting { Class::Unfinished } else { class },
        old,
        new,
        output,
    }
}

#[derive(Clone, Copy, Drop)]
struct ByCost;

impl<'a> Ranking<ComparedRow<'a>> for ByCost {
    ghost rank = { λ _ row. cost_of row };

    fn rank(&self, row: &ComparedRow<'a>) -> u128 {
        u128::from(row.old.abs_diff(row.new))
    }
}

const LISTED: [Class; 6] = [
    Class::New,
    Class::Gone,
    Class::Changed,
    Class::Slower,
    Class::Faster,
    Class::Unfinished,
];

/// What an old log and a new one say of their commands: whether hashes were compared, which a log of version 7 and an older one can't be; how many
/// commands each class has, and how long they took; and of each class but that of equal ones so many at most, the largest differences first. A
/// difference of fewer milliseconds than the least is none. Names are hashed under a secret. At a terminal these are tables.
pub fn compare_lines(
    alloc: Global,
    secret: Secret,
    screen: bool,
    most: usize,
    least: u64,
    old: &Side,
    new: &Side,
) -> AllocResult<Vec<u8>>
    ensures value { IfOk result (λ lines. lines.items
        ≡ compare_text screen most least (are_comparable old.now.version new.now.version) (side_of old.now) (side_of new.now)) }
{
    let hashes = old.version.is_rapid() == new.version.is_rapid();
    let rows = compared(alloc, secret, Rules { hashes, least }, old, new)?;
    let head: &[u8] = match (screen, hashes) {
        (false, true) => b"hashes\tcompared\n",
        (false, false) => b"hashes\tnot-compared\n",
        (true, true) => b"Commands\tChange\tOld\tNew\tClass\n",
        (true, false) => b"Hashes weren't compared\nCommands\tChange\tOld\tNew\tClass\n",
    };
    let (mut lines, mut lists) = (Vec::new(alloc), Vec::new(alloc));
    append(head, &mut lines)?;
    let rows = rows.as_slice();
    for class in LISTED.as_slice() {
        append_class(screen, most, *class, rows, &mut lines, &mut lists)?;
    }
    // Equal ones aren't listed.
    append_class(screen, 0, Class::Same, rows, &mut lines, &mut lists)?;
    append(lists.as_slice(), &mut lines)?;
    Ok(lines)
}

// Appends the total of a class to the lines, and so many of its commands at most to the lists.
fn append_class(
    screen: bool,
    most: usize,
    class: Class,
    rows: &[ComparedRow],
    lines: &mut Vec<u8>,
    lists: &mut Vec<u8>,
) -> AllocResult
    ensures total { OnOk result (lines.new.items ≡ lines.old.items ++ total_line screen (map compared_of rows.now) class) }
    ensures listed { OnOk result (lists.new.items ≡ lists.old.items ++ class_lines screen most (map compared_of rows.now) class) }
{
    let mut kept = Vec::new(*lines.allocator());
    let (mut before, mut after) = (0, 0);
    for row in rows {
        if row.class as u8 == class as u8 {
            kept.push(*row)?;
            before += u128::from(row.old);
            after += u128::from(row.new);
        }
    }
    let name: &[u8] = match class {
        Class::New => b"new",
        Class::Gone => b"gone",
        Class::Changed => b"changed",
        Class::Slower => b"slower",
        Class::Faster => b"faster",
        Class::Unfinished => b"unfinished",
        Class::Same => b"same",
    };
    let (name, total) = (Part::Text(name), Part::Text(b"total"));
    let count = Part::Number(kept.len() as u128);
    let change = Part::Change(screen, before, after);
    let (old, new) = (Part::Took(screen, before), Part::Took(screen, after));
    if screen {
        append_line(&[count, change, old, new, name], lines)?;
    } else {
        append_line(&[total, name, count, change, old, new], lines)?;
    }
    let listed = highest(*lines.allocator(), &ByCost, most, kept.as_slice())?;
    let listed = listed.as_slice();
    if screen && !listed.is_empty() {
        put!(lists; b"\nCommands: " [name] b"\nChange\tOld\tNew\tOutput\n")?;
    }
    for row in listed {
        let (old, new) = (u128::from(row.old), u128::from(row.new));
        let output = Part::Text(row.output);
        let change = Part::Change(screen, old, new);
        let (old, new) = (Part::Took(screen, old), Part::Took(screen, new));
        append_keyed(screen, &[name, change, old, new, output], lists)?;
    }
    Ok(())
}
