//! Builds without what later ones made again, and which command has an output.
ghost use Rattle.std.specs.{Prelude.{◌≡◌, ℕ, List, get_or, length, map, take, IfOk}, List.{list_any}};
ghost use Rattle.nl_reports.specs.{Jobs.{told, seen}, Lasting.{is_among, is_held, lasting, marked}, Outputs.{HoldPlaces, places_of}};

use crate::job::Job;
use indexmap::{IndexMap, IndexSet};
use nl_builds::{Build, Builds, How};
use nl_fields::EntryRef;
use nl_table::{NameKey, Secret};
use nl_tool_texts::{AllocResult, item_at};
use std::alloc::Global;

/// The last entry of each output is left, none of an output that waits, and no command or build without one. Names are hashed under a secret.
pub fn lasting<'a>(
    alloc: Global,
    secret: Secret,
    waiting: &[&'a [u8]],
    from: Builds<'a>,
) -> AllocResult<Builds<'a>>
    ensures value { IfOk result (λ left. told left ≡ lasting (map (λ n. n.now) waiting.now) (told from.entry)) }
{
    let mut left = from;
    let mut later = names_of(alloc, secret, waiting)?;
    let mut at = left.entries.len();
    later.reserve(at)?;
    let mut marks = Vec::with_capacity(alloc, at)?;
    'entries: while at > 0 {
        at -= 1;
        let bytes = left.entries[at].name();
        // It is left if no later one has its name.
        marks.push(later.insert(NameKey { bytes })?)?;
    }
    drop(later);
    marks.reverse();
    let before = keep(&marks, &mut left.entries)?;
    let mut marks = Vec::with_capacity(alloc, left.commands.len())?;
    let mut end = 0;
    for place in 0..left.commands.len() {
        let mut command = left.commands[place];
        command.to = item_at(&before, command.to, left.entries.len());
        marks.push(end < command.to)?;
        end = command.to;
        left.commands[place] = command;
    }
    let before = keep(&marks, &mut left.commands)?;
    let mut marks = Vec::with_capacity(alloc, left.builds.len())?;
    let mut end = 0;
    for place in 0..left.builds.len() {
        let build = left.builds[place];
        let to = item_at(&before, build.to, left.commands.len());
        let how = match build.how {
            How::AsWritten => How::AsWritten,
            How::FoundAgain { .. } => How::FoundAgain { taken: 0 },
        };
        left.builds[place] = Build { to, how, ..build };
        marks.push(end < to)?;
        end = to;
    }
    keep(&marks, &mut left.builds)?;
    Ok(left)
}

// Those that are marked stay. It tells for each place how many of them stood before it. They move within their list, which may be long.
fn keep<T: Drop>(marks: &[bool], items: &mut Vec<T>) -> AllocResult<Vec<usize>>
    requires { length marks.now ≡ length items.old.items }
    ensures items { IfOk result (λ before. items.new.items ≡ marked marks.now items.old.items) }
    ensures before { IfOk result (λ before. (place : ℕ) → get_or before.items place (length items.new.items)
        ≡ length (marked marks.now (take place items.old.items))) }
{
    let mut before = Vec::with_capacity(*items.allocator(), items.len())?;
    let mut count = 0;
    for place in 0..marks.len() {
        before.push(count)?;
        if item_at(marks, place, false) {
            items.swap(count, place);
            count += 1;
        }
    }
    items.truncate(count);
    Ok(before)
}

/// Names are hashed under a secret.
pub(crate) fn names_of<'a>(
    alloc: Global,
    secret: Secret,
    names: &[&'a [u8]],
) -> AllocResult<IndexSet<NameKey<'a>, Secret>>
    ensures value { IfOk result (λ set. (name : List ℕ) → is_held set.keys name ≡ is_among name (map (λ n. n.now) names.now)) }
{
    let mut set = IndexSet::with_hasher(alloc, secret);
    for name in names {
        set.insert(NameKey { bytes: *name })?;
    }
    Ok(set)
}

/// Whether one of these has one of the names.
pub(crate) fn any_named(names: &IndexSet<NameKey, Secret>, outputs: &[EntryRef]) -> bool
    ensures { result ≡ list_any (λ e. is_held names.now.keys e.name) outputs.now }
{
    outputs.iter().any(|entry| names.contains(&NameKey {
        bytes: entry.name(),
    }))
}

/// Each output has the place of the last command that makes it.
pub(crate) type Outputs<'a> = IndexMap<&'a [u8], usize, Secret>;

/// Names are hashed under a secret.
pub(crate) fn outputs_of<'a>(
    alloc: Global,
    secret: Secret,
    jobs: &[Job<'_, 'a>],
) -> AllocResult<Outputs<'a>>
    ensures value { IfOk result (λ outputs. HoldPlaces (places_of (map seen jobs.now)) outputs.entries) }
{
    let mut places = IndexMap::with_hasher(alloc, secret);
    for place in 0..jobs.len() {
        let job = &jobs[place];
        for entry in job.outputs {
            places.insert(entry.name(), place)?;
        }
    }
    Ok(places)
}
