//! The builds of a log's entries.
ghost use Rattle.std.specs.{List.{list_any}, Prelude.{◌≡◌, [], false, true, map, IfOk}};
ghost use Rattle.nl_builds.specs.{Builds.{again, builds_of, found_build, IsTold, new_names, written_builds}, Seen.{doubts}, Sorted.{moment_rank, span_rank}};

use crate::command::{Command, Row, commands_of, latest, moment, moved_rows, rows_of};
use crate::seen::{Order, Seen, first_back, walk};
use indexmap::IndexSet;
use nl_fields::EntryRef;
use nl_table::{NameKey, Secret};
use nl_versions::Stamps;
use std::alloc::{AllocError, Global};

/// How a build is known.
#[derive(Clone, Copy, Debug, PartialEq, Eq, Drop)]
pub enum How {
    /// By its lines, which stand as Ninja wrote them.
    AsWritten,
    /// By the moments that its lines tell, because the log was written anew. Later builds may have taken so many of its outputs.
    FoundAgain { taken: usize },
}

#[derive(Clone, Copy, Drop)]
pub struct Build {
    /// The place behind its last command.
    pub to: usize,
    /// As [`Command::latest`](crate::Command::latest) counts. None if nothing tells.
    pub began: Option<u64>,
    pub how: How,
    /// Whether these are surely the commands of one build, and all that the log has of it.
    pub is_sure: bool,
}

/// The builds of a log, their commands, and the entries of these. Each has the place behind its last part: the commands of a build are
/// those from the place of the build before, and the entries of a command likewise.
#[derive(Drop)]
pub struct Builds<'a> {
    pub entries: Vec<EntryRef<'a>>,
    pub commands: Vec<Command>,
    pub builds: Vec<Build>,
}

/// It takes time in proportion to the entries, and if the log was written anew also that of sorting them. It hashes names, under the secret, only
/// then, and if a border may hide where MTIME is of the end.
pub fn builds_of<'a>(
    alloc: Global,
    secret: Secret,
    stamps: Stamps,
    entries: Vec<EntryRef<'a>>,
) -> Result<Builds<'a>, AllocError>
    ensures value { IfOk result (λ told. IsTold (builds_of stamps entries.entry.items) told.entries.items told.commands.items told.builds.items) }
{
    let commands = commands_of(alloc, entries.as_slice())?;
    let rows = rows_of(alloc, commands.as_slice())?;
    let (all, rows) = (commands.as_slice(), rows.as_slice());
    let seen = walk(alloc, Order::Written, stamps, 0, true, all, rows)?;
    let back = first_back(stamps, seen.as_slice());
    // Where no border may hide, it doesn't matter how many names are new.
    let counts = back.is_some() || any_doubts(stamps, seen.as_slice());
    let mut count = 0;
    if counts {
        let names = new_names(alloc, secret, entries.as_slice())?;
        count = all.partition_point(|command| command.to <= names);
    }
    if !back.is_some_and(|place| place < count) {
        let builds = written_builds(alloc, stamps, count, 0, seen.as_slice())?;
        return Ok(Builds {
            entries,
            commands,
            builds,
        });
    }
    again(alloc, stamps, count, entries, commands, rows)
}

// Whether a border may hide in one of them, if its lines may be in another order.
fn any_doubts(stamps: Stamps, seen: &[Seen]) -> bool
    ensures { result ≡ list_any (doubts stamps true) seen.now }
{
    seen.iter().any(|build| build.doubts(stamps, true))
}

// How many entries stand before the first whose name came before: a log that was written anew has no name twice.
fn new_names(alloc: Global, secret: Secret, entries: &[EntryRef]) -> Result<usize, AllocError>
    ensures value { IfOk result (λ count. count ≡ new_names [] entries.now) }
{
    let mut names = IndexSet::with_capacity_and_hasher(alloc, entries.len(), secret)?;
    let mut count = 0;
    for entry in entries {
        if !names.insert(NameKey {
            bytes: entry.name(),
        })? {
            return Ok(count);
        }
        count += 1;
    }
    Ok(count)
}

// The entries of so many commands were written anew.
fn again<'a>(
    alloc: Global,
    stamps: Stamps,
    count: usize,
    entries: Vec<EntryRef<'a>>,
    commands: Vec<Command>,
    rows: &[Row],
) -> Result<Builds<'a>, AllocError>
    ensures value { IfOk result (λ told. IsTold (again stamps count entries.entry.items commands.items rows.now) told.entries.items told.commands.items told.builds.items) }
{
    let last = commands.get(count.saturating_sub(1));
    let k = last.map_or(0, |it| it.to);
    let is_sure = last
        .zip(commands.get(count))
        .is_some_and(|(a, b)| b.ended < a.ended);
    let mut moved = entries;
    let mut rest = moved.split_off(k.min(moved.len()))?;
    // By the moments at which their builds began; those of one moment by END and hash.
    moved.sort_by(|a, b| span_rank(b).cmp(&span_rank(a)))?;
    moved.sort_by(|a, b| moment_rank(stamps, b).cmp(&moment_rank(stamps, a)))?;
    let mut found = commands_of(alloc, moved.as_slice())?;
    let (place, all) = (found.len(), found.as_slice());
    let (order, told) = (Order::ByMoment, moved_rows(alloc, stamps, all)?);
    let before = walk(alloc, order, Stamps::OfStart, 0, true, all, told.as_slice())?;
    let later = &commands[count.min(commands.len())..];
    let rows = &rows[count.min(rows.len())..];
    let behind = walk(alloc, Order::Written, stamps, place, is_sure, later, rows)?;
    let mut builds = found_builds(alloc, k, before.as_slice())?;
    let mut written = written_builds(alloc, stamps, 0, place, behind.as_slice())?;
    found.extend_from_slice(later)?;
    builds.append(&mut written)?;
    moved.append(&mut rest)?;
    Ok(Builds {
        entries: moved,
        commands: found,
        builds,
    })
}

fn found_builds(alloc: Global, count: usize, seen: &[Seen]) -> Result<Vec<Build>, AllocError>
    ensures value { IfOk result (λ builds. builds.items ≡ map (found_build count) seen.now) }
{
    let builds = seen.iter().map(|build| Build {
        to: build.to,
        began: build.began,
        how: How::FoundAgain {
            taken: count.saturating_sub(build.last.to),
        },
        is_sure: false,
    });
    builds.collect(alloc)
}

fn span_rank(entry: &EntryRef) -> u128
    ensures { result ≡ span_rank entry.now }
{
    let ended = u128::from(moment(entry.end_ms)) * 0x1_0000_0000_0000_0000;
    u128::MAX - (ended + u128::from(entry.hash))
}

fn moment_rank(stamps: Stamps, entry: &EntryRef) -> u64
    ensures { result ≡ moment_rank stamps entry.now }
{
    let began = moment(entry.start_ms);
    let ms = if stamps.is_end() { u32::MAX } else { began };
    u64::MAX - latest(entry.mtime, ms).unwrap_or(0)
}

// The builds stand behind place `from`. So many commands are of new names.
fn written_builds(
    alloc: Global,
    stamps: Stamps,
    new: usize,
    mut from: usize,
    mut seen: &[Seen],
) -> Result<Vec<Build>, AllocError>
    ensures value { IfOk result (λ builds. builds.items ≡ written_builds stamps new from false seen.now) }
{
    let mut builds = Vec::with_capacity(alloc, seen.len())?;
    let mut beside = false;
    'builds: while let Some((build, later)) = seen.split_first() {
        let doubts = build.doubts(stamps, from < new);
        // If MTIME is of the end, what hides beside a build counts only where the log may have been written anew.
        let counts = stamps.is_start() || from < new;
        let next = later.first();
        builds.push(Build {
            to: build.to,
            began: build.began,
            how: How::AsWritten,
            is_sure: (stamps.is_start() || stamps.is_end())
                && build.is_sure
                && next.is_none_or(|it| it.is_sure)
                && !(doubts
                    || counts
                        && (beside || next.is_some_and(|it| it.doubts(stamps, build.to < new)))),
        })?;
        beside = doubts;
        from = build.to;
        seen = later;
    }
    Ok(builds)
}
