//! The commands of a log, as the entries of their outputs tell them.
ghost use Rattle.std.specs.Prelude.{◌≡◌, IfOk, Some};
ghost use Rattle.nl_builds.specs.Commands.{commands, is_same, latest, moment, one, row_with, tells, moved_rows, with_next, with_rows, written, rows};

use crate::seen::{Order, SLACK};
use nl_fields::EntryRef;
use nl_versions::Stamps;
use std::alloc::{AllocError, Global};

pub(crate) const NANOS: u64 = 1_000_000;

// Ninja begins anew once it made the manifest.
const MANIFEST: &[u8; 11] = b"build.ninja";

/// The entries of its outputs stand beside each other, and have one START, END and hash.
#[derive(Clone, Copy, Drop)]
pub struct Command {
    /// START, in milliseconds from 2^31 before the build began, so that none is negative.
    pub began: u32,
    /// END, from there too.
    pub ended: u32,
    /// Of its outputs; 0 if theirs differ, because they are then of two runs.
    pub mtime: i64,
    pub hash: u64,
    /// The place behind the entry of its last output.
    pub to: usize,
    pub is_manifest: bool,
}

impl Command {
    // The entry stands before place `to`.
    fn one(to: usize, entry: &EntryRef) -> Command
        ensures value { result ≡ one to entry.now }
    {
        Command {
            began: moment(entry.start_ms),
            ended: moment(entry.end_ms),
            mtime: entry.mtime,
            hash: entry.hash,
            to,
            is_manifest: entry.name() == MANIFEST.as_slice(),
        }
    }

    /// Its build began at this moment or before: MTIME less START, in nanoseconds from 2^31 milliseconds before MTIME's zero, so that none is
    /// negative. None unless MTIME is above 0.
    pub fn latest(&self) -> Option<u64>
        ensures value { result ≡ latest self.now.mtime self.now.began }
    {
        latest(self.mtime, self.began)
    }

    /// Its build began at this moment or behind: MTIME less END.
    pub fn earliest(&self) -> Option<u64>
        ensures value { result ≡ latest self.now.mtime self.now.ended }
    {
        latest(self.mtime, self.ended)
    }

    // MTIME, as if that were a build's beginning; 0 if it tells nothing.
    fn written(&self) -> u64
        ensures { result ≡ written self.now }
    {
        latest(self.mtime, 1 << 31).unwrap_or(0)
    }

    /// Whether it has such moments.
    pub fn tells(&self) -> bool
        ensures { result ≡ tells self.now }
    {
        self.mtime > 0
    }

    pub(crate) fn is_same(&self, other: &Command) -> bool
        ensures { result ≡ is_same self.now other.now }
    {
        self.began == other.began && self.ended == other.ended && self.hash == other.hash
    }
}

/// The milliseconds from the earliest START or END that there can be.
pub fn moment(ms: i32) -> u32
    ensures value { result ≡ moment ms }
{
    ms.abs_diff(i32::MIN)
}

// When a build began, if MTIME is at `ms` of it.
pub(crate) fn latest(mtime: i64, ms: u32) -> Option<u64>
    ensures value { result ≡ latest mtime ms }
{
    (mtime > 0).then(|| mtime.unsigned_abs() + ((1 << 32) - u64::from(ms)) * NANOS)
}

pub fn commands_of(alloc: Global, entries: &[EntryRef]) -> Result<Vec<Command>, AllocError>
    ensures value { IfOk result (λ found. found.items ≡ commands entries.now) }
{
    let mut found = Vec::with_capacity(alloc, entries.len())?;
    let Some((start, later)) = entries.split_first() else {
        return Ok(found);
    };
    let mut place = 1;
    let mut current = Command::one(1, start);
    let mut first = start.name();
    let mut last = first;
    for entry in later {
        place += 1;
        let alone = Command::one(place, entry);
        if current.is_same(&alone) && !(entry.name() == first || entry.name() == last) {
            if current.mtime != alone.mtime {
                current.mtime = 0;
            }
            current.to = place;
            current.is_manifest = current.is_manifest || alone.is_manifest;
        } else {
            found.push(current)?;
            current = alone;
            first = entry.name();
        }
        last = entry.name();
    }
    found.push(current)?;
    Ok(found)
}

/// What a command tells with those beside it in its row.
#[derive(Clone, Copy, Drop)]
pub(crate) struct Row {
    /// END of the command.
    pub ended: u32,
    /// Its [`latest`](Command::latest), unless it began as one before it in its row ended. `u64::MAX` if it has none. In the order of MTIME
    /// it is MTIME, as if that were a build's beginning.
    pub alone: u64,
    /// The least [`latest`](Command::latest) of it and of those behind it in its row. `u64::MAX` if none has one. In the order of MTIME it
    /// is when its build began.
    pub up: u64,
    /// The least START of those that so waited, of it and of those behind it in its row. `u64::MAX` if none waited. In the order of MTIME
    /// those of then or of behind are of its build.
    pub wait: u64,
}

impl Row {
    pub(crate) fn of(command: &Command, has_waited: bool) -> Row
        ensures value { result ≡ row_with command.now has_waited }
    {
        let (began, up) = (
            u64::from(command.began),
            command.latest().unwrap_or(u64::MAX),
        );
        Row {
            ended: command.ended,
            alone: if has_waited { u64::MAX } else { up },
            up,
            wait: if has_waited { began } else { u64::MAX },
        }
    }

    // What it tells with the next one, which has what those behind it tell.
    fn join(&mut self, order: Order, next: Row)
        ensures value { self.new ≡ with_next order self.old (Some next) }
    {
        match order {
            Order::Written if self.ended <= next.ended => {
                self.up = self.up.min(next.up);
                self.wait = self.wait.min(next.wait);
            }
            // Its output is of a time in the build of the next one.
            Order::ByMoment if self.alone >= next.wait => {
                self.up = next.up;
                self.wait = next.wait;
            }
            _ => {}
        }
    }
}

/// What each tells with those beside it in its row.
pub(crate) fn rows_of(alloc: Global, commands: &[Command]) -> Result<Vec<Row>, AllocError>
    ensures value { IfOk result (λ found. found.items ≡ rows commands.now) }
{
    let mut rows = Vec::with_capacity(alloc, commands.len())?;
    let mut row = Vec::new(alloc);
    for command in commands {
        // A row ends where END falls.
        if row.last().is_some_and(|last| *last > command.ended) {
            row.clear();
        }
        // Whether it waited for one of the row, in which ENDs rise.
        let began = u64::from(command.began);
        let at = row.partition_point(|ended| u64::from(*ended) + 1 < began);
        let has_waited = row.get(at).is_some_and(|ended| *ended <= command.began);
        rows.push(Row::of(command, has_waited))?;
        row.push(command.ended)?;
    }
    Ok(with_rows(Order::Written, rows))
}

/// What commands tell that stand by their moments. If MTIME is of the end, the last build of them began at the greatest
/// [`earliest`](Command::earliest), and has those whose MTIME is of then or of behind, and so on with those before; else each tells alone.
pub(crate) fn moved_rows(
    alloc: Global,
    stamps: Stamps,
    commands: &[Command],
) -> Result<Vec<Row>, AllocError>
    ensures value { IfOk result (λ found. found.items ≡ moved_rows stamps commands.now) }
{
    let mut found = Vec::new(alloc);
    if !stamps.is_end() {
        return Ok(found);
    }
    let mut top = 0;
    for command in commands {
        let (row, own) = (Row::of(command, false), command.earliest().unwrap_or(0));
        // The manifest is a build of its own, and parts those before it from those behind.
        if command.is_manifest {
            let (alone, up) = (0, own);
            found.push(Row { alone, up, ..row })?;
            top = 0;
            continue;
        }
        top = top.max(own);
        let (alone, up, wait) = (command.written(), top, top.saturating_sub(SLACK));
        found.push(Row {
            alone,
            up,
            wait,
            ..row
        })?;
    }
    Ok(with_rows(Order::ByMoment, found))
}

// Each with what it and those behind it tell.
fn with_rows(order: Order, mut rows: Vec<Row>) -> Vec<Row>
    ensures value { result.items ≡ with_rows order rows.items }
{
    let mut at = rows.len();
    'commands: while at > 1 {
        at -= 1;
        let next = rows[at];
        rows[at - 1].join(order, next);
    }
    rows
}
