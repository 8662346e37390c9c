//! What the file of an output says against its entry.
ghost use Rattle.std.specs.Prelude.{◌≡◌};
ghost use Rattle.nl_tool_doubt.specs.Judging.{doubt_from, doubt_of, last_of};

use crate::files::{FileState, FileTimes, Looked};
use crate::moments::{Moments, NANOSECONDS, NONE, length_of, tells};
use nl_builds::moment;
use nl_fields::EntryRef;
use nl_versions::Stamps;

#[derive(Clone, Copy, Drop)]
pub enum Doubt {
    /// A damaged or torn line may be about it.
    Damaged,
    /// The file was written later than the entry tells, so the line of the command that wrote it is lost.
    Newer,
    /// It may have been: the log doesn't tell when the entry's build began.
    Unsure,
    Gone,
    /// The output is a directory, whose time says nothing of the command.
    Folder,
    /// The entry has no time, so no file can be compared with it.
    NoTime,
    Untold,
}

/// `counts` says whether change times count.
pub fn doubt_of(counts: bool, stamps: Stamps, moments: &Moments, looked: &Looked) -> Option<Doubt>
    ensures value { result ≡ doubt_of counts stamps moments.now looked.now.entry looked.now.file }
{
    match looked.file {
        FileState::Missing => Some(Doubt::Gone),
        FileState::Directory => Some(Doubt::Folder),
        FileState::Unknown => Some(Doubt::Untold),
        FileState::Written(times) => {
            let entry = &looked.entry;
            let last = last_of(counts, stamps, times);
            if entry.mtime == 0 {
                return Some(Doubt::NoTime);
            }
            if last <= entry.mtime {
                return None;
            }
            match stamps {
                Stamps::OfStart if tells(entry) => doubt_from(moments, entry, times.written, last),
                _ => Some(Doubt::Newer),
            }
        }
    }
}

fn last_of(counts: bool, stamps: Stamps, times: FileTimes) -> i64
    ensures value { result ≡ last_of counts stamps times }
{
    match stamps {
        Stamps::OfStart if counts => times.written.max(times.changed),
        _ => times.written,
    }
}

// `last` is the file's last time that counts.
fn doubt_from(moments: &Moments, entry: &EntryRef, time: i64, last: i64) -> Option<Doubt>
    ensures value { result ≡ doubt_from moments.now entry.now time last }
{
    let tick = moments.tick();
    let begun = moments.begun(entry);
    let ended = begun + u64::from(moment(entry.end_ms));
    let written = last.unsigned_abs() / NANOSECONDS + NONE;
    if ended + 8 + tick <= written {
        return Some(Doubt::Newer);
    }
    let is_early = written + (length_of(entry) / 4).max(20) + tick < ended;
    if entry.mtime < time && is_early && !moments.is_sure(begun) {
        return Some(Doubt::Unsure);
    }
    None
}
