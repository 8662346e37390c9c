//! What a line of `apply` asks for. An event has the names that it keeps as a set, which takes its memory before the log is touched.
ghost use Rattle.std.specs.Prelude.{◌≡◌, ◌++◌, ◌∷◌, ◌≢◌, List, codes, IfOk, IfSome, IsErr, IsErrAnd};
ghost use Rattle.nl_session.specs.{declared.events.Event.{Event}, Machine.{reply_of}, LogView.{view_of}, Headline.{Exchange}};
ghost use Rattle.nl_tool_change.specs.{Replay.{reply_line}, declared.script.LineRefusal.{LineRefusal}, declared.asked.Asked.{Asked}, Applying.{Asks, BeginsBy, BeginsNone, DoesEvent}, Deeds.{HasNames, IsDeadBut, KeepsNames}};

use crate::answers::sync_first;
use crate::files::why_no_name;
use crate::line_fault::LineFault;
use crate::script::{LineRefusal, Word, read_event_line, read_names, read_word, split_tab};
use nl_fields::{Name, name_fault, read_hex64, read_i32};
use nl_folder::Folder;
use nl_session::{Event, Log, LogFault, LogState, Reply, reply_to_event};
use nl_table::{KeepList, NameSet, Secret};
use nl_tool_texts::AllocResult;
use std::alloc::Global;
use std::marker::Model;

/// The moment in the build, the command's hash, and its outputs.
#[derive(Drop)]
pub struct Begin {
    pub moment_ms: i32,
    pub hash: u64,
    pub names: Vec<Name>,
}

#[derive(Drop)]
pub enum Asked<'a> {
    Does(Deed),
    Gets(&'a [u8]),
    /// The hash of a command in the log.
    Hashes(&'a [u8]),
    Lists,
    /// The outputs of a closed log that can't be trusted.
    Doubts,
    Begins(Begin),
    Bad(LineFault),
    /// Memory was refused, so what is asked isn't known.
    Unread,
}

/// No line asks for a crash.
pub fn read_asked(alloc: Global, secret: Secret, line: &[u8]) -> Asked<'_>
    ensures asks { Asks line.now result }
{
    match line {
        b"distrusted" => Asked::Doubts,
        b"table" => Asked::Lists,
        [b'g', b'e', b't', b'\t', name @ ..] => match name_fault(name) {
            None => Asked::Gets(name),
            Some(fault) => Asked::Bad(why_no_name(name, fault)),
        },
        [b'h', b'a', b's', b'h', b'\t', command @ ..] => Asked::Hashes(command),
        [b'b', b'e', b'g', b'i', b'n', b'\t', fields @ ..] => match read_begin(alloc, fields) {
            Ok(begin) => Asked::Begins(begin),
            Err(LineRefusal::OutOfMemory) => Asked::Unread,
            Err(LineRefusal::NoEvent | LineRefusal::BadLine) => Asked::Bad(LineFault::Fields),
        },
        _ => match read_event_line(alloc, line) {
            Ok(Event::Crash) => Asked::Bad(LineFault::NoEvent),
            Ok(event) => match Deed::of(alloc, secret, event) {
                Ok(deed) => Asked::Does(deed),
                Err(_) => Asked::Unread,
            },
            Err(LineRefusal::NoEvent | LineRefusal::BadLine) => Asked::Bad(why_none(line)),
            Err(LineRefusal::OutOfMemory) => Asked::Unread,
        },
    }
}

// Behind a word of `apply` the fields are wrong.
fn why_none(line: &[u8]) -> LineFault {
    match split_tab(line).0 {
        b"begin" | b"get" | b"hash" | b"table" | b"distrusted" => LineFault::Fields,
        word => match read_word(word) {
            None | Some(Word::Writes | Word::Fates | Word::Tails | Word::Fuse | Word::Crash) => {
                LineFault::NoEvent
            }
            Some(_) => LineFault::Fields,
        },
    }
}

fn read_begin(alloc: Global, fields: &[u8]) -> Result<Begin, LineRefusal>
    ensures value { IfOk result (λ begin. BeginsBy begin.moment_ms begin.hash begin.names.items fields.now) }
    ensures bad_line { IsErrAnd result (λ why. why ≢ LineRefusal.OutOfMemory) → BeginsNone fields.now }
{
    let (moment, rest) = split_tab(fields);
    let (Some(moment_ms), Some(rest)) = (read_i32(moment), rest) else {
        return Err(LineRefusal::BadLine);
    };
    let (hash, names) = split_tab(rest);
    let (Some(hash), Some(names)) = (read_hex64(hash), names) else {
        return Err(LineRefusal::BadLine);
    };
    Ok(Begin {
        moment_ms,
        hash,
        names: read_names(alloc, names)?,
    })
}

/// `kept` is the set of the names that the event keeps, if it has a list of them.
#[derive(Drop)]
pub struct Deed {
    event: Event,
    kept: Option<NameSet>,
}

impl Model for Deed {
    ghost use Rattle.nl_session.specs.declared.events.Event.{Event};
    ghost use Rattle.nl_tool_change.specs.Deeds.{SetsFor};

    ghost Value = { Event };

    ghost view = { λ deed. deed.event };

    ghost invariant = { λ deed. SetsFor deed.event deed.kept };
}

impl Deed {
    pub fn of(alloc: Global, secret: Secret, event: Event) -> AllocResult<Deed>
        ensures value { IfOk result (λ deed. deed ≡ event) }
        ensures memory { IsErr result → KeepsNames event }
    {
        let kept = match &event {
            Event::Open(keep) | Event::Recompact(keep) => kept_by(alloc, secret, keep)?,
            _ => None,
        };
        Ok(Deed { event, kept })
    }

    pub fn event(&self) -> &Event
        ensures { result.now ≡ self.now }
    {
        &self.event
    }

    /// It looks names up in the set, because it would take too long to compare each with each.
    pub(crate) fn ask<F: Folder>(&self, log: &mut Log<F>) -> Reply
        requires no_crash { self.now ≢ Event.Crash }
        ensures answered { (exchanges : List Exchange) × DoesEvent self.now (view_of log.old) (view_of log.new) exchanges (reply_line result) }
    {
        match (&self.event, &self.kept, log.state()) {
            (Event::Open(_), Some(kept), _) => reply_of(log.open(kept)),
            (Event::Recompact(_), Some(kept), _) => reply_of(log.recompact(kept)),
            // The reply of an open log is that of the sync, which comes first.
            (Event::Stop, _, LogState::Open) => sync_first(log),
            _ => reply_to_event(log, &self.event),
        }
    }
}

fn kept_by(alloc: Global, secret: Secret, keep: &KeepList) -> AllocResult<Option<NameSet>>
    ensures value { IfOk result (λ kept. IfSome kept (λ names. IsDeadBut names keep.now)) }
    ensures memory { IsErr result → HasNames keep.now }
{
    let KeepList::Only(names) = keep else {
        return Ok(None);
    };
    let mut set = NameSet::new(alloc, secret);
    for name in names {
        set.add(name)?;
    }
    Ok(Some(set))
}

pub fn reply_of(answer: Result<(), LogFault>) -> Reply
    ensures value { result ≡ reply_of answer }
{
    answer.map_or_else(Reply::Refused, |()| Reply::Done)
}
