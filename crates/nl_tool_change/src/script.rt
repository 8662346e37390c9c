//! The command `replay`, and reading its script: what a folder in memory is told, and then the events.
ghost use Rattle.std.specs.{Prelude.{◌≡◌, ◌↔◌, ◌<◌, ◌++◌, ◌∷◌, ◌^◌, ℕ, [], pos, true, false, Some, length, IfErr, IfOk, IfSome, IsErr, IsErrAnd, IsErrOf, IsSome, OnOk, flat_map}, List.{All as Each}};
ghost use Rattle.nl_fields.specs.{Digits.{IsDecimal}, Fields.{HasNoTab}, Name.{IsName}, declared.name.NameFault.{NameFault}, declared.entry.Entry.{Entry}};
ghost use Rattle.nl_folder.specs.{declared.choices.Call.{Call}, MemFolder.{durable_view, mem_view_of, failure_count, choices_of}};
ghost use Rattle.nl_tool_change.specs.{Faults.{IsBadLine, IsFaultOfLine, IsReplayFault, IsScriptFault}, declared.script.LineRefusal.TheVariants.{OutOfMemory}, declared.script.Word.{Word}, Reading.{HoldsNames, IsLineOf, IsReadable, LacksMemory, SaysNames, SaysTimes, fields_of_event, word_of_event}, Replay.{IsReplayOf, IsReplayText, IsScript, KeepsSome, NamesSome, SaysMore, TakesScriptLine, behind_tab, event_line, keep_fields, name_field, text_of_word, time_fields, told_by, word_of}};
ghost use Rattle.nl_tool_texts.specs.{Files.{OfBytes, file_lines}, Output.{Prints}};
ghost use Rattle.nl_session.specs.declared.events.Event.{Event};

use crate::answers::append_reply;
use crate::line_fault::{LineFault, Told, UNTOLD};
use nl_fields::{Entry, Name, NameFault, read_entry, read_i64};
use nl_folder::{Call, Fuse, MemFolder};
use nl_lines::{Line, Lines, ReadSource};
use nl_session::{Event, Outcome, run_events};
use nl_table::KeepList;
use nl_tool_texts::{AllocResult, ToolFault, ToolResult, append_with, write_out};
use std::alloc::{AllocError, AllocFailed, Global};
use std::io::{Read, Write};
use std::str;

/// The settings of a folder in memory, and the events for a log over it.
#[derive(Drop)]
pub struct Script {
    /// Empty unless the script sets it, as `fates` and `tails` are, because a line that sets it gives one number at least.
    pub writes: Vec<u64>,
    pub fates: Vec<u64>,
    pub tails: Vec<u64>,
    pub fuse: Option<Fuse>,
    pub events: Vec<Event>,
}

#[derive(Clone, Copy, Drop)]
pub enum Word {
    Writes,
    Fates,
    Tails,
    Fuse,
    Open,
    Recompact,
    Record,
    Restat,
    Sync,
    Stop,
    Crash,
}

#[derive(Clone, Copy, Drop)]
pub enum LineRefusal {
    /// No event begins so.
    NoEvent,
    BadLine,
    OutOfMemory,
}

impl From<AllocError> for LineRefusal {
    ghost from_gives = { λ _ refusal. refusal ≡ OutOfMemory };

    fn from(_error: AllocError) -> LineRefusal {
        LineRefusal::OutOfMemory
    }
}

impl<T: Drop> From<AllocFailed<T>> for LineRefusal {
    ghost from_gives = { λ _ refusal. refusal ≡ OutOfMemory };

    fn from(_error: AllocFailed<T>) -> LineRefusal {
        LineRefusal::OutOfMemory
    }
}

impl From<NameFault> for LineRefusal {
    ghost from_gives = { λ fault refusal. (refusal ≡ OutOfMemory) ↔ (fault ≡ NameFault.OutOfMemory) };

    fn from(fault: NameFault) -> LineRefusal {
        match fault {
            NameFault::OutOfMemory => LineRefusal::OutOfMemory,
            NameFault::Empty | NameFault::BadByte(_) | NameFault::TooLong => LineRefusal::BadLine,
        }
    }
}

/// It stops at the first bad line.
pub fn read_script<R: Read + Drop>(alloc: Global, reader: R, told: &mut Told) -> ToolResult<Script>
    ensures value { IfOk result (λ script. OfBytes (R.remaining reader) (λ bytes. IsScript (file_lines bytes) script.events.items)) }
    ensures why { IsErrAnd result IsBadLine → IsSome told.new.why }
    ensures faults { IfErr result IsScriptFault }
{
    let mut source = ReadSource::new(reader);
    let mut lines = Lines::new(alloc)?;
    let mut script = Script {
        writes: Vec::new(alloc),
        fates: Vec::new(alloc),
        tails: Vec::new(alloc),
        fuse: None,
        events: Vec::new(alloc),
    };
    let mut number = 1;
    'lines: loop {
        match lines.next(&mut source)? {
            Some(Line::Whole(line)) => script.take_line(alloc, line, number, told)?,
            // A torn line that is too long to be lent is empty.
            Some(Line::TooLong | Line::Torn { bytes: [], .. }) => {
                return Err(told.refuse(number, LineFault::LongLine));
            }
            Some(Line::Torn { bytes, .. }) => {
                script.take_line(alloc, bytes, number, told)?;
                return Ok(script);
            }
            None => return Ok(script),
        }
        number += 1;
    }
}

impl Script {
    fn take_line(&mut self, alloc: Global, line: &[u8], number: u64, told: &mut Told) -> ToolResult
        ensures ok { OnOk result (TakesScriptLine self.old.events.items self.new.events.items line.now) }
        ensures why { IsErrAnd result IsBadLine → IsSome told.new.why }
        ensures faults { IfErr result (IsFaultOfLine number) }
    {
        if line.is_empty() {
            return Ok(());
        }
        match self.add(alloc, line) {
            Ok(()) => Ok(()),
            Err(LineRefusal::NoEvent) => Err(told.refuse(number, LineFault::NoEvent)),
            Err(LineRefusal::BadLine) => Err(told.refuse(number, LineFault::Values)),
            Err(LineRefusal::OutOfMemory) => Err(ToolFault::Memory),
        }
    }

    // A setting must be the first of its kind, and stand before any event.
    fn add(&mut self, alloc: Global, line: &[u8]) -> Result<(), LineRefusal>
        ensures ok { OnOk result (SaysMore self.old.events.items self.new.events.items line.now) }
    {
        let (word, rest) = split_tab(line);
        let Some(word) = read_word(word) else {
            return Err(LineRefusal::NoEvent);
        };
        let may_set = self.events.is_empty();
        match (word, rest) {
            (Word::Writes, Some(text)) if may_set => set_numbers(&mut self.writes, text)?,
            (Word::Fates, Some(text)) if may_set => set_numbers(&mut self.fates, text)?,
            (Word::Tails, Some(text)) if may_set => set_numbers(&mut self.tails, text)?,
            (Word::Fuse, Some(text)) if may_set && self.fuse.is_none() => {
                let (word, nth) = split_tab(text);
                let call = read_call(word).ok_or(LineRefusal::BadLine)?;
                let nth = nth.and_then(read_number).ok_or(LineRefusal::BadLine)?;
                self.fuse = Some(Fuse { call, nth });
            }
            _ => self.events.push(read_event(alloc, word, rest)?)?,
        }
        Ok(())
    }
}

pub fn read_event_line(alloc: Global, line: &[u8]) -> Result<Event, LineRefusal>
    ensures line { IfOk result (λ event. event_line event ≡ line.now) }
    ensures some { IfOk result KeepsSome }
    ensures accepts { (event : Event) → IsLineOf event line.now → IfErr result LacksMemory }
    ensures memory { IsErrOf result OutOfMemory → HoldsNames line.now }
{
    let (word, rest) = split_tab(line);
    match read_word(word) {
        Some(word) => read_event(alloc, word, rest),
        None => Err(LineRefusal::NoEvent),
    }
}

/// The second part is none if there is no tab.
pub fn split_tab(text: &[u8]) -> (&[u8], Option<&[u8]>)
    ensures line { text.now ≡ result.0.now ++ behind_tab result.1 }
    ensures no_tab { HasNoTab result.0.now }
{
    match text.iter().position(|b| *b == b'\t') {
        Some(at) => (&text[..at], Some(&text[at + 1..])),
        None => (text, None),
    }
}

pub fn read_word(text: &[u8]) -> Option<Word>
    ensures value { IfSome result (λ word. text.now ≡ text_of_word word) }
    ensures accepts { (word : Word) → text.now ≡ text_of_word word → result ≡ Some word }
{
    match str::from_utf8(text) {
        Ok(name) => match name {
            "writes" => Some(Word::Writes),
            "fates" => Some(Word::Fates),
            "tails" => Some(Word::Tails),
            "fuse" => Some(Word::Fuse),
            "open" => Some(Word::Open),
            "recompact" => Some(Word::Recompact),
            "record" => Some(Word::Record),
            "restat" => Some(Word::Restat),
            "sync" => Some(Word::Sync),
            "stop" => Some(Word::Stop),
            "crash" => Some(Word::Crash),
            _ => None,
        },
        Err(_) => None,
    }
}

fn read_event(alloc: Global, word: Word, rest: Option<&[u8]>) -> Result<Event, LineRefusal>
    ensures line { IfOk result (λ event. event_line event ≡ text_of_word word ++ behind_tab rest.entry) }
    ensures some { IfOk result KeepsSome }
    ensures accepts { (event : Event) → word ≡ word_of_event event
        → behind_tab rest.entry ≡ fields_of_event event → IsReadable event → KeepsSome event → IfErr result LacksMemory }
    ensures memory { IsErrOf result OutOfMemory → HoldsNames (text_of_word word ++ behind_tab rest.entry) }
{
    match (word, rest) {
        (Word::Open, names) => Ok(Event::Open(read_kept(alloc, names)?)),
        (Word::Recompact, names) => Ok(Event::Recompact(read_kept(alloc, names)?)),
        (Word::Record, Some(line)) => match read_entry(line) {
            Some(entry) => Ok(Event::Record(Entry::of(alloc, &entry)?)),
            None => Err(LineRefusal::BadLine),
        },
        (Word::Restat, pairs) => Ok(Event::Restat(read_times(alloc, pairs)?)),
        (Word::Sync, None) => Ok(Event::Sync),
        (Word::Stop, None) => Ok(Event::Stop),
        (Word::Crash, None) => Ok(Event::Crash),
        _ => Err(LineRefusal::BadLine),
    }
}

fn read_kept(alloc: Global, text: Option<&[u8]>) -> Result<KeepList, LineRefusal>
    ensures line { IfOk result (λ keep. keep_fields keep ≡ behind_tab text.entry) }
    ensures some { IfOk result NamesSome }
    ensures accepts { SaysNames (behind_tab text.entry) → IfErr result LacksMemory }
    ensures memory { IsErr result → IsSome text.entry }
{
    match text {
        Some(text) => Ok(KeepList::Only(read_names(alloc, text)?)),
        None => Ok(KeepList::All),
    }
}

pub fn read_names(alloc: Global, text: &[u8]) -> Result<Vec<Name>, LineRefusal>
    ensures line { IfOk result (λ names. flat_map name_field names.items ≡ name_field text.now) }
    ensures names { IfOk result (λ names. Each IsName names.items) }
    ensures accepts { SaysNames (name_field text.now) → IfErr result LacksMemory }
{
    let mut names = Vec::new(alloc);
    let mut left = Some(text);
    'names: while let Some(text) = left {
        let (name, rest) = split_tab(text);
        names.push(Name::read(alloc, name)?)?;
        left = rest;
    }
    Ok(names)
}

fn read_times(alloc: Global, text: Option<&[u8]>) -> Result<Vec<(Name, i64)>, LineRefusal>
    ensures line { IfOk result (λ times. flat_map time_fields times.items ≡ behind_tab text.entry) }
    ensures accepts { SaysTimes (behind_tab text.entry) → IfErr result LacksMemory }
    ensures memory { IsErr result → IsSome text.entry }
{
    let mut pairs = Vec::new(alloc);
    let mut left = text;
    'pairs: while let Some(text) = left {
        let (time, rest) = split_tab(text);
        let (Some(mtime), Some(rest)) = (read_i64(time), rest) else {
            return Err(LineRefusal::BadLine);
        };
        let (name, rest) = split_tab(rest);
        pairs.push((Name::read(alloc, name)?, mtime))?;
        left = rest;
    }
    Ok(pairs)
}

fn set_numbers(numbers: &mut Vec<u64>, text: &[u8]) -> Result<(), LineRefusal> {
    if !numbers.is_empty() {
        return Err(LineRefusal::BadLine);
    }
    for number in text.split(|b| *b == b'\t') {
        numbers.push(read_number(number).ok_or(LineRefusal::BadLine)?)?;
    }
    Ok(())
}

fn read_call(word: &[u8]) -> Option<Call>
    ensures value { IfSome result (λ call. word.now ≡ word_of call) }
    ensures accepts { (call : Call) → word.now ≡ word_of call → result ≡ Some call }
{
    match str::from_utf8(word) {
        Ok(name) => match name {
            "read_log" => Some(Call::ReadLog),
            "append_log" => Some(Call::AppendLog),
            "cut_log" => Some(Call::CutLog),
            "sync_log" => Some(Call::SyncLog),
            "start_scratch" => Some(Call::StartScratch),
            "append_scratch" => Some(Call::AppendScratch),
            "sync_scratch" => Some(Call::SyncScratch),
            "replace" => Some(Call::Replace),
            "any" => Some(Call::Any),
            _ => None,
        },
        Err(_) => None,
    }
}

fn read_number(text: &[u8]) -> Option<u64>
    ensures value { IfSome result (λ n. IsDecimal (pos n) text.now) }
    ensures accepts { (n : ℕ) → n < 2 ^ 63 → IsDecimal (pos n) text.now → result ≡ Some n }
{
    u64::try_from(read_i64(text)?).ok()
}

/// Runs the script's events over a folder in memory whose log is empty, and writes the replies and the log that they leave.
pub fn replay_to<R: Read + Drop, W: Write>(alloc: Global, reader: R, writer: &mut W) -> ToolResult
    ensures prints { Prints (IsReplayText (R.remaining reader)) (W.contents writer.old) (W.contents writer.new) result }
    ensures faults { IfErr result IsReplayFault }
{
    replay_telling(alloc, reader, writer, &mut { UNTOLD })
}

/// As `replay_to`, and of a bad line it says what is wrong.
pub fn replay_telling<R: Read + Drop, W: Write>(
    alloc: Global,
    reader: R,
    writer: &mut W,
    told: &mut Told,
) -> ToolResult
    ensures prints { Prints (IsReplayText (R.remaining reader)) (W.contents writer.old) (W.contents writer.new) result }
    ensures why { IsErrAnd result IsBadLine → IsSome told.new.why }
    ensures faults { IfErr result IsReplayFault }
{
    let script = read_script(alloc, reader, told)?;
    let text = run_script(alloc, script)?;
    write_out(text.as_slice(), writer)
}

fn set_up(alloc: Global, script: Script) -> (MemFolder, Vec<Event>)
    ensures state { mem_view_of result.0 ≡ durable_view [] }
    ensures failures { failure_count result.0 ≡ 0 }
    ensures choices { choices_of result.0 ≡ told_by script }
    ensures events { result.1.items ≡ script.events.items }
{
    let log = Vec::new(alloc);
    let mut folder = MemFolder::new(alloc, log, script.writes, script.fates, script.fuse);
    folder.set_tails(script.tails);
    (folder, script.events)
}

fn run_script(alloc: Global, script: Script) -> AllocResult<Vec<u8>>
    ensures value { IfOk result (λ text. IsReplayOf script.events.items text.items) }
{
    let (folder, events) = set_up(alloc, script);
    let (folder, replies, outcome) = run_events(alloc, folder, &events);
    match outcome {
        Outcome::Whole => {}
        Outcome::OutOfMemory { .. } => return Err(AllocError),
    }
    let log = folder.log_bytes();
    let mut text = Vec::new(alloc);
    for reply in &replies {
        append_reply(*reply, &mut text)?;
    }
    append_with(b"log ", log.len(), &mut text)?;
    text.push(b'\n')?;
    text.extend_from_slice(log)?;
    Ok(text)
}
