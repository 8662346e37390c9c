//! The program: what it does once its words are read; and how it ends, what it says of an answer, on which stream, and with which status.
ghost use Rattle.std.specs.{Io.KnownBytes.{Appends}, Prelude.{◌≡◌, ◌≢◌, ◌≤◌, Option, map, option_map, string_bytes, IfErr, IfOk, OnOk}, IoError.{error_kind}, declared.io.ErrorKind.TheVariants.{OutOfMemory}};
ghost use Rattle.clap.specs.Words.{kind_of};
ghost use Rattle.nl_tool_change.specs.declared.line_fault.WrongNumber.{WrongNumber};
ghost use Rattle.nl_folder.specs.FolderView.{folder_view};
ghost use Rattle.nl_tool.specs.{Does.{IsRun}, Ending.{EndsWords, status_after, verdict_of, IsStatusBy, IsStatusOfKind}, Faults.{CanBeDone, CanFind, IsFaultOf}, Meant.{meant}, Reasons.{note_text, refusal_text}, Said.{Says}, World.{said_line}};
ghost use Rattle.nl_tool_words.specs.CommandLine.{entered_of, fault_in};

use crate::desk::{Desk, Screen};
use crate::host::{Disk, Errors, Host, Logs, OsErrors, OsHost, SystemRuntime};
use crate::notes::{NotedWriter, Notes};
use crate::printing::Printing;
use crate::reason::{Note, Refusal, notes_of, reads_input, refusal_of, unsynced_note};
use clap::Error;
use clap::error::ErrorKind;
use nl_os::{DiskFolder, LogFolder};
use nl_table::{NO_SECRET, Secret};
use nl_tool_texts::{TerminalWriter, ToolFault, ToolResult, status_of};
use nl_tool_words::{Changing, CommandLine, Reading, Words, path_in_place, read_words};
use std::alloc::Global;
use std::io::Write;
use std::random::RandomSource;
use std::{env, io};

const DONE: u8 = 0;

const WRONG_WORDS: u8 = 2;

const FOUND: u8 = 3;

// The log of a build, in its folder: it is meant where standard input is a terminal.
const HERE: &str = ".ninja_log";

/// How a command ended that was done.
#[derive(Clone, Copy, Debug, PartialEq, Eq, Drop)]
pub enum Verdict {
    Done,
    /// `damage` found some, or `doubt` or `mend` an output; or `prune` or `retime` damage.
    Found,
}

impl Verdict {
    pub fn of(found: bool) -> Verdict
        ensures value { result ≡ verdict_of found }
    {
        if found { Verdict::Found } else { Verdict::Done }
    }
}

/// The whole program: reads the words that it was given, does what they say, and answers the status to end with.
pub fn run_program<R: SystemRuntime + AllocGlobal + RandomSource>(rt: &R, screen: Screen) -> u8
    ensures status { result ≤ 3 }
{
    match env::args(rt).and_then(|words| Ok(words.collect::<Vec<String>>(rt.alloc())?)) {
        Ok(line) => { run_line(rt, rt.alloc(), line.as_slice(), screen, secret_of(rt)) },
        Err(error) => refuse_line(
            &mut OsErrors {
                rt,
                at_terminal: screen.errors,
            },
            &error,
        ),
    }
}

/// Does what a command line says, of which the first word is the program's name, and answers the status to end with. Names
/// are hashed under a secret.
///
/// The text of a command, help and the version go to standard output; why something was refused goes to standard error.
pub fn run_line<R: SystemRuntime>(
    rt: &R,
    alloc: Global,
    line: &[String],
    screen: Screen,
    secret: Secret,
) -> u8
    ensures status { IsStatusBy (fault_in (map string_bytes line.now)) (entered_of (map string_bytes line.now)) result }
    ensures bound { result ≤ 3 }
{
    let at_terminal = screen.errors;
    let mut errors = OsErrors { rt, at_terminal };
    match read_words(alloc, line) {
        Ok(said) => {
            let words = meant(said.words, screen.input.then_some(HERE));
            let line = CommandLine { words, ..said };
            let looks = line.verbose || screen.errors;
            let notes = Notes::new(alloc, looks, screen, secret);
            run_over(rt, rt, &line, notes)
        }
        Err(error) => explain(rt, &mut errors, line, &error),
    }
}

// Over the real files.
fn run_over<R: SystemRuntime, D: Disk>(rt: &R, disk: D, line: &CommandLine<'_>, notes: Notes) -> u8
    ensures status { EndsWords line.now.words result }
    ensures bound { result ≤ 3 }
{
    let (alloc, at_terminal) = (notes.alloc, notes.screen.errors);
    let host = OsHost { rt, disk, alloc };
    let errors = OsErrors { rt, at_terminal };
    run_on::<_, DiskFolder<D>, _, _>(&host, io::writer(rt), errors, line, notes)
}

/// Does what a command line says, and answers the status to end with. What was held back of the text is written at its end.
pub fn run_on<H: Host + Logs<L>, L: LogFolder, W: Write + Drop, E: Errors + Drop>(
    host: &H,
    out: W,
    errors: E,
    line: &CommandLine<'_>,
    notes: Notes,
) -> u8
    ensures status { EndsWords line.now.words result }
    ensures bound { result ≤ 3 }
{
    let screen = notes.screen;
    let out = NotedWriter::new(TerminalWriter::new(out, screen.output));
    let mut desk: Desk<'_, H, L, _, _> = Desk::of(host, out, errors, line, notes);
    if screen.input && screen.errors && reads_input(&line.words) {
        desk.errors.say("it reads standard input, up to Ctrl-D");
    }
    let answer = run_at(&mut desk, line);
    let answer = desk.finish(answer);
    end(&mut desk, line, answer)
}

/// Does what a command line says, with standard output for its text. LOG, FILE or SCRIPT is read, or standard input where it is
/// left out. A log that is missing is read as one without bytes by the words that make or show it, and by the others where
/// `--missing-ok` is given.
pub fn run<R: SystemRuntime>(rt: &R, alloc: Global, line: &CommandLine<'_>) -> ToolResult<Verdict>
    ensures accepts { OnOk result (CanBeDone line.now.words) }
    ensures outcome { IfOk result (λ outcome. outcome ≡ Verdict.Found → CanFind line.now.words) }
    ensures faults { IfErr result (λ fault. (told : Option WrongNumber) × IsFaultOf line.now.words told fault) }
{
    let notes = Notes::new(alloc, false, Screen::default(), NO_SECRET);
    answer_over(rt, rt, line, notes)
}

fn answer_over<R: SystemRuntime, D: Disk>(
    rt: &R,
    disk: D,
    line: &CommandLine<'_>,
    notes: Notes,
) -> ToolResult<Verdict>
    ensures accepts { OnOk result (CanBeDone line.now.words) }
    ensures outcome { IfOk result (λ outcome. outcome ≡ Verdict.Found → CanFind line.now.words) }
    ensures faults { IfErr result (λ fault. (told : Option WrongNumber) × IsFaultOf line.now.words told fault) }
{
    let (alloc, at_terminal) = (notes.alloc, notes.screen.errors);
    let host = OsHost { rt, disk, alloc };
    let errors = OsErrors { rt, at_terminal };
    let mut desk: Desk<'_, _, DiskFolder<D>, _, _> = Desk::of(
        &host,
        io::writer(rt),
        errors,
        line,
        notes,
    );
    run_at(&mut desk, line)
}

/// Does what a command line says, as `run`, at a desk of it, and notes why what failed has failed.
pub fn run_at<H: Host + Logs<L>, L: LogFolder, W: Write, E: Errors>(
    desk: &mut Desk<'_, H, L, W, E>,
    line: &CommandLine<'_>,
) -> ToolResult<Verdict>
    ensures accepts { OnOk result (CanBeDone line.now.words) }
    ensures outcome { IfOk result (λ outcome. outcome ≡ Verdict.Found → CanFind line.now.words) }
    ensures call { IsRun (record {
      world = H.world desk.old.host.now;
      asked = desk.old.asked;
      missing_ok = desk.old.missing_ok;
      columns = desk.old.columns;
      terminal = desk.old.notes.screen.output;
      said = E.said desk.old.errors;
      says = E.said desk.new.errors;
      from = W.contents desk.old.out;
      to = W.contents desk.new.out;
      old = option_map (folder_view L.Folder) desk.old.left;
      new = option_map (folder_view L.Folder) desk.new.left;
      number = desk.new.notes.told.number;
      early = desk.new.notes.early.items;
      last = desk.new.notes.folder;
    }) line.now.words result }
    ensures faults { IfErr result (IsFaultOf line.now.words desk.new.notes.told.number) }
{
    match line.words {
        Words::Show(log) => return desk.print_in(Printing::Show, log),
        Words::Check(log) => return desk.print_in(Printing::Check, log),
        Words::Hash(command) => return desk.print_from(Printing::Hash(command), io::empty()),
        Words::HashFile(file) => return desk.print_in(Printing::HashFile, file),
        Words::Replay(script) => return desk.print_in(Printing::Replay, script),
        Words::Read(Reading::Entries, log, _) => return desk.print_in(Printing::Entries, log),
        Words::Read(Reading::Damage, log, _) => return desk.print_in(Printing::Damage, log),
        Words::Read(Reading::Doubt, log, _) => return desk.doubt_in(log),
        Words::Read(Reading::Builds, log, _) => desk.builds_in(log)?,
        Words::Read(Reading::Summary, log, choices) => desk.summary_in(log, choices)?,
        Words::Read(Reading::Trace, log, choices) => desk.trace_in(log, choices)?,
        Words::Read(Reading::Picture, log, choices) => desk.picture_in(log, choices)?,
        Words::Compare(old, new, choices) => desk.compare_in(old, new, choices)?,
        Words::Mend(log, choices) => return desk.mend_in(log, choices),
        Words::Record(entry) => desk.record_in(entry)?,
        Words::Recompact(log, keep) => desk.recompact_in(log, keep)?,
        Words::Restat(log, times) => desk.restat_in(log, times)?,
        Words::Change(Changing::Prune, log, file) => return desk.prune_in(log, file),
        Words::Change(Changing::Retime, log, _) => return desk.retime_in(log),
        Words::Change(Changing::Repair, log, _) => desk.repair_in(log)?,
        Words::Change(Changing::Apply, log, file) => desk.apply_in(log, file)?,
    }
    Ok(Verdict::Done)
}

// The words with this log, where they tell of one and name none. `show` and `check` read standard input all the same.
fn meant<'a>(words: Words<'a>, here: Option<&'a str>) -> Words<'a>
    ensures value { result ≡ meant words.entry here.entry }
    ensures can_find { CanFind result → CanFind words.entry }
{
    match words {
        Words::Read(what, log, choices) => Words::Read(what, log.or(here), choices),
        other => other,
    }
}

// A secret of random bytes, or none where there are none to be had: a log is read all the same.
fn secret_of(source: &impl RandomSource) -> Secret {
    let mut bytes = [0; 16];
    if source.fill_bytes(&mut bytes).is_err() {
        return NO_SECRET;
    }
    let keys = u128::from_le_bytes(bytes);
    Secret::of((keys & 0xFFFF_FFFF_FFFF_FFFF) as u64, (keys >> 64) as u64)
}

// Of a command that was done it says that its log was missing, that its folder can't be synced, and that an access control list may be gone,
// where that is asked for; and that the log was written anew by whose builds it went.
fn end<H, L: LogFolder, W, E: Errors>(
    desk: &mut Desk<'_, H, L, W, E>,
    line: &CommandLine<'_>,
    answer: ToolResult<Verdict>,
) -> u8
    ensures status { result ≡ status_after answer }
    ensures bound { result ≤ 3 }
    ensures writes { Says line.now desk.old.notes answer (E.said desk.old.errors) (E.said desk.new.errors) }
{
    let errors = &mut desk.errors;
    match answer {
        Ok(verdict) => {
            let (again, missing, masked) = notes_of(line, &desk.notes);
            say_note(errors, again);
            say_note(errors, missing);
            say_note(errors, unsynced_note(line, &desk.notes));
            say_note(errors, masked);
            if verdict == Verdict::Found {
                FOUND
            } else {
                DONE
            }
        }
        Err(fault) => {
            // If the file isn't taken for a log, the reason names its beginning.
            if desk.notes.looks && matches!(fault, ToolFault::OtherVersion | ToolFault::NotALog) {
                if let Some(folder) = &mut desk.left {
                    desk.notes.heard.look_at(folder);
                }
            }
            say(errors, fault, refusal_of(line, fault, &desk.notes).why)
        }
    }
}

fn say_note<E: Errors>(errors: &mut E, note: Note<'_>)
    ensures writes { Appends (E.said errors.old) (E.said errors.new) (note_text note.entry) }
{
    if let Some(why) = note {
        errors.say(why);
    }
}

fn say<E: Errors>(errors: &mut E, fault: ToolFault, why: Note<'_>) -> u8
    ensures status { result ≡ 1 }
    ensures writes { Appends (E.said errors.old) (E.said errors.new) (said_line (refusal_text (record { fault = fault; why = why.entry }))) }
{
    errors.say(Refusal { fault, why });
    status_of(&fault)
}

// Says why the words could not be taken, as where they are no UTF-8.
fn refuse_line(errors: &mut impl Errors, error: &io::Error) -> u8
    ensures memory { error_kind error.now ≡ OutOfMemory → result ≡ 1 }
    ensures status { error_kind error.now ≢ OutOfMemory → result ≡ 2 }
{
    if error.kind() == io::ErrorKind::OutOfMemory {
        return say(errors, ToolFault::Memory, None);
    }
    errors.say(format_args!("cannot read the words: {error}"));
    WRONG_WORDS
}

// Prints help or the version on standard output, and what is wrong with the words on standard error, with a hint where a path stands in
// the place of a command.
fn explain<R: Print + Eprint>(
    rt: &R,
    errors: &mut impl Errors,
    line: &[String],
    error: &Error,
) -> u8
    ensures status { IsStatusOfKind (kind_of error.now) result }
    ensures bound { result ≤ 2 }
{
    match error.kind() {
        ErrorKind::OutOfMemory => say(errors, ToolFault::Memory, None),
        ErrorKind::DisplayHelp | ErrorKind::DisplayVersion => match error.print(rt) {
            Ok(()) => DONE,
            Err(_) => say(errors, ToolFault::Write, None),
        },
        _ => {
            errors.print(error);
            if let Some(path) = path_in_place(line) {
                errors.say(format_args!("a command comes first: nlog show {path}"));
            }
            WRONG_WORDS
        }
    }
}
