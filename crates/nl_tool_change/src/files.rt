//! Files that say something line by line: KEEP and TIMES, and the targets of a build.
ghost use Rattle.std.specs.{Prelude.{◌≡◌, ◌⊎◌, ℕ, ◌+◌, ◌<◌, ◌≤◌, ◌^◌, List, Option, None, IfOk, IfErr, IsErrAnd, IsSome, OnOk, length, option_map}, Result.{result_ok}};
ghost use Rattle.nl_lines.specs.Lines.{lent_rest, max_line};
ghost use Rattle.nl_tool_change.specs.{Faults.{IsBadLine, IsFileFault}, Files.{IfBadLine, IfSaid, before_rule, manifest_of, name_on, pair_on, said_after, said_by, said_so_far, target_on}};
ghost use Rattle.nl_tool_texts.specs.{Files.{OfBytes}, declared.fault.ToolFault.{ToolFault}};

use crate::line_fault::{LineFault, NumberFault, Told, number_fault};
use crate::script::split_tab;
use memchr::memrchr;
use nl_fields::{Name, NameFault, read_i64};
use nl_lines::{Line, Lines, MAX_LINE, ReadSource, Source};
use nl_tool_texts::{AllocResult, ToolResult};
use std::alloc::{AllocError, Global};
use std::io::Read;
use std::marker::Model;

pub trait Part: Drop {
    ghost part_of: { List ℕ → Option Self };

    /// A line that says none is refused with what is wrong with it.
    fn read(alloc: Global, line: &[u8]) -> AllocResult<Result<Self, LineFault>>
        ensures value { IfOk result (λ read. result_ok read ≡ part_of line.now) };

    fn is_negative(&self) -> bool {
        false
    }
}

#[derive(Drop)]
struct SoFar<P: Part> {
    parts: Vec<P>,
    // Lines that say nothing are counted, too.
    count: u64,
    bad: Option<(u64, LineFault)>,
    negative: Option<u64>,
}

/// It reads the file to its end.
pub fn read_parts<P: Part, R: Read + Drop>(
    alloc: Global,
    reader: R,
    told: &mut Told,
) -> ToolResult<Vec<P>>
    ensures value { IfSaid result (said_by P.part_of) (R.remaining reader) }
    ensures bad_line { IfBadLine result (said_by P.part_of) (R.remaining reader) }
    ensures why { IsErrAnd result IsBadLine → IsSome told.new.why }
    ensures faults { IfErr result IsFileFault }
{
    let so_far: SoFar<P> = read_lines(alloc, &mut ReadSource::new(reader))?;
    told.negative = so_far.negative;
    match so_far.bad {
        Some((number, why)) => Err(told.refuse(number, why)),
        None => Ok(so_far.parts),
    }
}

fn read_lines<P: Part, S: Source>(alloc: Global, source: &mut S) -> ToolResult<SoFar<P>>
    ensures value { IfOk result (λ so_far. OfBytes (S.ahead source.old) (λ bytes. said_by P.part_of bytes ≡ said_so_far so_far.parts.items so_far.bad)) }
    ensures faults { IfErr result (λ e. (e ≡ ToolFault.Read) ⊎ (e ≡ ToolFault.Memory)) }
{
    let mut lines = Lines::new(alloc)?;
    let mut so_far = SoFar {
        parts: Vec::new(alloc),
        count: 0,
        bad: None,
        negative: None,
    };
    'lines: loop {
        match lines.next(source)? {
            Some(Line::Whole(line)) => so_far.take(alloc, line)?,
            Some(Line::TooLong) => so_far.refuse(),
            Some(Line::Torn { len, .. }) if len > MAX_LINE as u64 => {
                so_far.refuse();
                return Ok(so_far);
            }
            Some(Line::Torn { bytes, .. }) => {
                so_far.take(alloc, bytes)?;
                return Ok(so_far);
            }
            None => return Ok(so_far),
        }
    }
}

impl<P: Part> SoFar<P> {
    fn take(&mut self, alloc: Global, line: &[u8]) -> AllocResult
        requires short { length line.now ≤ max_line }
        requires room { self.old.count < 2 ^ 63 }
        ensures ok { OnOk result (said_so_far self.new.parts.items self.new.bad
            ≡ said_after P.part_of self.new.count line.now (said_so_far self.old.parts.items self.old.bad)) }
        ensures count { self.new.count ≡ self.old.count + 1 }
    {
        self.count += 1;
        if line.is_empty() || self.bad.is_some() {
            return Ok(());
        }
        match P::read(alloc, line)? {
            Ok(part) => {
                if self.negative.is_none() && part.is_negative() {
                    self.negative = Some(self.count);
                }
                self.parts.push(part)?;
            }
            Err(why) => self.bad = Some((self.count, why)),
        }
        Ok(())
    }

    fn refuse(&mut self)
        requires room { self.old.count < 2 ^ 63 }
        ensures value { (line : List ℕ) → max_line < length line → said_so_far self.new.parts.items self.new.bad
            ≡ said_after P.part_of self.new.count line (said_so_far self.old.parts.items self.old.bad) }
        ensures count { self.new.count ≡ self.old.count + 1 }
    {
        self.count += 1;
        if self.bad.is_none() {
            self.bad = Some((self.count, LineFault::LongLine));
        }
    }
}

impl Part for Name {
    ghost part_of = { name_on };

    fn read(alloc: Global, line: &[u8]) -> AllocResult<Result<Name, LineFault>> {
        match Name::read(alloc, line) {
            Ok(name) => Ok(Ok(name)),
            Err(NameFault::OutOfMemory) => Err(AllocError),
            Err(fault) => Ok(Err(why_no_name(line, fault))),
        }
    }
}

pub fn why_no_name(bytes: &[u8], fault: NameFault) -> LineFault {
    match fault {
        NameFault::Empty => LineFault::NoName,
        NameFault::TooLong => LineFault::LongName,
        NameFault::BadByte(_) if bytes.contains(&0) => LineFault::Zero,
        NameFault::BadByte(_) | NameFault::OutOfMemory => LineFault::Tab,
    }
}

// A line of TIMES: an mtime and the name of an output, with a tab between them.
impl Part for (Name, i64) {
    ghost part_of = { pair_on };

    fn read(alloc: Global, line: &[u8]) -> AllocResult<Result<(Name, i64), LineFault>> {
        let (time, rest) = split_tab(line);
        let Some(name) = rest else {
            return Ok(Err(LineFault::NoTab));
        };
        let Some(mtime) = read_i64(time) else {
            let fault = number_fault(time, NumberFault::Past64, NumberFault::Past64);
            return Ok(Err(LineFault::Number(fault)));
        };
        match <Name as Part>::read(alloc, name)? {
            Ok(name) => Ok(Ok((name, mtime))),
            Err(why) => Ok(Err(why)),
        }
    }

    fn is_negative(&self) -> bool {
        self.1 < 0
    }
}

/// A name, `: ` and a rule a line.
#[derive(Drop)]
pub struct Target {
    name: Name,
}

impl Model for Target {
    ghost Value = { List ℕ };

    ghost view = { λ target. target.name };
}

impl Part for Target {
    ghost part_of = { target_on };

    fn read(alloc: Global, line: &[u8]) -> AllocResult<Result<Target, LineFault>> {
        let Some(target) = before_rule(line) else {
            return Ok(Err(LineFault::NoRule));
        };
        Ok(<Name as Part>::read(alloc, target)?.map(|name| Target { name }))
    }
}

// A colon must stand before the last space, and is left out.
fn before_rule(line: &[u8]) -> Option<&[u8]>
    ensures value { option_map (λ target. target.now) result ≡ before_rule line.now }
{
    let space = memrchr(b' ', line)?;
    line[..space].strip_suffix(b":")
}

/// The targets of a build, as `ninja -t targets all` prints them. There must be one, because a Ninja that fails prints none. It takes the memory of the names.
pub fn read_manifest<R: Read + Drop>(
    alloc: Global,
    reader: R,
    told: &mut Told,
) -> ToolResult<Vec<Name>>
    ensures value { IfSaid result manifest_of (R.remaining reader) }
    ensures bad_line { IfBadLine result manifest_of (R.remaining reader) }
    ensures why { IsErrAnd result IsBadLine → IsSome told.new.why }
    ensures faults { IfErr result IsFileFault }
{
    let targets: Vec<Target> = read_parts(alloc, reader, told)?;
    if targets.is_empty() {
        return Err(told.refuse(1, LineFault::NoTarget));
    }
    let mut names = Vec::new(alloc);
    for target in targets {
        names.push(target.name).map_err(|_| AllocError)?;
    }
    Ok(names)
}
