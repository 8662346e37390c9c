//! What is wrong with a line of KEEP, TIMES, SCRIPT or a list of targets, or with a number, as the reader says that refuses it; and the
//! entry that the words of `record` give.
ghost use Rattle.std.specs.Prelude.{◌≡◌, IfErr, IfOk, IsSome, None, OnOk, Some};
ghost use Rattle.nl_tool_change.specs.{LineFaults.{line_fault_text, number_fault_text, number_name}, RecordWords.{GiveEntry, IsEntryOf, IsToldOf, IsWordFault, of_name_fault}};
ghost use Rattle.nl_tool_texts.specs.declared.fault.ToolFault.{ToolFault};

use nl_fields::{EntryRef, NameFault, read_i32, read_i64};
use nl_tool_texts::{ToolFault, ToolResult};
use std::fmt;

#[derive(Clone, Copy, Debug, PartialEq, Eq, Drop)]
pub enum NumberFault {
    /// It isn't digits, with or without a `-` before them.
    NoNumber,
    /// A zero in front, or `-0`.
    Spelling,
    Below,
    BelowOne,
    Past32,
    Past64,
}

impl fmt::Display for NumberFault {
    ghost output = { λ fault. Some (number_fault_text fault) };

    fn fmt<W: fmt::Write>(&self, f: &mut fmt::Formatter<W>) -> fmt::Result {
        match self {
            NumberFault::NoNumber => write!(f, "it isn't a number"),
            NumberFault::Spelling => write!(f, "a number has no zero in front"),
            NumberFault::Below => write!(f, "it is less than 0"),
            NumberFault::BelowOne => write!(f, "it is less than 1"),
            NumberFault::Past32 => write!(f, "it isn't from -2147483648 to 2147483647"),
            NumberFault::Past64 => write!(f, "it isn't a number of 64 bits"),
        }
    }
}

/// A number of a command line.
#[derive(Clone, Copy, Debug, PartialEq, Eq, Drop)]
pub enum NumberOf {
    Start,
    End,
    Mtime,
    /// How many lines a list of `summary` or `compare` has at most.
    Lines,
    /// The build that a word tells of.
    Build,
    /// How many commands at a time `summary` estimates.
    Jobs,
    /// How many milliseconds a difference of `compare` has at the least.
    Least,
}

impl fmt::Display for NumberOf {
    ghost output = { λ which. Some (number_name which) };

    fn fmt<W: fmt::Write>(&self, f: &mut fmt::Formatter<W>) -> fmt::Result {
        match self {
            NumberOf::Start => write!(f, "START"),
            NumberOf::End => write!(f, "END"),
            NumberOf::Mtime => write!(f, "MTIME"),
            NumberOf::Lines | NumberOf::Jobs => write!(f, "N"),
            NumberOf::Build => write!(f, "BUILD"),
            NumberOf::Least => write!(f, "MS"),
        }
    }
}

/// Which number of a command line is none that is taken there.
#[derive(Clone, Copy, Debug, PartialEq, Eq, Drop)]
pub struct WrongNumber {
    pub which: NumberOf,
    /// Which one of several it is, from 1.
    pub nth: Option<usize>,
    pub why: NumberFault,
}

// The text isn't a number in its one spelling, or is out of the range that `below` names if it is negative, and else `past`.
pub fn number_fault(text: &[u8], below: NumberFault, past: NumberFault) -> NumberFault {
    let (digits, out) = match text {
        [b'-', digits @ ..] => (digits, below),
        _ => (text, past),
    };
    match digits {
        [] => NumberFault::NoNumber,
        _ if !digits.iter().all(|byte| byte.is_ascii_digit()) => NumberFault::NoNumber,
        [b'0', ..] => NumberFault::Spelling,
        _ => out,
    }
}

// The text isn't a number from 1 up to 2^63 - 1.
pub fn build_fault(text: &[u8]) -> NumberFault {
    match text {
        b"0" => NumberFault::BelowOne,
        _ => number_fault(text, NumberFault::BelowOne, NumberFault::Past64),
    }
}

#[derive(Clone, Copy, Debug, PartialEq, Eq, Drop)]
pub enum LineFault {
    NoTab,
    Tab,
    Number(NumberFault),
    NoName,
    Zero,
    LongName,
    LongLine,
    NoTarget,
    NoRule,
    NoEvent,
    Values,
    Fields,
    Torn,
}

impl fmt::Display for LineFault {
    ghost output = { λ fault. Some (line_fault_text fault) };

    fn fmt<W: fmt::Write>(&self, f: &mut fmt::Formatter<W>) -> fmt::Result {
        match self {
            LineFault::NoTab => write!(f, "there is no tab"),
            LineFault::Tab => write!(f, "a name has no tab"),
            LineFault::Number(fault) => write!(f, "before the tab, {fault}"),
            LineFault::NoName => write!(f, "the name is empty"),
            LineFault::Zero => write!(f, "a name has no zero byte"),
            LineFault::LongName => write!(f, "a name has at most 65536 bytes"),
            LineFault::LongLine => write!(f, "a line has at most 262143 bytes"),
            LineFault::NoTarget => write!(f, "there is no target"),
            LineFault::NoRule => write!(f, "no target, colon, space and rule"),
            LineFault::NoEvent => write!(f, "no event begins so"),
            LineFault::Values => write!(
                f,
                "the values are wrong, or the line stands where it must not"
            ),
            LineFault::Fields => write!(f, "the values are wrong"),
            LineFault::Torn => write!(f, "no newline ends it"),
        }
    }
}

/// What the reader of a file, or of a number of a command line, says beside its fault.
#[derive(Clone, Copy, Drop)]
pub struct Told {
    pub number: Option<WrongNumber>,
    /// What is wrong with the first bad line.
    pub why: Option<LineFault>,
    /// The number, from 1, of the first line with a negative time.
    pub negative: Option<u64>,
}

/// What is told before a file is read.
pub const UNTOLD: Told = Told {
    number: None,
    why: None,
    negative: None,
};

impl Told {
    pub fn refuse(&mut self, number: u64, why: LineFault) -> ToolFault
        ensures value { result ≡ ToolFault.BadLine number }
        ensures why { self.new.why ≡ Some why }
    {
        self.why = Some(why);
        ToolFault::BadLine(number)
    }

    pub fn refuse_number(&mut self, number: WrongNumber) -> ToolFault
        ensures value { result ≡ ToolFault.BadNumber }
        ensures why { self.new.number ≡ Some number }
    {
        self.number = Some(number);
        ToolFault::BadNumber
    }
}

/// The entry has no hash yet. The numbers are read first, and then the name.
pub fn entry_of<'a>(
    start: &str,
    end: &str,
    mtime: &str,
    name: &'a str,
    told: &mut Told,
) -> ToolResult<EntryRef<'a>>
    ensures value { IfOk result (IsEntryOf start.now end.now mtime.now name.entry.now) }
    ensures accepts { OnOk result (GiveEntry start.now end.now mtime.now name.entry.now) }
    ensures faults { IfErr result (IsWordFault start.now end.now mtime.now name.entry.now told.new.number) }
{
    let Some(start_ms) = read_i32(start.as_bytes()) else {
        return Err(no_number(start, NumberOf::Start, NumberFault::Past32, told));
    };
    let Some(end_ms) = read_i32(end.as_bytes()) else {
        return Err(no_number(end, NumberOf::End, NumberFault::Past32, told));
    };
    let Some(mtime) = read_i64(mtime.as_bytes()) else {
        return Err(no_number(mtime, NumberOf::Mtime, NumberFault::Past64, told));
    };
    match EntryRef::new(start_ms, end_ms, mtime, name.as_bytes(), 0) {
        Ok(entry) => Ok(entry),
        Err(fault) => Err(of_name_fault(fault)),
    }
}

fn no_number(text: &str, which: NumberOf, past: NumberFault, told: &mut Told) -> ToolFault
    ensures told { IsToldOf which told.new.number result }
{
    let why = number_fault(text.as_bytes(), past, past);
    told.refuse_number(WrongNumber {
        which,
        nth: None,
        why,
    })
}

fn of_name_fault(fault: NameFault) -> ToolFault
    ensures { result ≡ of_name_fault fault }
{
    match fault {
        NameFault::Empty => ToolFault::EmptyName,
        NameFault::BadByte(at) => ToolFault::BadByte(at),
        NameFault::TooLong => ToolFault::LongName,
        NameFault::OutOfMemory => ToolFault::Memory,
    }
}
