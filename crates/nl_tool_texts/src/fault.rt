//! Why a command of the tool is refused, and the text that says so.
ghost use Rattle.std.specs.Prelude.{◌≡◌, Some};
ghost use Rattle.nl_tool_texts.specs.{Faults.{of_line_fault, of_load_fault, fault_text}, declared.fault.ToolFault.TheVariants.{Memory}};

use nl_lines::LineFault;
use nl_table::LoadFault;
use std::alloc::AllocError;
use std::error::Error;
use std::fmt;

/// What a command answers.
pub type ToolResult<T = ()> = Result<T, ToolFault>;

/// Its `Display` is the text for the user.
#[derive(Clone, Copy, Debug, PartialEq, Eq)]
pub enum ToolFault {
    NotALog,
    OtherVersion,
    Read,
    Memory,
    Write,
    /// A call of the log's folder failed.
    Folder,
    /// The index, from 0, of the first pair of TIMES whose mtime is negative.
    NegativeTime(usize),
    /// A number of the words isn't in its one spelling, or is out of its range.
    BadNumber,
    EmptyName,
    /// The place, from 0, of the first byte that no name may have.
    BadByte(usize),
    LongName,
    /// The number, from 1, of the first bad line of a file. Lines that are ignored are counted.
    BadLine(u64),
    /// A graph has no command of the builds that are told of.
    OtherGraph,
    /// Most outputs of a log have no file: it is that of a build in another folder.
    Elsewhere,
}

impl fmt::Display for ToolFault {
    ghost output = { λ f. Some (fault_text f) };

    fn fmt<W: fmt::Write>(&self, f: &mut fmt::Formatter<W>) -> fmt::Result {
        match self {
            ToolFault::NotALog => write!(f, "not a ninja log"),
            ToolFault::OtherVersion => write!(f, "log version not supported"),
            ToolFault::Read => write!(f, "cannot read"),
            ToolFault::Memory => write!(f, "out of memory"),
            ToolFault::Write => write!(f, "cannot write"),
            ToolFault::Folder => write!(f, "the folder failed"),
            ToolFault::NegativeTime(index) => write!(f, "negative time at pair {index}"),
            ToolFault::BadNumber => write!(f, "bad number"),
            ToolFault::EmptyName => write!(f, "empty name"),
            ToolFault::BadByte(at) => write!(f, "bad byte in name at {at}"),
            ToolFault::LongName => write!(f, "name too long"),
            ToolFault::BadLine(number) => write!(f, "bad line {number}"),
            ToolFault::OtherGraph => write!(f, "not the graph of this build"),
            ToolFault::Elsewhere => write!(
                f,
                "most outputs of LOG aren't here\nnlog: run it in the folder of the build, or name that to mend by -C"
            ),
        }
    }
}

impl Error for ToolFault {}

impl From<AllocError> for ToolFault {
    ghost from_gives = { λ _ f. f ≡ Memory };

    fn from(_error: AllocError) -> ToolFault {
        ToolFault::Memory
    }
}

impl From<LineFault> for ToolFault {
    ghost from_gives = { λ fault f. f ≡ of_line_fault fault };

    fn from(fault: LineFault) -> ToolFault {
        match fault {
            LineFault::OutOfMemory => ToolFault::Memory,
            LineFault::Read | LineFault::Failed | LineFault::TooLarge => ToolFault::Read,
        }
    }
}

impl From<LoadFault> for ToolFault {
    ghost from_gives = { λ fault f. f ≡ of_load_fault fault };

    fn from(fault: LoadFault) -> ToolFault {
        match fault {
            LoadFault::NotALog => ToolFault::NotALog,
            LoadFault::OtherVersion => ToolFault::OtherVersion,
            LoadFault::Read => ToolFault::Read,
            LoadFault::OutOfMemory => ToolFault::Memory,
        }
    }
}

pub fn status_of(_fault: &ToolFault) -> u8
    ensures value { result ≡ 1 }
{
    1
}
