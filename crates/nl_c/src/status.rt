//! Statuses as numbers, since no enum crosses to C.
ghost use Rattle.std.specs.Prelude.{◌≡◌, ◌≢◌, ◌∷◌, [], ◌++◌, drop, length, take};
ghost use Rattle.nl_c.specs.Statuses.{status_of_answer, status_of_fault, status_text, if_room};

use nl_session::LogFault;

pub(crate) const OK: u32 = 0;

pub(crate) const NO_HANDLE: u32 = 1;

pub(crate) const NOT_A_LOG: u32 = 2;

pub(crate) const OTHER_VERSION: u32 = 3;

pub(crate) const OUT_OF_MEMORY: u32 = 4;

pub(crate) const NOT_FOUND: u32 = 5;

pub(crate) const NO_ROOM: u32 = 6;

pub(crate) const NOT_OPEN: u32 = 7;

pub(crate) const ALREADY_OPEN: u32 = 8;

pub(crate) const BROKEN: u32 = 9;

pub(crate) const NEGATIVE_TIME: u32 = 10;

pub(crate) const FAULT: u32 = 11;

pub(crate) const BAD_NAME: u32 = 12;

// Only the writer of files answers this one.
const LOCKED: u32 = 13;

const FORKED: u32 = 14;

pub(crate) fn of_log_fault(fault: LogFault) -> u32
    ensures { result ≡ status_of_fault fault }
{
    match fault {
        LogFault::NotOpen => NOT_OPEN,
        LogFault::AlreadyOpen => ALREADY_OPEN,
        LogFault::Broken => BROKEN,
        LogFault::NegativeTime(_) => NEGATIVE_TIME,
        LogFault::NotALog => NOT_A_LOG,
        LogFault::OtherVersion => OTHER_VERSION,
        LogFault::OutOfMemory => OUT_OF_MEMORY,
        LogFault::Fault => FAULT,
    }
}

pub(crate) fn of_answer(answer: Result<(), LogFault>) -> u32
    ensures { result ≡ status_of_answer answer }
{
    match answer {
        Ok(()) => OK,
        Err(fault) => of_log_fault(fault),
    }
}

pub(crate) fn of_room<E: Drop>(answer: Result<(), E>) -> u32
    ensures { result ≡ if_room answer }
{
    if answer.is_ok() { OK } else { OUT_OF_MEMORY }
}

pub(crate) fn text(status: u32) -> &'static [u8]
    ensures { result.now ≡ status_text status }
{
    match status {
        OK => b"ok",
        NO_HANDLE => b"no log is loaded",
        NOT_A_LOG => b"not a ninja log",
        OTHER_VERSION => b"log version not supported",
        OUT_OF_MEMORY => b"out of memory",
        NOT_FOUND => b"not found",
        NO_ROOM => b"the buffer is too short",
        NOT_OPEN => b"the log is not open",
        ALREADY_OPEN => b"the log is open already",
        BROKEN => b"the log is broken",
        NEGATIVE_TIME => b"negative time",
        FAULT => b"a file failed",
        BAD_NAME => b"bad name",
        LOCKED => b"another process has the log",
        FORKED => b"the parent process opened the log",
        _ => b"unknown status",
    }
}
