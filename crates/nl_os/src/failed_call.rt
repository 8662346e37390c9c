//! Which call of the operating system failed, on which file, and why, and what that tells of a folder's call.
ghost use Rattle.std.specs.Prelude.{◌≡◌, ◌<◌, is_some, true};

use std::io::{self, ErrorKind};

#[derive(Clone, Copy, Debug, PartialEq, Eq, Drop)]
pub enum SystemCall {
    Open,
    Duplicate,
    Lock,
    Stat,
    Read,
    Write,
    Cut,
    Sync,
    Remove,
    Rename,
    SetMode,
}

/// The name is the one that the file had when it was opened.
#[derive(Clone, Copy, Debug, PartialEq, Eq, Drop)]
pub enum FileRole {
    Log,
    Scratch,
    /// The folder in which both stand.
    Folder,
}

#[derive(Clone, Copy, Debug, PartialEq, Eq, Drop)]
pub struct FailedCall {
    pub call: SystemCall,
    /// Of a rename the scratch.
    pub file: FileRole,
    pub kind: ErrorKind,
    /// The system's number of the error. None of a lock that another process holds, and of a write that took no byte.
    pub errno: Option<i32>,
}

// `count` stops at the last value of a `u64`.
#[derive(Drop)]
pub struct Failures {
    pub last: Option<FailedCall>,
    pub count: u64,
    ghost is_kept: { 0 < count → is_some last ≡ true },
}

/// Which file a folder's call was of, and the system's error.
#[derive(Clone, Copy)]
pub struct Failure {
    pub file: FileRole,
    pub error: io::Error,
}
