//! An open file of the operating system, which file it is, and when it was changed.
ghost use Rattle.std.specs.Prelude.{◌≤◌, IfOk, length};

use std::fs::{File, Metadata, OpenFile, TryLockError};
use std::io::{self, Write};
use std::os::fd::AsRawFd;
use std::os::unix::fs::{FileExt, MetadataExt, fchown};

/// What a log asks of an open file beside std's `OpenFile`. A file of the system has it, and a test may have its own.
pub trait SystemFile: OpenFile + Write {
    /// Reads from byte `at` on, and leaves the place at which the file is written.
    fn read_at(&self, buf: &mut [u8], at: u64) -> io::Result<usize>
        ensures bound { IfOk result (λ n. n ≤ length buf.new) };

    /// The exclusive advisory lock. It doesn't wait, and holds the lock until each handle of this open is closed.
    fn try_lock(&self) -> Result<(), TryLockError>;

    /// No `owner` leaves the file its own.
    fn set_owner(&self, owner: Option<u32>, group: u32) -> io::Result<()>;

    fn descriptor(&self) -> i32;
}

impl SystemFile for File {
    fn read_at(&self, buf: &mut [u8], at: u64) -> io::Result<usize> {
        FileExt::read_at(self, buf, at)
    }

    fn try_lock(&self) -> Result<(), TryLockError> {
        File::try_lock(self)
    }

    fn set_owner(&self, owner: Option<u32>, group: u32) -> io::Result<()> {
        fchown(self, owner, Some(group))
    }

    fn descriptor(&self) -> i32 {
        self.as_raw_fd()
    }
}

/// A file by its numbers, which no other file has as long as it is there.
#[derive(Clone, Copy, Debug, PartialEq, Eq, Drop)]
pub struct FileId {
    pub device: u64,
    pub number: u64,
}

/// When the system says that a file was last changed: its bytes, its rights or its names. No call sets it.
#[derive(Clone, Copy, Debug, PartialEq, Eq, Drop)]
pub struct ChangeTime {
    seconds: i64,
    nanoseconds: i64,
}

/// It shows that whoever has the lock changes the log: a record makes it longer, and a rewriting puts another file in its place.
#[derive(Clone, Copy, Debug, PartialEq, Eq, Drop)]
pub struct Sign {
    pub id: FileId,
    pub len: u64,
    pub changed: ChangeTime,
}

impl Sign {
    pub fn of(metadata: &Metadata) -> Sign {
        Sign {
            id: FileId {
                device: metadata.dev(),
                number: metadata.ino(),
            },
            len: metadata.len(),
            changed: ChangeTime {
                seconds: metadata.ctime(),
                nanoseconds: metadata.ctime_nsec(),
            },
        }
    }
}
