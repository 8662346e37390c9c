//! Where bytes come from, a piece at a time: any source, a reader, and a slice.
ghost use Rattle.std.specs.{Prelude.{◌≡◌, ◌≤◌, List, ℕ, Option, Some, OnOk, OnErr}, Io.{ReadsAtMost}, Io.KnownBytes.{ReadConsumes}};
ghost use Rattle.nl_lines.specs.Source.{FailedBetween, IsCount, none_is_count};

use std::io::Read;
use thiserror::Error;

#[derive(Clone, Copy, Debug, PartialEq, Eq, Drop, Error)]
#[error("the source of bytes failed")]
pub struct SourceFault;

pub trait Source {
    // None where nobody knows them.
    ghost ahead: { Self → Option (List ℕ) };

    ghost failures: { Self → ℕ };

    // A relation of the source before its reads and after them: what they leave alone.
    ghost keeps: { Self → Self → Type 0 };

    /// Reads a prefix of the bytes ahead into the front of `buf`: none only at their end, or if `buf` is empty.
    fn read_some(&mut self, buf: &mut [u8]) -> Result<usize, SourceFault>
        ensures bound { ReadsAtMost result buf.new }
        ensures bytes { ReadConsumes (ahead self.old) (ahead self.new) result buf.new }
        ensures cause { OnErr result (FailedBetween (failures self.old) (failures self.new)) }
        ensures steady { OnOk result (failures self.new ≡ failures self.old) }
        ensures rises { failures self.old ≤ failures self.new }
        ensures relation { keeps self.old self.new };

    /// How often it has failed. The count stops at `u64::MAX`.
    fn failures(&self) -> u64
        ensures { result ≡ failures self.now };

    ghost is_count: { (s : Self) → IsCount (failures s) };

    ghost keeps_same: { (s : Self) → keeps s s };

    ghost keeps_joined: { (s t u : Self) → keeps s t → keeps t u → keeps s u };
}

/// A reader. Each error of the reader is a failure, `Interrupted` too.
#[derive(Drop)]
pub struct ReadSource<R> {
    reader: R,
    failures: u64,
    ghost is_count: { IsCount failures },
}

impl<R: Read> ReadSource<R> {
    pub fn new(reader: R) -> Self
        ensures ahead { ⟦<ReadSource<R> as Source>⟧.ahead result ≡ R.remaining reader }
        ensures failures { ⟦<ReadSource<R> as Source>⟧.failures result ≡ 0 }
    {
        ReadSource {
            reader,
            failures: 0,
        }
    }
}

impl<R: Read> Source for ReadSource<R> {
    ghost ahead = { λ s. R.remaining s.reader };

    ghost failures = { λ s. s.failures };

    ghost is_count = { λ s. s.is_count };

    ghost keeps = { λ s t. Unit {0} };

    ghost keeps_same = { λ s. tt };

    ghost keeps_joined = { λ s t u first second. tt };

    fn read_some(&mut self, buf: &mut [u8]) -> Result<usize, SourceFault> {
        let Ok(count) = self.reader.read(buf) else {
            self.failures = self.failures.saturating_add(1);
            return Err(SourceFault);
        };
        Ok(count)
    }

    fn failures(&self) -> u64 {
        self.failures
    }
}

/// A slice. It never fails.
#[derive(Drop)]
pub struct SliceSource<'a> {
    rest: &'a [u8],
}

impl<'a> SliceSource<'a> {
    pub fn new(bytes: &'a [u8]) -> Self
        ensures ahead { ⟦<SliceSource<'a> as Source>⟧.ahead result ≡ Some bytes.now }
        ensures failures { ⟦<SliceSource<'a> as Source>⟧.failures result ≡ 0 }
    {
        SliceSource { rest: bytes }
    }
}

impl Source for SliceSource<'_> {
    ghost ahead = { λ s. Some s.rest.now };

    ghost failures = { λ s. 0 };

    ghost is_count = { λ s. none_is_count };

    ghost keeps = { λ s t. Unit {0} };

    ghost keeps_same = { λ s. tt };

    ghost keeps_joined = { λ s t u first second. tt };

    fn read_some(&mut self, buf: &mut [u8]) -> Result<usize, SourceFault> {
        let taken = buf.len().min(self.rest.len());
        buf[..taken].copy_from_slice(&self.rest[..taken]);
        self.rest = &self.rest[taken..];
        Ok(taken)
    }

    fn failures(&self) -> u64 {
        0
    }
}
