//! What the system said of the calls that failed, and the first line of the log that is read, with what it looks like: kept while a
//! command is done, for whoever asks why it was refused.
ghost use Rattle.std.specs.{Prelude.{◌≡◌, None, Some, IfErr, false, true}, Io.{ReadsAtMost, WritesAtMost}, Io.KnownBytes.{Keeps, ReadConsumes, WriteAppends}};

use crate::desk::Screen;
use nl_folder::Folder;
use nl_lines::MAX_LINE;
use nl_os::Failure;
use nl_table::Secret;
use nl_tool_change::{Told, UNTOLD};
use std::alloc::Global;
use std::io::{self, Read, Write};

// How many bytes of a log's folder are read at a time.
const PIECE: usize = 512;

/// What is kept of a command.
#[derive(Drop)]
pub struct Notes {
    pub alloc: Global,
    /// What is kept of the file that the command reads, or of standard input.
    pub heard: Heard,
    /// What the reader of that file says beside its fault.
    pub told: Told,
    /// The error of the last write to standard output that failed.
    pub written: Option<io::Error>,
    /// The last call of the log's folder that failed.
    pub folder: Option<Failure>,
    /// Why the log's folder isn't synced, where that isn't to be had.
    pub unsynced: Option<io::Error>,
    /// Whether a log was written anew whose group may do what the others may not.
    pub is_masked: bool,
    /// The output whose file has a negative time stamp by which a change was refused.
    pub early: Vec<u8>,
    /// Whether the log was missing, and was read as one without bytes.
    pub is_missing: bool,
    /// Whether what was heard is of the second of two logs.
    pub is_second: bool,
    /// Whether builds of which was told were found again, since the log was written anew.
    pub is_again: bool,
    /// Whether more is to be said than the words ask for: so a log of another version is looked at once it is refused.
    pub looks: bool,
    /// Which streams are terminals.
    pub screen: Screen,
    /// The secret under which names are hashed.
    pub secret: Secret,
}

impl Notes {
    /// Nothing is known yet.
    pub fn new(alloc: Global, looks: bool, screen: Screen, secret: Secret) -> Notes
        ensures none { (result.heard.failure ≡ None) × (result.written ≡ None) × (result.folder ≡ None) × (result.unsynced ≡ None)
            × (result.is_missing ≡ false) × (result.is_second ≡ false) × (result.is_again ≡ false) × (result.is_masked ≡ false) }
        ensures looks { result.looks ≡ looks }
        ensures screen { result.screen ≡ screen }
    {
        Notes {
            alloc,
            heard: Heard {
                failure: None,
                beginning: Vec::new(alloc),
                goes_on: looks,
            },
            told: UNTOLD,
            written: None,
            folder: None,
            unsynced: None,
            is_masked: false,
            early: Vec::new(alloc),
            is_missing: false,
            is_second: false,
            is_again: false,
            looks,
            screen,
            secret,
        }
    }

    /// If the first of two files was missing, and the second isn't, that is said of the first.
    pub fn recall(&mut self, was_missing: bool)
        ensures kept { self.new.told ≡ self.old.told }
    {
        if was_missing && !self.is_missing {
            self.is_missing = true;
            self.is_second = false;
        }
    }

    /// Of what is read next it is kept whether it is the second of two files.
    pub fn begin(&mut self, is_second: bool)
        ensures second { self.new.is_second ≡ is_second }
        ensures anew { self.new.is_missing ≡ false }
        ensures kept { self.new.folder ≡ self.old.folder }
    {
        self.is_second = is_second;
        self.is_missing = false;
        self.heard.beginning.clear();
        self.heard.goes_on = self.looks;
    }
}

/// What is kept of a file that is read.
#[derive(Drop)]
pub struct Heard {
    /// The error by which it was last not opened, or not read.
    pub failure: Option<io::Error>,
    /// Its first line, as far as it was read, and there was memory for it.
    pub beginning: Vec<u8>,
    // Whether what is read next belongs to that line.
    goes_on: bool,
}

impl Heard {
    /// Keeps the first line of the log of a folder, in the place of what was read before.
    pub fn look_at<F: Folder>(&mut self, folder: &mut F) {
        self.beginning.clear();
        self.goes_on = true;
        let mut piece = [0; PIECE];
        for _ in 0..=MAX_LINE {
            if !self.goes_on {
                return;
            }
            match folder.read_log(self.beginning.len() as u64, &mut piece) {
                Ok(0) | Err(_) => return,
                Ok(count) => self.note(&piece[..count]),
            }
        }
    }

    // Keeps the bytes that were read next, up to the end of the first line. One that is too long is of no log.
    fn note(&mut self, bytes: &[u8]) {
        for byte in bytes {
            if !self.goes_on {
                return;
            }
            let is_kept = self.beginning.push(*byte).is_ok();
            self.goes_on = is_kept && *byte != b'\n' && self.beginning.len() <= MAX_LINE;
        }
    }
}

/// A reader, of which it is kept why it last failed and how it begins.
#[derive(Drop)]
pub struct NotedReader<'n, R> {
    reader: R,
    heard: &'n mut Heard,
}

impl<'n, R: Read> NotedReader<'n, R> {
    pub fn new(reader: R, heard: &'n mut Heard) -> Self
        ensures remaining { ⟦<NotedReader<'n, R> as Read>⟧.remaining result ≡ R.remaining reader }
    {
        NotedReader { reader, heard }
    }
}

impl<R: Read> Read for NotedReader<'_, R> {
    ghost remaining = { λ r. R.remaining r.reader };

    fn read(&mut self, buf: &mut [u8]) -> io::Result<usize>
        ensures bound { ReadsAtMost result buf.new }
        ensures bytes { ReadConsumes (R.remaining self.old.reader) (R.remaining self.new.reader) result buf.new }
        ensures noted { IfErr result (λ error. self.new.heard.now.failure ≡ Some error) }
    {
        let answer = self.reader.read(buf);
        match answer {
            Ok(count) => self.heard.note(&buf[..count]),
            Err(error) => self.heard.failure = Some(error),
        }
        answer
    }
}

/// A writer, of which it is kept why it last failed.
#[derive(Drop)]
pub struct NotedWriter<W> {
    writer: W,
    pub failure: Option<io::Error>,
}

impl<W: Write> NotedWriter<W> {
    pub fn new(writer: W) -> Self
        ensures same { ⟦<NotedWriter<W> as Write>⟧.contents result ≡ W.contents writer }
        ensures none { result.failure ≡ None }
    {
        NotedWriter {
            writer,
            failure: None,
        }
    }
}

impl<W: Write> Write for NotedWriter<W> {
    ghost contents = { λ w. W.contents w.writer };

    fn write(&mut self, buf: &[u8]) -> io::Result<usize>
        ensures bound { WritesAtMost result buf.now }
        ensures bytes { WriteAppends (W.contents self.old.writer) (W.contents self.new.writer) result buf.now }
        ensures noted { IfErr result (λ error. self.new.failure ≡ Some error) }
    {
        let answer = self.writer.write(buf);
        self.failure = answer.err().or(self.failure);
        answer
    }

    fn flush(&mut self) -> io::Result<()>
        ensures bytes { Keeps (W.contents self.old.writer) (W.contents self.new.writer) }
        ensures noted { IfErr result (λ error. self.new.failure ≡ Some error) }
    {
        let answer = self.writer.flush();
        self.failure = answer.err().or(self.failure);
        answer
    }
}
