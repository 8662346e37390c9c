//! What a command asks of the machine beside its standard streams: files to read, looks at files, and the folder of a log.
ghost use Rattle.std.specs.{Prelude.{◌≡◌, ℕ, List, Option, None, IfErr, IfOk, IfSome}, Io.KnownBytes.{Appends}, IoError.{error_kind}, declared.io.ErrorKind.TheVariants.{NotFound}};
ghost use Rattle.nl_files.specs.FileFolder.{begun_view, system_of};
ghost use Rattle.nl_folder.specs.FolderView.{FolderView, folder_view};
ghost use Rattle.nl_os.specs.{OsSystem.{paths_of}, Paths.{ArePathsOf}};
ghost use Rattle.nl_tool_doubt.specs.declared.files.FileState.TheVariants.{Missing};
ghost use Rattle.nl_tool_texts.specs.declared.fault.ToolFault.{ToolFault};
ghost use Rattle.nl_tool.specs.World.{Knows, World, path_below, said_line};

use crate::numbers::positive_of;
use jiff_tz::SystemTimeZone;
use nl_folder::Folder;
use nl_os::{DiskFolder, LogFolder, OsSystem, SystemFile, Telling};
use nl_tool_doubt::{FileState, FileTimes, OutputFiles};
use nl_tool_texts::{TerminalWriter, ToolResult};
use std::alloc::Global;
use std::fmt::Display;
use std::fs::{self, Metadata};
use std::io::{self, ErrorKind, Read, Write};
use std::os::unix::fs::MetadataExt;
use std::rt::{Clock, Files, Runtime};
use std::{env, str};

const NANOSECONDS: i64 = 1_000_000_000;

/// Nothing that a command does meanwhile changes what is known of the files that it reads and looks at.
pub trait Host {
    type File: Read + Drop;

    type Input: Read + Drop;

    // What is known of the files at each path, of standard input, and of the folders of logs.
    ghost world: { Self → World };

    /// A reader that may say on standard error how far it has read, where that takes long.
    fn open(&self, path: &str, tells: bool) -> io::Result<Self::File>
        ensures text { IfOk result (λ file. Knows ((world self.now).texts path.now) (Self.File.remaining file)) }
        ensures none { IfErr result (λ error. error_kind error ≡ NotFound
            → IfSome (world self.now).states (λ state_of. state_of path.now ≡ Missing)) };

    /// The same of standard input.
    fn input(&self, tells: bool) -> Self::Input
        ensures text { Knows (world self.now).input (Self.Input.remaining result) };

    /// A look at the file of a name, below a folder, or from the one in which the program runs.
    fn look(&self, folder: Option<&str>, name: &[u8]) -> FileState
        ensures known { IfSome (world self.now).states (λ state_of. result ≡ state_of (path_below folder.entry name.now)) };

    /// How many characters a line of the terminal has. None where it doesn't tell.
    fn columns(&self) -> Option<usize>;

    fn zone(&self) -> Option<SystemTimeZone>;
}

/// A host with the folders of logs.
pub trait Logs<L: LogFolder>: Host {
    /// The folder of the log at a path. No file is touched. A log that is missing is made only if that is said. It may say on standard error
    /// that it waits for a lock.
    fn log_at(&self, path: &str, makes: bool, tells: bool) -> ToolResult<L>
        ensures state { IfOk result (λ log. folder_view L.Folder log ≡ (Self.Host.world self.now).found path.now) }
        ensures faults { IfErr result (λ e. e ≡ ToolFault.Memory) };
}

/// A runtime over files that the folder of a log may have.
pub trait SystemRuntime: Runtime<File: SystemFile> {}

impl<R: Runtime<File: SystemFile>> SystemRuntime for R {}

/// What such a folder asks of it. The prover takes no reference and no `Copy` in its place.
pub trait Disk: Files<File: SystemFile> + Clock + Eprint + Drop {
    /// Another one of the same files.
    fn again(&self) -> Self;
}

impl<R: Files<File: SystemFile> + Clock + Eprint> Disk for &R {
    fn again(&self) -> Self {
        *self
    }
}

/// The operating system, of which nothing is known.
#[derive(Drop)]
pub struct OsHost<'r, R, D> {
    pub rt: &'r R,
    pub disk: D,
    pub alloc: Global,
}

impl<'r, R: SystemRuntime, D: Disk> Host for OsHost<'r, R, D> {
    type File = Telling<'r, R, R::File>;

    type Input = Telling<'r, R, R::Reader>;

    ghost world = { λ _. record { texts = λ path. None; input = None; states = None; found = λ path. begun_view None } };

    fn open(&self, path: &str, tells: bool) -> io::Result<Self::File> {
        Ok(Telling::new(self.rt, tells, fs::open(self.rt, path)?))
    }

    fn input(&self, tells: bool) -> Self::Input {
        Telling::new(self.rt, tells, self.rt.reader())
    }

    // The call of the system takes no name that isn't UTF-8.
    fn look(&self, folder: Option<&str>, name: &[u8]) -> FileState {
        let Ok(name) = str::from_utf8(name) else {
            return FileState::Unknown;
        };
        let Some(folder) = folder else {
            return state_of(fs::metadata(self.rt, name));
        };
        match format!(in self.alloc; "{folder}/{name}") {
            Ok(path) => state_of(fs::metadata(self.rt, path.as_str())),
            Err(_) => FileState::Unknown,
        }
    }

    fn columns(&self) -> Option<usize> {
        positive_of(env::var(self.rt, "COLUMNS").ok()?.as_bytes())
    }

    fn zone(&self) -> Option<SystemTimeZone> {
        SystemTimeZone::read(&(self.rt, self.alloc)).ok()
    }
}

impl<R: SystemRuntime, D: Disk> Logs<DiskFolder<D>> for OsHost<'_, R, D> {
    fn log_at(&self, path: &str, makes: bool, tells: bool) -> ToolResult<DiskFolder<D>>
        ensures folder { IfOk result (λ log. ArePathsOf path.now (paths_of (system_of log.folder))) }
        ensures state { IfOk result (λ log. folder_view ⟦<DiskFolder<D> as Folder>⟧ log ≡ begun_view None) }
        ensures faults { IfErr result (λ e. e ≡ ToolFault.Memory) }
    {
        let mut system = OsSystem::new(self.disk.again(), self.alloc, path)?;
        system.tells = tells;
        system.makes = makes;
        DiskFolder::over(system, self.alloc)
    }
}

fn state_of(found: io::Result<Metadata>) -> FileState {
    match found {
        Ok(metadata) if metadata.is_dir() => FileState::Directory,
        Ok(metadata) => FileState::Written(FileTimes {
            written: time_of(metadata.mtime(), metadata.mtime_nsec()),
            changed: time_of(metadata.ctime(), metadata.ctime_nsec()),
        }),
        Err(error) => match error.kind() {
            ErrorKind::NotFound | ErrorKind::NotADirectory => FileState::Missing,
            _ => FileState::Unknown,
        },
    }
}

// A time as Ninja counts it: in nanoseconds, and 1 for the first second of 1970, because 0 stands for none.
fn time_of(seconds: i64, nanoseconds: i64) -> i64 {
    match seconds.saturating_mul(NANOSECONDS) {
        0 => 1,
        whole => whole.saturating_add(nanoseconds),
    }
}

/// The outputs of a build. A name that doesn't begin with `/` is a path from the build's folder, or from the one in which the program runs.
#[derive(Drop)]
pub struct BuildFiles<'h, H> {
    pub host: &'h H,
    pub folder: Option<&'h str>,
}

impl<H: Host> OutputFiles for BuildFiles<'_, H> {
    ghost use Rattle.nl_tool.specs.World.{states_from};

    ghost states = { λ files. states_from files.folder (H.world files.host.now).states };

    fn look(&self, name: &[u8]) -> FileState {
        let folder = if name.starts_with(b"/") {
            None
        } else {
            self.folder
        };
        self.host.look(folder, name)
    }
}

/// Standard error. A text that can't be written is passed over, because there is nobody else to tell.
pub trait Errors {
    // All that it was given, where that is known.
    ghost said: { Self → Option (List ℕ) };

    fn print<D: Display + Drop>(&mut self, text: D)
        ensures writes { IfSome (D.output text) (Appends (said self.old) (said self.new)) };

    /// A line that begins with `nlog: `.
    final fn say<D: Display + Drop>(&mut self, text: D)
    where
        Self: Sized,
        ensures writes { IfSome (D.output text) (λ bytes. Appends (said self.old) (said self.new) (said_line bytes)) }
    {
        self.print(format_args!("nlog: {text}\n"));
    }
}

/// The standard error of a runtime. If it is a terminal, that obeys nothing of a text.
#[derive(Drop)]
pub struct OsErrors<'r, R> {
    pub rt: &'r R,
    pub at_terminal: bool,
}

impl<R: Eprint> Errors for OsErrors<'_, R> {
    ghost said = { λ _. None };

    fn print<D: Display + Drop>(&mut self, text: D) {
        if !self.at_terminal {
            let _ = eprint!(self.rt; "{text}");
            return;
        }
        let mut out = TerminalWriter::new(ErrorPrinter { rt: self.rt }, true);
        let _ = write!(out, "{text}");
        let _ = out.flush();
    }
}

// What comes to a terminal is UTF-8.
#[derive(Drop)]
struct ErrorPrinter<'r, R> {
    rt: &'r R,
}

impl<R: Eprint> Write for ErrorPrinter<'_, R> {
    fn write(&mut self, buf: &[u8]) -> io::Result<usize> {
        let text = str::from_utf8(buf).map_err(|_| io::Error::from(ErrorKind::InvalidData))?;
        eprint!(self.rt; "{text}")?;
        Ok(buf.len())
    }

    fn flush(&mut self) -> io::Result<()> {
        Ok(())
    }
}
