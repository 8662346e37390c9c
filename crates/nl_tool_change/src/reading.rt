//! What is read of the log in a folder, which stays as it is: its version, its bytes, and which of its outputs can't be trusted.
ghost use Rattle.std.specs.Prelude.{◌≡◌, ◌⊎◌, IfErr, IfOk, IsErrOf};
ghost use Rattle.nl_table.specs.Log.{NotALog, OtherVersion};
ghost use Rattle.nl_versions.specs.LogAs.{log_for};
ghost use Rattle.nl_session.specs.declared.fault.LogFault.{LogFault};
ghost use Rattle.nl_folder.specs.FolderView.{folder_view};
ghost use Rattle.nl_tool_change.specs.{Calls.{Looks}, Distrusts.{AreDistrusted}, Mending.{ReadsWhole}};

use crate::place::{LogResult, of_log_fault};
use nl_distrust::distrusted;
use nl_folder::{Folder, LogReader};
use nl_lines::SliceSource;
use nl_session::LogFault;
use nl_table::{LoadFault, Secret, Table};
use nl_tool_print::read_all;
use nl_tool_texts::ToolResult;
use nl_versions::{LogVersion, first_line_in, load_seen};
use std::alloc::Global;

/// The version that is asked for, or else the one that the log's first line names. The folder stays as it is, and isn't looked at if 5 is
/// asked for.
///
/// A log of version 6 or 7 is changed through a folder that sees it as one of version 5. That folder would take a log of version 4 too, and
/// write it anew as one of the version, so if 6 or 7 is asked for, a log of version 4 is of another.
pub fn look_for<F: Folder>(asked: Option<LogVersion>, folder: F) -> (F, LogResult<LogVersion>)
    ensures looks { Looks asked (folder_view F.Folder folder) (folder_view F.Folder result.0) result.1 }
{
    if asked == Some(LogVersion::Five) {
        return (folder, Ok(LogVersion::Five));
    }
    let (folder, looked) = first_line_in(folder);
    match (looked, asked) {
        (Ok(line), None) => (folder, Ok(line.version)),
        (Ok(line), Some(_)) if line.is_four => (folder, Err(LogFault::OtherVersion)),
        (Ok(_), Some(version)) => (folder, Ok(version)),
        (Err(_), _) => (folder, Err(LogFault::Fault)),
    }
}

/// The folder stays as it is. It takes the memory of the bytes.
pub fn read_log<F: Folder>(alloc: Global, folder: F) -> (F, ToolResult<Vec<u8>>)
    ensures reads { ReadsWhole (folder_view F.Folder folder) (folder_view F.Folder result.0) result.1 }
{
    let mut reader = LogReader::new(folder);
    reader.begin_load();
    let read = read_all(alloc, false, &mut reader).map_err(|why| of_log_fault(why.into()));
    (reader.folder, read)
}

/// Which outputs of a log can't be trusted. The log is one of the version that is asked for, or else of the one that its first line names.
pub(crate) fn distrusted_of(
    alloc: Global,
    secret: Secret,
    asked: Option<LogVersion>,
    bytes: &[u8],
) -> LogResult<Table>
    ensures found { IfOk result (AreDistrusted asked bytes.now) }
    ensures not_a_log { IsErrOf result LogFault.NotALog → log_for asked bytes.now ≡ NotALog }
    ensures other_version { IsErrOf result LogFault.OtherVersion → log_for asked bytes.now ≡ OtherVersion }
    ensures refusals { IfErr result (λ why. (why ≡ LogFault.NotALog) ⊎ (why ≡ LogFault.OtherVersion) ⊎ (why ≡ LogFault.OutOfMemory)) }
{
    match load_seen(alloc, secret, asked, SliceSource::new(bytes)) {
        Ok((_, loaded)) => Ok(distrusted(alloc, loaded.version, bytes, &loaded.table)?),
        Err(LoadFault::NotALog) => Err(LogFault::NotALog),
        Err(LoadFault::OtherVersion) => Err(LogFault::OtherVersion),
        // No read of bytes that are there fails.
        Err(LoadFault::OutOfMemory | LoadFault::Read) => Err(LogFault::OutOfMemory),
    }
}
