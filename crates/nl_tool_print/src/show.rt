//! The commands `show` and `check`, and the load of a log.
ghost use Rattle.std.specs.{Prelude.{◌≡◌, ◌≤◌, [], map, vec_capacity, IfErr, IfOk, IsErrOf, OnErr, OnOk, length, string_bytes}, Io.KnownBytes.{Appends}};
ghost use Rattle.nl_fields.specs.EntryLine.{line_of};
ghost use Rattle.nl_lines.specs.Split.{joined};
ghost use Rattle.nl_table.specs.Log.{log_of};
ghost use Rattle.nl_tool_print.specs.{Faults.{IsLogFault, RefusesLog}, Output.{IsTextAsRead, show_text_of, check_text_of, report, yes_or_no}, Versions.{show_text_for, IsReportFor}};
ghost use Rattle.nl_tool_texts.specs.{Output.{AppendsPrefixOf, Prints}, declared.fault.ToolFault.{ToolFault}};
ghost use Rattle.nl_versions.specs.{Loading.{IsLoadFor}, LogAs.{log_for}};

use nl_fields::{MAX_ENTRY_LINE, append_entry};
use nl_lines::ReadSource;
use nl_table::{Loaded, NO_SECRET, Secret, Table, is_due};
use nl_tool_texts::{AllocResult, ToolResult, write_full, write_out};
use nl_versions::{LogVersion, load_seen};
use std::alloc::Global;
use std::io::{Read, Write};

// More than the longest line, so that lines are held before they are written.
pub const PIECE: usize = 262_144;

/// A line for the last entry of each output.
pub fn show_to<R: Read + Drop, W: Write>(alloc: Global, reader: R, writer: &mut W) -> ToolResult
    ensures prints { Prints (IsTextAsRead show_text_of (R.remaining reader)) (W.contents writer.old) (W.contents writer.new) result }
    ensures refused { RefusesLog log_of (R.remaining reader) result }
    ensures faults { IfErr result IsLogFault }
{
    show_log(alloc, NO_SECRET, Some(LogVersion::Five), reader, writer)
}

/// The log is one of the version that is asked for, or else of the one that its first line names. Names are hashed under the secret.
pub fn show_log<R: Read + Drop, W: Write>(
    alloc: Global,
    secret: Secret,
    asked: Option<LogVersion>,
    reader: R,
    writer: &mut W,
) -> ToolResult
    ensures prints { Prints (IsTextAsRead (show_text_for asked) (R.remaining reader))
        (W.contents writer.old) (W.contents writer.new) result }
    ensures refused { RefusesLog (log_for asked) (R.remaining reader) result }
    ensures faults { IfErr result IsLogFault }
{
    let (_, loaded) = load_read(alloc, secret, asked, reader)?;
    // All memory is taken before the first write, so only a write can fail from here on.
    let mut piece = Vec::with_capacity(alloc, PIECE)?;
    write_lines(&loaded.table, &mut piece, writer)
}

pub fn write_lines<W: Write>(table: &Table, piece: &mut Vec<u8>, writer: &mut W) -> ToolResult
    requires empty { piece.old.items ≡ [] }
    requires room { MAX_ENTRY_LINE ≤ vec_capacity piece.old }
    ensures capacity { vec_capacity piece.old ≤ vec_capacity piece.new }
    ensures ok { OnOk result (Appends (W.contents writer.old) (W.contents writer.new) (joined (map line_of table.now))) }
    ensures prefix { OnErr result (AppendsPrefixOf (W.contents writer.old) (W.contents writer.new) (joined (map line_of table.now))) }
    ensures faults { IfErr result (λ e. e ≡ ToolFault.Write) }
{
    for place in 0..table.len() {
        if let Some(entry) = table.at(place) {
            write_full(piece.capacity() - MAX_ENTRY_LINE, piece, writer)?;
            append_entry(&entry, piece).unwrap();
        }
    }
    write_out(piece.as_slice(), writer)
}

/// Loads the bytes that the reader has left as a log of the version that is asked for, or else of the one that their first line names.
/// Names are hashed under the secret.
pub fn load_read<R: Read + Drop>(
    alloc: Global,
    secret: Secret,
    asked: Option<LogVersion>,
    reader: R,
) -> ToolResult<(LogVersion, Loaded)>
    ensures loaded { IfOk result (λ both. IsLoadFor asked (R.remaining reader) both.0 both.1) }
    ensures refused { RefusesLog (log_for asked) (R.remaining reader) result }
    ensures faults { IfErr result IsLogFault }
    ensures write { IsErrOf result ToolFault.Write → ⊥ }
{
    Ok(load_seen(alloc, secret, asked, ReadSource::new(reader))?)
}

/// Writes six lines: the log's version, its counts of entry lines, outputs, skipped lines and torn bytes, and whether it is due.
pub fn check_to<R: Read + Drop, W: Write>(alloc: Global, reader: R, writer: &mut W) -> ToolResult
    ensures prints { Prints (IsTextAsRead check_text_of (R.remaining reader)) (W.contents writer.old) (W.contents writer.new) result }
    ensures refused { RefusesLog log_of (R.remaining reader) result }
    ensures faults { IfErr result IsLogFault }
{
    check_log(alloc, NO_SECRET, Some(LogVersion::Five), reader, writer)
}

/// As `check_to`, on a log of the version that is asked for, or else of the one that its first line names. Names are hashed under the
/// secret.
pub fn check_log<R: Read + Drop, W: Write>(
    alloc: Global,
    secret: Secret,
    asked: Option<LogVersion>,
    reader: R,
    writer: &mut W,
) -> ToolResult
    ensures prints { Prints (IsReportFor asked (R.remaining reader)) (W.contents writer.old) (W.contents writer.new) result }
    ensures refused { RefusesLog (log_for asked) (R.remaining reader) result }
    ensures faults { IfErr result IsLogFault }
{
    let (version, mut loaded) = load_read(alloc, secret, asked, reader)?;
    loaded.version = version.number(loaded.version);
    let unique = loaded.table.len() as u64;
    let due = yes_or_no(is_due(loaded.version, loaded.total, unique));
    let report = format!(in alloc;
        "version {}\ntotal {}\nunique {unique}\nskipped {}\ntorn {}\ndue {due}\n",
        loaded.version, loaded.total, loaded.skipped, loaded.torn
    )?;
    write_out(report.as_bytes(), writer)
}

fn yes_or_no(yes: bool) -> &'static str
    ensures { result.now ≡ yes_or_no yes }
{
    if yes { "yes" } else { "no" }
}
