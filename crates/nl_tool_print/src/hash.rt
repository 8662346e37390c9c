//! The commands `hash` and `hash-file`.
ghost use Rattle.std.specs.Prelude.{◌≡◌, ◌≤◌, ◌⊎◌, true, IfErr, IfOk, IfSome, IsErrOf};
ghost use Rattle.nl_lines.specs.Source.{FailedBetween};
ghost use Rattle.nl_table.specs.{Log.{NotALog, log_of}, declared.loader.LoadFault.{LoadFault}};
ghost use Rattle.nl_versions.specs.VersionOf.{as_five};
ghost use Rattle.nl_tool_print.specs.{Faults.{IsHashFault, IsHashFileFault}, Output.{IsHashText}, Versions.{IsFileHashAs, hash_text_as}};
ghost use Rattle.nl_tool_texts.specs.Output.{Prints};

use nl_fields::append_hex64;
use nl_lines::{ReadSource, Source};
use nl_table::LoadFault;
use nl_tool_texts::{ToolResult, append, write_out};
use nl_versions::{LogVersion, command_hash_in, may_be_log};
use std::alloc::Global;
use std::io::{Read, Write};

// Bytes of one read.
const PIECE: usize = 65_536;

/// It writes the hash as a log spells it, and a newline.
pub fn hash_to<W: Write>(alloc: Global, command: &[u8], writer: &mut W) -> ToolResult
    ensures prints { Prints (IsHashText command.now) (W.contents writer.old) (W.contents writer.new) result }
    ensures faults { IfErr result IsHashFault }
{
    hash_for(alloc, LogVersion::Five, command, writer)
}

/// It writes the hash as a log of the version spells it, and a newline.
pub fn hash_for<W: Write>(
    alloc: Global,
    version: LogVersion,
    command: &[u8],
    writer: &mut W,
) -> ToolResult
    ensures prints { Prints (λ text. text ≡ hash_text_as version command.now) (W.contents writer.old) (W.contents writer.new) result }
    ensures faults { IfErr result IsHashFault }
{
    let mut text = Vec::new(alloc);
    append_hex64(command_hash_in(version, command), &mut text)?;
    append(b"\n", &mut text)?;
    write_out(text.as_slice(), writer)
}

/// Writes the hash of the command that the reader's bytes are, as a log of the version spells it. It takes the memory of the command.
pub fn hash_read<R: Read + Drop, W: Write>(
    alloc: Global,
    version: LogVersion,
    reader: R,
    writer: &mut W,
) -> ToolResult
    ensures prints { Prints (IsFileHashAs version (R.remaining reader)) (W.contents writer.old) (W.contents writer.new) result }
    ensures faults { IfErr result IsHashFileFault }
{
    let command = read_all(alloc, false, &mut ReadSource::new(reader))?;
    hash_for(alloc, version, command.as_slice(), writer)
}

/// All that the source has left. It refuses a log as soon as the first bytes begin none. It takes the memory of what it has read.
pub fn read_all<S: Source>(
    alloc: Global,
    is_log: bool,
    source: &mut S,
) -> Result<Vec<u8>, LoadFault>
    ensures value { IfOk result (λ all. IfSome (S.ahead source.old) (λ bytes. bytes ≡ all.items)) }
    ensures cause { IsErrOf result LoadFault.Read → FailedBetween (S.failures source.old) (S.failures source.new) }
    ensures not_a_log { IsErrOf result LoadFault.NotALog → IfSome (S.ahead source.old) (λ bs. log_of (as_five bs) ≡ NotALog) }
    ensures refusals { IfErr result (λ why. (why ≡ LoadFault.Read) ⊎ (why ≡ LoadFault.OutOfMemory) ⊎ ((why ≡ LoadFault.NotALog) × (is_log ≡ true))) }
    ensures rises { S.failures source.old ≤ S.failures source.new }
    ensures relation { S.keeps source.old source.new }
{
    let mut piece = Vec::new(alloc);
    piece.resize(PIECE, 0)?;
    let mut all = Vec::new(alloc);
    'pieces: for _ in 0..u64::MAX {
        if is_log && !may_be_log(all.as_slice()) {
            return Err(LoadFault::NotALog);
        }
        match source.read_some(piece.as_mut_slice()) {
            Ok(0) => return Ok(all),
            Ok(n) => all.extend_from_slice(&piece[..n])?,
            Err(_) => return Err(LoadFault::Read),
        }
    }
    Err(LoadFault::OutOfMemory)
}
