//! The outputs of a log that can't be trusted, and the lines that say so.
ghost use Rattle.std.specs.{Prelude.{◌≡◌, ◌⊎◌, ◌++◌, ℕ, count_by, length, nat_lt, IfErr, IfOk, IsErrOf, OnOk, flat_map}, Io.KnownBytes.{Appends, Keeps}};
ghost use Rattle.nl_table.specs.{History.{logged, table}, Log.{log_of, NotALog, OtherVersion}, declared.loader.LoadFault.{LoadFault}};
ghost use Rattle.nl_versions.specs.VersionOf.{as_five};
ghost use Rattle.nl_tool_texts.specs.{Output.{AppendsPrefixOf}, declared.fault.ToolFault.{ToolFault}};
ghost use Rattle.nl_tool_doubt.specs.Doubts.{IsDoubts, damaged_by, doubt_line, doubted, is_copied, is_file, is_moved, is_there, named_by, why, word_of};

use crate::files::{Looked, OutputFiles, look_all};
use crate::judge::{Doubt, doubt_of};
use crate::moments::Moments;
use nl_distrust::laws::a_whole_log_is_trusted;
use nl_distrust::{distrusted, is_whole};
use nl_fields::{Entry, EntryRef};
use nl_table::{LoadFault, Secret, Table};
use nl_tool_texts::{AllocResult, Part, ToolResult, append_line, write_out};
use nl_versions::{Stamps, lines_version, read_entries};
use std::alloc::Global;
use std::io::Write;

/// An output that can't be trusted, with its last entry.
#[derive(Drop)]
pub struct Doubted {
    pub why: Doubt,
    pub entry: Entry,
}

#[derive(Drop)]
pub struct Doubts {
    /// In the order in which the outputs first appear.
    pub named: Vec<Doubted>,
    /// The number of the log's outputs.
    pub outputs: usize,
    /// The number of outputs whose file isn't missing.
    pub there: usize,
    /// Whether the files were copied, restored or given to another user: their change times didn't count.
    pub copied: bool,
}

/// The log is of whichever version its first line names, and each file is looked at once, in order. If damage counts, an output that a damaged
/// or torn line may be about is damaged, whatever its file says. Names are hashed under a secret.
pub fn doubts_of<F: OutputFiles>(
    alloc: Global,
    secret: Secret,
    damage_counts: bool,
    log: &[u8],
    files: &F,
) -> Result<Doubts, LoadFault>
    ensures value { IfOk result (IsDoubts (damaged_by damage_counts log.now) log.now (F.states files.now)) }
    ensures not_a_log { IsErrOf result LoadFault.NotALog → log_of (as_five log.now) ≡ NotALog }
    ensures other_version { IsErrOf result LoadFault.OtherVersion → log_of (as_five log.now) ≡ OtherVersion }
    ensures read { ¬ IsErrOf result LoadFault.Read }
{
    let lines = read_entries(alloc, log)?;
    let table = table_of(alloc, secret, lines.entries.as_slice())?;
    let damaged = damaged_of(alloc, damage_counts, log, &table)?;
    let moments = Moments::of(alloc, lines.stamps, lines.entries)?;
    let looked = look_all(alloc, &table, files)?;
    let all = looked.as_slice();
    let copied = is_copied(all);
    let named = name_looked(alloc, !copied, lines.stamps, &moments, all, &damaged)?;
    Ok(Doubts {
        named,
        outputs: looked.len(),
        there: all.iter().filter(|it| it.file.is_there()).count(),
        copied,
    })
}

fn damaged_of(alloc: Global, counts: bool, log: &[u8], table: &Table) -> AllocResult<Table>
    ensures value { IfOk result (λ found. found ≡ damaged_by counts log.now table.now) }
{
    if !counts {
        return Ok(Table::new(alloc));
    }
    let version = lines_version(log);
    if is_whole(version, log) {
        a_whole_log_is_trusted();
        return Ok(Table::new(alloc));
    }
    distrusted(alloc, version, log, table)
}

fn table_of(alloc: Global, secret: Secret, entries: &[EntryRef]) -> AllocResult<Table>
    ensures value { IfOk result (λ found. (version : ℕ) → found ≡ table (logged version entries.now)) }
{
    let mut table = Table::with_secret(alloc, secret);
    for entry in entries {
        table.enter(entry)?;
    }
    Ok(table)
}

fn name_looked(
    alloc: Global,
    counts: bool,
    stamps: Stamps,
    moments: &Moments,
    looked: &[Looked],
    damaged: &Table,
) -> AllocResult<Vec<Doubted>>
    ensures value { IfOk result (λ named. named.items ≡ flat_map (named_by damaged.now counts stamps moments.now) looked.now) }
{
    let mut named = Vec::new(alloc);
    for it in looked {
        let why = if damaged.get(it.entry.name()).is_some() {
            Some(Doubt::Damaged)
        } else {
            doubt_of(counts, stamps, moments, it)
        };
        if let Some(why) = why {
            let entry = Entry::of(alloc, &it.entry)?;
            named.push(Doubted { why, entry })?;
        }
    }
    Ok(named)
}

// It is copied if more than half of the files were changed more than a second after they were written.
fn is_copied(looked: &[Looked]) -> bool
    ensures { result ≡ is_copied looked.now }
{
    let files = looked.iter().filter(|it| it.file.is_written()).count();
    let moved = looked.iter().filter(|it| it.file.was_moved()).count();
    files / 2 < moved
}

/// It writes a line for each output, and answers whether there is any.
pub fn write_doubts<W: Write>(alloc: Global, named: &[Doubted], writer: &mut W) -> ToolResult<bool>
    ensures ok { IfOk result (λ any. Appends (W.contents writer.old) (W.contents writer.new) (flat_map doubt_line named.now)
        × (any ≡ nat_lt 0 (length named.now))) }
    ensures prefix { IsErrOf result ToolFault.Write → AppendsPrefixOf (W.contents writer.old) (W.contents writer.new) (flat_map doubt_line named.now) }
    ensures memory { IsErrOf result ToolFault.Memory → Keeps (W.contents writer.old) (W.contents writer.new) }
    ensures faults { IfErr result (λ e. (e ≡ ToolFault.Write) ⊎ (e ≡ ToolFault.Memory)) }
{
    let mut text = Vec::new(alloc);
    for it in named {
        let word = Part::Text(word_of(it.why).as_bytes());
        let name = Part::Text(it.entry.name.bytes());
        append_line(&[word, name], &mut text)?;
    }
    write_out(text.as_slice(), writer)?;
    Ok(!named.is_empty())
}

/// How a line of it begins.
pub(crate) fn word_of(why: Doubt) -> &'static str
    ensures value { result.now ≡ word_of why }
{
    match why {
        Doubt::Damaged => "damaged",
        Doubt::Newer => "newer",
        Doubt::Unsure => "unsure",
        Doubt::Gone => "missing",
        Doubt::Folder => "directory",
        Doubt::NoTime => "no-time",
        Doubt::Untold => "unknown",
    }
}
