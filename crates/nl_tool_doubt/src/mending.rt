//! What `mend` makes of the log in a folder, and what it says, over any files of the outputs and any writer.
ghost use Rattle.std.specs.Prelude.{◌≡◌, ◌++◌, true, false, Ok, IfErr, IfOk, OnOk};
ghost use Rattle.nl_folder.specs.FolderView.{folder_view};
ghost use Rattle.nl_tool_change.specs.{Faults.{IsRecordFault}, Mending.{MendsLogAs}};
ghost use Rattle.nl_versions.specs.VersionOf.{version_of};
ghost use Rattle.nl_tool_doubt.specs.Mending.{EndsBy, FindsDoubts, IsIn, IsMendFault, IsSaid, Mends, MendsFolder, cause_of, is_elsewhere};

use crate::doubts::{Doubted, Doubts, doubts_of, word_of};
use crate::files::OutputFiles;
use crate::judge::Doubt;
use crate::settling::{Due, Finds, settle};
use nl_distrust::is_whole;
use nl_fields::{Name, is_intent};
use nl_folder::Folder;
use nl_table::Secret;
use nl_tool_change::AskedFolder;
use nl_tool_texts::{AllocResult, Part, ToolFault, ToolResult, append_line, write_out};
use nl_versions::{lines_version, version_of};
use std::alloc::Global;
use std::io::Write;

#[derive(Clone, Copy, Drop)]
pub struct How {
    /// Nothing is changed.
    pub dry_run: bool,
    /// Outputs that may be well are made anew, too.
    pub all: bool,
    /// A last line says what was done.
    pub at_terminal: bool,
}

#[derive(Clone, Copy, Drop)]
pub struct Mended {
    /// Whether an output was told of.
    pub is_told: bool,
    pub outputs: usize,
    /// The number of outputs that have a file.
    pub there: usize,
}

#[derive(Drop)]
struct Mending {
    alloc: Global,
    secret: Secret,
    how: How,
    text: Vec<u8>,
    mended: Mended,
}

impl Finds for Mending {
    ghost finds = { λ word states from to left. FindsDoubts word.how states from to left.text.items left.mended };

    fn find<F: OutputFiles, W: Write>(
        &mut self,
        log: &[u8],
        files: &F,
        _writer: &mut W,
    ) -> ToolResult<Due> {
        let doubts = doubts_of(self.alloc, self.secret, true, log, files)?;
        if is_elsewhere(&doubts) {
            return Err(ToolFault::Elsewhere);
        }
        let said = said_of(self.alloc, log, &doubts, self.how)?;
        self.mended = Mended {
            is_told: said.is_told,
            outputs: doubts.outputs,
            there: doubts.there,
        };
        self.text = said.text;
        if said.is_due {
            Ok(Due::Mend(version_of(log), said.names))
        } else {
            Ok(Due::Nothing)
        }
    }
}

/// It mends the log, and then writes a line for each output that can't be trusted. Names are hashed under a secret.
pub fn mend_to<D: Folder, F: OutputFiles, W: Write>(
    alloc: Global,
    secret: Secret,
    folder: D,
    files: &F,
    how: How,
    writer: &mut W,
) -> (D, ToolResult<Mended>)
    ensures call { MendsFolder (F.states files.now) how (W.contents writer.old) (W.contents
        writer.new) result.1 (folder_view D.Folder folder) (folder_view D.Folder result.0) }
    ensures faults { IfErr result.1 IsMendFault }
{
    let mut word = Mending {
        alloc,
        secret,
        how,
        text: Vec::new(alloc),
        mended: Mended {
            is_told: false,
            outputs: 0,
            there: 0,
        },
    };
    let place = AskedFolder {
        secret,
        asked: None,
        folder,
    };
    let (place, made) = settle(alloc, place, files, writer, &mut word);
    match made {
        // It comes after the change, because a change that failed must not be told as done.
        Ok(_) => {
            let written = write_out(word.text.as_slice(), writer);
            (place.folder, written.and(Ok(word.mended)))
        }
        Err(fault) => (place.folder, Err(fault)),
    }
}

fn is_elsewhere(doubts: &Doubts) -> bool
    ensures { result ≡ is_elsewhere doubts.now }
{
    doubts.there == 0 && doubts.outputs != 0
}

#[derive(Drop)]
struct Said {
    text: Vec<u8>,
    is_told: bool,
    // The outputs that are made anew.
    names: Vec<Name>,
    is_due: bool,
}

fn said_of(alloc: Global, log: &[u8], doubts: &Doubts, how: How) -> AllocResult<Said>
    ensures value { IfOk result (IsSaid how log.now doubts.now.named.items) }
{
    let mut text = Vec::new(alloc);
    let mut names = Vec::new(alloc);
    let named = doubts.named.as_slice();
    for it in named {
        let Some(cause) = cause_of(it) else {
            continue;
        };
        let word = Part::Text(word_of(cause).as_bytes());
        let name = Part::Text(it.entry.name.bytes());
        append_line(&[word, name], &mut text)?;
        if how.all || !matches!(cause, Doubt::Unsure) {
            names.push(it.entry.name.copy(alloc)?)?;
        }
    }
    let is_told = !text.is_empty();
    let is_due = !how.dry_run && (!names.is_empty() || !is_whole(lines_version(log), log));
    // A terminal is told what was done, unless nothing was told of or done.
    if how.at_terminal && (is_told || is_due) {
        let taken = names.len();
        let outputs = if taken == 1 { "output" } else { "outputs" };
        let will = if how.dry_run { "would" } else { "will" };
        let done = if is_due {
            "was repaired"
        } else {
            "is as it was"
        };
        let line = format!(in alloc; "{taken} {outputs} {will} be built again; LOG {done}\n")?;
        text.extend_from_slice(line.as_bytes())?;
    }
    Ok(Said {
        text,
        is_told,
        names,
        is_due,
    })
}

// No command passes for an entry that has the form of an intent, and no file is trusted that is missing.
fn cause_of(it: &Doubted) -> Option<Doubt>
    ensures { result ≡ cause_of it.now }
{
    if is_intent(&it.entry.view()) {
        return None;
    }
    match it.why {
        Doubt::Damaged | Doubt::Newer => Some(it.why),
        Doubt::Unsure | Doubt::Folder | Doubt::NoTime | Doubt::Untold => Some(Doubt::Unsure),
        Doubt::Gone => None,
    }
}
