//! The words that print, over LOG, FILE, SCRIPT or standard input, with standard output for their text.
ghost use Rattle.std.specs.Prelude.{◌≡◌, IfErr, IfOk};
ghost use Rattle.nl_tool_print.specs.Faults.{RefusesLog};
ghost use Rattle.nl_tool.specs.{Answers.{PrintsBy, TellsDamage, reading_by}, Faults.{IsPrintingFault, IsReadingFault}, Printed.{PrintsAt}};

use crate::desk::{Desk, Means, given};
use crate::host::Host;
use crate::notes::NotedReader;
use crate::program::Verdict;
use nl_tool_change::{Told, replay_telling};
use nl_tool_print::{check_log, damage_to, entries_to, hash_for, hash_read, show_log};
use nl_tool_texts::ToolResult;
use nl_versions::LogVersion;
use std::io::{Read, Write};

/// What is printed: `Entries` and `Damage` while the log is read, and all else after it.
#[derive(Clone, Copy, Drop)]
pub enum Printing<'a> {
    Show,
    Check,
    Hash(&'a str),
    HashFile,
    Replay,
    Entries,
    Damage,
}

impl<H: Host, L, W: Write, E> Desk<'_, H, L, W, E> {
    pub fn print_in(&mut self, printing: Printing<'_>, path: Option<&str>) -> ToolResult<Verdict>
        ensures prints { PrintsAt (H.world self.old.host.now) printing.entry self.old.asked self.old.missing_ok path.entry
            (W.contents self.old.out) (W.contents self.new.out) result }
        ensures left { self.new.left ≡ self.old.left }
        ensures faults { IfErr result (IsReadingFault printing.entry) }
        ensures outcome { IfOk result (λ outcome. outcome ≡ Verdict.Found → TellsDamage printing.entry) }
    {
        let missing_ok = match printing {
            // These take a log that is missing for an empty one.
            Printing::Show | Printing::Check => true,
            Printing::Entries | Printing::Damage => self.missing_ok,
            _ => false,
        };
        // What is printed while it reads would stand in the line that tells how far it is.
        let streams = matches!(printing, Printing::Entries | Printing::Damage);
        let tells = !streams && self.notes.screen.errors;
        let reader = given(self.host, path, missing_ok, tells, &mut self.notes)?;
        self.print_from(printing, reader)
    }

    pub fn print_from<S: Read + Drop>(
        &mut self,
        printing: Printing<'_>,
        reader: S,
    ) -> ToolResult<Verdict>
        ensures prints { PrintsBy printing.entry self.old.asked (S.remaining reader) (W.contents self.old.out) (W.contents self.new.out) result }
        ensures refused { RefusesLog (reading_by printing.entry self.old.asked) (S.remaining reader) result }
        ensures left { self.new.left ≡ self.old.left }
        ensures faults { IfErr result (IsPrintingFault printing.entry) }
        ensures outcome { IfOk result (λ outcome. outcome ≡ Verdict.Found → TellsDamage printing.entry) }
    {
        let (means, asked) = (self.means(), self.asked);
        let reader = NotedReader::new(reader, &mut self.notes.heard);
        let told = &mut self.notes.told;
        print_to(means, printing, asked, reader, &mut self.out, told)
    }
}

// A command has no first line that names a version, so its hash is that of version 5 if none is asked for.
fn print_to<R: Read + Drop, W: Write>(
    means: Means,
    printing: Printing<'_>,
    asked: Option<LogVersion>,
    reader: R,
    writer: &mut W,
    told: &mut Told,
) -> ToolResult<Verdict>
    ensures prints { PrintsBy printing.entry asked (R.remaining reader) (W.contents writer.old) (W.contents writer.new) result }
    ensures refused { RefusesLog (reading_by printing.entry asked) (R.remaining reader) result }
    ensures outcome { IfOk result (λ outcome. outcome ≡ Verdict.Found → TellsDamage printing.entry) }
    ensures faults { IfErr result (IsPrintingFault printing.entry) }
{
    let Means { alloc, secret, .. } = means;
    let version = asked.unwrap_or(LogVersion::Five);
    match printing {
        Printing::Show => show_log(alloc, secret, asked, reader, writer)?,
        Printing::Check => check_log(alloc, secret, asked, reader, writer)?,
        Printing::Hash(command) => hash_for(alloc, version, command.as_bytes(), writer)?,
        Printing::HashFile => hash_read(alloc, version, reader, writer)?,
        Printing::Replay => replay_telling(alloc, reader, writer, told)?,
        Printing::Entries => entries_to(alloc, reader, writer)?,
        Printing::Damage => {
            return Ok(Verdict::of(damage_to(alloc, reader, writer)?));
        }
    }
    Ok(Verdict::Done)
}
