//! `doubt`, over LOG or standard input and the files of the outputs, with standard output for its text.
ghost use Rattle.std.specs.Prelude.{◌≡◌, Some, IfErr};
ghost use Rattle.nl_tool_print.specs.Faults.{IsLogFault, RefusesLog};
ghost use Rattle.nl_versions.specs.VersionOf.{as_five};
ghost use Rattle.nl_table.specs.Log.{log_of};
ghost use Rattle.nl_tool.specs.Printed.{DoubtsAt, TellsDoubts};

use crate::desk::{Desk, bytes_in};
use crate::host::{BuildFiles, Host};
use crate::program::Verdict;
use nl_table::Secret;
use nl_tool_doubt::{OutputFiles, doubts_of, write_doubts};
use nl_tool_texts::ToolResult;
use std::alloc::Global;
use std::io::Write;

impl<H: Host, L, W: Write, E> Desk<'_, H, L, W, E> {
    pub fn doubt_in(&mut self, log: Option<&str>) -> ToolResult<Verdict>
        ensures call { DoubtsAt (H.world self.old.host.now) log.entry (W.contents self.old.out) (W.contents self.new.out) result }
        ensures left { self.new.left ≡ self.old.left }
        ensures faults { IfErr result IsLogFault }
    {
        let bytes = bytes_in(self.host, log, true, false, &mut self.notes)?;
        let (host, folder) = (self.host, None);
        let files = BuildFiles { host, folder };
        let (alloc, secret) = (self.notes.alloc, self.notes.secret);
        tell_doubts(alloc, secret, bytes.as_slice(), &files, &mut self.out)
    }
}

fn tell_doubts<F: OutputFiles, W: Write>(
    alloc: Global,
    secret: Secret,
    log: &[u8],
    files: &F,
    writer: &mut W,
) -> ToolResult<Verdict>
    ensures tells { TellsDoubts (F.states files.now) log.now (W.contents writer.old) (W.contents writer.new) result }
    ensures refused { RefusesLog (λ bs. log_of (as_five bs)) (Some log.now) result }
    ensures faults { IfErr result IsLogFault }
{
    let doubts = doubts_of(alloc, secret, false, log, files)?;
    match write_doubts(alloc, doubts.named.as_slice(), writer) {
        Ok(found) => Ok(Verdict::of(found)),
        Err(fault) => Err(fault),
    }
}
