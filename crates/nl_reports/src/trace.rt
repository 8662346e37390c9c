//! The text of `trace`: the events of builds, as JSON.
ghost use Rattle.std.specs.Prelude.{◌≡◌, ◌<◌, ◌^◌, ◌++◌, List, IfErr, OnOk, All, ◌∷◌, IsTrue, map};
ghost use Rattle.nl_reports.specs.{Jobs.{seen, told}, Spans.{IsEarly}, Sweep.{running}, declared.moments.Span.{Span}, Trace.{build_in, scoped_text}, Events.{build_event, command_event, event_text, running_event, shown}};
ghost use Rattle.nl_tool_texts.specs.{Writing.{IsWriteFault, Writes}, Escape.{IsBare}};

use crate::choice::{Choice, Scope, chosen, jobs_in_turn};
use crate::job::{Job, spans_of};
use crate::lanes::lanes_of;
use crate::moments::{Moments, Near, Span};
use crate::summary::most_taken;
use json::Writer;
use nl_builds::{Builds, How};
use nl_fields::append_hex64;
use nl_tool_texts::{
    AllocResult, Part, ToolResult, append, append_with, between, is_bare, item_at, put, write_full,
    write_out,
};
use std::alloc::Global;
use std::io::Write;

// So many bytes of a text are held before they are written.
pub(crate) const FULL: usize = 16_384;

/// Writes what builds did, one after another on one clock, as the events of a trace: a JSON array. Each command has a lane, in which no other
/// runs as it does, and its outputs, and tells how many run as it begins and as it has ended. Where memory is refused, a part of the text may stand.
#[tactic(auto, using(crate::proofs::TraceLemmas::none_told))]
pub fn trace_builds<W: Write>(
    alloc: Global,
    scope: Scope,
    from: &Builds,
    writer: &mut W,
) -> ToolResult
    ensures writes { Writes (W.contents writer.old) (W.contents writer.new) (scoped_text scope (told from.now)) result }
    ensures faults { IfErr result IsWriteFault }
{
    let jobs = jobs_in_turn(alloc, scope, from)?;
    let jobs = jobs.as_slice();
    let spans = spans_of(alloc, jobs)?;
    let lanes = lanes_of(alloc, spans.as_slice())?;
    let lanes = lanes.as_slice();
    let moments = Moments::of(alloc, spans.as_slice())?;
    let Some(build) = build_in(scope, from, spans.as_slice()) else {
        return write_out(b"[]", writer);
    };
    let mut held = Vec::from_slice(alloc, b"[")?;
    append_build(build, &mut held)?;
    let (mut by_start, mut by_end) = (Near::default(), Near::default());
    for i in 0..jobs.len() {
        let lane = item_at(lanes, i, 0);
        let job = &jobs[i];
        append_command(build, lane, job, &mut held)?;
        let begun = moments.running_near(&mut by_start, job.span.began);
        append_running(build, begun, job.span.began, &mut held)?;
        let ended = moments.running_near(&mut by_end, job.span.closed());
        append_running(build, ended, job.span.closed(), &mut held)?;
        write_full(FULL, &mut held, writer)?;
    }
    append(b"]", &mut held)?;
    write_out(held.as_slice(), writer)
}

/// The builds that a trace is of: their number, which is 0 of all, when they began, and how they are known.
#[derive(Clone, Copy, Drop)]
pub(crate) struct BuildEvent {
    pub number: u64,
    pub began: u64,
    pub how: How,
}

// None, where there is no such build. The commands stand in the order of START.
fn build_in(scope: Scope, from: &Builds, spans: &[Span]) -> Option<BuildEvent>
    ensures { result ≡ build_in scope (told from.now) spans.now }
{
    let Choice { first, last } = chosen(scope, from)?;
    let builds = between(first.saturating_sub(1), last, from.builds.as_slice());
    if builds.is_empty() {
        return None;
    }
    Some(BuildEvent {
        number: match scope {
            Scope::Last | Scope::Numbered(_) => last as u64,
            Scope::All => 0,
        },
        began: spans.first().map_or(0, |first| first.began),
        how: most_taken(builds).map_or(How::AsWritten, |taken| How::FoundAgain { taken }),
    })
}

/// Appends the name of a build, which says whether it was found again, and how many of its outputs later builds may have taken.
fn append_build(build: BuildEvent, out: &mut Vec<u8>) -> AllocResult
    ensures items { OnOk result (out.new.items ≡ out.old.items ++ event_text (build_event build)) }
{
    append(b"{\"args\":{\"name\":\"", out)?;
    if build.number == 0 {
        append(b"all builds", out)?;
    } else {
        append_with(b"build ", build.number, out)?;
    }
    match build.how {
        How::AsWritten => append(b"\",\"rewritten\":false", out)?,
        How::FoundAgain { taken } =>
            put!(out; b", found again\",\"rewritten\":true,\"taken\":" {taken})?,
    }
    put!(out; b"},\"name\":\"process_name\",\"ph\":\"M\",\"pid\":" {build.number} b"}")
}

/// Appends a command in a lane, after a comma.
fn append_command(build: BuildEvent, lane: u64, job: &Job, out: &mut Vec<u8>) -> AllocResult
    requires early { IsEarly job.now.span }
    requires lane { lane < 2 ^ 63 }
    ensures items { OnOk result (out.new.items ≡ out.old.items ++ 44 ∷ event_text (command_event build lane (seen job.now))) }
{
    let name = job.name();
    let is_first_bare = is_bare(name);
    append(b",{\"args\":{\"hash\":\"", out)?;
    append_hex64(job.hash, out)?;
    append(b"\",\"outputs\":[", out)?;
    let mut comma: &[u8] = b"";
    for entry in job.outputs {
        append(comma, out)?;
        let is_bare = comma.is_empty() && is_first_bare || is_bare(entry.name());
        append_shown(is_bare, entry.name(), out)?;
        comma = b",";
    }
    append_with(b"]},\"dur\":", job.span.time() * 1000, out)?;
    append(b",\"name\":", out)?;
    append_shown(is_first_bare, name, out)?;
    append_with(b",\"ph\":\"X\",\"pid\":", build.number, out)?;
    append_with(b",\"tid\":", lane + 1, out)?;
    let ts = job.span.began.saturating_sub(build.began) * 1000;
    append_with(b",\"ts\":", ts, out)?;
    append(b"}", out)
}

// A name as JSON, with U+FFFD for what isn't UTF-8.
fn append_shown(is_bare: bool, name: &[u8], out: &mut Vec<u8>) -> AllocResult
    requires bare { IsTrue is_bare → All IsBare name.now }
    ensures items { OnOk result (out.new.items ≡ out.old.items ++ event_text (shown name.now)) }
{
    if is_bare {
        return put!(out; b"\"" [Part::Text(name)] b"\"");
    }
    let alloc = *out.allocator();
    let text = String::from_utf8_lossy(alloc, name)?;
    let mut json = Writer::new(Vec::new(alloc));
    json.string(text.as_str())?;
    append(json.into_inner().as_slice(), out)
}

/// Appends how many commands run at a moment, after a comma.
fn append_running(build: BuildEvent, count: u64, at: u64, out: &mut Vec<u8>) -> AllocResult
    requires early { at < 2 ^ 32 }
    ensures items { (cs : List Span) → count ≡ running cs at → OnOk result
        (out.new.items ≡ out.old.items ++ 44 ∷ event_text (running_event build cs at)) }
{
    let number = build.number;
    append_with(b",{\"args\":{\"commands\":", count, out)?;
    append_with(b"},\"name\":\"running\",\"ph\":\"C\",\"pid\":", number, out)?;
    append_with(b",\"ts\":", at.saturating_sub(build.began) * 1000, out)?;
    append(b"}", out)
}
