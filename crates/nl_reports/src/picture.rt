//! The text of `picture`: builds as SVG.
ghost use Rattle.std.specs.Prelude.{◌≡◌, ℕ, ◌<◌, ◌+◌, ◌^◌, ◌++◌, ◌*◌, ◌/◌, Some, map, max, option_map, replicate, IfErr, IfOk, OnOk, All};
ghost use Rattle.nl_reports.specs.{Bars.{no_short}, Frame.{IsFrame}, Jobs.{seen, told}, Picture.{IsPicture, bars, end, known_in, legend_text, longest, outlined, picture, start}, Reaches.{rans_of}, Spans.{IsEarly, time_of}};
ghost use Rattle.nl_tool_texts.specs.{GraphText.{seen_graph}, Writing.{IsFoundFault, IsWriteFault, PrintsInPieces, Writes}, Work.{place, word}};

use crate::choice::{LAST, Scope, chosen, jobs_in_turn};
use crate::critical::{FoundPath, critical_of};
use crate::frame::{Frame, Short, append_bar, append_curve, append_short, append_ticks};
use crate::job::{Job, spans_of};
use crate::kinds::Times;
use crate::lanes::lanes_of;
use crate::moments::Moments;
use crate::summary::taken_in;
use crate::trace::FULL;
use nl_builds::Builds;
use nl_table::Secret;
use nl_tool_texts::{
    AllocResult, NinjaGraph, Part, Ranking, ToolFault, ToolResult, Work, append, append_label,
    highest, item_at, place, put, word, write_full, write_out,
};
use std::alloc::Global;
use std::io::Write;

const LISTED: u64 = 10;

const STYLE: &[u8] =
    b"</title>\n<style>svg{fill:#222;background:#fff}.p{fill:#fff}.m{fill:#666}.g{stroke:#ddd;stroke-width:10}.q{fill:#cfd8e3}.t{fill:#111}.t text{pointer-events:none}.k0{fill:#56b4e9}.k1{fill:#e69f00}.k2{fill:#f0e442}.k3{fill:#009e73}.k4{fill:#cc79a7}.k5{fill:#bbb}@media(prefers-color-scheme:dark){svg{fill:#eee;background:#1b1b1b}.p{fill:#1b1b1b}.m{fill:#aaa}.g{stroke:#444}.q{fill:#3b4656}}</style>\n<rect class=\"p\" width=\"100%\" height=\"100%\"/>\n<text x=\"1000\" y=\"380\" font-size=\"220\">";

// An outline for the commands of a critical path, and what it is called.
const OUTLINED: &[u8] =
    b"<style>.c{fill:none;stroke:#d00000;stroke-width:30;pointer-events:none}@media(prefers-color-scheme:dark){.c{stroke:#ff6b6b}}</style>\n<rect class=\"c\" x=\"11800\" y=\"540\" width=\"140\" height=\"140\"/><text x=\"12000\" y=\"655\">critical path</text>\n";

/// Writes a picture of builds, one after another on one clock: each command is a bar in a lane, in which no other runs as it does, with its
/// name where there is room, and its first output, how many more it has, and its time as a title. Commands too short for a bar have one together,
/// by lane and pixel. By a graph, the critical path has an outline. Above is the part of each kind, below the curve of how many run and the longest
/// commands. A line says if a build was found again. Where memory is refused, a part of the text may stand. Names are hashed under a secret.
pub fn draw_builds<W: Write>(
    alloc: Global,
    secret: Secret,
    scope: Scope,
    graph: Option<&NinjaGraph>,
    from: &Builds,
    writer: &mut W,
) -> ToolResult
    ensures prints { PrintsInPieces (IsPicture scope (option_map (λ g. seen_graph g.now) graph.entry) (told from.now))
        (W.contents writer.old) (W.contents writer.new) result }
    ensures faults { IfErr result (IsFoundFault graph.entry) }
{
    let jobs = jobs_in_turn(alloc, scope, from)?;
    let jobs = jobs.as_slice();
    let Some(graph) = graph else {
        return write_jobs(alloc, scope, from, None, jobs, writer);
    };
    let Some(found) = critical_of(alloc, secret, graph, jobs)? else {
        return Err(ToolFault::OtherGraph);
    };
    write_jobs(alloc, scope, from, Some(&found.path), jobs, writer)
}

#[tactic(auto, using(crate::proofs::DrawLemmas::none_drawn))]
fn write_jobs<W: Write>(
    alloc: Global,
    scope: Scope,
    from: &Builds,
    path: Option<&FoundPath>,
    jobs: &[Job],
    writer: &mut W,
) -> ToolResult
    requires early { All (λ j. IsEarly j.span) jobs.now }
    ensures writes { Writes (W.contents writer.old) (W.contents writer.new) (picture (known_in scope (told from.now)) (rans_of path.entry) (map seen jobs.now)) result }
    ensures faults { IfErr result IsWriteFault }
{
    let spans = spans_of(alloc, jobs)?;
    let lanes = lanes_of(alloc, spans.as_slice())?;
    let moments = Moments::of(alloc, spans.as_slice())?;
    let frame = Frame::of(spans.as_slice(), lanes.as_slice());
    let lanes = lanes.as_slice();
    let mut held = Vec::new(alloc);
    append_start(&frame, scope, from, jobs, &mut held)?;
    let mut shorts = Vec::new(alloc);
    shorts.resize(frame.top as usize, Short::default())?;
    shorts.push(Short::default()).or(Err(ToolFault::Memory))?;
    for i in 0..jobs.len() {
        append_bar(&frame, &jobs[i], lanes[i], &mut shorts, &mut held)?;
        write_full(FULL, &mut held, writer)?;
    }
    // The bars of short commands that aren't drawn yet, lane by lane.
    let shorts = shorts.as_slice();
    for lane in 0..shorts.len() {
        append_short(&frame, lane as u64, shorts[lane], &mut held)?;
        write_full(FULL, &mut held, writer)?;
    }
    append(b"</g>\n", &mut held)?;
    append_curve(&frame, &moments, &mut held)?;
    append_outlined(&frame, lanes, path, &mut held)?;
    append_longest(&frame, jobs, &mut held)?;
    write_out(held.as_slice(), writer)
}

fn append_start(
    frame: &Frame,
    scope: Scope,
    from: &Builds,
    jobs: &[Job],
    out: &mut Vec<u8>,
) -> AllocResult
    requires early { All (λ j. IsEarly j.span) jobs.now }
    requires frame { IsFrame frame.now }
    ensures items { OnOk result (out.new.items ≡ out.old.items ++ start frame.now (known_in scope (told from.now)) (map seen jobs.now)) }
{
    let times = Times::of(jobs);
    let total = times.total();
    let commands = jobs.len() as u64;
    let tenths = total * 10 / u128::from(frame.wall.max(1));
    let s: &[u8] = if commands == 1 { b"" } else { b"s" };
    let mut name = Vec::new(*out.allocator());
    put!(&mut name; {commands} b" command" [Part::Text(s)] b" in " [Part::Time(frame.wall)] b", " {tenths / 10} b"."
        {tenths % 10} b" at a time")?;
    let name = Part::Text(name.as_slice());
    let height = frame.line_at(commands.min(LISTED) + 1);
    put!(out; b"<svg xmlns=\"http://www.w3.org/2000/svg\" width=\"1600\" height=\"" {height / 10}
        b"\" viewBox=\"0 0 16000 " {height}
        b"\" role=\"img\" aria-labelledby=\"t\" font-family=\"sans-serif\" font-size=\"120\">\n<title id=\"t\">"
        [name] [Part::Text(STYLE)] [name] b"</text>\n")?;
    append_known(scope, from, out)?;
    append_kind(total, times.by_place[0], Work::Compile, out)?;
    append_kind(total, times.by_place[1], Work::Link, out)?;
    append_kind(total, times.by_place[2], Work::Archive, out)?;
    append_kind(total, times.by_place[3], Work::Generate, out)?;
    append_kind(total, times.by_place[4], Work::Test, out)?;
    append_kind(total, times.by_place[5], Work::Other, out)?;
    append_ticks(frame, out)?;
    append(b"<g class=\"t\" font-size=\"110\">\n", out)
}

fn append_outlined(
    frame: &Frame,
    lanes: &[u64],
    path: Option<&FoundPath>,
    out: &mut Vec<u8>,
) -> AllocResult
    ensures items { OnOk result (out.new.items ≡ out.old.items ++ outlined frame.now lanes.now (rans_of path.entry)) }
{
    let Some(found) = path else {
        return Ok(());
    };
    append(OUTLINED, out)?;
    let commands = found.commands.as_slice();
    for ran in commands {
        let x = frame.x_at(ran.span.began.min(LAST));
        let end = frame.x_at(ran.span.closed().min(LAST));
        put!(out; b"<rect class=\"c\" x=\"" {x} b"\" y=\"" {frame.y_at(item_at(lanes, ran.place, 0))}
            b"\" width=\"" {end.saturating_sub(x).max(10)} b"\" height=\"" {frame.height()} b"\"/>\n")?;
    }
    Ok(())
}

fn append_known(scope: Scope, from: &Builds, out: &mut Vec<u8>) -> AllocResult
    ensures items { OnOk result (out.new.items ≡ out.old.items ++ known_in scope (told from.now)) }
{
    let builds = from.builds.len();
    match (scope, chosen(scope, from), taken_in(scope, from)) {
        (_, None, _) => put!(out;
            b"<text class=\"m\" x=\"15400\" y=\"380\" text-anchor=\"end\">no such build; builds: "
            {builds} b"</text>\n"),
        (_, Some(_), None) => Ok(()),
        (Scope::All, Some(_), Some(_)) => put!(out;
            b"<text class=\"m\" x=\"15400\" y=\"380\" text-anchor=\"end\">builds were found again</text>\n"),
        (Scope::Last | Scope::Numbered(_), Some(_), Some(taken)) => put!(out;
            b"<text class=\"m\" x=\"15400\" y=\"380\" text-anchor=\"end\">found again: later builds may have taken "
            {taken} b" of its outputs</text>\n"),
    }
}

// The part of the time is in parts of a hundred, rounded down.
fn append_kind(total: u128, time: u128, work: Work, out: &mut Vec<u8>) -> AllocResult
    requires room { time < 2 ^ 120 }
    ensures items { OnOk result (out.new.items ≡ out.old.items ++ legend_text (place work) (word work) (time * 100 / max 1 total)) }
{
    let kind = u128::from(place(work));
    let x = 1000 + kind * 1800;
    put!(out; b"<rect class=\"k" {kind} b"\" x=\"" {x}
        b"\" y=\"540\" width=\"140\" height=\"140\"/><text x=\"" {x + 200} b"\" y=\"655\">"
        [Part::Text(word(work))] b" " {time * 100 / total.max(1)} b" %</text>\n")
}

fn append_longest(frame: &Frame, jobs: &[Job], out: &mut Vec<u8>) -> AllocResult
    requires early { All (λ j. IsEarly j.span) jobs.now }
    ensures items { OnOk result (out.new.items ≡ out.old.items ++ longest frame.now (map seen jobs.now)) }
{
    let kept = highest(*out.allocator(), &ByTime, LISTED as usize, jobs)?;
    put!(out; b"<text x=\"1000\" y=\"" {frame.line_at(0)}
        b"\">The commands that took the longest:</text>\n")?;
    for i in 0..kept.len() {
        let job = &kept[i];
        let y = frame.line_at(i as u64 + 1);
        put!(out; b"<text x=\"1900\" y=\"" {y} b"\" text-anchor=\"end\">" [Part::Time(job.span.time())]
            b"</text><text x=\"2050\" y=\"" {y} b"\">")?;
        append_label(*out.allocator(), job.name(), out)?;
        append(b"</text>\n", out)?;
    }
    append(b"</svg>\n", out)
}

struct ByTime;

impl<'s, 'a> Ranking<Job<'s, 'a>> for ByTime {
    ghost rank = { λ by job. time_of job.span };

    fn rank(&self, job: &Job<'s, 'a>) -> u128 {
        u128::from(job.span.time())
    }
}
