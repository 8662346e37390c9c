//! The words that tell what the builds of a log did, over LOG or standard input, and `compare`, over two logs, with standard output for
//! their text.
ghost use Rattle.std.specs.Prelude.{◌≡◌, ℕ, List, map, Some, IfErr, IfOk, OnOk, is_some};
ghost use Rattle.nl_builds.specs.declared.reading.LogBuilds.{LogBuilds};
ghost use Rattle.nl_tool_texts.specs.{Output.{Prints}, declared.fault.ToolFault.{ToolFault}, Writing.{IsFoundFault, IsWriteFault}};
ghost use Rattle.nl_versions.specs.VersionOf.{as_five};
ghost use Rattle.nl_table.specs.Log.{log_of};
ghost use Rattle.nl_reports.specs.{Compare.{are_comparable, compare_text, side_of}, Jobs.{told}, declared.choice.Scope.{Scope}};
ghost use Rattle.nl_tool.specs.{Faults.{IsBuildFault, IsCompareFault, IsPictureFault, IsReportFault, IsSummaryFault, IsToldFault}, Reports.{AreCounts, IsLaidOut, IsLastOf, IsLeast, IsMost, IsReport, IsReportOf, IsScope, IsSummary, PrintsReport, asked_told, laid_out, rule_of, waiting}};
ghost use Rattle.nl_tool.specs.Printed.{BuildsAt, CompareAt, PictureAt, ReportsAt, SummaryAt, TraceAt};
ghost use Rattle.nl_tool_print.specs.Faults.{IsLogFault, RefusesLog};

use crate::desk::{Desk, Means, bytes_in, graph_in};
use crate::host::Host;
use crate::numbers::{count_of, counts_of, scope_of};
use jiff_tz::{TimeZone, TimeZoneDatabase};
use nl_builds::{Builds, LogBuilds, read_builds};
use nl_reports::{
    ByGraph, Lists, Scope, Side, builds_lines, builds_screen, chosen_jobs, compare_lines,
    draw_builds, graph_lines, lasting, summary_lines, taken_in, trace_builds,
};
use nl_tool_change::NumberOf;
use nl_tool_texts::{
    AllocResult, KindRule, NinjaGraph, ToolFault, ToolResult, in_columns, read_graph, write_out,
};
use nl_tool_words::Choices;
use nl_versions::{Stamps, version_of};
use std::io::Write;

/// What is told of builds.
#[derive(Clone, Copy, Drop)]
pub enum Report<'g, 't> {
    /// At a terminal by the clock of a time zone.
    Builds(Option<TimeZone<'g>>),
    /// With what a graph tells, where there is one.
    Summary(Scope, Lists, Option<ByGraph<'g, 't>>),
    /// As the events of a trace.
    Trace(Scope),
    /// With the critical path outlined, where there is a graph.
    Picture(Scope, Option<&'g NinjaGraph<'t>>),
}

impl<H: Host, L, W: Write, E> Desk<'_, H, L, W, E> {
    pub fn summary_in(&mut self, log: Option<&str>, choices: Choices<'_>) -> ToolResult
        ensures scope { OnOk result ((scope : Scope) × IsScope choices.entry.all choices.entry.build scope) }
        ensures accepts { OnOk result ((most : ℕ) × IsMost choices.entry.lines most) }
        ensures counts { OnOk result ((counts : List ℕ) × AreCounts choices.entry.jobs counts) }
        ensures call { SummaryAt (H.world self.old.host.now) self.old.missing_ok log.entry choices.entry self.old.columns self.new.notes.told.number
            (W.contents self.old.out) (W.contents self.new.out) result }
        ensures left { self.new.left ≡ self.old.left }
        ensures faults { IfErr result (IsSummaryFault choices.entry self.new.notes.told.number) }
    {
        let most = count_of(choices.lines, 10, NumberOf::Lines, &mut self.notes.told)?;
        let scope = scope_of(choices.all, choices.build, &mut self.notes.told)?;
        let counts = counts_of(self.notes.alloc, choices.jobs, &mut self.notes.told)?;
        let lists = Lists {
            screen: self.columns.is_some(),
            most,
            rule: rule_of(choices.kind, self.columns.is_some()),
            secret: self.notes.secret,
        };
        let Some(path) = choices.graph else {
            return self.report_in(Report::Summary(scope, lists, None), log);
        };
        let text = graph_in(self.host, path, &mut self.notes)?;
        let graph = read_graph(self.notes.alloc, lists.secret, text.as_slice())?;
        self.notes.begin(false);
        let by = ByGraph {
            screen: lists.screen,
            graph: &graph,
            counts: counts.as_slice(),
            most,
        };
        self.report_in(Report::Summary(scope, lists, Some(by)), log)
    }

    /// By the time zone of the system, or else by UTC.
    pub fn builds_in(&mut self, log: Option<&str>) -> ToolResult
        ensures call { BuildsAt (H.world self.old.host.now) self.old.missing_ok log.entry self.old.columns (W.contents self.old.out) (W.contents self.new.out) result }
        ensures left { self.new.left ≡ self.old.left }
        ensures faults { IfErr result IsLogFault }
    {
        let columns = self.columns;
        let zones = TimeZoneDatabase::new(self.notes.alloc);
        if columns.is_some() {
            if let Some(system) = self.host.zone() {
                if let Ok(zone) = system.time_zone(&zones) {
                    return self.report_in(Report::Builds(Some(zone)), log);
                }
            }
        }
        let zone = columns.map(|_| TimeZone::UTC);
        self.report_in(Report::Builds(zone), log)
    }

    pub fn trace_in(&mut self, log: Option<&str>, choices: Choices<'_>) -> ToolResult
        ensures scope { OnOk result ((scope : Scope) × IsScope choices.entry.all choices.entry.build scope) }
        ensures call { TraceAt (H.world self.old.host.now) self.old.missing_ok log.entry choices.entry self.old.columns self.new.notes.told.number
            (W.contents self.old.out) (W.contents self.new.out) result }
        ensures left { self.new.left ≡ self.old.left }
        ensures faults { IfErr result (IsBuildFault choices.entry self.new.notes.told.number) }
    {
        let scope = scope_of(choices.all, choices.build, &mut self.notes.told)?;
        self.report_in(Report::Trace(scope), log)
    }

    pub fn picture_in(&mut self, log: Option<&str>, choices: Choices<'_>) -> ToolResult
        ensures scope { OnOk result ((scope : Scope) × IsScope choices.entry.all choices.entry.build scope) }
        ensures call { PictureAt (H.world self.old.host.now) self.old.missing_ok log.entry choices.entry self.old.columns self.new.notes.told.number
            (W.contents self.old.out) (W.contents self.new.out) result }
        ensures left { self.new.left ≡ self.old.left }
        ensures faults { IfErr result (IsPictureFault choices.entry self.new.notes.told.number) }
    {
        let scope = scope_of(choices.all, choices.build, &mut self.notes.told)?;
        let Some(path) = choices.graph else {
            return self.report_in(Report::Picture(scope, None), log);
        };
        let text = graph_in(self.host, path, &mut self.notes)?;
        let graph = read_graph(self.notes.alloc, self.notes.secret, text.as_slice())?;
        self.notes.begin(false);
        self.report_in(Report::Picture(scope, Some(&graph)), log)
    }

    pub fn compare_in(&mut self, old: &str, new: &str, choices: Choices<'_>) -> ToolResult
        ensures accepts { OnOk result ((most : ℕ) × IsMost choices.entry.lines most) }
        ensures least { OnOk result ((ms : ℕ) × IsLeast choices.entry.least ms) }
        ensures call { CompareAt (H.world self.old.host.now) self.old.missing_ok old.entry new.entry choices.entry self.old.columns self.new.notes.told.number
            (W.contents self.old.out) (W.contents self.new.out) result }
        ensures left { self.new.left ≡ self.old.left }
        ensures faults { IfErr result (IsCompareFault choices.entry self.new.notes.told.number) }
    {
        let most = count_of(choices.lines, 10, NumberOf::Lines, &mut self.notes.told)?;
        let ms = count_of(choices.least, 0, NumberOf::Least, &mut self.notes.told)?;
        // Each log is closed before anything else is done.
        let means = self.means();
        let old_text = bytes_in(self.host, Some(old), true, self.missing_ok, &mut self.notes)?;
        let old = last_of(means, old_text.as_slice())?;
        let is_missing = self.notes.is_missing;
        self.notes.begin(true);
        let new_text = bytes_in(self.host, Some(new), true, self.missing_ok, &mut self.notes)?;
        let new = last_of(means, new_text.as_slice())?;
        self.notes.recall(is_missing);
        compare_to(means, most, ms as u64, &old, &new, &mut self.out)
    }

    pub fn report_in(&mut self, report: Report<'_, '_>, log: Option<&str>) -> ToolResult
        ensures call { ReportsAt (H.world self.old.host.now) self.old.missing_ok log.entry self.old.columns report.entry
            (W.contents self.old.out) (W.contents self.new.out) result }
        ensures left { self.new.left ≡ self.old.left }
        ensures faults { IfErr result (IsReportFault report.entry) }
    {
        let text = bytes_in(self.host, log, true, self.missing_ok, &mut self.notes)?;
        let means = self.means();
        let again = &mut self.notes.is_again;
        report_to(means, report, text.as_slice(), &mut self.out, again)
    }
}

pub fn rule_of(kind: Option<&str>, screen: bool) -> KindRule
    ensures value { result ≡ rule_of kind.entry screen }
{
    match kind {
        None if screen => KindRule::Work,
        Some("folder") => KindRule::Folder,
        Some("top") => KindRule::Top,
        Some("work") => KindRule::Work,
        _ => KindRule::Extension,
    }
}

fn report_to<W: Write>(
    means: Means,
    report: Report<'_, '_>,
    text: &[u8],
    writer: &mut W,
    again: &mut bool,
) -> ToolResult
    ensures prints { PrintsReport means.columns report.entry (IsReportOf report.entry text.now)
        (W.contents writer.old) (W.contents writer.new) result }
    ensures refused { RefusesLog (λ bs. log_of (as_five bs)) (Some text.now) result }
    ensures faults { IfErr result (IsReportFault report.entry) }
{
    let log = read_builds(means.alloc, means.secret, text)?;
    tell(means, report, log, writer, again)
}

fn tell<W: Write>(
    means: Means,
    report: Report<'_, '_>,
    log: LogBuilds<'_>,
    writer: &mut W,
    again: &mut bool,
) -> ToolResult
    ensures prints { PrintsReport means.columns report.entry (IsReport report.entry (waiting log.entry) (told log.entry.told))
        (W.contents writer.old) (W.contents writer.new) result }
    ensures faults { IfErr result (IsToldFault report.entry) }
{
    let (stamps, told, unfinished) = (log.stamps, log.told, log.unfinished);
    let names = unfinished.as_slice();
    match report {
        Report::Builds(zone) => {
            *again = taken_in(Scope::All, &told).is_some();
            let lines = match zone {
                Some(zone) => builds_screen(means.alloc, &zone, &told)?,
                None => builds_lines(means.alloc, &told)?,
            };
            write_lines(means, lines, writer)
        }
        Report::Summary(scope, lists, graph) => {
            let asked = asked_builds(means, scope, names, told)?;
            *again = taken_in(scope, &asked).is_some();
            let count = names.len();
            tell_summary(means, scope, lists, graph, stamps, count, &asked, writer)
        }
        Report::Trace(scope) => {
            let asked = asked_builds(means, scope, names, told)?;
            *again = taken_in(scope, &asked).is_some();
            trace_builds(means.alloc, scope, &asked, writer)
        }
        Report::Picture(scope, graph) => {
            let asked = asked_builds(means, scope, names, told)?;
            *again = taken_in(scope, &asked).is_some();
            draw_builds(means.alloc, means.secret, scope, graph, &asked, writer)
        }
    }
}

fn tell_summary<W: Write>(
    means: Means,
    scope: Scope,
    lists: Lists,
    graph: Option<ByGraph<'_, '_>>,
    stamps: Stamps,
    unfinished: usize,
    from: &Builds,
    writer: &mut W,
) -> ToolResult
    ensures prints { Prints (IsLaidOut means.columns (IsSummary scope lists graph.entry unfinished (told from.now)))
        (W.contents writer.old) (W.contents writer.new) result }
    ensures faults { IfErr result (IsFoundFault graph.entry) }
{
    let alloc = means.alloc;
    let mut lines = summary_lines(alloc, scope, lists, unfinished, from)?;
    let Some(by) = graph else {
        return write_lines(means, lines, writer);
    };
    let jobs = chosen_jobs(alloc, scope, from)?;
    let told = graph_lines(alloc, lists.secret, &by, stamps, jobs.as_slice())?;
    let Some(told) = told else {
        return Err(ToolFault::OtherGraph);
    };
    lines.extend_from_slice(told.as_slice())?;
    write_lines(means, lines, writer)
}

fn asked_builds<'a>(
    means: Means,
    scope: Scope,
    names: &[&'a [u8]],
    from: Builds<'a>,
) -> AllocResult<Builds<'a>>
    ensures value { IfOk result (λ asked. told asked ≡ asked_told scope (map (λ n. n.now) names.now) (told from.entry)) }
{
    match scope {
        Scope::All => lasting(means.alloc, means.secret, names, from),
        Scope::Last | Scope::Numbered(_) => Ok(from),
    }
}

fn write_lines<W: Write>(means: Means, lines: Vec<u8>, writer: &mut W) -> ToolResult
    ensures prints { Prints (λ text. text ≡ laid_out means.columns lines.items) (W.contents writer.old) (W.contents writer.new) result }
    ensures faults { IfErr result IsWriteFault }
{
    let Some(most) = means.columns else {
        return write_out(lines.as_slice(), writer);
    };
    let laid = in_columns(means.alloc, most, lines.as_slice())?;
    write_out(laid.as_slice(), writer)
}

fn last_of(means: Means, text: &[u8]) -> ToolResult<Side<'_>>
    ensures value { IfOk result (IsLastOf text.now) }
    ensures refused { RefusesLog (λ bs. log_of (as_five bs)) (Some text.now) result }
    ensures faults { IfErr result IsLogFault }
{
    let log = read_builds(means.alloc, means.secret, text)?;
    let waiting = log.unfinished;
    Ok(Side {
        version: version_of(text),
        told: lasting(means.alloc, means.secret, waiting.as_slice(), log.told)?,
        waiting,
    })
}

fn compare_to<W: Write>(
    means: Means,
    most: usize,
    least: u64,
    old: &Side<'_>,
    new: &Side<'_>,
    writer: &mut W,
) -> ToolResult
    ensures prints { Prints (λ text. text ≡ laid_out means.columns
        (compare_text (is_some means.columns) most least (are_comparable old.now.version new.now.version) (side_of old.now) (side_of new.now)))
        (W.contents writer.old) (W.contents writer.new) result }
    ensures faults { IfErr result IsWriteFault }
{
    let Means { alloc, secret, .. } = means;
    let screen = means.columns.is_some();
    let lines = compare_lines(alloc, secret, screen, most, least, old, new)?;
    write_lines(means, lines, writer)
}
