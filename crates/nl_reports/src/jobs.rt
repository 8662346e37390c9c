//! What a graph tells of a build: estimates for so many commands at a time, and what is gained if a command took half as long.
ghost use Rattle.std.specs.Prelude.{◌≡◌, ◌≤◌, ◌<◌, ◌^◌, ℕ, map, IfOk, IfSome, IsTrue};
ghost use Rattle.nl_reports.specs.{Found.{IsFound}, Jobs.{seen}, Plans.{AreEstimates, HavePlan, IsToldBy}, Gains.{AreGainsOf}, Spans.{time_of}};
ghost use Rattle.nl_tool_texts.specs.{GraphText.{seen_graph}, declared.graph.NinjaGraph.{NinjaGraph as HeldGraph}};

use crate::critical::{Critical, Ran, Reaches, append_keyed, critical_lines, critical_of};
use crate::job::{Job, spans_of};
use crate::moments::{Span, rising};
use crate::simulation::Waiting;
use nl_table::Secret;
use nl_tool_texts::{
    AllocResult, NinjaGraph, Part, Ranking, append, highest, item_at, put, set_at,
};
use nl_versions::Stamps;
use std::alloc::{AllocError, Global};

/// A graph, the numbers of commands at a time that estimates are asked for, and of how many commands at most it is told what is gained by them.
#[derive(Clone, Copy, Drop)]
pub struct ByGraph<'g, 't> {
    /// Whether a person reads at a terminal.
    pub screen: bool,
    pub graph: &'g NinjaGraph<'t>,
    pub counts: &'g [usize],
    pub most: usize,
}

/// What a graph tells of these commands, which stand in the order of START: the critical path, gains, and the estimates that are asked for. None,
/// where it isn't the graph of this build: it lacks all commands, or no plan is found. Names are hashed under a secret.
pub fn graph_lines(
    alloc: Global,
    secret: Secret,
    by: &ByGraph,
    stamps: Stamps,
    jobs: &[Job],
) -> AllocResult<Option<Vec<u8>>>
    ensures value { IfOk result (IsToldBy by.now.screen (seen_graph by.now.graph.now) by.now.most by.now.counts.now (map seen jobs.now)) }
{
    let Some(found) = critical_of(alloc, secret, by.graph, jobs)? else {
        return Ok(None);
    };
    let mut lines = critical_lines(by.screen, &found, jobs)?;
    let gains = gain_lines(by.screen, by.most, &found, jobs)?;
    lines.extend_from_slice(gains.as_slice())?;
    if by.counts.is_empty() {
        return Ok(Some(lines));
    }
    let Some(estimates) = estimate_lines(by, stamps, &found, jobs)? else {
        return Ok(None);
    };
    lines.extend_from_slice(estimates.as_slice())?;
    Ok(Some(lines))
}

fn estimate_lines(
    by: &ByGraph,
    stamps: Stamps,
    found: &Critical,
    jobs: &[Job],
) -> AllocResult<Option<Vec<u8>>>
    requires small { found.now.total < 2 ^ 127 }
    ensures value { (g : HeldGraph) → IsFound g (map seen jobs.now) found.now → IfOk result (λ o. IfSome o
        (λ lines. AreEstimates by.now.screen (seen_graph g) (map seen jobs.now) by.now.counts.now lines.items)) }
{
    let (screen, path, total) = (by.screen, found.path.length, found.total);
    let waiting = Waiting::of(found, jobs, stamps)?;
    let mut lines = Vec::new(*found.places.allocator());
    if by.counts.len() > 0 && screen {
        append(b"\nEstimates\nJobs\tElapsed\tAt least\n", &mut lines)?;
    }
    for count in by.counts {
        let wall = wall_of(found, &waiting, jobs, *count)?;
        let Some(wall) = wall else {
            return Ok(None);
        };
        if !is_at_bounds(*count, jobs.len(), wall, total, path) {
            return Ok(None);
        }
        let number = *count as u128;
        let floor = path.max((total + (number - 1)) / number);
        let (key, number) = (Part::Text(b"estimate"), Part::Number(number));
        let wall = Part::Took(screen, u128::from(wall));
        let floor = Part::Took(screen, floor);
        append_keyed(screen, &[key, number, wall, floor], &mut lines)?;
    }
    Ok(Some(lines))
}

fn is_at_bounds(count: usize, commands: usize, wall: u64, total: u128, path: u128) -> bool
    ensures some { IsTrue result → 0 < count }
    ensures one { IsTrue result → count ≡ 1 → wall ≡ total }
    ensures enough { IsTrue result → commands ≤ count → wall ≡ path }
{
    let wall = u128::from(wall);
    count > 0 && (count != 1 || wall == total) && (count < commands || wall == path)
}

// How long a plan takes in which so many run at a time; None, if none is found.
fn wall_of(
    found: &Critical,
    waiting: &Waiting,
    jobs: &[Job],
    count: usize,
) -> AllocResult<Option<u64>>
    ensures value { (g : HeldGraph) → IsFound g (map seen jobs.now) found.now
        → IfOk result (λ o. IfSome o (HavePlan (seen_graph g) (map seen jobs.now) count)) }
{
    let alloc = *found.places.allocator();
    let there = waiting.run(jobs, count)?;
    // They run as if each ended as it is there.
    let mut spans = Vec::with_capacity(alloc, jobs.len())?;
    for (place, job) in jobs.iter().enumerate() {
        let began = item_at(&there, place, 0).saturating_sub(job.span.time());
        let ended = began.checked_add(job.span.time()).ok_or(AllocError)?;
        spans.push(Span { began, ended })?;
    }
    let spans = spans.as_slice();
    // Each but the first so many begins when another has ended, by the order of both: no more run at a time.
    let starts = rising(spans.iter().map(|span| span.began).collect(alloc)?);
    let ends = rising(spans.iter().map(|span| span.closed()).collect(alloc)?);
    for end in 0..ends.len() {
        let at = end.saturating_add(count);
        if at < starts.len() && starts[at] < ends[end] {
            return Ok(None);
        }
    }
    let wall = spans
        .iter()
        .fold(0, |last: u64, span: &Span| last.max(span.ended));
    let moments = waiting.parts.iter().map(|part| item_at(&there, *part, 0));
    let left = moments.map(|at| wall.saturating_sub(at));
    let reaches = Reaches {
        graph: found.graph,
        places: found.places.as_slice(),
        spans,
        behind: left.collect(alloc)?,
    };
    if reaches.are_tight() && reaches.are_begun(wall) {
        return Ok(Some(wall));
    }
    Ok(None)
}

/// For so many commands of the critical path, those that took the longest, how much shorter it is if one of them took half.
pub(crate) fn gain_lines(
    screen: bool,
    most: usize,
    found: &Critical,
    jobs: &[Job],
) -> AllocResult<Vec<u8>>
    ensures value { (g : HeldGraph) → IsFound g (map seen jobs.now) found.now
        → IfOk result (λ lines. AreGainsOf screen (seen_graph g) (map seen jobs.now) most lines.items) }
{
    let alloc = *found.places.allocator();
    let longest = highest(alloc, &ByTime, most, found.path.commands.as_slice())?;
    let mut lines = Vec::new(alloc);
    if screen && most > 0 {
        put!(&mut lines; b"\nSaved if a command took half\nSaved\tOutput\n")?;
    }
    for i in 0..longest.len() {
        let ran = &longest[i];
        let mut spans = spans_of(alloc, jobs)?;
        let span = item_at(&spans, ran.place, ran.span);
        let ended = span.began + span.time() / 2;
        set_at(&mut spans, ran.place, Span { ended, ..span });
        let half = Reaches::of(found.graph, &found.places, spans.as_slice())?.path()?;
        let gain = Part::Took(screen, found.path.length.saturating_sub(half.length));
        let (key, name) = (Part::Text(b"gain"), Part::Text(ran.name));
        append_keyed(screen, &[key, gain, name], &mut lines)?;
    }
    Ok(lines)
}

struct ByTime;

impl<'a> Ranking<Ran<'a>> for ByTime {
    ghost rank = { λ by ran. time_of ran.span };

    fn rank(&self, ran: &Ran<'a>) -> u128 {
        u128::from(ran.span.time())
    }
}
