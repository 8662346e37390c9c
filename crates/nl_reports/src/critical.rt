//! What `summary` tells of the critical path.
ghost use Rattle.std.specs.Prelude.{◌≡◌, ◌<◌, ◌++◌, ℕ, List, Some, IfOk, IsTrue, OnOk, get_or, length, map, option_map, All};
ghost use Rattle.nl_reports.specs.{Critical.{IsCritical, IsFoundPath, keyed_line, took_time}, Found.{AreFound, IsFound}, Jobs.{Job as SeenJob, seen}, Outputs.{HoldPlaces, places_of}, Reaches.{AreOf, IsBegun, IsTight, far_at, ran_in, ran_seen, IsOver, place_named_in, place_seen}};
ghost use Rattle.nl_tool_texts.specs.{GraphText.{HeldNode, seen_graph}, Texts.{part_text}, declared.graph.NinjaGraph.{NinjaGraph as HeldGraph}};

use crate::job::{Job, spans_of};
use crate::last_entries::{Outputs, any_named, outputs_of};
use crate::moments::Span;
use indexmap::IndexSet;
use nl_table::{NameKey, Secret};
use nl_tool_texts::{AllocResult, BEGINNING, NinjaGraph, Part, append_line, item_at, put};
use std::alloc::{AllocError, Global};

/// When the command ran whose output is a node, the node's name, and the place of the command.
#[derive(Clone, Copy, Drop)]
pub(crate) struct Ran<'a> {
    pub(crate) span: Span,
    pub(crate) name: &'a [u8],
    pub(crate) place: usize,
}

/// The name of a node, and the place of the command that makes it.
pub(crate) type Place<'a> = Option<(&'a [u8], usize)>;

/// What a graph tells of commands that it doesn't all lack.
#[derive(Drop)]
pub(crate) struct Critical<'g, 'a> {
    pub(crate) graph: &'g NinjaGraph<'a>,
    /// Of each node.
    pub(crate) places: Vec<Place<'a>>,
    pub(crate) path: FoundPath<'a>,
    /// The sum of the times of the commands.
    pub(crate) total: u128,
    lacking: usize,
    lacking_time: u128,
}

/// None, where the graph lacks all commands: then it isn't this build's. Names are hashed under a secret.
pub(crate) fn critical_of<'g, 'a>(
    alloc: Global,
    secret: Secret,
    graph: &'g NinjaGraph<'a>,
    jobs: &[Job],
) -> AllocResult<Option<Critical<'g, 'a>>>
    ensures value { IfOk result (AreFound graph.now (map seen jobs.now)) }
{
    let outputs = outputs_of(alloc, secret, jobs)?;
    let mut names = IndexSet::with_hasher(alloc, secret);
    let mut places = Vec::new(alloc);
    for node in 0..graph.nodes.len() {
        let name = name_at(graph, node);
        if let Some(name) = name {
            names.insert(NameKey { bytes: name })?;
        }
        places.push(place_of(name, &outputs))?;
    }
    let (mut total, mut lacking, mut lacking_time) = (0, 0, 0);
    for job in jobs {
        let time = u128::from(job.span.time());
        total += time;
        if !any_named(&names, job.outputs) {
            lacking += 1;
            lacking_time += time;
        }
    }
    if lacking == jobs.len() && !jobs.is_empty() {
        return Ok(None);
    }
    let spans = spans_of(alloc, jobs)?;
    let path = Reaches::of(graph, places.as_slice(), spans.as_slice())?.path()?;
    Ok(Some(Critical {
        graph,
        places,
        path,
        total,
        lacking,
        lacking_time,
    }))
}

/// How long the critical path is, its commands in order, and how many commands the graph lacks; nothing, where there is no command.
pub(crate) fn critical_lines(screen: bool, found: &Critical, jobs: &[Job]) -> AllocResult<Vec<u8>>
    ensures value { (g : HeldGraph) → IsFound g (map seen jobs.now) found.now
        → IfOk result (λ lines. IsCritical screen (seen_graph g) (map seen jobs.now) (Some lines)) }
{
    let alloc = *found.path.commands.allocator();
    if jobs.is_empty() {
        return Ok(Vec::new(alloc));
    }
    let mut lines = Vec::new(alloc);
    let length = found.path.length;
    if screen {
        put!(&mut lines; b"\nCritical path: " [Part::Took(true, length)] b"\nTime\tWaited\tBegan\tOutput\n")?;
    } else {
        put!(&mut lines; b"critical-path\t" [Part::Number(length)] b"\n")?;
    }
    // When the command before it on the path ended.
    let mut before = BEGINNING;
    for ran in found.path.commands.as_slice() {
        let time = Part::Took(screen, u128::from(ran.span.time()));
        let waited = Part::Took(screen, u128::from(ran.span.began.saturating_sub(before)));
        let began = Part::Moment(screen, ran.span.began);
        let ended = Part::Moment(screen, ran.span.ended);
        let name = Part::Text(ran.name);
        if screen {
            append_line(&[time, waited, began, name], &mut lines)?;
        } else {
            put!(&mut lines; b"on-path\t" [time] b"\t" [began] b"\t" [ended] b"\t" [name] b"\n")?;
        }
        before = ran.span.ended;
    }
    if found.lacking == 0 {
        return Ok(lines);
    }
    let count = Part::Number(found.lacking as u128);
    let time = Part::Took(screen, found.lacking_time);
    if screen {
        put!(&mut lines; b"Commands that the graph lacks: " [count] b" (" [time] b")\n")?;
    } else {
        append_line(&[Part::Text(b"not-in-graph"), count, time], &mut lines)?;
    }
    Ok(lines)
}

fn name_at<'a>(graph: &NinjaGraph<'a>, node: usize) -> Option<&'a [u8]>
    ensures value { (d : HeldNode) → node < length graph.now.nodes.entries → result ≡ (get_or graph.now.nodes.entries node d).1 }
{
    let (_, name) = graph.nodes.get_index(node)?;
    *name
}

fn place_of<'a>(name: Option<&'a [u8]>, outputs: &Outputs) -> Place<'a>
    ensures value { (js : List SeenJob) → HoldPlaces (places_of js) outputs.now.entries
        → option_map place_seen result ≡ place_named_in js name.entry }
{
    let name = name?;
    Some((name, *outputs.get(name)?))
}

/// A longest path: how long it is, and its commands that took time, in order.
#[derive(Drop)]
pub(crate) struct FoundPath<'a> {
    pub(crate) length: u128,
    pub(crate) commands: Vec<Ran<'a>>,
}

/// Appends a line of these fields, at a terminal without the first, by which a program knows the line.
pub(crate) fn append_keyed(screen: bool, fields: &[Part<'_>], lines: &mut Vec<u8>) -> AllocResult
    ensures items { OnOk result (lines.new.items ≡ lines.old.items ++ keyed_line screen (map part_text fields.now)) }
{
    match fields {
        [_, rest @ ..] if screen => append_line(rest, lines),
        _ => append_line(fields, lines),
    }
}

/// What ran at each node of a graph, if commands run so, and how far it is said to be behind each.
#[derive(Drop)]
pub(crate) struct Reaches<'r, 'a> {
    pub(crate) graph: &'r NinjaGraph<'a>,
    pub(crate) places: &'r [Place<'a>],
    pub(crate) spans: &'r [Span],
    pub(crate) behind: Vec<u64>,
}

impl<'r, 'a> Reaches<'r, 'a> {
    /// Takes the last edges first.
    pub(crate) fn of(
        graph: &'r NinjaGraph<'a>,
        places: &'r [Place<'a>],
        spans: &'r [Span],
    ) -> AllocResult<Reaches<'r, 'a>>
        ensures value { IfOk result (λ r. IsOver graph.now places.now spans.now r) }
    {
        let behind = vec![in *graph.edges.allocator(); 0; places.len()]?;
        let mut reaches = Reaches {
            graph,
            places,
            spans,
            behind,
        };
        for place in graph.order.iter().rev() {
            if let Some(edge) = graph.edges.get(*place) {
                let far = u64::try_from(reaches.far_at(edge.to)).unwrap_or(u64::MAX);
                if edge.from < reaches.behind.len() {
                    reaches.behind[edge.from] = reaches.behind[edge.from].max(far);
                }
            }
        }
        Ok(reaches)
    }

    pub(crate) fn ran_at(&self, node: usize) -> Option<Ran<'a>>
        ensures value { option_map ran_seen result ≡ ran_in self.now node }
    {
        let (name, place) = item_at(self.places, node, None)?;
        let span = *self.spans.get(place)?;
        Some(Ran { span, name, place })
    }

    pub(crate) fn far_at(&self, node: usize) -> u128
        ensures { result ≡ far_at self.now node }
    {
        let time = self.ran_at(node).map_or(0, |ran| ran.span.time());
        u128::from(time) + u128::from(item_at(&self.behind, node, 0))
    }

    pub(crate) fn are_tight(&self) -> bool
        ensures value { IsTrue result → All (IsTight self.now) self.now.graph.now.edges.items }
    {
        let count = self.places.len();
        self.graph.edges.iter().all(|edge| {
            let is_there = edge.from < count && edge.to < count;
            is_there && self.far_at(edge.to) <= u128::from(item_at(&self.behind, edge.from, 0))
        })
    }

    /// A longest path. That one is found isn't shown: if none is, memory is told to be wanting. No such case is known.
    pub(crate) fn path(&self) -> AllocResult<FoundPath<'a>>
        ensures value { (js : List SeenJob) → AreOf self.now.graph.now js self.now → IfOk result
            (λ found. IsFoundPath (seen_graph self.now.graph.now) js found.length (map ran_seen found.commands.items)) }
    {
        if !self.are_tight() {
            return Err(AllocError);
        }
        // From no node is it farther.
        let mut start = 0;
        for node in 0..self.places.len() {
            if self.far_at(node) > self.far_at(start) {
                start = node;
            }
        }
        let length = self.far_at(start);
        let mut commands = Vec::new(*self.behind.allocator());
        let mut node = start;
        for place in &self.graph.order {
            if let Some(edge) = self.graph.edges.get(*place) {
                if edge.from == node
                    && edge.to < self.places.len()
                    && self.far_at(edge.to) == u128::from(item_at(&self.behind, node, 0))
                {
                    self.push_ran(node, &mut commands)?;
                    node = edge.to;
                }
            }
        }
        if item_at(&self.behind, node, 0) != 0 {
            return Err(AllocError);
        }
        self.push_ran(node, &mut commands)?;
        Ok(FoundPath { length, commands })
    }

    /// Whether no node is begun before the beginning of a plan that takes so long, and those of commands as these begin.
    pub(crate) fn are_begun(&self, wall: u64) -> bool
        ensures value { IsTrue result → (k : ℕ) → k < length self.now.places.now → IsBegun self.now wall k }
    {
        let end = u128::from(wall);
        (0..self.places.len()).all(|node| {
            let far = self.far_at(node);
            let ran = self.ran_at(node);
            far <= end && ran.is_none_or(|ran| far + u128::from(ran.span.began) == end)
        })
    }

    fn push_ran(&self, node: usize, commands: &mut Vec<Ran<'a>>) -> AllocResult
        ensures items { OnOk result (map ran_seen commands.new.items ≡ map ran_seen commands.old.items ++ took_time (ran_in self.now node)) }
    {
        match self.ran_at(node) {
            Some(ran) if ran.span.time() > 0 => commands.push(ran)?,
            _ => {}
        }
        Ok(())
    }
}
