//! The graph that Ninja prints of a build, as `ninja -t graph` does, and an order of its edges.
ghost use Rattle.std.specs.Prelude.{◌≡◌, ◌++◌, ℕ, List, IfErr, IfOk, IsErrOf, OnOk, map, IfSome};
ghost use Rattle.nl_tool_texts.specs.{declared.fault.ToolFault.{ToolFault}, GraphLine.{line_seen}, GraphText.{Holds, IsGraphFault, IsOfText, IsPlaced, IsRefusedAt, edges_said, graph_of, nodes_said, seen_graph, seen_edge}, Graphs.{Edge as SeenEdge, Node, ClosesCycle}};

use crate::columns::lines_of;
use crate::fault::{ToolFault, ToolResult};
use crate::graph_line::{Line, line_in};
use crate::slices::{item_at, set_at};
use crate::text::AllocResult;
use indexmap::IndexMap;
use nl_table::Secret;
use std::alloc::{AllocError, Global};

/// An edge from one node to another, by their places, and the line on which it stands.
#[derive(Clone, Copy, Drop)]
pub struct Edge {
    pub from: usize,
    pub to: usize,
    pub line: u64,
}

/// A node has a number, which is any bytes, and the last name that the lines give it. A command has no name, nor has an output that
/// nothing needs.
#[derive(Drop)]
pub struct NinjaGraph<'a> {
    pub nodes: IndexMap<&'a [u8], Option<&'a [u8]>, Secret>,
    pub edges: Vec<Edge>,
    /// The places of the edges, each after those that lead to where it begins: a hint, of which nothing is known.
    pub order: Vec<usize>,
}

/// Numbers are hashed under a secret. The text is refused at its first bad line, or else at a line whose edge is of a cycle. To read it
/// takes 16 bytes more for each line.
pub fn read_graph<'a>(alloc: Global, secret: Secret, text: &'a [u8]) -> ToolResult<NinjaGraph<'a>>
    ensures value { IfOk result (λ g. IsOfText (graph_of text.now) (seen_graph g)) }
    ensures told_line { (line : ℕ) → IsErrOf result (ToolFault.BadLine line) → IsRefusedAt (graph_of text.now) line }
    ensures faults { IfErr result IsGraphFault }
{
    let mut graph = NinjaGraph {
        nodes: IndexMap::with_hasher(alloc, secret),
        edges: Vec::new(alloc),
        order: Vec::new(alloc),
    };
    let lines = lines_of(alloc, text)?;
    let mut ended = false;
    for place in 0..lines.len() {
        let line = lines[place];
        let number = place as u64 + 1;
        match line_in(ended, number, line) {
            Some(said) => graph.take(number, said)?,
            None => return Err(ToolFault::BadLine(number)),
        }
        ended = ended || line == b"}".as_slice();
    }
    if !ended {
        return Err(ToolFault::BadLine(lines.len() as u64 + 1));
    }
    graph.order = order_of(alloc, graph.nodes.len(), graph.edges.as_slice())?;
    Ok(graph)
}

impl<'a> NinjaGraph<'a> {
    fn take(&mut self, line: u64, said: Line<'a>) -> AllocResult
        ensures ok { (ns : List Node) (es : List SeenEdge) → Holds ns es self.old.nodes.entries self.old.edges.items → OnOk result
            (Holds (ns ++ nodes_said (line_seen said.entry)) (es ++ edges_said line (line_seen said.entry)) self.new.nodes.entries self.new.edges.items) }
    {
        match said {
            Line::Passed => {}
            Line::Labelled { id, name } => {
                self.nodes.insert(id, Some(name))?;
            }
            Line::Joined { from, to } => {
                let from = self.place_of(from)?;
                let to = self.place_of(to)?;
                self.edges.push(Edge { from, to, line })?;
            }
        }
        Ok(())
    }

    // A number without a place gets one.
    fn place_of(&mut self, id: &'a [u8]) -> AllocResult<usize>
        ensures place { IfOk result (IsPlaced id.now self.old.nodes.entries self.new.nodes.entries) }
        ensures holds { (ns : List Node) (es : List SeenEdge) → Holds ns es self.old.nodes.entries self.old.edges.items
            → OnOk result (Holds ns es self.new.nodes.entries self.new.edges.items) }
    {
        if let Some(place) = self.nodes.get_index_of(id) {
            return Ok(place);
        }
        let place = self.nodes.len();
        self.nodes.insert(id, None)?;
        Ok(place)
    }
}

/// No place.
pub const NONE: usize = usize::MAX;

// The places of all edges between so many nodes, each after those that lead to where it begins. An edge of a cycle is refused by its
// line. An edge that is taken for one of a cycle and isn't would be refused for want of memory: no such case is known.
fn order_of(alloc: Global, count: usize, edges: &[Edge]) -> ToolResult<Vec<usize>>
    ensures told_line { (ids : List (List ℕ)) (line : ℕ) → IsErrOf result (ToolFault.BadLine line)
        → ClosesCycle (map (seen_edge ids) edges.now) line }
    ensures faults { IfErr result IsGraphFault }
{
    // For each node the first edge from it that the walk didn't look at, and for each edge the one from the same node that is looked at next.
    let mut first = vec![in alloc; NONE; count]?;
    let mut next = Vec::new(alloc);
    for place in 0..edges.len() {
        let from = edges[place].from;
        next.push(item_at(&first, from, NONE))
            .map_err(AllocError::from)?;
        set_at(&mut first, from, place);
    }
    // Whether the walk went on from a node and didn't yet come back.
    let mut open = vec![in alloc; false; count]?;
    let mut order = Vec::new(alloc);
    // The edges from a start to the node at which the walk is.
    let mut way = Vec::new(alloc);
    for start in 0..count {
        let mut node = start;
        for _ in 0..u64::MAX {
            let place = item_at(&first, node, NONE);
            if let Some(edge) = edges.get(place) {
                set_at(&mut first, node, item_at(&next, place, NONE));
                set_at(&mut open, node, true);
                way.push(place).map_err(AllocError::from)?;
                node = edge.to;
                if item_at(&open, node, false) {
                    let line = closing_line(way.as_slice(), edges).ok_or(ToolFault::Memory)?;
                    return Err(ToolFault::BadLine(line));
                }
            } else if let Some(seen) = way.pop() {
                order.push(seen).map_err(AllocError::from)?;
                node = edges.get(seen).map_or(start, |edge| edge.from);
                set_at(&mut open, node, false);
            } else {
                break;
            }
        }
    }
    order.reverse();
    Ok(order)
}

// The line of the last edge, if the edges before it lead from its end to its beginning.
fn closing_line(way: &[usize], edges: &[Edge]) -> Option<u64>
    ensures cycle { (ids : List (List ℕ)) → IfSome result (ClosesCycle (map (seen_edge ids) edges.now)) }
{
    let (place, before) = way.split_last()?;
    let last = edges.get(*place)?;
    let mut head = last.from;
    let mut rest = before;
    'way: while head != last.to {
        let (place, before) = rest.split_last()?;
        let edge = edges.get(*place)?;
        if edge.to != head {
            return None;
        }
        head = edge.from;
        rest = before;
    }
    Some(last.line)
}
