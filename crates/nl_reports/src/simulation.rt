//! When commands would begin, if so many ran at a time: a hint, which is checked by those who use it.

use crate::critical::{Critical, Reaches};
use crate::job::Job;
use crate::moments::Span;
use nl_tool_texts::{AllocResult, NONE, between, item_at, set_at};
use nl_versions::Stamps;
use std::alloc::AllocError;
use std::cmp::Reverse;
use std::collections::BinaryHeap;

/// Which parts wait for which. A part is a command with all its nodes, or else a node that no command makes: those stand behind all commands.
#[derive(Drop)]
pub(crate) struct Waiting {
    /// The part of each node.
    pub(crate) parts: Vec<usize>,
    // From part to part, in order, and how many lead to each.
    edges: Vec<(usize, usize)>,
    waits: Vec<usize>,
    // Of the commands that are ready, that with the least key is taken.
    keys: Vec<(u128, usize)>,
}

impl Waiting {
    pub(crate) fn of(found: &Critical, jobs: &[Job], stamps: Stamps) -> AllocResult<Waiting> {
        let alloc = *found.places.allocator();
        // How far it is in commands: each takes one millisecond.
        let steps = vec![in alloc; Span { began: 0, ended: 1 }; jobs.len()]?;
        let chains = Reaches::of(found.graph, &found.places, steps.as_slice())?;
        let nodes = found.places.len();
        let mut keys = vec![in alloc; (u128::MAX, NONE); jobs.len()]?;
        let mut parts = Vec::with_capacity(alloc, nodes)?;
        for (node, place) in found.places.iter().enumerate() {
            let command = place.map_or(NONE, |(_, command)| command);
            parts.push(command.min(keys.len().saturating_add(node)))?;
            if command < keys.len() {
                let (least, first) = keys[command];
                // Ninja takes the command first after which the most wait for each other, from the version on whose logs tell when
                // a command started. Before, it took the one whose output the graph names first.
                let key = match stamps {
                    Stamps::OfStart => least.min(u128::MAX - chains.far_at(node)),
                    Stamps::OfEnd | Stamps::Unknown => least,
                };
                keys[command] = (key, first.min(node));
            }
        }
        let mut waits = vec![in alloc; 0_usize; keys.len().saturating_add(nodes)]?;
        let mut edges = Vec::with_capacity(alloc, found.graph.edges.len())?;
        for edge in &found.graph.edges {
            let to = item_at(&parts, edge.to, NONE);
            edges.push((item_at(&parts, edge.from, NONE), to))?;
            let count = item_at(&waits, to, 0).saturating_add(1);
            set_at(&mut waits, to, count);
        }
        edges.sort_unstable();
        Ok(Waiting {
            parts,
            edges,
            waits,
            keys,
        })
    }

    /// From when on each part is there, if so many run at a time at most. A ready one is taken as soon as fewer run, one that waits for itself never.
    pub(crate) fn run(&self, jobs: &[Job], count: usize) -> AllocResult<Vec<u64>> {
        let alloc = *self.parts.allocator();
        let mut waits = Vec::from_slice(alloc, self.waits.as_slice())?;
        let mut there = vec![in alloc; 0_u64; waits.len()]?;
        let mut ready = BinaryHeap::new(alloc);
        let mut running = BinaryHeap::new(alloc);
        // Parts that wait for nothing more, and whether they are there too.
        let mut met = Vec::new(alloc);
        for part in 0..waits.len() {
            if waits[part] == 0 {
                met.push((part, part >= self.keys.len()))?;
            }
        }
        let mut now = 0_u64;
        for _ in 0..u64::MAX {
            if let Some((part, is_there)) = met.pop() {
                if let (false, Some(key)) = (is_there, self.keys.get(part)) {
                    ready.push(Reverse((*key, part))).map_err(AllocError::from)?;
                    continue;
                }
                set_at(&mut there, part, now);
                // The parts that wait for this one wait for one less.
                let edges = self.edges.as_slice();
                let first = edges.partition_point(|edge| edge.0 < part);
                let end = edges.partition_point(|edge| edge.0 <= part);
                for (_, to) in between(first, end, edges) {
                    let left = item_at(&waits, *to, NONE).saturating_sub(1);
                    set_at(&mut waits, *to, left);
                    if left == 0 {
                        met.push((*to, *to >= self.keys.len()))?;
                    }
                }
                continue;
            }
            let is_free = running.len() < count;
            let next = if is_free { ready.pop() } else { None };
            if let Some(Reverse((_, command))) = next {
                let time = jobs.get(command).map_or(0, |job| job.span.time());
                let end = Reverse((now.saturating_add(time), command));
                running.push(end).map_err(AllocError::from)?;
            } else if let Some(Reverse((ended, command))) = running.pop() {
                met.push((command, true)).map_err(AllocError::from)?;
                now = ended;
            } else {
                break;
            }
        }
        Ok(there)
    }
}
