//! Lanes of commands: no two commands of a lane run at one time.
ghost use Rattle.std.specs.Prelude.{◌≡◌, ◌≤◌, length, IfOk, OnOk};
ghost use Rattle.nl_reports.specs.Lanes.{AreLow, first_free, given, lanes};

use crate::moments::Span;
use nl_tool_texts::AllocResult;
use std::alloc::Global;

// The lanes of a block have one least end, by which they are passed over together.
const BLOCK: usize = 1024;

// The end of each lane's last command, and for each block a moment before which none of its lanes ends.
#[derive(Drop)]
pub struct Lanes {
    ends: Vec<u64>,
    least: Vec<u64>,
}

/// The commands stand in the order of START. Each gets the first lane whose last command has ended.
pub fn lanes_of(alloc: Global, commands: &[Span]) -> AllocResult<Vec<u64>>
    ensures value { IfOk result (λ found. found.items ≡ lanes commands.now) }
{
    let (ends, least) = (Vec::new(alloc), Vec::new(alloc));
    let mut open = Lanes { ends, least };
    let mut found = Vec::with_capacity(alloc, commands.len())?;
    for command in commands {
        let lane = open.first_free(command.began);
        open.give(lane, command.closed())?;
        found.push(lane as u64)?;
    }
    Ok(found)
}

impl Lanes {
    // A block in which no lane is free has its least end anew, so it isn't looked through again before that.
    fn first_free(&mut self, at: u64) -> usize
        requires low { AreLow self.old }
        ensures value { result ≡ first_free at self.old.ends.items }
        ensures ends { self.new.ends ≡ self.old.ends }
        ensures low { AreLow self.new }
    {
        for block in 0..self.least.len() {
            if self.least[block] <= at {
                let from = block.saturating_mul(BLOCK);
                let to = self.ends.len().min(from.saturating_add(BLOCK));
                let mut least = u64::MAX;
                for lane in from..to {
                    if self.ends[lane] <= at {
                        return lane;
                    }
                    least = least.min(self.ends[lane]);
                }
                self.least[block] = least;
            }
        }
        self.ends.len()
    }

    fn give(&mut self, lane: usize, end: u64) -> AllocResult
        requires low { AreLow self.old }
        requires lane { lane ≤ length self.old.ends.items }
        ensures ends { OnOk result (self.new.ends.items ≡ given lane end self.old.ends.items) }
        ensures low { OnOk result (AreLow self.new) }
    {
        let block = lane / BLOCK;
        if block == self.least.len() {
            self.least.push(end)?;
        }
        if lane == self.ends.len() {
            self.ends.push(end)?;
        }
        self.ends[lane] = end;
        self.least[block] = self.least[block].min(end);
        Ok(())
    }
}
