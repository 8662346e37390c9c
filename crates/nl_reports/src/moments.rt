//! When commands run, begin and end, and how much of the time of a build each one counts for, by a sweep over these moments.
ghost use Rattle.std.specs.Prelude.{◌≡◌, ◌+◌, ◌-◌, ◌*◌, ◌<◌, ◌≤◌, ◌^◌, ℕ, List, [], length, map, slice_index, IfOk, OnOk, All, Contains, IsPermutation};
ghost use Rattle.nl_reports.specs.{Moments.{AreMoments}, Shares.{AreSharesOf}, Spans.{IsEarly, closed_of, span_of, time_of}, Sweep.{alone_time, busy_time, most_at_once, running, weight}, SweepSteps.{Rises}, declared.moments.Span.{Span}};

use nl_builds::Command;
use nl_tool_texts::{AllocResult, item_at};
use std::alloc::Global;

// Later than each moment.
pub(crate) const NO_MOMENT: u64 = 1 << 32;

/// A moment is a count of milliseconds from 2^31 before its build began, so that none is negative.
#[derive(Clone, Copy, Drop)]
pub struct Span {
    pub began: u64,
    pub ended: u64,
}

impl Span {
    pub fn of(command: &Command) -> Span
        ensures value { result ≡ span_of command.now }
        ensures early { IsEarly result }
    {
        Span {
            began: u64::from(command.began),
            ended: u64::from(command.ended),
        }
    }

    /// In milliseconds: 0 if it ended before it began.
    pub fn time(&self) -> u64
        ensures value { result ≡ time_of self.now }
        ensures bound { result ≤ self.now.ended }
    {
        self.ended.saturating_sub(self.began)
    }

    /// The moment from which it doesn't run any more.
    pub fn closed(&self) -> u64
        ensures value { result ≡ closed_of self.now }
    {
        self.began.max(self.ended)
    }
}

// A place that is so near is found without a search.
const STEPS: u32 = 64;

/// Each list is in order.
#[derive(Drop)]
pub struct Moments {
    pub starts: Vec<u64>,
    pub ends: Vec<u64>,
}

/// How many commands had begun and ended at the moment that was asked for last.
#[derive(Clone, Copy, Default, Drop)]
pub struct Near {
    pub begun: usize,
    pub ended: usize,
}

impl Moments {
    pub fn of(alloc: Global, spans: &[Span]) -> AllocResult<Moments>
        requires early { All IsEarly spans.now }
        ensures value { IfOk result (AreMoments spans.now) }
    {
        let starts = rising(spans.iter().map(|span| span.began).collect(alloc)?);
        let ends = rising(spans.iter().map(|span| span.closed()).collect(alloc)?);
        Ok(Moments { starts, ends })
    }

    /// How many commands run at a moment. It is the quicker the nearer it is to the one before.
    pub(crate) fn running_near(&self, near: &mut Near, at: u64) -> u64
        ensures value { (cs : List Span) → AreMoments cs self.now → result ≡ running cs at }
    {
        near.begun = up_to(self.starts.as_slice(), near.begun, at);
        near.ended = up_to(self.ends.as_slice(), near.ended, at);
        (near.begun as u64).saturating_sub(near.ended as u64)
    }
}

pub(crate) fn rising(mut moments: Vec<u64>) -> Vec<u64>
    ensures items { IsPermutation moments.items result.items }
    ensures order { All (λ m. m ≤ 2 ^ 32) moments.items → Rises result.items }
{
    moments.sort_unstable();
    moments
}

/// How many moments are at this one or before. `near` is where to look first.
pub(crate) fn up_to(moments: &[u64], near: usize, at: u64) -> usize
    ensures within { result ≤ length moments.now }
    ensures before { Rises moments.now → (k : ℕ) → k < result → slice_index moments.now k ≤ at }
    ensures after { Rises moments.now → (k : ℕ) → result ≤ k → k < length moments.now → at < slice_index moments.now k }
{
    let mut place = near.min(moments.len());
    for _ in 0..STEPS {
        if place < moments.len() && moments[place] <= at {
            place += 1;
        } else if place > 0 && at < moments[place - 1] {
            place -= 1;
        } else {
            return place;
        }
    }
    moments.partition_point(|m| *m <= at)
}

/// The shares of commands among each other: the sums over all moments, and the sum of the shares before each start and before each end.
#[derive(Drop)]
pub struct Shares {
    moments: Moments,
    pub sums: Sums,
    at_starts: Vec<u64>,
    at_ends: Vec<u64>,
}

impl Shares {
    pub fn of(alloc: Global, spans: &[Span]) -> AllocResult<Shares>
        requires early { All IsEarly spans.now }
        ensures value { IfOk result (AreSharesOf spans.now) }
        ensures sums { IfOk result (λ s. (s.sums.busy ≡ busy_time spans.now) × (s.sums.alone ≡ alone_time spans.now)) }
    {
        let moments = Moments::of(alloc, spans)?;
        let starts = moments.starts.as_slice();
        let ends = moments.ends.as_slice();
        let mut sums = Sums::default();
        let mut at_starts = Vec::with_capacity(alloc, starts.len())?;
        let mut at_ends = Vec::with_capacity(alloc, ends.len())?;
        'events: while at_starts.len() < starts.len() || at_ends.len() < ends.len() {
            let begun = at_starts.len();
            let ended = at_ends.len();
            let running = (begun as u64).saturating_sub(ended as u64);
            let start = item_at(starts, begun, NO_MOMENT);
            let end = item_at(ends, ended, NO_MOMENT);
            let next = start.min(end);
            let len = next - sums.at;
            sums.at = next;
            if running > 0 {
                sums.shares += len * (PARTS / running);
                sums.busy += len;
            }
            if running == 1 {
                sums.alone += len;
            }
            // A start comes before an end at the same moment.
            if begun < starts.len() && start <= end {
                at_starts.push(sums.shares)?;
            } else {
                at_ends.push(sums.shares)?;
            }
        }
        Ok(Shares {
            moments,
            sums,
            at_starts,
            at_ends,
        })
    }

    /// How many commands run at a time at most.
    pub fn most(&self) -> u64
        ensures value { (cs : List Span) → AreSharesOf cs self.now → result ≡ most_at_once cs }
    {
        let mut most: u64 = 0;
        let mut near = Near::default();
        for at in &self.moments.starts {
            most = most.max(self.moments.running_near(&mut near, *at));
        }
        most
    }

    /// The weighted time of a command, in parts of a millisecond. It is the quicker the nearer the command is to the one before.
    pub fn weight(&self, near: &mut Near, span: &Span) -> u64
        ensures value { (cs : List Span) → AreSharesOf cs self.now → Contains cs span.now → result ≡ weight cs span.now }
    {
        near.begun = up_to(self.moments.starts.as_slice(), near.begun, span.began);
        near.ended = up_to(self.moments.ends.as_slice(), near.ended, span.closed());
        let before = item_at(&self.at_starts, near.begun.saturating_sub(1), 0);
        let after = item_at(&self.at_ends, near.ended.saturating_sub(1), 0);
        after.saturating_sub(before)
    }
}

// The parts of a millisecond: up to 22 commands share them with nothing left.
pub const PARTS: u64 = 232_792_560;

/// The sums over the milliseconds before `at`: of the shares, and of the milliseconds in which one command at least runs, and one alone.
#[derive(Clone, Copy, Default, Drop)]
pub struct Sums {
    pub at: u64,
    pub shares: u64,
    pub busy: u64,
    pub alone: u64,
}
