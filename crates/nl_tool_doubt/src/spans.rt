//! Spans of values that stand at places.
ghost use Rattle.std.specs.Prelude.{◌≡◌, ◌-◌, IfOk, List, Some, map};
ghost use Rattle.nl_tool_doubt.specs.{Moments.{least_from}, Spans.{Alike, Rises, both, greatest_of, one, sums, within}, declared.spans.Span.{Span}};

use nl_tool_texts::AllocResult;
use std::alloc::Global;

/// The first place of some values, the least of them and the greatest.
#[derive(Clone, Copy, Drop)]
pub struct Span {
    pub first: u64,
    pub least: u64,
    pub greatest: u64,
}

impl Span {
    pub fn one(first: u64, value: u64) -> Span
        ensures value { result ≡ one first value }
    {
        Span {
            first,
            least: value,
            greatest: value,
        }
    }

    pub fn above(self) -> u64
        ensures value { result ≡ self.greatest - self.least }
    {
        self.greatest.saturating_sub(self.least)
    }
}

/// In the order of their places.
pub fn rising(spans: Vec<Span>) -> Vec<Span>
    ensures alike { Alike result.items spans.items }
    ensures rises { Rises result.items }
{
    let mut sorted = spans;
    sorted.sort_unstable_by_key(|span| span.first);
    sorted
}

/// Each span gets the greatest value up to it.
pub fn summed(alloc: Global, spans: &[Span]) -> AllocResult<Vec<Span>>
    ensures value { IfOk result (λ all. all.items ≡ sums 0 spans.now) }
{
    let mut all = Vec::with_capacity(alloc, spans.len())?;
    let mut most = 0;
    for span in spans {
        most = span.greatest.max(most);
        all.push(Span {
            greatest: most,
            ..*span
        })?;
    }
    Ok(all)
}

/// There is then one span for each place. `spans` stand in order.
pub fn merged(alloc: Global, spans: &[Span]) -> AllocResult<Vec<Span>>
    requires rises { Rises spans.now }
    ensures alike { IfOk result (λ all. Alike all.items spans.now) }
    ensures rises { IfOk result (λ all. Rises all.items) }
{
    let mut all = Vec::new(alloc);
    for span in spans {
        // The span comes after those of earlier places, or joins that of its own.
        match all.pop() {
            None => all.push(*span)?,
            Some(last) if last.first == span.first => all.push(both(Some(last), *span))?,
            Some(last) => {
                all.push(last)?;
                all.push(*span)?;
            }
        }
    }
    Ok(all)
}

fn both(a: Option<Span>, b: Span) -> Span
    ensures value { Some result ≡ both a (Some b) }
{
    match a {
        None => b,
        Some(a) => Span {
            first: a.first.min(b.first),
            least: a.least.min(b.least),
            greatest: a.greatest.max(b.greatest),
        },
    }
}

/// What the spans between two places span together. `spans` stand in order.
pub fn within(spans: &[Span], from: u64, to: u64) -> Option<Span>
    requires rises { Rises spans.now }
    ensures value { result ≡ within from to spans.now }
{
    let start = spans.partition_point(|span| span.first < from);
    let mut found = None;
    for span in &spans[start..] {
        if to < span.first {
            return found;
        }
        found = Some(both(found, *span));
    }
    found
}

/// At most `own`. `spans` stand in order.
pub fn least_from(spans: &[Span], from: u64, own: u64) -> u64
    requires rises { Rises spans.now }
    ensures value { result ≡ least_from from own (map (λ s. s.first) spans.now) }
{
    let start = spans.partition_point(|span| span.first < from);
    if start < spans.len() {
        return spans[start].first.min(own);
    }
    own
}

/// Each of `spans` has the greatest value up to it.
pub fn greatest_up_to(spans: &[Span], to: u64) -> u64
    ensures value { (ss : List Span) → Rises ss → spans.now ≡ sums 0 ss → result ≡ greatest_of (within 0 to ss) }
{
    match spans.partition_point(|span| span.first <= to) {
        0 => 0,
        behind => spans[behind - 1].greatest,
    }
}
