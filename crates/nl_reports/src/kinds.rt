//! Commands by kind, and how long they took by what they do.
ghost use Rattle.std.specs.Prelude.{◌≡◌, ◌<◌, ◌^◌, ℕ, map, IfOk, length, All};
ghost use Rattle.nl_reports.specs.{Jobs.{seen}, Kinds.{kinds, AreSumsOf}, Rows.{told_row}, Spans.{IsEarly}, Times.{AreTimesOf, times_of, total}};

use crate::job::Job;
use crate::rows::Row;
use indexmap::IndexMap;
use nl_table::{NameKey, Secret};
use nl_tool_texts::{AllocResult, KindRule, kind_of, place, work_of};
use std::alloc::{AllocError, Global};

/// The kinds stand in the order in which they first appear, and are hashed under a secret. One of 2^64 ms is refused as memory is.
pub(crate) fn kinds_of<'a>(
    alloc: Global,
    secret: Secret,
    rule: KindRule,
    commands: &[Row<'a>],
) -> AllocResult<Vec<Row<'a>>>
    requires small { AreSumsOf 1 (map told_row commands.now) }
    ensures value { IfOk result (λ found. map told_row found.items ≡ kinds rule (map told_row commands.now)) }
{
    let mut rows: IndexMap<NameKey, Row, Secret> = IndexMap::with_hasher(alloc, secret);
    for command in commands {
        let name = kind_of(rule, command.name);
        let kind = NameKey { bytes: name };
        let mut row = Row { name, ..*command };
        if let Some(before) = rows.get(&kind) {
            row.commands += before.commands;
            row.time = row.time.checked_add(before.time).ok_or(AllocError)?;
            row.weight += before.weight;
        }
        rows.insert(kind, row)?;
    }
    rows.into_values().collect(alloc)
}

/// In milliseconds, by the place of what commands do.
#[derive(Clone, Copy, Drop)]
pub struct Times {
    pub by_place: [u128; 6],
}

impl Times {
    pub(crate) fn of(jobs: &[Job]) -> Times
        requires early { All (λ j. IsEarly j.span) jobs.now }
        ensures value { result ≡ times_of (map seen jobs.now) }
        ensures few { AreTimesOf (length jobs.now) result }
    {
        let mut by_place = [0; 6];
        for job in jobs {
            let at = place(work_of(job.name())) as usize;
            by_place[at] += u128::from(job.span.time());
        }
        Times { by_place }
    }

    pub(crate) fn total(&self) -> u128
        requires few { (n : ℕ) × ((n < 2 ^ 63) × AreTimesOf n self.now) }
        ensures value { result ≡ total self.now }
        ensures bound { result < 2 ^ 120 }
    {
        let by = self.by_place;
        by[0] + by[1] + by[2] + by[3] + by[4] + by[5]
    }
}
