//! Commands and kinds of commands, the largest first.
ghost use Rattle.std.specs.Prelude.{◌≡◌, ◌<◌, ◌^◌, ◌++◌, map, OnOk};
ghost use Rattle.nl_reports.specs.Rows.{both_lists, heading, list_key, list_line, rank_told, shown_name, told_row};

use crate::moments::PARTS;
use nl_table::Secret;
use nl_tool_texts::{
    AllocResult, KindRule, Part, Ranking, append, append_line, highest, percent, put, ratio,
};

/// A command by its first output, or a kind: how many commands it has, their milliseconds, and their weighted times in parts of one.
#[derive(Clone, Copy, Drop)]
pub struct Row<'a> {
    pub name: &'a [u8],
    pub commands: usize,
    pub time: u64,
    pub weight: u128,
}

/// By what rows are ranked.
#[derive(Clone, Copy, Drop)]
pub enum Rank {
    Time,
    Weight,
}

impl<'a> Ranking<Row<'a>> for Rank {
    ghost rank = { λ rank row. rank_told rank (told_row row) };

    fn rank(&self, row: &Row<'a>) -> u128 {
        match self {
            Rank::Time => u128::from(row.time),
            Rank::Weight => row.weight,
        }
    }
}

/// Lists of the commands or kinds that rank highest. All commands take so long together.
#[derive(Clone, Copy, Drop)]
pub(crate) struct Ranked {
    pub(crate) lists: Lists,
    pub(crate) of_kinds: bool,
    pub(crate) total: u128,
}

impl Ranked {
    /// Appends those by time, under a heading at a terminal, and in a pipe also those by weight.
    pub(crate) fn append(&self, all: &[Row], lines: &mut Vec<u8>) -> AllocResult
        requires room { self.now.total < 2 ^ 120 }
        ensures items { OnOk result (lines.new.items ≡ lines.old.items ++ both_lists self.now (map told_row all.now)) }
    {
        let heading: &[u8] = match (self.lists.screen, self.of_kinds) {
            (false, _) => b"",
            (true, false) => b"\nSlowest commands\nTime\tShare\tOutput\n",
            (true, true) => b"\nKinds of commands\nTime\tShare\tCommands\tKind\n",
        };
        append(heading, lines)?;
        let count = if self.lists.screen { 1 } else { 2 };
        for rank in &[Rank::Time, Rank::Weight][..count] {
            let items = highest(*lines.allocator(), rank, self.lists.most, all)?;
            for item in &items {
                self.append_row(*rank, item, lines)?;
            }
        }
        Ok(())
    }

    fn append_row(&self, rank: Rank, row: &Row, lines: &mut Vec<u8>) -> AllocResult
        requires room { self.now.total < 2 ^ 120 }
        ensures items { OnOk result (lines.new.items ≡ lines.old.items ++ list_line self.now rank (told_row row.now)) }
    {
        let unnamed = self.of_kinds && row.name.is_empty();
        let name = Part::Text(if unnamed { b"(none)" } else { row.name });
        if self.lists.screen {
            let time = u128::from(row.time);
            let share = Part::Percent(percent(time, self.total));
            let time = Part::Took(true, time);
            if self.of_kinds {
                let count = Part::Number(row.commands as u128);
                return append_line(&[time, share, count, name], lines);
            }
            return append_line(&[time, share, name], lines);
        }
        let by: &[u8] = match rank {
            Rank::Time => b"by-time\t",
            Rank::Weight => b"by-weight\t",
        };
        if self.of_kinds {
            put!(lines; b"kinds-" [Part::Text(by)] {row.commands} b"\t")?;
        } else {
            append(by, lines)?;
        }
        let weighted = ratio(*lines.allocator(), row.weight, u128::from(PARTS))?;
        put!(lines; {row.time} b"\t" [Part::Text(weighted.as_bytes())] b"\t")?;
        append_line(&[name], lines)
    }
}

#[derive(Clone, Copy, Drop)]
pub struct Lists {
    /// Whether a person reads at a terminal.
    pub screen: bool,
    /// The most lines of a list.
    pub most: usize,
    pub rule: KindRule,
    /// Kinds are hashed under it.
    pub secret: Secret,
}
