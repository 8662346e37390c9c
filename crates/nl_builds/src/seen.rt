//! What is known of a build so far, and where another begins.
ghost use Rattle.std.specs.Prelude.{◌≡◌, ◌+◌, ◌<◌, ◌^◌, length, IfOk, None};
ghost use Rattle.nl_builds.specs.{Builds.{first_back, walk}, Seen.{doubts, is_after, is_back, is_behind, is_doubtful, is_tied, mark, past_by, told, with_command, better, differs_by}};

use crate::command::{Command, NANOS, Row};
use nl_versions::Stamps;
use std::alloc::{AllocError, Global};

// Nanoseconds by which the clocks of a file system and of a build may differ (docs/BUILDS.md).
pub(crate) const SLACK: u64 = 20_000_000;

// Nanoseconds by which two moments may differ that are one, by START and by END.
const AGREEMENT: u64 = 6_000_000;

const ONE_MOMENT: u64 = 10_000_000;

// The slack, and one moment.
const CLOSE: u64 = 30_000_000;

// START and END count from so many nanoseconds before the build began, so that none is negative.
const ZERO: u64 = (1 << 31) * NANOS;

// END of a build that took 10 ms.
const LASTED: u32 = (1 << 31) + 10;

/// How commands stand in a list.
#[derive(Clone, Copy, Drop)]
pub(crate) enum Order {
    Written,
    ByMoment,
}

/// What stands before a command.
#[derive(Clone, Copy, Drop)]
pub(crate) enum Mark {
    Inside,
    /// No border, but one may hide here.
    Doubtful,
    Unsure,
    Sure,
}

/// A build so far.
#[derive(Clone, Copy, Drop)]
pub(crate) struct Seen {
    /// The place behind its last command.
    pub to: usize,
    /// Whether the border before it is sure.
    pub is_sure: bool,
    /// A border may hide in it, or a command tells nothing.
    pub is_doubtful: bool,
    pub began: Option<u64>,
    /// The end of the last build before of which that is known, or 0.
    pub past: u128,
    /// It began at `earliest` or behind. 0 if no command tells that.
    pub earliest: u64,
    /// If MTIME is of the start, it began at this moment or before, and else no command tells that it began behind it.
    pub latest: Option<u64>,
    /// With the greatest END.
    pub last: Command,
    /// The moment of the last piece, which begins at the last command that isn't tied, and the least of those before.
    pub piece: u64,
    pub pieces: u64,
    /// The least `latest` of the commands that waited for none.
    pub oldest: u64,
}

impl Seen {
    /// The command stands before place `to`.
    fn add(&mut self, stamps: Stamps, to: usize, mark: Mark, command: &Command, row: Row)
        ensures value { self.new ≡ with_command self.old stamps to (is_doubtful mark) command.now row }
    {
        let earliest = command.earliest().unwrap_or(0);
        let began = better(stamps, self.began, self.told(stamps, command, row));
        if self.piece > 0 && !self.is_tied(row) {
            self.pieces = self.pieces.min(self.piece);
            self.piece = 0;
        }
        self.to = to;
        self.is_doubtful = self.is_doubtful || matches!(mark, Mark::Doubtful) || !command.tells();
        self.began = began;
        self.earliest = self.earliest.max(earliest);
        self.latest = better(stamps, self.latest, command.latest());
        let ended = self.last.ended.max(command.ended);
        self.last = Command { ended, ..*command };
        self.piece = self.piece.max(earliest);
        self.oldest = self.oldest.min(row.alone);
    }

    /// What stands before a command behind this build.
    fn mark(&self, order: Order, stamps: Stamps, command: &Command, row: Row) -> Mark
        ensures { result ≡ mark order stamps self.now command.now row }
    {
        let moment = self.told(stamps, command, row);
        let is_behind = self.is_behind(moment);
        let is_sure = stamps.is_start() && self.is_behind(command.earliest());
        // A command of the hash of the one before it may be that one again.
        let hides = self.last.hash == command.hash
            || stamps.is_start() && self.differs(AGREEMENT, moment);
        let is_manifest = self.last.is_manifest;
        match order {
            Order::ByMoment if is_manifest || command.is_manifest || is_behind => Mark::Unsure,
            Order::ByMoment => Mark::Inside,
            // END falls, or the command ran again.
            _ if command.ended < self.last.ended || self.last.is_same(command) => Mark::Sure,
            _ if is_manifest => Mark::Unsure,
            // By its moment another build had begun.
            _ if is_behind && is_sure => Mark::Sure,
            _ if is_behind && !self.is_tied(row) => Mark::Unsure,
            _ if is_behind || hides => Mark::Doubtful,
            _ => Mark::Inside,
        }
    }

    /// When the build of a command behind it began, as borders go by it.
    fn told(&self, stamps: Stamps, command: &Command, row: Row) -> Option<u64>
        ensures value { result ≡ told stamps self.now.past command.now row }
    {
        match stamps {
            Stamps::OfStart if command.tells() => Some(row.up),
            Stamps::OfEnd if is_after(self.past, command.latest()) => command.earliest(),
            _ => None,
        }
    }

    // This moment is behind its beginning by more than so much.
    fn differs(&self, much: u64, moment: Option<u64>) -> bool
        ensures { result ≡ differs_by much self.now.began moment }
    {
        self.began
            .zip(moment)
            .is_some_and(|(began, at)| at.saturating_sub(began) > much)
    }

    // By this moment another build had begun, behind the end of this one.
    fn is_behind(&self, moment: Option<u64>) -> bool
        ensures { result ≡ is_behind self.now moment }
    {
        self.differs(SLACK, moment) && is_after(self.end(self.began, 0), moment)
    }

    // It, or one behind it in its row, waited for one of the row before it.
    fn is_tied(&self, row: Row) -> bool
        ensures { result ≡ is_tied self.now row }
    {
        row.wait <= u64::from(self.last.ended) + 1
    }

    /// The end of this build, if it began at `began`, or an earlier end if that isn't known.
    fn end(&self, began: Option<u64>, past: u128) -> u128
        ensures { result ≡ past_by began self.now.last.ended past }
    {
        let lasted = u128::from(self.last.ended) * u128::from(NANOS);
        began.map_or(past, |began| u128::from(began) + lasted)
    }

    /// A border may hide in it, or it may be of the build before. `early` says whether its lines may be in another order.
    pub(crate) fn doubts(&self, stamps: Stamps, early: bool) -> bool
        ensures { result ≡ doubts stamps early self.now }
    {
        // It began less than 10 ms behind the build before it.
        let is_close = !is_after(self.past, self.began.map(|at| at.saturating_sub(CLOSE)));
        // If MTIME is of the end, not all of it may tell its moment.
        let least = self.pieces.min(self.piece);
        self.is_doubtful
            || early && is_close
            || stamps.is_end()
                && (self.earliest.saturating_sub(least) > ONE_MOMENT
                    || early && self.earliest.saturating_sub(self.oldest) > ONE_MOMENT)
    }

    /// It can't stand behind the build before, if that tells when it began.
    fn is_back(&self, stamps: Stamps, before: Option<Seen>) -> bool
        ensures { result ≡ is_back stamps before self.now }
    {
        let end = before.map_or(0, |it| it.end(Some(it.earliest), 0));
        let is_before = !is_after(end, self.latest);
        match stamps {
            Stamps::Unknown => false,
            Stamps::OfEnd => {
                is_before
                    || self.earliest > 0
                        && before.is_some_and(|it| it.last.ended >= LASTED
                            && it.earliest.abs_diff(self.earliest) <= ONE_MOMENT)
            }
            Stamps::OfStart => {
                is_before || self.earliest.saturating_sub(self.latest.unwrap_or(0)) > SLACK
            }
        }
    }
}

// Of two moments of one build; the one that is known, if only one is.
fn better(stamps: Stamps, a: Option<u64>, b: Option<u64>) -> Option<u64>
    ensures value { result ≡ better stamps a b }
{
    match (a, b) {
        (Some(a), Some(b)) if stamps.is_start() => Some(a.min(b)),
        (Some(a), Some(b)) => Some(a.max(b)),
        (a, b) => a.or(b),
    }
}

// A moment and the slack reach the end, or the moment isn't known.
fn is_after(end: u128, moment: Option<u64>) -> bool
    ensures { result ≡ is_after end moment }
{
    moment.is_none_or(|at| end < u128::from(at) + u128::from(ZERO + SLACK))
}

/// The builds of commands, one behind another, by what their rows tell. The first command stands behind `place`, and `is_sure` is whether the
/// border before it is.
pub(crate) fn walk(
    alloc: Global,
    order: Order,
    stamps: Stamps,
    place: usize,
    is_sure: bool,
    commands: &[Command],
    rows: &[Row],
) -> Result<Vec<Seen>, AllocError>
    requires room { place + length commands.now < 2 ^ 64 }
    ensures value { IfOk result (λ found. found.items ≡ walk order stamps place is_sure commands.now rows.now) }
{
    let mut found = Vec::new(alloc);
    let Some(first) = commands.first() else {
        return Ok(found);
    };
    let mut empty = Seen {
        to: 0,
        is_sure,
        is_doubtful: false,
        began: None,
        past: 0,
        earliest: 0,
        latest: None,
        last: *first,
        piece: 0,
        pieces: u64::MAX,
        oldest: u64::MAX,
    };
    let mut current = empty;
    for (at, command) in commands.iter().enumerate() {
        let row = rows.get(at).copied().unwrap_or(Row::of(command, false));
        let mark = current.mark(order, stamps, command, row);
        if at > 0 && matches!(mark, Mark::Unsure | Mark::Sure) {
            found.push(current)?;
            // It tells of the next build only if they stand as Ninja wrote them.
            if matches!(order, Order::Written) {
                empty.past = current.end(current.began, current.past);
            }
            empty.is_sure = matches!(mark, Mark::Sure);
            empty.last = *command;
            current = empty;
        }
        current.add(stamps, place + at + 1, mark, command, row);
    }
    found.push(current)?;
    Ok(found)
}

/// The place before the first build that can't stand behind the one before it.
pub(crate) fn first_back(stamps: Stamps, builds: &[Seen]) -> Option<usize>
    ensures { result ≡ first_back stamps None 0 builds.now }
{
    let mut before = None;
    let mut place = 0;
    for build in builds {
        if build.is_back(stamps, before) {
            return Some(place);
        }
        before = (build.earliest > 0).then_some(*build);
        place = build.to;
    }
    None
}
