//! What a folder in memory is told: which call fails, and how much a write, a failure and a crash leave.
ghost use Rattle.std.specs.Prelude.{◌≡◌, ◌≤◌, List, ℕ, length, drop, slice_get};
ghost use Rattle.nl_folder.specs.Amounts.{amount_of, kept_len};

use std::marker::Model;

/// A kind of call, and `Any` for all of them together.
#[derive(Clone, Copy, Debug, PartialEq, Eq, Drop)]
pub enum Call {
    ReadLog,
    AppendLog,
    CutLog,
    SyncLog,
    StartScratch,
    AppendScratch,
    SyncScratch,
    Replace,
    Any,
}

/// The `nth` call of this kind fails, counted from 1 since the fuse was set, and none where `nth` is 0.
#[derive(Clone, Copy, Debug, PartialEq, Eq, Drop)]
pub struct Fuse {
    pub call: Call,
    pub nth: u64,
}

/// Numbers that are used up from the front.
#[derive(Drop)]
pub struct Numbers {
    all: Vec<u64>,
    next: usize,
}

impl Model for Numbers {
    ghost Value = { List ℕ };

    ghost view = { λ n. drop n.next n.all.items };

    ghost invariant = { λ n. n.next ≤ length n.all.items };
}

impl Numbers {
    pub fn new(all: Vec<u64>) -> Self
        ensures { result ≡ all.items }
    {
        Numbers { all, next: 0 }
    }

    pub fn first(&self) -> Option<u64>
        ensures { result ≡ slice_get self.now 0 }
    {
        self.all.get(self.next).copied()
    }

    pub fn advance(&mut self)
        ensures { self.new ≡ drop 1 self.old }
    {
        if self.next < self.all.len() {
            self.next += 1;
        }
    }
}

/// What is left of what a folder was told.
#[derive(Drop)]
pub struct Choices {
    pub writes: Numbers,
    pub fates: Numbers,
    pub tails: Numbers,
    pub fuse: Option<Fuse>,
    /// Of the two files that a crash may leave, the other one was the scratch, and else the log.
    pub other_was_scratch: bool,
}

impl Choices {
    ghost use Rattle.nl_folder.specs.{Fuse.{fails_at}, Choices.{counted}};

    pub fn count(&mut self, call: Call) -> bool
        ensures fails { result ≡ fails_at self.old.fuse call }
        ensures counted { self.new ≡ counted call self.old }
    {
        let Some(fuse) = &mut self.fuse else {
            return false;
        };
        if fuse.nth == 0 || (fuse.call != Call::Any && fuse.call != call) {
            return false;
        }
        fuse.nth -= 1;
        fuse.nth == 0
    }
}

/// As many as the number says, between `least` and `most`.
pub fn amount(number: Option<u64>, least: u64, most: usize) -> usize
    ensures { result ≡ amount_of number least most }
{
    number.map_or(most, |number| number.max(least).min(most as u64) as usize)
}

/// Of a text of `old` bytes `len` stay, and as many more as the number says.
pub fn kept_len(number: Option<u64>, len: u64, old: usize) -> usize
    ensures { result ≡ kept_len number len old }
{
    number.map_or(
        old,
        |number| len.saturating_add(number).min(old as u64) as usize,
    )
}
