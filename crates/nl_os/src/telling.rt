//! What is said on standard error while a log is read, if that takes long: how much of it.
ghost use Rattle.std.specs.{Prelude.{◌≡◌}, Io.{ReadsAtMost}, Io.KnownBytes.{ReadConsumes}};

use std::io::{self, Read};
use std::rt::Clock;

// Milliseconds before the first line, and from one line to the next.
const PATIENCE: u128 = 2_000;

const PAUSE: u128 = 500;

/// A reader that tells on standard error how much it has read, from the third second on. What is written next goes over the line,
/// which is blanked when all is read. If the clock fails, nothing is told.
#[derive(Drop)]
pub struct Telling<'r, P, R> {
    rt: &'r P,
    reader: R,
    tells: bool,
    // The time of the first read, and how many milliseconds after it the next line is due.
    began: Option<u128>,
    due: u128,
    read: u64,
    // Whether a line is on the screen.
    told: bool,
}

impl<'r, P: Clock + Eprint, R: Read> Telling<'r, P, R> {
    pub fn new(rt: &'r P, tells: bool, reader: R) -> Self
        ensures remaining { ⟦<Telling<'r, P, R> as Read>⟧.remaining result ≡ R.remaining reader }
    {
        Telling {
            rt,
            reader,
            tells,
            began: None,
            due: PATIENCE,
            read: 0,
            told: false,
        }
    }

    fn note(&mut self, count: usize)
        ensures same { self.new.reader ≡ self.old.reader }
    {
        self.read = self.read.saturating_add(count as u64);
        let Ok(time) = self.rt.monotonic() else {
            return;
        };
        let now = time.as_millis();
        let passed = now.saturating_sub(*self.began.get_or_insert(now));
        if passed < self.due {
            return;
        }
        self.due = passed.saturating_add(PAUSE);
        self.told = true;
        let megabytes = self.read / 1_000_000;
        let _ = eprint!(self.rt; "nlog: {megabytes} MB read\r");
    }
}

impl<P: Clock + Eprint, R: Read> Read for Telling<'_, P, R> {
    ghost remaining = { λ r. R.remaining r.reader };

    fn read(&mut self, buf: &mut [u8]) -> io::Result<usize>
        ensures bound { ReadsAtMost result buf.new }
        ensures bytes { ReadConsumes (R.remaining self.old.reader) (R.remaining self.new.reader) result buf.new }
    {
        let answer = self.reader.read(buf);
        if self.tells {
            match answer {
                Ok(count) if count > 0 => self.note(count),
                _ if self.told => {
                    self.told = false;
                    let _ = eprint!(self.rt; "                              \r");
                }
                _ => {}
            }
        }
        answer
    }
}
