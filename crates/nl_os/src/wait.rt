//! How long a lock is waited for, and how often it is asked for.
ghost use Rattle.std.specs.Prelude.{◌≡◌, ◌≢◌, ◌≤◌, ◌<◌, ◌+◌, ◌-◌, ◌⊎◌, IfSome, None, Some};

use crate::system_file::Sign;

// Milliseconds after which it waits no more for a log that nobody changes, and after which it waits for none.
const STILL: u64 = 10_000;

const ALL: u64 = 60_000;

// Milliseconds at most before it asks again.
const LONGEST_PAUSE: u64 = 20;

/// It asks for a lock at most so many times: once a millisecond.
pub const TURNS: u32 = 60_000;

/// It begins when the lock is found held for the first time.
#[derive(Drop)]
pub struct Wait {
    sign: Option<Sign>,
    // The moments in milliseconds at which the wait began, and at which the log was first seen with this sign.
    pub began: u64,
    since: u64,
    // The next pause.
    pause: u64,
    ghost some: { 0 < pause },
    ghost short: { pause ≤ 20 },
}

impl Wait {
    pub fn new() -> Wait
        ensures start { result.sign ≡ None }
    {
        Wait {
            sign: None,
            began: 0,
            since: 0,
            pause: 1,
        }
    }

    /// Milliseconds before you ask for the lock again, if the log has this sign at this moment. None once it had the same for 10 seconds, or
    /// after a minute.
    pub fn pause(&mut self, sign: Sign, now: u64) -> Option<u64>
        ensures begins { self.old.sign ≡ None → self.new.began ≡ now }
        ensures goes_on { self.old.sign ≢ None → self.new.began ≡ self.old.began }
        ensures changed { self.old.sign ≢ Some sign → self.new.since ≡ now }
        ensures same_since { self.old.sign ≡ Some sign → self.new.since ≡ self.old.since }
        ensures sign { self.new.sign ≡ Some sign }
        ensures some { IfSome result (λ n. (0 < n) × (n ≤ 20) × (now - self.new.since + n ≤ 10000) × (now - self.new.began + n ≤ 60000)) }
        ensures none { result ≡ None → (10000 ≤ now - self.new.since) ⊎ (60000 ≤ now - self.new.began) }
    {
        if self.sign.is_none() {
            self.began = now;
        }
        if self.sign != Some(sign) {
            self.sign = Some(sign);
            self.since = now;
            self.pause = 1;
        }
        let still = STILL.saturating_sub(now.saturating_sub(self.since));
        let all = ALL.saturating_sub(now.saturating_sub(self.began));
        let pause = self.pause.min(still).min(all);
        if pause == 0 {
            return None;
        }
        self.pause = (self.pause * 2).min(LONGEST_PAUSE);
        Some(pause)
    }
}
