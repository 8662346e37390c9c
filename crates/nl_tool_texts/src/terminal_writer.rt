//! A writer in front of one that may be a terminal: what a terminal obeys doesn't come through.
ghost use Rattle.std.specs.{Prelude.{◌≤◌, length}, Io.{WritesAtMost}, Io.KnownBytes.{WriteAppends}};

use crate::terminal::{Begun, Shown, by_numbers, plain_len, shown_now};
use std::io::{self, ErrorKind, Write};

/// At a terminal a text is shown as `shown` has it, and elsewhere its bytes pass as they are. A character may come in parts. What isn't one
/// yet is kept for the next write, and `flush` shows its bytes by their numbers.
#[derive(Drop)]
pub struct TerminalWriter<W> {
    writer: W,
    at_terminal: bool,
    begun: Begun,
    // What the writer hasn't taken yet stands here, from a place on.
    waiting: Shown,
    sent: usize,
    ghost few: { length begun.items ≤ 3 },
    ghost within: { sent ≤ length waiting.items },
}

impl<W: Write> TerminalWriter<W> {
    ghost use Rattle.std.specs.Prelude.{◌≡◌, [], None, OnOk, if◌then◌else◌};
    ghost use Rattle.std.specs.Io.KnownBytes.{Keeps, append_known};
    ghost use Rattle.nl_tool_texts.specs.Terminal.{showing_of};

    pub fn new(writer: W, at_terminal: bool) -> Self
        ensures same { ⟦<TerminalWriter<W> as Write>⟧.contents result ≡ (if at_terminal then None else W.contents writer) }
        ensures held { showing_of W.contents result ≡ record { shown = append_known (W.contents writer) []; begun = [] } }
        ensures terminal { result.at_terminal ≡ at_terminal }
    {
        TerminalWriter {
            writer,
            at_terminal,
            begun: Begun::new(),
            waiting: Shown::new(),
            sent: 0,
        }
    }

    // Writes what waits.
    fn send(&mut self) -> io::Result<()>
        ensures same { Keeps (showing_of W.contents self.old).shown (showing_of W.contents self.new).shown }
        ensures kept { (self.new.at_terminal ≡ self.old.at_terminal) × (self.new.begun ≡ self.old.begun) × (self.new.waiting ≡ self.old.waiting) }
        ensures ok { OnOk result (self.new.sent ≡ length self.new.waiting.items) }
    {
        while self.sent < self.waiting.len() {
            match self.writer.write(&self.waiting.as_slice()[self.sent..])? {
                0 => return Err(ErrorKind::WriteZero.into()),
                count => self.sent += count,
            }
        }
        Ok(())
    }
}

impl<W: Write> Write for TerminalWriter<W> {
    ghost use Rattle.std.specs.Prelude.{◌≡◌, None, IsTrue, if◌then◌else◌};
    ghost use Rattle.std.specs.Io.KnownBytes.{Keeps};
    ghost use Rattle.nl_tool_texts.specs.Terminal.{Ends, ShowsMore, showing_of};

    // A terminal has another text than the one that was written, so nothing is known of that.
    ghost contents = { λ w. if w.at_terminal then None else W.contents w.writer };

    fn write(&mut self, buf: &[u8]) -> io::Result<usize>
        ensures bound { WritesAtMost result buf.now }
        ensures bytes { WriteAppends (⟦<TerminalWriter<W> as Write>⟧.contents self.old) (⟦<TerminalWriter<W> as Write>⟧.contents self.new) result buf.now }
        ensures shows { IsTrue self.old.at_terminal → ShowsMore (showing_of W.contents self.old) (showing_of W.contents self.new) result buf.now }
        ensures kept { self.new.at_terminal ≡ self.old.at_terminal }
    {
        if !self.at_terminal {
            return self.writer.write(buf);
        }
        self.send()?;
        let plain = plain_len(buf);
        if self.begun.is_empty() && plain > 0 {
            return self.writer.write(&buf[..plain]);
        }
        let Some(byte) = buf.first() else {
            return Ok(0);
        };
        let (shown, begun) = shown_now(self.begun.as_slice(), *byte);
        let sent = write_some(shown.as_slice(), &mut self.writer)?;
        if sent == 0 && !shown.is_empty() {
            return Ok(0);
        }
        self.begun = begun;
        self.waiting = shown;
        self.sent = sent;
        Ok(1)
    }

    fn flush(&mut self) -> io::Result<()>
        ensures bytes { Keeps (⟦<TerminalWriter<W> as Write>⟧.contents self.old) (⟦<TerminalWriter<W> as Write>⟧.contents self.new) }
        ensures ends { IsTrue self.old.at_terminal → Ends (showing_of W.contents self.old) (showing_of W.contents self.new) (W.contents self.new.writer) result }
        ensures kept { self.new.at_terminal ≡ self.old.at_terminal }
    {
        if self.at_terminal {
            self.send()?;
            self.waiting = by_numbers(self.begun.as_slice());
            self.sent = 0;
            self.begun.clear();
            self.send()?;
        }
        self.writer.flush()
    }
}

// No bytes need no write.
fn write_some<W: Write>(bytes: &[u8], writer: &mut W) -> io::Result<usize>
    ensures bound { WritesAtMost result bytes.now }
    ensures bytes { WriteAppends (W.contents writer.old) (W.contents writer.new) result bytes.now }
{
    if bytes.is_empty() {
        return Ok(0);
    }
    writer.write(bytes)
}
