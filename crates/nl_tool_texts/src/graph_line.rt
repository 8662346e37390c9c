//! A line of the text that `ninja -t graph` prints.
ghost use Rattle.std.specs.Prelude.{◌≡◌, codes, option_map};
ghost use Rattle.nl_tool_texts.specs.GraphLine.{are_attributes, behind, both_now, is_setting, line_in, line_seen, quoted, said_of, to_quote};

use memchr::memchr;

#[derive(Clone, Copy, Drop)]
pub(crate) enum Line<'a> {
    /// It says nothing of nodes and edges.
    Passed,
    Labelled { id: &'a [u8], name: &'a [u8] },
    /// An edge leads from a number to another.
    Joined { from: &'a [u8], to: &'a [u8] },
}

/// None if the line may not stand there: the first begins the graph, and only empty lines come after its end.
pub(crate) fn line_in(ended: bool, number: u64, line: &[u8]) -> Option<Line<'_>>
    ensures value { option_map line_seen result ≡ line_in ended number line.now }
{
    let is_passed = if number == 1 {
        line == b"digraph ninja {".as_slice()
    } else if ended {
        line.is_empty()
    } else if line == b"}".as_slice() {
        true
    } else if let Some((id, rest)) = quoted(line) {
        return read_behind(id, rest);
    } else {
        line.strip_prefix(b"rankdir=").is_some()
            || line.strip_prefix(b"node [").is_some()
            || line.strip_prefix(b"edge [").is_some()
    };
    is_passed.then_some(Line::Passed)
}

fn read_behind<'a>(id: &'a [u8], rest: &'a [u8]) -> Option<Line<'a>>
    ensures value { option_map line_seen result ≡ said_of id.now rest.now (behind (codes " [label=\"") rest.now) }
{
    if let Some(tail) = rest.strip_prefix(b" [label=\"") {
        if let Some(name) = tail.strip_suffix(b"\"]") {
            return Some(Line::Labelled { id, name });
        }
        tail.strip_suffix(b"\", shape=ellipse]")?;
        return Some(Line::Passed);
    }
    let (to, more) = quoted(rest.strip_prefix(b" -> ")?)?;
    let is_edge = more.is_empty()
        || more.strip_prefix(b" [").is_some() && more.strip_suffix(b"]").is_some();
    is_edge.then_some(Line::Joined { from: id, to })
}

// The bytes in quotes with which a text begins, and what follows them.
fn quoted(bytes: &[u8]) -> Option<(&[u8], &[u8])>
    ensures value { option_map both_now result ≡ quoted bytes.now }
{
    let tail = bytes.strip_prefix(b"\"")?;
    let at = memchr(b'"', tail)?;
    Some((&tail[..at], &tail[at + 1..]))
}
