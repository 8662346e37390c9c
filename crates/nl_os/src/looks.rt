//! What is said of a file that is no log: what it looks like, or the bytes with which it begins.
ghost use Rattle.std.specs.Prelude.{◌≡◌, Some, IfSome, string_bytes, flat_map};
ghost use Rattle.nl_os.specs.Looks.{escaped, look_of, look_text};

use nl_tool_texts::append_number;
use std::alloc::Global;
use std::fmt;

/// What a file is mistaken for a log that is none.
#[derive(Clone, Copy, Debug, PartialEq, Eq, Drop)]
pub enum Look {
    Gzip,
    /// It begins with a byte order mark, of UTF-8 or UTF-16.
    Mark,
    /// Ninja's log of dependencies.
    Dependencies,
    /// A carriage return stands before its first newline.
    Return,
}

impl fmt::Display for Look {
    ghost output = { λ look. Some (look_text look) };

    fn fmt<W: fmt::Write>(&self, f: &mut fmt::Formatter<W>) -> fmt::Result {
        match self {
            Look::Gzip => write!(f, "it is gzip: unpack it first"),
            Look::Mark => write!(f, "it begins with a byte order mark"),
            Look::Dependencies => write!(f, "it is Ninja's log of dependencies, .ninja_deps"),
            Look::Return => write!(f, "its first line ends in a carriage return"),
        }
    }
}

/// What a file looks like that begins with these bytes, up to its first newline.
pub fn look_of(bytes: &[u8]) -> Option<Look>
    ensures value { result ≡ look_of bytes.now }
{
    match bytes {
        _ if bytes.starts_with(b"\x1f\x8b") => Some(Look::Gzip),
        _ if bytes.starts_with(b"\xef\xbb\xbf") => Some(Look::Mark),
        _ if bytes.starts_with(b"\xff\xfe") || bytes.starts_with(b"\xfe\xff") => Some(Look::Mark),
        _ if bytes.starts_with(b"# ninjadeps") => Some(Look::Dependencies),
        _ => bytes.ends_with(b"\r\n").then_some(Look::Return),
    }
}

/// Bytes as they are said, each of them.
pub fn escaped_of(alloc: Global, bytes: &[u8]) -> Option<String>
    ensures value { IfSome result (λ text. string_bytes text ≡ flat_map escaped bytes.now) }
{
    let mut text = Vec::new(alloc);
    for byte in bytes {
        if 31 < *byte && *byte < 127 && *byte != b'"' && *byte != b'\\' {
            text.push(*byte).ok()?;
        } else {
            append_number(*byte, &mut text).ok()?;
        }
    }
    String::from_utf8(text).ok()
}
