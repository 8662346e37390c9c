//! Names as the text of an XML document.
ghost use Rattle.std.specs.Prelude.{◌≡◌, ◌≤◌, ◌++◌, length, IfOk, OnOk};
ghost use Rattle.nl_tool_texts.specs.Escape.{begins_character, cut_at, cut_name, escaped, label, piece, shown};

use crate::text::{AllocResult, append, is_bare};
use std::alloc::Global;

// Bytes: the longest text of a name that stands whole, and the beginning of a longer name.
const WHOLE: usize = 100;

const START: usize = 20;

pub fn append_label(alloc: Global, name: &[u8], out: &mut Vec<u8>) -> AllocResult
    ensures items { OnOk result (out.new.items ≡ out.old.items ++ label name.now) }
{
    if name.len() <= WHOLE && is_bare(name) {
        return append(name, out);
    }
    let mut whole = Vec::new(alloc);
    append_escaped(String::from_utf8_lossy(alloc, name)?.as_bytes(), &mut whole)?;
    if whole.len() <= WHOLE {
        return append(whole.as_slice(), out);
    }
    let start = String::from_utf8_lossy(alloc, &name[..name.len().min(START)])?;
    append_escaped(start.as_bytes(), out)?;
    append(b"..", out)
}

/// It appends the name; if that has more than `most` bytes, whole characters of it and an ellipsis.
pub fn append_cut_name(alloc: Global, most: usize, name: &[u8], out: &mut Vec<u8>) -> AllocResult
    ensures items { OnOk result (out.new.items ≡ out.old.items ++ cut_name most name.now) }
{
    let text = String::from_utf8_lossy(alloc, name)?;
    let bytes = text.as_bytes();
    if bytes.len() <= most {
        return append_escaped(bytes, out);
    }
    let at = text.floor_char_boundary(most.saturating_sub(1));
    append_escaped(&bytes[..at], out)?;
    append(b"\xE2\x80\xA6", out)
}

fn append_escaped(text: &[u8], out: &mut Vec<u8>) -> AllocResult
    ensures items { OnOk result (out.new.items ≡ out.old.items ++ escaped text.now) }
{
    let mut first: u8 = 0;
    let mut second: u8 = 0;
    for byte in text {
        match *byte {
            b'<' => append(b"&lt;", out)?,
            b'>' => append(b"&gt;", out)?,
            b'"' => append(b"&#34;", out)?,
            b'&' => append(b"&#38;", out)?,
            0..=31 => append(b"\xEF\xBF\xBD", out)?,
            0xBE..=0xFF if first == 0xEF && second == 0xBF => append(b"\xBD", out)?,
            _ => append(&[*byte], out)?,
        }
        first = second;
        second = *byte;
    }
    Ok(())
}
