//! The columns of a text at a terminal.
ghost use Rattle.std.specs.Prelude.{◌≡◌, ◌++◌, length, map, IfOk, OnOk};
ghost use Rattle.nl_tool_texts.specs.Columns.{begins_one, cell, cells, end_of, field_at, fields_of, in_columns, last_cell, lines_of, newline_before, row_of, rows_up_to, spaces, widest, width, widths, shown};

use crate::terminal::shown;
use crate::text::{AllocResult, append};
use std::alloc::Global;

/// The text with its fields in columns, and as a terminal may have it. Tabs part the fields of a line. Lines with as many fields
/// share their columns, wherever they stand. Two spaces part columns; the last one stands at its left, and any other at its right. Where a
/// line would have more characters than `most`, its last field is cut at its beginning, if others stand before it.
///
/// It takes the memory of what it answers and of the text, and 16 bytes for each line.
pub fn in_columns(alloc: Global, most: usize, text: &[u8]) -> AllocResult<Vec<u8>>
    ensures value { IfOk result (λ out. out.items ≡ in_columns most text.now) }
{
    let text = shown(alloc, text)?;
    let lines = lines_of(alloc, text.as_slice())?;
    // Keeps the columns of the line before, for a next line with as many fields.
    let mut found = Vec::new(alloc);
    let mut out = Vec::new(alloc);
    for i in 0..lines.len() {
        if i > 0 {
            out.push(b'\n')?;
        }
        let count = count_fields(lines[i]);
        if found.len() != count {
            found.clear();
            for place in 0..count {
                found.push(widest(lines.as_slice(), count, place))?;
            }
        }
        append_cells(most, found.as_slice(), lines[i], &mut out)?;
    }
    Ok(out)
}

pub fn lines_of(alloc: Global, text: &[u8]) -> AllocResult<Vec<&[u8]>>
    ensures value { IfOk result (λ lines. map (λ line. line.now) lines.items ≡ lines_of text.now) }
{
    text.split(|b| *b == b'\n').collect(alloc)
}

fn widest(lines: &[&[u8]], count: usize, place: usize) -> usize
    ensures value { result ≡ widest count place (map (λ line. line.now) lines.now) 0 }
{
    let mut found = 0;
    for line in lines {
        if count_fields(line) == count {
            found = found.max(width(field_at(line, place)));
        }
    }
    found
}

fn append_cells(most: usize, widths: &[usize], line: &[u8], out: &mut Vec<u8>) -> AllocResult
    ensures items { OnOk result (out.new.items ≡ out.old.items ++ cells most widths.now line.now) }
{
    let last = widths.len().saturating_sub(1);
    let mut room = most;
    for place in 0..last {
        let field = field_at(line, place);
        'spaces: for _ in 0..widths[place].saturating_sub(width(field)) {
            out.push(b' ')?;
        }
        append(field, out)?;
        append(b"  ", out)?;
        room = room.saturating_sub(widths[place]).saturating_sub(2);
    }
    // The last field stands whole, or as an ellipsis and its end.
    let field = field_at(line, last);
    if last == 0 || width(field) <= room {
        return append(field, out);
    }
    append(b"\xe2\x80\xa6", out)?;
    append(end_of(room.saturating_sub(1), field), out)
}

// The longest end of a field that has so many characters at most, and begins with one.
fn end_of(room: usize, field: &[u8]) -> &[u8]
    ensures value { result.now ≡ end_of room field.now }
{
    let mut at = 0;
    let mut left = width(field);
    while at < field.len() {
        if begins_one(field[at]) {
            if left <= room {
                return &field[at..];
            }
            left = left.saturating_sub(1);
        }
        at += 1;
    }
    &field[at..]
}

fn count_fields(line: &[u8]) -> usize
    ensures value { result ≡ length (fields_of line.now) }
{
    line.split(|b| *b == b'\t').count()
}

fn field_at(line: &[u8], place: usize) -> &[u8]
    ensures value { result.now ≡ field_at line.now place }
{
    line.split(|b| *b == b'\t').nth(place).unwrap_or(b"")
}

// How many characters of UTF-8 a field has. A byte that is of none counts as one, unless it could go on with one.
fn width(field: &[u8]) -> usize
    ensures value { result ≡ width field.now }
{
    field.iter().filter(|b| begins_one(**b)).count()
}

fn begins_one(byte: u8) -> bool
    ensures value { result ≡ begins_one byte }
{
    !(128..192).contains(&byte)
}
