//! Texts that are appended part by part, and written in as many writes as it takes, or piece by piece, as they are made.
ghost use Rattle.std.specs.{Prelude.{◌≡◌, ◌++◌, IsTrue, OnOk, map, All, ◌<◌, ◌^◌, IfOk, string_bytes, ◌≤◌, length, vec_capacity, OnErr, IfErr}, Io.KnownBytes.{Appends}};
ghost use Rattle.nl_tool_texts.specs.{Escape.{IsBare}, Texts.{change_text, line, part_text, parts_text, rest_text, sign, time_text, took_text, two_text}, Fraction.{percent, ratio}, Output.{AppendsPrefixOf}, Steps.{step_of}, Writing.{HoldsAllBut}};

use crate::fault::{ToolFault, ToolResult};
use itoa::{Buffer, Integer};
use std::alloc::{AllocError, Global};
use std::io::Write;

/// What a function answers that is refused nothing but memory.
pub type AllocResult<T = ()> = Result<T, AllocError>;

/// The moment at which a build begins: a moment is a count from 2^31 milliseconds before it.
pub const BEGINNING: u64 = 2_147_483_648;

/// Appends a text.
pub fn append(text: &[u8], out: &mut Vec<u8>) -> AllocResult
    ensures items { OnOk result (out.new.items ≡ out.old.items ++ text.now) }
{
    out.extend_from_slice(text)
}

/// Appends a text and a number after the text.
pub fn append_with<I: Integer>(text: &[u8], number: I, out: &mut Vec<u8>) -> AllocResult
    ensures items { OnOk result (out.new.items ≡ out.old.items ++ (text.now ++ I.text number)) }
{
    out.extend_from_slice(text)?;
    out.extend_from_slice(Buffer::new().format(number).as_bytes())
}

/// A part of a text: one that stands there, a number, so many in a hundred, a time in words, one in words or in milliseconds, and by how
/// much a time is another, in words or in milliseconds.
#[derive(Clone, Copy, Drop)]
pub enum Part<'a> {
    Text(&'a [u8]),
    Number(u128),
    Percent(u128),
    Time(u64),
    Took(bool, u128),
    Change(bool, u128, u128),
    /// When something ran, from the beginning of its build on.
    Moment(bool, u64),
    /// In seconds, with three digits after the point.
    Seconds(u64),
}

/// Appends what stands in it, one after another: texts as they are, numbers in braces, and other parts in brackets.
#[macro_export]
macro_rules! put {
    (@ {$number:expr}) => { $crate::Part::Number($number as u128) };
    (@ [$part:expr]) => { $part };
    (@ $text:literal) => { $crate::Part::Text($text) };
    ($out:expr; $($part:tt)+) => { $crate::append_parts(&[$($crate::put!(@ $part)),+], $out) };
}

/// Appends these parts.
pub fn append_parts(parts: &[Part<'_>], out: &mut Vec<u8>) -> AllocResult
    ensures items { OnOk result (out.new.items ≡ out.old.items ++ parts_text parts.now) }
{
    for part in parts {
        append_part(part, out)?;
    }
    Ok(())
}

fn append_part(part: &Part<'_>, out: &mut Vec<u8>) -> AllocResult
    ensures items { OnOk result (out.new.items ≡ out.old.items ++ part_text part.now) }
{
    match part {
        Part::Text(text) => append(text, out),
        Part::Number(number) => append_with(b"", *number, out),
        Part::Percent(number) => {
            append_with(b"", *number, out)?;
            append(b"%", out)
        }
        Part::Time(ms) => append_took(true, u128::from(*ms), out),
        Part::Took(words, ms) => append_took(*words, *ms, out),
        Part::Change(words, old, new) => {
            if new < old {
                append(b"-", out)?;
            } else if *words && old < new {
                append(b"+", out)?;
            }
            append_took(*words, old.abs_diff(*new), out)
        }
        Part::Moment(words, at) if *at < BEGINNING => {
            append(b"-", out)?;
            append_took(*words, u128::from(BEGINNING - *at), out)
        }
        Part::Moment(words, at) => append_took(*words, u128::from(*at - BEGINNING), out),
        Part::Seconds(ms) => {
            append_with(b"", *ms / 1000, out)?;
            append_with(b".", *ms % 1000 / 100, out)?;
            append_with(b"", *ms % 100 / 10, out)?;
            append_with(b"", *ms % 10, out)
        }
    }
}

/// Appends a line of these fields, which tabs part.
pub fn append_line(fields: &[Part<'_>], out: &mut Vec<u8>) -> AllocResult
    ensures items { OnOk result (out.new.items ≡ out.old.items ++ line (map part_text fields.now)) }
{
    let mut before: &[u8] = b"";
    for field in fields {
        append(before, out)?;
        append_part(field, out)?;
        before = b"\t";
    }
    append(b"\n", out)
}

// Words have two units at most, and what is less is dropped.
fn append_took(words: bool, ms: u128, out: &mut Vec<u8>) -> AllocResult
    ensures items { OnOk result (out.new.items ≡ out.old.items ++ took_text words ms) }
{
    if !words {
        return append_with(b"", ms, out);
    }
    if ms == 0 {
        return append(b"0 s", out);
    }
    if ms < 1000 {
        return append_rest(b"", ms, b" ms", out);
    }
    if ms < 60_000 {
        append_with(b"", ms / 1000, out)?;
        append_rest(b".", ms % 1000 / 100, b"", out)?;
        return append(b" s", out);
    }
    if ms < 3_600_000 {
        append_with(b"", ms / 60_000, out)?;
        append(b" min", out)?;
        return append_rest(b" ", ms % 60_000 / 1000, b" s", out);
    }
    append_with(b"", ms / 3_600_000, out)?;
    append(b" h", out)?;
    append_rest(b" ", ms % 3_600_000 / 60_000, b" min", out)
}

fn append_rest(before: &[u8], number: u128, unit: &[u8], out: &mut Vec<u8>) -> AllocResult
    ensures items { OnOk result (out.new.items ≡ out.old.items ++ rest_text before.now number unit.now) }
{
    if number == 0 {
        return Ok(());
    }
    append_with(before, number, out)?;
    append(unit, out)
}

// In milliseconds; a build has at most twelve steps.
const STEPS: [u64; 26] = [
    1, 2, 5, 10, 20, 50, 100, 200, 500, 1000, 2000, 5000, 10_000, 15_000, 30_000, 60_000, 120_000,
    300_000, 900_000, 1_800_000, 3_600_000, 7_200_000, 18_000_000, 36_000_000, 72_000_000,
    180000000,
];

const LONGEST: u64 = 360_000_000;

/// The distance of two lines, in milliseconds.
pub fn step_of(wall: u64) -> u64
    ensures value { result ≡ step_of wall }
    ensures some { 0 < result }
{
    for step in STEPS.as_slice() {
        if wall <= *step * 12 {
            return *step;
        }
    }
    LONGEST
}

/// Whether a name is of bytes alone that stand in JSON and in XML as they are.
pub fn is_bare(name: &[u8]) -> bool
    ensures bare { IsTrue result → All IsBare name.now }
{
    name.iter().all(|byte| {
        (32 <= *byte && *byte <= 126)
            && (*byte != b'"' && *byte != b'\\')
            && (*byte != b'<' && *byte != b'>' && *byte != b'&')
    })
}

// The part in a hundred of a whole, rounded down, and a hundred at most.
pub fn percent(part: u128, whole: u128) -> u128
    requires room { whole < 2 ^ 120 }
    ensures value { result ≡ percent part whole }
{
    let hundredfold = part.min(whole) * 100;
    hundredfold.checked_div(whole).unwrap_or(0)
}

// A fraction with two digits after the point, rounded down.
pub fn ratio(alloc: Global, part: u128, whole: u128) -> AllocResult<String>
    requires room { whole < 2 ^ 120 }
    ensures value { IfOk result (λ text. string_bytes text ≡ ratio part whole) }
{
    if whole == 0 {
        return String::from_str(alloc, "0.00");
    }
    let hundredths = part % whole * 100 / whole;
    format!(in alloc; "{}.{}{}", part / whole, hundredths / 10, hundredths % 10)
}

/// It stops at the first write that fails or takes no byte. A write that was interrupted has failed.
pub fn write_out<W: Write>(text: &[u8], writer: &mut W) -> ToolResult
    ensures ok { OnOk result (Appends (W.contents writer.old) (W.contents writer.new) text.now) }
    ensures prefix { OnErr result (AppendsPrefixOf (W.contents writer.old) (W.contents writer.new) text.now) }
    ensures faults { IfErr result (λ e. e ≡ ToolFault.Write) }
{
    let mut rest = text;
    while !rest.is_empty() {
        match writer.write(rest) {
            Ok(0) | Err(_) => return Err(ToolFault::Write),
            Ok(n) => rest = &rest[n..],
        }
    }
    Ok(())
}

/// Writes what is held of a text, if that is more than so many bytes.
pub fn write_full<W: Write>(most: usize, held: &mut Vec<u8>, writer: &mut W) -> ToolResult
    ensures few { OnOk result (length held.new.items ≤ most) }
    ensures capacity { vec_capacity held.old ≤ vec_capacity held.new }
    ensures moved { OnOk result (HoldsAllBut (W.contents writer.old) (W.contents writer.new) held.old.items held.new.items) }
    ensures prefix { OnErr result (AppendsPrefixOf (W.contents writer.old) (W.contents writer.new) held.old.items) }
    ensures faults { IfErr result (λ e. e ≡ ToolFault.Write) }
{
    if held.len() > most {
        write_out(held.as_slice(), writer)?;
        held.clear();
    }
    Ok(())
}
