//! What a terminal gets of a text: each character that it doesn't obey as it is, and all other bytes by their numbers.
ghost use Rattle.std.specs.Prelude.{◌≡◌, ◌≤◌, ◌+◌, ◌*◌, ◌++◌, length, take, ℕ, IfOk, IsFalse, OnOk};
ghost use Rattle.arrayvec.specs.ArrayVec.{array_vec_len};
ghost use Rattle.nl_tool_texts.specs.Columns.{Passes, begun_then, by_number, by_numbers, is_obeyed, is_plain, is_quiet, is_whole, shown, shown_now, shown_one};

use crate::text::{AllocResult, append};
use arrayvec::ArrayVec;
use nl_fields::hex_digit;
use std::alloc::Global;

/// The first bytes of a character, but not all of them.
pub type Begun = ArrayVec<u8, 4>;

/// What so many bytes become at the most.
pub type Shown = ArrayVec<u8, 16>;

pub fn shown(alloc: Global, text: &[u8]) -> AllocResult<Vec<u8>>
    ensures value { IfOk result (λ out. out.items ≡ shown text.now) }
{
    let mut out = Vec::new(alloc);
    let mut begun = Begun::new();
    for byte in text {
        let (shown, next) = shown_now(begun.as_slice(), *byte);
        append(shown.as_slice(), &mut out)?;
        begun = next;
    }
    append(by_numbers(begun.as_slice()).as_slice(), &mut out)?;
    Ok(out)
}

/// What is shown once a byte has come after those of a character that is begun, and what is begun then.
pub fn shown_now(begun: &[u8], byte: u8) -> (Shown, Begun)
    requires few { length begun.now ≤ 3 }
    ensures now { result.0.items ≡ shown_now begun.now byte }
    ensures next { result.1.items ≡ begun_then begun.now byte }
    ensures few { length result.1.items ≤ 3 }
{
    let mut shown = Shown::new();
    let mut next = Begun::new();
    if (128..192).contains(&byte) {
        push_all(begun, &mut next);
    } else {
        push_numbers(begun, &mut shown);
    }
    next.push(byte);
    if is_whole(next.as_slice()) {
        push_one(next.as_slice(), &mut shown);
        next.clear();
    }
    (shown, next)
}

fn push_all<const N: usize>(bytes: &[u8], out: &mut ArrayVec<u8, N>)
    requires room { array_vec_len out.old + length bytes.now ≤ N }
    ensures items { out.new.items ≡ out.old.items ++ bytes.now }
{
    for byte in bytes {
        out.push(*byte);
    }
}

// Whether there are as many bytes as the first of them begins.
fn is_whole(bytes: &[u8]) -> bool
    requires some { 1 ≤ length bytes.now }
    ensures value { result ≡ is_whole bytes.now }
    ensures few { IsFalse result → length bytes.now ≤ 3 }
{
    let more = match bytes[0] {
        0..=127 => 0,
        128..=223 => 1,
        224..=239 => 2,
        _ => 3,
    };
    more < bytes.len()
}

fn push_one(bytes: &[u8], shown: &mut Shown)
    requires room { length shown.old.items + 4 * length bytes.now ≤ 16 }
    ensures items { shown.new.items ≡ shown.old.items ++ shown_one bytes.now }
{
    if is_quiet(bytes) {
        push_all(bytes, shown);
    } else {
        push_numbers(bytes, shown);
    }
}

fn is_quiet(bytes: &[u8]) -> bool
    ensures value { result ≡ is_quiet bytes.now }
{
    match str::from_utf8(bytes) {
        Ok(text) => text.chars().all(|c| !is_obeyed(c)),
        Err(_) => false,
    }
}

fn is_obeyed(c: char) -> bool
    ensures value { result ≡ is_obeyed c }
{
    match u32::from(c) {
        9 | 10 => false,
        0..=31 | 127..=159 | 1564 | 8206..=8207 | 8232..=8238 | 8294..=8297 => true,
        _ => false,
    }
}

/// Each byte by its number.
pub fn by_numbers(bytes: &[u8]) -> Shown
    requires few { length bytes.now ≤ 4 }
    ensures value { result.items ≡ by_numbers bytes.now }
{
    let mut shown = Shown::new();
    push_numbers(bytes, &mut shown);
    shown
}

fn push_numbers(bytes: &[u8], shown: &mut Shown)
    requires room { length shown.old.items + 4 * length bytes.now ≤ 16 }
    ensures items { shown.new.items ≡ shown.old.items ++ by_numbers bytes.now }
{
    for byte in bytes {
        push_all(&number_of(*byte), shown);
    }
}

/// The number is hexadecimal, as in `\x1b`.
pub fn append_number(byte: u8, out: &mut Vec<u8>) -> AllocResult
    ensures { OnOk result (out.new.items ≡ out.old.items ++ by_number byte) }
{
    append(&number_of(byte), out)
}

fn number_of(byte: u8) -> [u8; 4]
    ensures value { result ≡ by_number byte }
{
    let byte = u64::from(byte);
    [b'\\', b'x', hex_digit(byte / 16 % 16), hex_digit(byte % 16)]
}

/// How many bytes at the beginning are ASCII that is shown as it is.
pub fn plain_len(bytes: &[u8]) -> usize
    ensures bound { result ≤ length bytes.now }
    ensures passes { (n : ℕ) → n ≤ result → Passes (take n bytes.now) }
{
    let mut count = 0;
    while count < bytes.len() && is_plain(bytes[count]) {
        count += 1;
    }
    count
}

fn is_plain(byte: u8) -> bool
    ensures value { result ≡ is_plain byte }
{
    byte < 128 && !is_obeyed(char::from(byte))
}
