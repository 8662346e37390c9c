//! Numbers in their one decimal spelling, and hashes in their one hexadecimal one.
ghost use Rattle.std.specs.{Prelude.{◌≡◌, ℕ, ◌^◌, ◌≤◌, ◌<◌, ◌+◌, ◌++◌, List, length, take, Some, IsSome, IfSome, IsOk, OnErr, OnOk, ℤ, FitsSigned, vec_len, vec_capacity}, Int.{w32, w64}};
ghost use Rattle.nl_fields.specs.{Digits.{IsDigit, IsDigits, IsDecimal, digit_of, digits_of}, Fields.{BeginsWith}};

use std::alloc::AllocError;

// The value of each byte up to `f` as a digit, and 255 for none. A table, because tests for letters would mispredict: which digits come can't
// be foreseen.
static VALUES: [u8; 103] = [
    255, 255, 255, 255, 255, 255, 255, 255, 255, 255, 255, 255, 255, 255, 255, 255, 255, 255, 255,
    255, 255, 255, 255, 255, 255, 255, 255, 255, 255, 255, 255, 255, 255, 255, 255, 255, 255, 255,
    255, 255, 255, 255, 255, 255, 255, 255, 255, 255, 0, 1, 2, 3, 4, 5, 6, 7, 8, 9, 255, 255, 255,
    255, 255, 255, 255, 255, 255, 255, 255, 255, 255, 255, 255, 255, 255, 255, 255, 255, 255, 255,
    255, 255, 255, 255, 255, 255, 255, 255, 255, 255, 255, 255, 255, 255, 255, 255, 255, 10, 11,
    12, 13, 14, 15,
];

fn digit_value(digit: u8, base: u64) -> Option<u64>
    requires { base ≤ 16 }
    ensures value { IfSome result (λ d. IsDigit base d digit) }
    ensures accepts { (d : ℕ) → IsDigit base d digit → result ≡ Some d }
{
    if digit > b'f' {
        return None;
    }
    let value = u64::from(VALUES[digit as usize]);
    if value < base { Some(value) } else { None }
}

// It looks at the length first, so that no digit needs a test of overflow.
#[inline(always)]
pub(crate) fn read_digits(digits: &[u8], base: u64, longest: usize) -> Option<u64>
    requires base { base ≤ 16 }
    requires some { 1 ≤ longest }
    requires fits { base ^ longest ≤ 2 ^ 64 }
    ensures value { IfSome result (λ n. IsDigits base n digits.now) }
    ensures accepts { (n : ℕ) → n < base ^ longest → IsDigits base n digits.now → result ≡ Some n }
{
    if digits.len() > longest {
        return None;
    }
    let (first, rest) = digits.split_first()?;
    let mut number = digit_value(*first, base)?;
    if rest.is_empty() {
        return Some(number);
    }
    // Nothing follows a leading zero.
    if number == 0 {
        return None;
    }
    for digit in rest {
        number = base * number + digit_value(*digit, base)?;
    }
    Some(number)
}

#[inline(always)]
pub fn read_hex64(bytes: &[u8]) -> Option<u64>
    ensures value { IfSome result (λ n. IsDigits 16 n bytes.now) }
    ensures accepts { (n : ℕ) → n < 2 ^ 64 → IsDigits 16 n bytes.now → result ≡ Some n }
{
    // Most hashes have 16 digits, and the loop over a known number of them is unrolled.
    if bytes.len() == 16 {
        read_digits(&bytes[..16], 16, 16)
    } else {
        read_digits(bytes, 16, 16)
    }
}

/// In lower case.
pub fn hex_digit(value: u64) -> u8
    requires { value < 16 }
    ensures { result ≡ digit_of value }
{
    b"0123456789abcdef"[value as usize]
}

/// Appends the number's spelling, which has at most 16 bytes.
pub fn append_hex64(number: u64, out: &mut Vec<u8>) -> Result<(), AllocError>
    ensures ok { OnOk result (out.new.items ≡ out.old.items ++ digits_of 16 number) }
    ensures unchanged { OnErr result (out.new.items ≡ out.old.items) }

    ensures room { vec_len out.old + 16 ≤ vec_capacity out.old → IsOk result }
    ensures capacity { vec_capacity out.old ≤ vec_capacity out.new }
{
    let mut digits = [0; 16];
    let mut start = 15;
    digits[start] = hex_digit(number % 16);
    let mut left = number / 16;
    while left > 0 {
        start -= 1;
        digits[start] = hex_digit(left % 16);
        left /= 16;
    }
    out.extend_from_slice(&digits[start..])
}

// The digits of the largest magnitude, 2^63.
const LONGEST: usize = 19;

pub fn read_i64(bytes: &[u8]) -> Option<i64>
    ensures value { IfSome result (λ n. IsDecimal n bytes.now) }
    ensures accepts { (n : ℤ) → FitsSigned w64 n → IsDecimal n bytes.now → result ≡ Some n }
{
    match bytes {
        [b'-', digits @ ..] => {
            let magnitude = read_digits(digits, 10, LONGEST)?;
            if magnitude == 0 {
                return None;
            }
            0i64.checked_sub_unsigned(magnitude)
        }
        _ => i64::try_from(read_digits(bytes, 10, LONGEST)?).ok(),
    }
}

pub fn read_i32(bytes: &[u8]) -> Option<i32>
    ensures value { IfSome result (λ n. IsDecimal n bytes.now) }
    ensures accepts { (n : ℤ) → FitsSigned w32 n → IsDecimal n bytes.now → result ≡ Some n }
{
    i32::try_from(read_i64(bytes)?).ok()
}

fn decimal_digit(byte: u8) -> Option<u64>
    ensures value { IfSome result (λ d. IsDigit 10 d byte) }
    ensures accepts { (d : ℕ) → IsDigit 10 d byte → result ≡ Some d }
{
    let value = u64::from(byte).wrapping_sub(u64::from(b'0'));
    if value < 10 { Some(value) } else { None }
}

// The number at the front by its longest spelling, and the spelling's length, or 0. Inlined, so that the loop of `LONGEST` turns is unrolled.
#[inline(always)]
fn leading_digits(bytes: &[u8]) -> (u64, usize)
    requires short { length bytes.now ≤ 19 }
    ensures within { result.1 ≤ length bytes.now }
    ensures spells { 1 ≤ result.1 → IsDigits 10 result.0 (take result.1 bytes.now) }
    ensures longest { (n k : ℕ) → k ≤ length bytes.now → IsDigits 10 n (take k bytes.now) → k ≤ result.1 }
{
    let Some((first, rest)) = bytes.split_first() else {
        return (0, 0);
    };
    let Some(mut number) = decimal_digit(*first) else {
        return (0, 0);
    };
    // Nothing follows a leading zero.
    if number == 0 {
        return (0, 1);
    }
    for i in 0..rest.len() {
        let Some(digit) = decimal_digit(rest[i]) else {
            return (number, i + 1);
        };
        number = 10 * number + digit;
    }
    (number, bytes.len())
}

#[inline(always)]
fn split_digits(bytes: &[u8]) -> Option<(u64, &[u8])>
    ensures found { IfSome result (λ r. BeginsWith (IsDigits 10 r.0) bytes.now r.1.now) }
    ensures accepts { (n : ℕ) (rest : List ℕ) → n < 10 ^ 19 → BeginsWith (IsDigits 10 n) bytes.now rest → IsSome result }
{
    let (number, len) = if bytes.len() >= LONGEST {
        leading_digits(&bytes[..LONGEST])
    } else {
        leading_digits(bytes)
    };
    if len == 0 {
        return None;
    }
    let (tab, rest) = bytes[len..].split_first()?;
    if *tab != b'\t' {
        return None;
    }
    Some((number, rest))
}

#[inline(always)]
pub(crate) fn split_i64(bytes: &[u8]) -> Option<(i64, &[u8])>
    ensures found { IfSome result (λ r. BeginsWith (IsDecimal r.0) bytes.now r.1.now) }
    ensures accepts { (n : ℤ) (rest : List ℕ) → FitsSigned w64 n → BeginsWith (IsDecimal n) bytes.now rest → IsSome result }
{
    let (first, digits) = bytes.split_first()?;
    if *first == b'-' {
        let (magnitude, rest) = split_digits(digits)?;
        if magnitude == 0 {
            return None;
        }
        Some((0i64.checked_sub_unsigned(magnitude)?, rest))
    } else {
        let (magnitude, rest) = split_digits(bytes)?;
        Some((i64::try_from(magnitude).ok()?, rest))
    }
}

#[inline(always)]
pub(crate) fn split_i32(bytes: &[u8]) -> Option<(i32, &[u8])>
    ensures found { IfSome result (λ r. BeginsWith (IsDecimal r.0) bytes.now r.1.now) }
    ensures accepts { (n : ℤ) (rest : List ℕ) → FitsSigned w32 n → BeginsWith (IsDecimal n) bytes.now rest → IsSome result }
{
    let (number, rest) = split_i64(bytes)?;
    Some((i32::try_from(number).ok()?, rest))
}
