//! What the definitions promise: each contract is a law, and each body is empty.
ghost use Rattle.std.specs.{Prelude.{◌≡◌, ◌≢◌, ◌↔◌, ℕ, ℤ, ◌+◌, ◌<◌, ◌≤◌, ◌^◌, List, [], length, All, Some, FitsSigned, codes}, Int.{w64}};
ghost use Rattle.nl_fields.specs.{declared.entry.Entry.{Entry}, declared.header.Header.{Header}, Limits.{max_name, max_line, max_entry_line, max_log}, Digits.{IsDigits, IsDecimal, digits_of, decimal_of}, EntryLine.{IsEntry, IsEntryLine, IsEntryLineFour, line_of, entry_of, entry_of_four}, Header.{IsHeader, version_five, header_line, header_of}, CommandHash.{IsHash, hash_of}, RapidHash.{rapid_hash_of}};

use crate::header::{HEADER, MAX_ENTRY_LINE, MAX_LINE, MAX_LOG, MAX_NAME};

pub fn the_limits()
    ensures name { MAX_NAME ≡ max_name }
    ensures line { MAX_LINE ≡ max_line }
    ensures entry_line { MAX_ENTRY_LINE ≡ max_entry_line }
    ensures log { MAX_LOG ≡ max_log }
{}

pub fn one_number()
    ensures spelling { (n : ℤ) (k l : List ℕ) → IsDecimal n k → IsDecimal n l → k ≡ l }
    ensures number { (m n : ℤ) (bytes : List ℕ) → IsDecimal m bytes → IsDecimal n bytes → m ≡ n }
    ensures exists { (n : ℤ) → FitsSigned w64 n → IsDecimal n (decimal_of n) }
    ensures hex_spelling { (n : ℕ) (k l : List ℕ) → IsDigits 16 n k → IsDigits 16 n l → k ≡ l }
    ensures hex_number { (m n : ℕ) (bytes : List ℕ) → IsDigits 16 m bytes → IsDigits 16 n bytes → m ≡ n }
    ensures hex_exists { (n : ℕ) → n < 2 ^ 64 → IsDigits 16 n (digits_of 16 n) }
{}

pub fn one_line()
    ensures line { (e : Entry) (k l : List ℕ) → IsEntryLine e k → IsEntryLine e l → k ≡ l }
    ensures exists { (e : Entry) → IsEntry e → IsEntryLine e (line_of e) }
    ensures reads_back { (e : Entry) → IsEntry e → entry_of (line_of e) ≡ Some e }
    ensures length { (e : Entry) (line : List ℕ) → IsEntryLine e line → length line + 1 ≤ max_entry_line }
    ensures newline { (e : Entry) (line : List ℕ) → IsEntryLine e line → All (λ b. b ≢ 10) line }
    ensures entry { (e f : Entry) (line : List ℕ) → IsEntryLine e line → IsEntryLine f line → e ≡ f }
    ensures decides { (e : Entry) (line : List ℕ) → (entry_of line ≡ Some e) ↔ IsEntryLine e line }
    ensures entry_four { (e f : Entry) (line : List ℕ) → IsEntryLineFour e line → IsEntryLineFour f line → e ≡ f }
    ensures decides_four { (e : Entry) (line : List ℕ) → (entry_of_four line ≡ Some e) ↔ IsEntryLineFour e line }
    ensures newline_four { (e : Entry) (line : List ℕ) → IsEntryLineFour e line → All (λ b. b ≢ 10) line }
{}

pub fn one_header()
    ensures line { HEADER.now ≡ header_line }
    ensures newline { All (λ b. b ≢ 10) version_five }
    ensures reads_back { header_of version_five ≡ Header.V5 }
    ensures header { (line : List ℕ) (h k : Header) → IsHeader line h → IsHeader line k → h ≡ k }
    ensures exists { (line : List ℕ) → IsHeader line (header_of line) }
{}

pub fn one_hash()
    ensures hash { (command : List ℕ) (h k : ℕ) → IsHash command h → IsHash command k → h ≡ k }
    ensures exists { (command : List ℕ) → IsHash command (hash_of command) }
{}

/// The values are those of Ninja's own function: of no byte, and of texts of each kind of end.
pub fn rapid_hash_vectors()
    ensures nothing { rapid_hash_of [] ≡ 0x5a6ef77074ebc84b }
    ensures three { rapid_hash_of (codes "abc") ≡ 0x347080fbf5fcd81 }
    ensures seven { rapid_hash_of (codes "cp s o1") ≡ 0xb0cba31c290a65e0 }
    ensures sixteen { rapid_hash_of (codes "0123456789abcdef") ≡ 0xfcc8fa4e2771d2ef }
    ensures seventeen { rapid_hash_of (codes "0123456789abcdefg") ≡ 0xab3c2320d701d807 }
{}
