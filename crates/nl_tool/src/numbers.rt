//! The numbers of a command line. Each is read once, and a reader that refuses one tells which it is, and why.
ghost use Rattle.std.specs.Prelude.{◌≡◌, ◌<◌, ◌^◌, ℕ, map, pos, Ok, Some, IfErr, IfOk, IfSome};
ghost use Rattle.nl_fields.specs.Digits.{IsDecimal};
ghost use Rattle.nl_reports.specs.declared.choice.Scope.{Scope};
ghost use Rattle.nl_tool.specs.Reports.{ArePositive, AreCounts, IsCount, IsNoCount, IsNoCounts, IsNoScope, IsNotPositive, IsScope};

use nl_fields::read_i64;
use nl_reports::Scope;
use nl_tool_change::{NumberFault, NumberOf, Told, WrongNumber, build_fault, number_fault};
use nl_tool_texts::{ToolFault, ToolResult};
use std::alloc::Global;

pub fn count_of(
    text: Option<&str>,
    usual: usize,
    which: NumberOf,
    told: &mut Told,
) -> ToolResult<usize>
    ensures value { IfOk result (IsCount usual text.entry) }
    ensures accepts { (n : ℕ) → IsCount usual text.entry n → result ≡ Ok n }
    ensures faults { IfErr result (IsNoCount which usual text.entry told.new.number) }
{
    let Some(text) = text else {
        return Ok(usual);
    };
    let Some(count) = count_in(text.as_bytes()) else {
        let why = number_fault(text.as_bytes(), NumberFault::Below, NumberFault::Past64);
        let nth = None;
        return Err(told.refuse_number(WrongNumber { which, nth, why }));
    };
    Ok(count)
}

pub fn scope_of(all: bool, build: Option<&str>, told: &mut Told) -> ToolResult<Scope>
    ensures value { IfOk result (IsScope all build.entry) }
    ensures accepts { (scope : Scope) → IsScope all build.entry scope → result ≡ Ok scope }
    ensures faults { IfErr result (IsNoScope all build.entry told.new.number) }
{
    if all {
        return Ok(Scope::All);
    }
    let Some(text) = build else {
        return Ok(Scope::Last);
    };
    let Some(number) = positive_of(text.as_bytes()) else {
        let (which, nth, why) = (NumberOf::Build, None, build_fault(text.as_bytes()));
        return Err(told.refuse_number(WrongNumber { which, nth, why }));
    };
    Ok(Scope::Numbered(number as u64))
}

// A number of 0 up to 2^63 - 1, in its one spelling.
fn count_in(text: &[u8]) -> Option<usize>
    ensures value { IfSome result (λ n. (n < 2 ^ 63) × IsDecimal (pos n) text.now) }
    ensures accepts { (n : ℕ) → n < 2 ^ 63 → IsDecimal (pos n) text.now → result ≡ Some n }
{
    usize::try_from(read_i64(text)?).ok()
}

pub fn counts_of(alloc: Global, jobs: Option<&str>, told: &mut Told) -> ToolResult<Vec<usize>>
    ensures value { IfOk result (λ counts. AreCounts jobs.entry counts.items) }
    ensures faults { IfErr result (IsNoCounts jobs.entry told.new.number) }
{
    let Some(jobs) = jobs else {
        return Ok(Vec::new(alloc));
    };
    let texts: Vec<&[u8]> = jobs.as_bytes().split(|b| *b == b',').collect(alloc)?;
    positive_in(alloc, texts.as_slice(), told)
}

// Numbers of 1 up to 2^63 - 1, each in its one spelling.
fn positive_in(alloc: Global, texts: &[&[u8]], told: &mut Told) -> ToolResult<Vec<usize>>
    ensures value { IfOk result (λ counts. ArePositive (map (λ text. text.now) texts.now) counts.items) }
    ensures faults { IfErr result (IsNotPositive (map (λ text. text.now) texts.now) told.new.number) }
{
    let mut counts = Vec::new(alloc);
    for text in texts {
        let Some(count) = positive_of(text) else {
            return Err(told.refuse_number(WrongNumber {
                which: NumberOf::Jobs,
                nth: Some(counts.len().saturating_add(1)),
                why: build_fault(text),
            }));
        };
        match counts.push(count) {
            Ok(()) => {}
            Err(_) => return Err(ToolFault::Memory),
        }
    }
    Ok(counts)
}

// A number of 1 up to 2^63 - 1, in its one spelling.
pub fn positive_of(text: &[u8]) -> Option<usize>
    ensures value { IfSome result (λ n. (0 < n) × (n < 2 ^ 63) × IsDecimal (pos n) text.now) }
    ensures accepts { (n : ℕ) → 0 < n → n < 2 ^ 63 → IsDecimal (pos n) text.now → result ≡ Some n }
{
    count_in(text).filter(|count| *count > 0)
}
