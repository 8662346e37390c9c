//! The laws of lines and of what readers of lines give. Each is the contract of a function that does nothing.
ghost use Rattle.std.specs.Prelude.{◌≡◌, ◌⊎◌, ◌<◌, ◌≤◌, ◌+◌, ℕ, List, [], ◌∷◌, ◌++◌, length, take, All, Option, None, Some, Ok, Err, map};
ghost use Rattle.nl_lines.specs.{Prefix.{IsPrefix}, Split.{NoNewline, EndsInNewline, SplitsInto, with_newline, joined, lines_of, rest_of, whole_len, torn_len}, Lines.{Reader, TakesLine, TakesRest, AnswersNext, fresh, max_line, max_log, text_left}, Runs.{GivenInTurn, as_shown, text_shown}, declared.lines.Line.{Line}};

use crate::lines::LineFault;
use crate::window::{MAX_LINE, MAX_LOG};

pub fn the_limits()
    ensures line { MAX_LINE ≡ max_line }
    ensures log { MAX_LOG ≡ max_log }
{}

pub fn a_text_splits_one_way()
    ensures exists { (text : List ℕ) → SplitsInto text (lines_of text) (rest_of text) }
    ensures one { (text : List ℕ) (lines : List (List ℕ)) (rest : List ℕ) → SplitsInto text lines rest
        → (lines_of text ≡ lines) × (rest_of text ≡ rest) }
    ensures length { (text : List ℕ) → whole_len text + torn_len text ≡ length text }
    ensures whole { (text : List ℕ) → take (whole_len text) text ≡ joined (lines_of text) }
    ensures nothing { (text : List ℕ) → whole_len text ≡ 0 → lines_of text ≡ [] }
{}

/// Joined lines come back, whatever stands behind them. A tail without a newline changes no line, and a last newline leaves no rest.
pub fn lines_of_a_longer_text()
    ensures joined_lines { (lines : List (List ℕ)) (tail : List ℕ) → All NoNewline lines
        → lines_of (joined lines ++ tail) ≡ lines ++ lines_of tail }
    ensures joined_rest { (lines : List (List ℕ)) (tail : List ℕ) → All NoNewline lines → rest_of (joined lines ++ tail) ≡ rest_of tail }
    ensures tail_lines { (text tail : List ℕ) → NoNewline tail → lines_of (text ++ tail) ≡ lines_of text }
    ensures tail_rest { (text tail : List ℕ) → NoNewline tail → rest_of (text ++ tail) ≡ rest_of text ++ tail }
    ensures some { (text : List ℕ) → EndsInNewline text → 1 ≤ length (lines_of text) }
    ensures none { (text : List ℕ) → EndsInNewline text → rest_of text ≡ [] }
    ensures ends { (line : List ℕ) (lines : List (List ℕ)) → EndsInNewline (joined (line ∷ lines)) }
{}

/// A prefix has the first lines. One that has all whole lines has the same lines, and a prefix of the rest.
pub fn lines_of_a_prefix()
    ensures first { (text prefix : List ℕ) → IsPrefix prefix text → IsPrefix (lines_of prefix) (lines_of text) }
    ensures line { (line prefix : List ℕ) → NoNewline line → IsPrefix prefix (with_newline line)
        → (prefix ≡ with_newline line) ⊎ NoNewline prefix }
    ensures lines { (text prefix : List ℕ) → IsPrefix prefix text → whole_len text ≤ length prefix → lines_of prefix ≡ lines_of text }
    ensures rest { (text prefix : List ℕ) → IsPrefix prefix text → whole_len text ≤ length prefix
        → IsPrefix (rest_of prefix) (rest_of text) }
{}

/// A line that is given is the first of the text that was still to be given, and the later ones are still to come. Before the rest no line
/// was still to be given.
pub fn lines_are_given_in_order()
    ensures line { (old : Reader) (a : Option (List ℕ)) (new : Reader) (b : Option (List ℕ)) (line text : List ℕ)
        → TakesLine old a new b line → text_left old a ≡ Some text → (left : List ℕ) × (text_left new b ≡ Some left)
        × (lines_of text ≡ line ∷ lines_of left) × (rest_of text ≡ rest_of left) }
    ensures rest { (old : Reader) (a : Option (List ℕ)) (new : Reader) (b : Option (List ℕ)) (rest text : List ℕ)
        → TakesRest old a new b rest → text_left old a ≡ Some text → (lines_of text ≡ []) × (rest_of text ≡ rest) }
{}

/// Calls of `next` up to the first `None` show the lines of a text in order and then its rest, in whatever pieces the text comes. They come
/// to `None` only if the text is within the limit, and to `TooLarge` only if it is beyond.
pub fn a_run_shows_the_text()
    ensures text { (text : List ℕ) (lines : List Line) (last : Reader) (b : Option (List ℕ)) (end : Reader) (c : Option (List ℕ))
        → GivenInTurn fresh (Some text) lines last b → AnswersNext last b end c (Ok None) → map as_shown lines ≡ text_shown text }
    ensures within { (text : List ℕ) (lines : List Line) (last : Reader) (b : Option (List ℕ)) (end : Reader) (c : Option (List ℕ))
        → GivenInTurn fresh (Some text) lines last b → AnswersNext last b end c (Ok None) → length text ≤ max_log }
    ensures too_large { (text : List ℕ) (lines : List Line) (last : Reader) (b : Option (List ℕ)) (end : Reader) (c : Option (List ℕ))
        → GivenInTurn fresh (Some text) lines last b → AnswersNext last b end c (Err LineFault.TooLarge) → max_log < length text }
{}
