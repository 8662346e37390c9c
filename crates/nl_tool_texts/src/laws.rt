//! Laws of names, columns and steps, each the contract of a function that does nothing.
ghost use Rattle.std.specs.Prelude.{◌≡◌, ◌+◌, ◌/◌, ◌<◌, ◌≤◌, ◌^◌, ◌++◌, ◌∷◌, ℕ, List, true, length, All};
ghost use Rattle.std.specs.Char.{IsScalar, encode_utf8};
ghost use Rattle.nl_tool_texts.specs.{Columns.{is_quiet, begun_by, cell, cells_to, field_at, fields_of, in_columns, room_behind, shown, shown_char, shown_of, widest, width, widths}, Escape.{IsMadeOfPieces, begins_character, cut_at, escaped, IsQuiet}, Steps.{IsRound, step_of}};

/// No name makes a terminal do anything: what is shown is UTF-8, and has no character that is obeyed, also in columns and in parts. A
/// character is shown as it is alone, whatever bytes stand around it, and what has none that is obeyed is shown as it is. No escaped text
/// has a `<`, a `>`, a `"` or a control character below 32, and each `&` in it begins an entity. A name that is cut is cut before a
/// character, and has fewer bytes than fit, but for the ellipsis.
pub fn nothing_is_obeyed()
    ensures shown { (text : List ℕ) → is_quiet (shown text) ≡ true }
    ensures columns { (most : ℕ) (text : List ℕ) → is_quiet (in_columns most text) ≡ true }
    ensures part { (begun text : List ℕ) → is_quiet (shown_of begun text) ≡ true }
    ensures parts { (begun xs ys : List ℕ) → shown_of begun (xs ++ ys) ≡ shown_of begun xs ++ shown_of (begun_by begun xs) ys }
    ensures together { (xs ys : List ℕ) → is_quiet xs ≡ true → is_quiet ys ≡ true → is_quiet (xs ++ ys) ≡ true }
    ensures passes { (text : List ℕ) → is_quiet text ≡ true → shown text ≡ text }
    ensures characters { (before : List ℕ) (c : ℕ) (after : List ℕ) → IsScalar c
        → shown (before ++ encode_utf8 c ++ after) ≡ shown before ++ shown_char c ++ shown after }
    ensures bytes { (text : List ℕ) → All IsQuiet (escaped text) }
    ensures pieces { (text : List ℕ) → IsMadeOfPieces (escaped text) }
    ensures fits { (most : ℕ) (text : List ℕ) → cut_at most text ≤ most }
    ensures whole { (most : ℕ) (text : List ℕ) → 0 < cut_at most text → begins_character (cut_at most text) text ≡ true }
{}

/// Columns line up: in each line of a text with as many fields, a cell that others follow is as wide as the widest field of its column,
/// and two characters more. No line has more characters than it may, if its fields but the last leave room for one.
pub fn columns_line_up()
    ensures cells { (before : List (List ℕ)) (line : List ℕ) (later : List (List ℕ)) (place : ℕ)
        → width (cell (widest (length (fields_of line)) place (before ++ line ∷ later) 0) (field_at line place))
        ≡ widest (length (fields_of line)) place (before ++ line ∷ later) 0 + 2 }
    ensures lines { (most last : ℕ) (before : List (List ℕ)) (line : List ℕ) (later : List (List ℕ))
        → last + 1 ≡ length (fields_of line) → 1 ≤ last
        → 1 ≤ room_behind last most (widths (length (fields_of line)) (before ++ line ∷ later))
        → width (cells_to last most (widths (length (fields_of line)) (before ++ line ∷ later)) line) ≤ most }
{}

/// The lines of the axis stand a round time apart, and there are twelve steps at most.
pub fn steps_are_round()
    ensures round { (wall : ℕ) → IsRound (step_of wall) }
    ensures few { (wall : ℕ) → wall < 2 ^ 32 → wall / step_of wall ≤ 12 }
{}
