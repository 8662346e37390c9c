//! Laws of what can't be trusted. Each is the contract of a function that does nothing.
ghost use Rattle.std.specs.Prelude.{◌≡◌, ◌==◌, ◌&&◌, ◌++◌, ℕ, true, false, None, Some, List, [], All, IsSome, IsSomeAnd, drop, if◌then◌else◌};
ghost use Rattle.nl_fields.specs.{declared.entry.Entry.{Entry}, Name.{IsName}, EntryLine.{IsSpelled, IsTold, Texts, line_with}};
ghost use Rattle.nl_lines.specs.Split.{lines_of, rest_of, torn_len};
ghost use Rattle.nl_table.specs.{History.{holds}, Log.{Log, entry_on, log_of, skipped_count}, Table.{entry_named}, Versions.{current_version, oldest_version}};
ghost use Rattle.nl_distrust.specs.{Distrusted.{distrusted_in, is_whole, mentioned_in, mentioned_on}, Named.{named_in, torn_behind_name}, Plain.{entry_last, plain_last, plain_texts}};

/// The last line that plain Ninja takes for an entry of a name is its last entry, unless the log mentions the name. What can't be trusted are
/// the table's entries of the names that the log mentions, and no others.
pub fn trusted_lines_are_read_alike()
    ensures last { (version : ℕ) (bytes name : List ℕ) → IsName name → holds (mentioned_in version bytes) name ≡ false
        → plain_last name (drop 1 (lines_of bytes)) ≡ entry_last version name (drop 1 (lines_of bytes)) }
    ensures found { (version : ℕ) (bytes name : List ℕ) (es : List Entry) → entry_named (distrusted_in version bytes es) name
        ≡ (if holds (mentioned_in version bytes) name then entry_named es name else None) }
{}

/// Plain Ninja takes the line of an entry for one with the entry's texts. A line that is no entry, and that it takes for one, mentions its
/// name.
pub fn entries_are_read_alike()
    ensures five { (line : List ℕ) (e : Entry) → entry_on current_version line ≡ Some e → IsSomeAnd (plain_texts line) (IsSpelled e) }
    ensures four { (line : List ℕ) (e : Entry) → entry_on oldest_version line ≡ Some e → IsSomeAnd (plain_texts line) (IsTold e) }
    ensures mentioned { (version : ℕ) (line : List ℕ) (t : Texts) → entry_on version line ≡ None → plain_texts line ≡ Some t → IsName t.name
        → holds (mentioned_on version line) t.name ≡ true }
{}

/// An entry's first four texts name its output wherever they stand in a line: at its beginning, behind a torn line, and before another
/// one. So does a name behind which the line was torn.
pub fn each_part_is_named()
    ensures within { (before behind : List ℕ) (e : Entry) → IsName e.name → holds (named_in (before ++ line_with e behind)) e.name ≡ true }
    ensures torn { (before : List ℕ) (e : Entry) → IsName e.name → holds (named_in (before ++ torn_behind_name e)) e.name ≡ true }
{}

/// If each line is an entry, and nothing is torn, no name is mentioned.
pub fn a_whole_log_is_trusted()
    ensures entries { (version : ℕ) (bytes : List ℕ) → All (λ line. IsSome (entry_on version line)) (drop 1 (lines_of bytes))
        → rest_of bytes ≡ [] → mentioned_in version bytes ≡ [] }
    ensures whole { (version : ℕ) (bytes : List ℕ) (es : List Entry) → is_whole version bytes ≡ true → distrusted_in version bytes es ≡ [] }
    ensures counts { (version : ℕ) (bytes : List ℕ) (es : List Entry) → log_of bytes ≡ Log version es
        → is_whole version bytes ≡ (torn_len bytes == 0 && skipped_count bytes == 0) }
{}
