//! Laws of what the commands print, each the contract of a function that does nothing.
ghost use Rattle.std.specs.Prelude.{◌≡◌, ◌++◌, ◌≤◌, ℕ, List, Some, length};
ghost use Rattle.nl_fields.specs.Header.{header_line};
ghost use Rattle.nl_lines.specs.Lines.{max_log};
ghost use Rattle.nl_tool_print.specs.{Output.{show_text_of}, Streams.{entries_text_of}};

/// `show` prints the same for the log as for the header line with what `entries` printed.
pub fn entries_are_shown()
    ensures { (bytes text : List ℕ) → entries_text_of bytes ≡ Some text → length (header_line ++
        text) ≤ max_log → show_text_of (header_line ++ text) ≡ show_text_of bytes }
{}
