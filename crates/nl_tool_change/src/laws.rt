//! Laws of a repaired log, of a damaged one, and of a change by a file, each the contract of a function that does nothing.
ghost use Rattle.std.specs.Prelude.{◌≡◌, ◌↔◌, [], ℕ, List, Option, Some, Result};
ghost use Rattle.nl_lines.specs.Split.{torn_len};
ghost use Rattle.nl_table.specs.Log.{skipped_count};
ghost use Rattle.nl_tool_print.specs.Streams.{damage_text_of};
ghost use Rattle.nl_tool_texts.specs.declared.fault.ToolFault.{ToolFault};
ghost use Rattle.nl_tool_change.specs.{Calls.{ChangesAsRead, SaysAsRead, keeping, touching}, Files.{keep_of, times_of}, Updates.{repaired_text}};
ghost use Rattle.nl_folder.specs.FolderView.{folder_view};

use nl_folder::Folder;

/// `damage` prints nothing of a log exactly if `check` counts no skipped line and no torn byte, and nothing of a repaired one.
pub fn damage_is_what_check_counts()
    ensures counts { (bytes text : List ℕ) → damage_text_of bytes ≡ Some text → (text ≡ []) ↔ ((skipped_count bytes ≡ 0) × (torn_len bytes ≡ 0)) }
    ensures repaired { (bytes : List ℕ) → repaired_text bytes ≡ Some bytes → damage_text_of bytes ≡ Some [] }
{}

/// A change by KEEP or TIMES answers by the names or the pairs that the file holds, or nothing was done.
pub fn files_are_read_first<F: Folder>()
    ensures keep { (known : Option (List ℕ)) (result : Result (Unit {0}) ToolFault) (old new : F)
        → ChangesAsRead F.Folder keep_of keeping known result old new
        → SaysAsRead keep_of keeping known result (folder_view F.Folder old) (folder_view F.Folder new) }
    ensures times { (known : Option (List ℕ)) (result : Result (Unit {0}) ToolFault) (old new : F)
        → ChangesAsRead F.Folder times_of touching known result old new
        → SaysAsRead times_of touching known result (folder_view F.Folder old) (folder_view F.Folder new) }
{}
