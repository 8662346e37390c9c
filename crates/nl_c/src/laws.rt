//! Laws of a log that is written, each the contract of a function that does nothing.
ghost use Rattle.std.specs.Prelude.{◌≡◌, ◌≤◌, ◌⊎◌, ◌++◌, ℕ, Bool, false, List, All, IsSomeAnd, length};
ghost use Rattle.nl_fields.specs.{EntryLine.{IsEntry}, declared.entry.Entry.{Entry}};
ghost use Rattle.nl_lines.specs.Lines.{max_log};
ghost use Rattle.nl_table.specs.{Due.{is_history_due}, Log.{history_of}, LogText.{lines_of_entries}, Table.{all_entered_table}};
ghost use Rattle.nl_session.specs.Opened.{opened_bytes, IsTableOf};
ghost use Rattle.nl_folder.specs.{CrashImages.{IsDisk, IsImage}, DiskState.{Disk}};
ghost use Rattle.nl_c.specs.{Changes.{Ending, IsOpenText, StepsLeave, exit_of, replace, steps_of}, Faults.{CarriedFaults}, PlanLaws.{PlansStand, WithdrawalsGiveBack}};

/// Wherever a rewriting stops, even if the power then fails, the log is what could be found before, or is the new text. When a call of the
/// writer unlocks and closes, it changes nothing on disk.
pub fn a_rewriting_leaves_the_old_or_the_new()
    ensures rewriting { (old new : Disk) (text bs : List ℕ) → IsDisk old → StepsLeave (steps_of replace old.visible text) old new → IsImage new bs
        → IsImage old bs ⊎ (bs ≡ text) }
    ensures end { (ending : Ending) (is_shared : Bool) (old new : Disk) → StepsLeave (exit_of ending is_shared) old new → new ≡ old }
{}

/// Someone else's lines at the end of an open log's file are recorded one by one: the table is then that of the whole file.
pub fn appended_lines_are_recorded()
    ensures contents { (text : List ℕ) (entries table : List Entry) → IsOpenText text → IsTableOf table text → All IsEntry entries
        → length (text ++ lines_of_entries entries) ≤ max_log → IsOpenText (text ++ lines_of_entries entries) }
    ensures table { (text : List ℕ) (entries table : List Entry) → IsOpenText text → IsTableOf table text → All IsEntry entries
        → length (text ++ lines_of_entries entries) ≤ max_log
        → IsTableOf (all_entered_table entries table) (text ++ lines_of_entries entries) }
    ensures opened { (dead : List ℕ → Bool) (text : List ℕ) → IsOpenText text → IsSomeAnd (history_of text) (λ h. is_history_due h ≡ false)
        → opened_bytes dead text ≡ text }
{}

/// A call answers a fault only where the longest line would exceed the limit of a log, or where its folder was asked for what it doesn't
/// keep.
pub fn a_fault_is_want_of_room()
    ensures { CarriedFaults }
{}

/// If a plan is withdrawn while it stands, its name gets back the entry that it had, whatever came between.
pub fn a_withdrawn_name_has_what_it_had()
    ensures planned { PlansStand }
    ensures withdrawn { WithdrawalsGiveBack }
{}
