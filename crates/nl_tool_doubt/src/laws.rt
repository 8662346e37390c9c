//! Laws of doubt, each the contract of a function that does nothing.
ghost use Rattle.std.specs.{Prelude.{◌≡◌, ◌+◌, ◌≤◌, ℕ, ℤ, List, Option, Some, None, Ok, true, false, int_lt, map, pos, if◌then◌else◌, Contains}, Ordering.{int_eq}};
ghost use Rattle.nl_fields.specs.declared.entry.Entry.{Entry};
ghost use Rattle.nl_folder.specs.FolderView.{FolderView};
ghost use Rattle.nl_versions.specs.declared.{entries.Stamps.{Stamps}, version.LogVersion.{LogVersion}};
ghost use Rattle.nl_tool_doubt.specs.{Judging.{doubt_by, ended, is_newer, written}, Kept.{KeepsButTimes, KeepsIntents, KeepsNamed, KeepsThere, LeavesTable, TakesTimes}, Moments.{begun, lo_of, m_of, tells, tick_of}, Settling.{FindsKept, FindsTimes, Settles}, declared.{files.FileState.{FileState}, judge.Doubt.{Doubt}}};

/// A file that isn't behind MTIME is neither newer nor unsure, whatever other lines tell. In a log of version 4 or 5 it is newer exactly if it
/// is later than MTIME, and none is unsure. Elsewhere it is newer if it is behind its command's end by 8 ms and a tick, and MTIME is when the
/// command started.
pub fn a_file_is_judged_by_its_time()
    ensures agrees { (stamps : Stamps) (ls : List Entry) (e : Entry) (time last : ℤ) → int_lt e.mtime last ≡ false
        → doubt_by stamps ls e time last ≡ (if int_eq e.mtime (pos 0) then Some Doubt.NoTime else None) }
    ensures four { (ls : List Entry) (e : Entry) (time last : ℤ) → doubt_by Stamps.Unknown ls e time last
        ≡ (if int_eq e.mtime (pos 0) then Some Doubt.NoTime else if int_lt e.mtime last then Some Doubt.Newer else None) }
    ensures five { (ls : List Entry) (e : Entry) (time last : ℤ) → doubt_by Stamps.OfEnd ls e time last
        ≡ (if int_eq e.mtime (pos 0) then Some Doubt.NoTime else if int_lt e.mtime last then Some Doubt.Newer else None) }
    ensures newer { (ls : List Entry) (e : Entry) (time last : ℤ) → tells e ≡ true → int_lt e.mtime last ≡ true
        → is_newer (tick_of ls) (ended (m_of e) e) (written last) ≡ true → doubt_by Stamps.OfStart ls e time last ≡ Some Doubt.Newer }
{}

/// The build of a line began no later than its own moment, at the moment of a line of the log, and no more than 5 ms and a tick before
/// MTIME less END, unless the command ended before it began.
pub fn the_moment_of_a_build()
    ensures late { (ls : List Entry) (e : Entry) → begun ls e ≤ m_of e }
    ensures of_a_line { (ls : List Entry) (e : Entry) → Contains ls e → Contains (map m_of ls) (begun ls e) }
    ensures early { (ls : List Entry) (e : Entry) → Contains ls e → lo_of e ≤ m_of e → lo_of e ≤ begun ls e + 5 + tick_of ls }
{}

/// The log that `prune` read is the one that it changed, if it told of no damage: an honest folder's log is the text of a table, which a load
/// finds in it, and which keeps the entry of each target, and where the states of the files are known, of each output that has a file, and no
/// other. If it told of damage, the log stays.
pub fn a_prune_keeps_what_is_there()
    ensures targets { (asked : Option LogVersion) (targets : List (List ℕ)) (states : Option (List ℕ → FileState)) (from to : Option (List ℕ))
        (old new : FolderView) → Settles (FindsKept asked targets states from to) (to ≡ from) asked (Ok false) old new
        → LeavesTable (KeepsNamed targets) old new }
    ensures files { (asked : Option LogVersion) (targets : List (List ℕ)) (state_of : List ℕ → FileState) (from to : Option (List ℕ))
        (old new : FolderView) → Settles (FindsKept asked targets (Some state_of) from to) (to ≡ from) asked (Ok false) old new
        → LeavesTable (KeepsThere targets state_of) old new }
    ensures damaged { (asked : Option LogVersion) (targets : List (List ℕ)) (states : Option (List ℕ → FileState)) (from to : Option (List ℕ))
        (old new : FolderView) → Settles (FindsKept asked targets states from to) (to ≡ from) asked (Ok true) old new
        → new.disk ≡ old.disk }
{}

/// The log that `retime` read is the one that it changed, if it told of no damage: an honest folder's log is the text of a table, which a load
/// finds in it, with the entries that there were, each as it was but for its time. Each intent keeps its time, and where the states of the files
/// are known, each other entry has the time of its file, if that has one, and else its own. If it told of damage, the log stays.
pub fn a_retime_sets_times_alone()
    ensures entries { (asked : Option LogVersion) (states : Option (List ℕ → FileState)) (from to : Option (List ℕ)) (early : List ℕ)
        (old new : FolderView) → Settles (FindsTimes asked states from to early) (to ≡ from) asked (Ok false) old new
        → LeavesTable KeepsButTimes old new }
    ensures intents { (asked : Option LogVersion) (states : Option (List ℕ → FileState)) (from to : Option (List ℕ)) (early : List ℕ)
        (old new : FolderView) → Settles (FindsTimes asked states from to early) (to ≡ from) asked (Ok false) old new
        → LeavesTable KeepsIntents old new }
    ensures files { (asked : Option LogVersion) (state_of : List ℕ → FileState) (from to : Option (List ℕ)) (early : List ℕ)
        (old new : FolderView) → Settles (FindsTimes asked (Some state_of) from to early) (to ≡ from) asked (Ok false) old new
        → LeavesTable (TakesTimes state_of) old new }
    ensures damaged { (asked : Option LogVersion) (states : Option (List ℕ → FileState)) (from to : Option (List ℕ)) (early : List ℕ)
        (old new : FolderView) → Settles (FindsTimes asked states from to early) (to ≡ from) asked (Ok true) old new
        → new.disk ≡ old.disk }
{}
