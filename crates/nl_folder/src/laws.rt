//! The laws of crash images. Each is the contract of a function that does nothing.
ghost use Rattle.std.specs.Prelude.{◌≡◌, ◌⊎◌, ◌≤◌, ◌++◌, ℕ, List, None, Result, length, take};
ghost use Rattle.nl_lines.specs.{Lines.{max_log}, Prefix.{IsPrefix}, Split.{joined, lines_of}};
ghost use Rattle.nl_folder.specs.{DiskState.{Disk, File, durable_disk}, CrashImages.{IsDisk, IsImage, IsImageOf, IsPrefixImage}, Calls.{log_grown, log_cut, log_synced, replaced_disk, not_replaced_disk, AppendsLog, CutsLog, SyncsLog, AppendsScratch, SyncsScratch, Replaces, Crashes}, declared.folder.Fault.{Fault}};

/// What a read gives is one, and so is a prefix image, the only one if there is one prefix image alone. None is longer than a log may be, and
/// no newline stands in the tail of one. Of a durable log it is what a read gave, and after a replacement that of either file, within its own
/// lengths, also if the replacement failed.
pub fn images_of_a_disk()
    ensures visible { (disk : Disk) → IsDisk disk → IsImage disk disk.visible }
    ensures limit { (disk : Disk) (bs : List ℕ) → IsDisk disk → IsImage disk bs → length bs ≤ max_log }
    ensures lines { (file : File) (bs : List ℕ) → IsImageOf file bs → IsPrefix (joined (lines_of bs)) file.longest }
    ensures prefix { (disk : Disk) (bs : List ℕ) → IsPrefixImage disk bs → IsImage disk bs }
    ensures one { (disk : Disk) (text : List ℕ) → IsDisk disk → ((bs : List ℕ) → IsPrefixImage disk bs → bs ≡ text)
        → (bs : List ℕ) → IsImage disk bs → bs ≡ text }
    ensures synced { (disk : Disk) (bs : List ℕ) → IsImage (log_synced disk) bs → bs ≡ disk.visible }
    ensures durable { (text bs : List ℕ) (scratch : File) → IsImage (durable_disk text scratch) bs → bs ≡ text }
    ensures either { (disk : Disk) (bs : List ℕ) → IsImage (replaced_disk disk) bs ⊎ IsImage (not_replaced_disk disk) bs
        → IsImageOf disk.scratch bs ⊎ IsImageOf disk.log bs }
{}

/// After an append it is a prefix of the new text that has the durable bytes: one from before, or what a read gave and a prefix of what was
/// added. Of an image this holds up to its tail, which may be longer. After a cut it is one from before, or a prefix of one from the cut on.
pub fn a_prefix_image_after_a_call()
    ensures append { (disk : Disk) (n : ℕ) (bytes bs : List ℕ) → disk.other ≡ None → IsPrefixImage (log_grown n bytes disk) bs
        → IsPrefix bs (log_grown n bytes disk).visible × (disk.log.durable_len ≤ length bs) }
    ensures goes_on { (disk : Disk) (n : ℕ) (bytes bs : List ℕ) → IsDisk disk → IsPrefixImage (log_grown n bytes disk) bs
        → IsPrefixImage disk bs ⊎ ((more : List ℕ) × (bs ≡ disk.visible ++ more) × IsPrefix more (take n bytes)) }
    ensures cut { (disk : Disk) (n kept : ℕ) (bs : List ℕ) → disk.other ≡ None → n ≤ disk.log.durable_len
        → IsPrefixImage (log_cut n kept disk) bs → IsPrefix bs disk.log.longest × (n ≤ length bs) }
{}

/// It meets every row, whatever it answers.
pub fn nothing_is_said_of_a_folder_without_a_record()
    ensures appends { (bytes : List ℕ) (answer : Result ℕ Fault) → AppendsLog bytes answer None None }
    ensures cuts { (n : ℕ) (answer : Result Unit Fault) → CutsLog n answer None None }
    ensures syncs { (answer : Result Unit Fault) → SyncsLog answer None None }
    ensures appends_scratch { (bytes : List ℕ) (answer : Result ℕ Fault) → AppendsScratch bytes answer None None }
    ensures syncs_scratch { (answer : Result Unit Fault) → SyncsScratch answer None None }
    ensures replaces { (answer : Result Unit Fault) → Replaces answer None None }
    ensures crashes { Crashes None None }
{}
