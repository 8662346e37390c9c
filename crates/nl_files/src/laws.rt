//! Laws of the definitions. Each is the contract of a function that does nothing.
ghost use Rattle.std.specs.Prelude.{◌≡◌, ℕ, Bool, List, Some};
ghost use Rattle.nl_files.specs.{Model.{Model}, SystemImages.{SystemImage}, Covered.{Covers}, Holdings.{Holdings, ScratchState, disk_of, with_scratch, IsNone, IsNotSpare}, Scratch.{KeepsAll}};
ghost use Rattle.nl_folder.specs.CrashImages.{IsImage};

pub fn writing_leaves_the_record()
    ensures { (m m_now : Model) (scratch scratch_now : ScratchState) (h : Holdings) → h.scratch ≡ Some scratch
        → KeepsAll m scratch m_now scratch_now → IsNone scratch.id m.log → IsNotSpare scratch.id h.other
        → disk_of (with_scratch (Some scratch_now) h) m_now ≡ disk_of h m }
{}

/// If the folder knows what the name may show.
pub fn a_crash_leaves_an_image_of_the_record()
    ensures { (m : Model) (h : Holdings) (settled : Bool) (bs : List ℕ) → Covers m h settled → SystemImage m bs → IsImage (disk_of h m) bs }
{}
