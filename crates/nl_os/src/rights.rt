//! Who may read and write a log, and what of that a new file in its place keeps.
#![tactic(auto, using(crate::proofs::RightsLemmas::within_one, crate::proofs::RightsLemmas::within_other))]

ghost use Rattle.std.specs.Prelude.{◌≡◌, ◌<◌, ◌+◌, ◌*◌, ◌/◌, ◌%◌, false, true};
ghost use Rattle.nl_os.specs.Rights.{IsWithin};

use std::fs::Metadata;
use std::os::unix::fs::MetadataExt;

#[derive(Clone, Copy, Debug, PartialEq, Eq, Drop)]
pub struct Rights {
    pub owner: u32,
    pub group: u32,
    pub mode: Mode,
}

/// Three bits each: what the owner of a file, its group and all others may do. Set-ID bits are left out, because no log is run.
#[derive(Clone, Copy, Debug, PartialEq, Eq, Drop)]
pub struct Mode {
    owner: u32,
    group: u32,
    others: u32,
}

impl Rights {
    pub fn of(metadata: &Metadata) -> Rights {
        Rights {
            owner: metadata.uid(),
            group: metadata.gid(),
            mode: Mode::of(metadata.mode()),
        }
    }
}

impl Mode {
    fn of(bits: u32) -> Mode
        ensures owner { result.owner ≡ bits / 64 % 8 }
        ensures group { result.group ≡ bits / 8 % 8 }
        ensures others { result.others ≡ bits % 8 }
    {
        Mode {
            owner: bits >> 6 & 7,
            group: bits >> 3 & 7,
            others: bits & 7,
        }
    }

    pub fn bits(self) -> u32
        ensures value { self.owner < 8 → self.group < 8 → self.others < 8 → result ≡ self.owner * 64 + self.group * 8 + self.others }
    {
        (self.owner << 3 | self.group) << 3 | self.others
    }

    pub fn is_group_apart(self) -> bool
        ensures no { result ≡ false → IsWithin self.group self.others }
    {
        self.group & self.others != self.group
    }

    /// The mode of a new file in the place of one of this mode. Nobody may do more: who was in the old group may be one of the others now,
    /// and the other way round, and the old owner may be either.
    pub fn kept(self, is_owner_kept: bool, is_group_kept: bool) -> Mode
        ensures same { is_owner_kept ≡ true → is_group_kept ≡ true → result ≡ self }
        ensures owner { result.owner ≡ self.owner }
        ensures group { IsWithin result.group self.group }
        ensures others { IsWithin result.others self.others }
        ensures left_group { is_group_kept ≡ false → IsWithin result.others self.group }
        ensures joined_group { is_group_kept ≡ false → IsWithin result.group self.others }
        ensures old_owner { is_owner_kept ≡ false → IsWithin result.group self.owner × IsWithin result.others self.owner }
    {
        let mut mode = self;
        if !is_group_kept {
            mode.group &= self.others;
            mode.others = mode.group;
        }
        if !is_owner_kept {
            mode.group &= self.owner;
            mode.others &= self.owner;
        }
        mode
    }
}
