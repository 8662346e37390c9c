//! What the folder of a log tells beside the answers of its calls.
ghost use Rattle.std.specs.Prelude.{◌≡◌, Bool, Option};
ghost use Rattle.std.specs.declared.io.Error.{Error};
ghost use Rattle.nl_os.specs.declared.failed_call.Failure.{Failure};

use crate::failed_call::Failure;
use nl_folder::Folder;
use std::io;

/// A folder that says why its last call failed, and what a change of its log leaves to be said.
pub trait LogFolder: Folder + Drop {
    ghost last: { Self → Option Failure };

    // Why the folder can't be synced.
    ghost unsynced: { Self → Option Error };

    ghost is_masked: { Self → Bool };

    /// None if no call has failed.
    fn last_failure(&self) -> Option<Failure>
        ensures value { result ≡ last self.now };

    /// The error of the sync, or of the open before it. None if the folder can be synced.
    fn unsynced_folder(&self) -> Option<io::Error>
        ensures value { result ≡ unsynced self.now };

    /// Whether a log was written anew whose group may do what the others may not. That may have been the mask of an access control list,
    /// which is gone.
    fn is_masked(&self) -> bool
        ensures value { result ≡ is_masked self.now };
}
