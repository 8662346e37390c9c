//! Laws of outputs beside their log, each the contract of a function that does nothing.
ghost use Rattle.std.specs.Prelude.{◌≡◌, ◌≢◌, ◌++◌, ◌∷◌, ℕ, List, Option, None, true};
ghost use Rattle.nl_fields.specs.declared.entry.Entry.{Entry};
ghost use Rattle.nl_table.specs.History.{History, answer};
ghost use Rattle.nl_folder.specs.DiskState.{Disk};
ghost use Rattle.nl_session.specs.{declared.events.Event.{Event}, declared.events.Reply.{Reply}, Headline.{Exchange, Headline, is_kept}, NeverStale.{Finds, FindsAlways, NoneCrashes}};
ghost use Rattle.nl_outputs.specs.Outputs.{IsCareful, IsDurable, IsKnown, MayBeRead, NeverHollow, Output, Passes, PassesFor, Step, WasMade, after, exchanges_of};

/// From a point on at which no command of this hash passed for what stood of an output: if the build syncs the output before it records
/// an entry for that command, and doesn't write it later, then in each crash image in which an entry passes the file has what was there
/// when such an entry was recorded. If nothing is lost but the process, no sync is needed.
pub fn an_entry_that_passes_has_its_output()
    ensures synced { (name : List ℕ) (hash : ℕ) (o : Output) (steps : List Step) (was : Option Entry) (disk : Disk)
        → (PassesFor hash was → ⊥) → FindsAlways (exchanges_of steps) name was disk → IsCareful IsDurable name hash o steps
        → NeverHollow name hash o steps disk }
    ensures killed { (name : List ℕ) (hash : ℕ) (o : Output) (steps : List Step) (was : Option Entry) (disk : Disk) (contents : List ℕ)
        → (PassesFor hash was → ⊥) → Finds (exchanges_of steps) name was disk.visible → NoneCrashes (exchanges_of steps)
        → IsCareful IsKnown name hash o steps → Passes name hash disk.visible → MayBeRead (after name o steps) contents
        → WasMade name hash o steps contents }
{}

/// So it is behind an intent that was recorded and made durable before any crash, and from the beginning of a log that has no entry of
/// the output.
pub fn no_output_is_hollow()
    ensures begun { (start : History) (first : List Exchange) (intent : Entry) (hash : ℕ) (o : Output) (steps : List Step) (disk : Disk)
        → Headline start (first ++ (Event.Record intent, Reply.Done) ∷ exchanges_of steps) disk → is_kept (exchanges_of steps) ≡ true
        → intent.hash ≢ hash → IsCareful IsDurable intent.name hash o steps → NeverHollow intent.name hash o steps disk }
    ensures new { (start : History) (name : List ℕ) (hash : ℕ) (o : Output) (steps : List Step) (disk : Disk)
        → answer start name ≡ None → Headline start (exchanges_of steps) disk → IsCareful IsDurable name hash o steps
        → NeverHollow name hash o steps disk }
{}
