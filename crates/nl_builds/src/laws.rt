//! Laws of commands and builds. Each is the contract of a function that does nothing.
ghost use Rattle.std.specs.Prelude.{◌≡◌, ◌+◌, ℕ, Bool, List, false, length, true, IsPermutation};
ghost use Rattle.nl_fields.specs.declared.entry.Entry.{Entry};
ghost use Rattle.nl_builds.specs.{Builds.{builds_of, next_is_sure, walk, written_build}, Commands.{commands, falls, is_same}, Laws.{AreModest, PlacesRise, ShareCommands, ShareEntries}, Recorded.{any_intent, recorded}, Seen.{mark_written}, declared.command.Command.{Command}, declared.command.Row.{Row}, declared.seen.Mark.TheVariants.{Sure}, declared.seen.Order.{Order}, declared.seen.Seen.{Seen}};
ghost use Rattle.nl_versions.specs.declared.entries.Stamps.{Stamps};

/// The first commands have the first entries, the first builds have the first commands, and so on to the last; also if the log was written
/// anew. No entry is lost or made, and entries without intents are of commands.
pub fn each_entry_is_of_one_command()
    ensures entries { (es : List Entry) → ShareEntries 0 (commands es) (length es) }
    ensures commands { (order : Order) (stamps : Stamps) (place : ℕ) (sure : Bool) (cs : List Command) (rs : List Row)
        → ShareCommands place (walk order stamps place sure cs rs) (place + length cs) }
    ensures rise { (stamps : Stamps) (es : List Entry) → PlacesRise (builds_of stamps es) }
    ensures whole { (stamps : Stamps) (es : List Entry) → IsPermutation es (builds_of stamps es).entries }
    ensures recorded { (es : List Entry) → any_intent es ≡ false → recorded es ≡ es }
{}

/// A build is sure only if both its borders are, and none is that was found again. Between lines as Ninja wrote them an END that falls is a
/// sure border, and so is a command that comes again.
pub fn a_sure_build_has_sure_borders()
    ensures borders { (stamps : Stamps) (new from : ℕ) (beside : Bool) (s : Seen) (ss : List Seen)
        → (written_build stamps new from beside s ss).is_sure ≡ true → (s.is_sure ≡ true) × (next_is_sure ss ≡ true) }
    ensures again { (stamps : Stamps) (es : List Entry) → AreModest (builds_of stamps es).builds }
    ensures falls { (stamps : Stamps) (s : Seen) (c : Command) (r : Row) → falls s.last c ≡ true → mark_written stamps s c r ≡ Sure }
    ensures same { (stamps : Stamps) (s : Seen) (c : Command) (r : Row) → is_same s.last c ≡ true → mark_written stamps s c r ≡ Sure }
{}
