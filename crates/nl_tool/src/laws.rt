//! Laws of what the commands print and leave, most of which the crates below prove.
ghost use Rattle.std.specs.Prelude.{Option};
ghost use Rattle.nl_tool_change.specs.declared.line_fault.WrongNumber.{WrongNumber};
ghost use Rattle.nl_tool_texts.specs.declared.fault.ToolFault.{ToolFault};
ghost use Rattle.nl_tool_words.specs.declared.words.Words.{Words};
ghost use Rattle.nl_tool.specs.{Faults.{IsFaultOf}, Reasons.{HasText}};

pub use nl_reports::laws::weights_add_up;
pub use nl_tool_change::laws::damage_is_what_check_counts;
pub use nl_tool_print::laws::entries_are_shown;
pub use nl_versions::laws::auto_is_the_version;

/// Where a command refuses a number, the words have its text, so that `refusal_of` explains it.
pub fn a_bad_number_is_explained()
    ensures { (words : Words) (told : Option WrongNumber) → IsFaultOf words told ToolFault.BadNumber → HasText words told }
{}
