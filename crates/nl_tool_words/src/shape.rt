//! What a row says of a word, and the command of `clap` that it makes.
ghost use Rattle.std.specs.Prelude.{◌≡◌, IfOk, false};
ghost use Rattle.clap.specs.{Words.{app_of, rule_of}, declared.builder.command.Command.TheViews.{out-Command}};
ghost use Rattle.nl_tool_words.specs.Rows.{app_by, nlog, rule_by, word_by};

use crate::rows::WORDS;
use crate::values::value;
use clap::{Arg, ArgAction, Command};
use std::alloc::{AllocError, Global};

/// A word of the program: what its help says, and what it takes, in the order of that help.
#[derive(Clone, Copy, Drop)]
pub struct WordRow {
    pub name: &'static str,
    pub about: &'static str,
    /// What stands after the options: nothing, if it is empty.
    pub after: &'static str,
    /// All but the flag for the reason of a refusal, which each word takes.
    pub takes: &'static [Value],
}

/// A value, an option or a flag, with its text of the help.
#[derive(Clone, Copy, Drop)]
pub struct Value {
    pub id: &'static str,
    pub given: Given,
    pub help: &'static str,
}

/// How a value is given: by its place or by an option of its name, which may have a letter, and has the name of its value.
#[derive(Clone, Copy, Drop)]
pub enum Given {
    /// It may be left out.
    Place,
    /// It can't be left out.
    Required,
    Long(&'static str),
    Letter(char, &'static str),
    LetterLong(char, &'static str),
    Flag,
    LetterFlag(char),
}

const VERSION: &str = "0.2.0";

const AFTER: &str = "\
`show` to `hash-file` look and change nothing, `mend` to `repair` change LOG, and `apply` keeps a
log for a build tool. Without a command, or without LOG, a log is read from standard input.

Ninja 1.12 and 1.13 write logs of version 6 and 7: put `--log-version auto` after `show`, `check`,
`record`, `recompact` or `restat`. The other commands take such a LOG as it is.
Change no log while Ninja builds, because it locks nothing. A LOG that is missing is refused by
`doubt`, `prune` and `retime`, and without `--missing-ok` by `entries` to `picture` and `repair`.

Examples:
  nlog mend                                after a crash, and before each build
  nlog show --log-version auto .ninja_log
  nlog check --log-version auto .ninja_log

Status: 0 done; 1 refused, and a line `nlog: ...` on standard error says why (a second one says more
with `--verbose`, after the command); 2 wrong words; 3 `mend`, `damage`, `doubt`,
`prune` or `retime` found some.";

/// What reads a command line.
pub fn nlog_command<'a>(alloc: Global) -> Result<Command<'a>, AllocError>
    ensures { IfOk result (λ c. app_of c ≡ nlog) }
{
    let mut nlog = Command::new(alloc, "nlog")
        .version(VERSION)
        .about("Reads, checks and changes build logs of Ninja, versions 4 to 7")
        .after_help(AFTER);
    let mut rest: &[WordRow] = &WORDS;
    'rows: while let Some((row, later)) = rest.split_first() {
        nlog = nlog.subcommand(command_of(alloc, row)?)?;
        rest = later;
    }
    Ok(nlog)
}

fn command_of<'a>(alloc: Global, row: &WordRow) -> Result<Command<'a>, AllocError>
    ensures shape { IfOk result (λ c. app_of c ≡ app_by (word_by row.now)) }
    ensures local { IfOk result (λ c. (out-Command c).has_globals ≡ false) }
{
    let mut command = Command::new(alloc, row.name)
        .about(row.about)
        .after_help(row.after);
    let mut rest = row.takes;
    'values: while let Some((value, later)) = rest.split_first() {
        command = command.arg(arg_of(alloc, value))?;
        rest = later;
    }
    command.arg(arg_of(alloc, &value!(VERBOSE)))
}

fn arg_of<'a>(alloc: Global, value: &Value) -> Arg<'a>
    ensures rule { rule_of result ≡ rule_by value.now }
    ensures local { result.global ≡ false }
{
    let arg = Arg::new(alloc, value.id).help(value.help);
    match value.given {
        Given::Place => arg,
        Given::Required => arg.required(true),
        Given::Long(name) => arg.long(value.id).value_name(name),
        Given::Letter(letter, name) => arg.short(letter).value_name(name),
        Given::LetterLong(letter, name) => arg.long(value.id).short(letter).value_name(name),
        Given::Flag => arg.long(value.id).action(ArgAction::SetTrue),
        Given::LetterFlag(letter) => { arg.long(value.id).short(letter).action(ArgAction::SetTrue) }
    }
}
