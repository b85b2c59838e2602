ghost use Rattle.std.specs.Prelude.{◌≡◌, IfOk, codes};
ghost use Rattle.ras_table.specs.Answers.{Gives};
ghost use Rattle.clap.specs.Words.{app_of, found_of, rows_of};
ghost use Rattle.ras_words.specs.Rows.{rows_read, told, with_rows};
ghost use Rattle.ras_words.specs.Words.{check_app, check_words, files_app};

use crate::command::{CheckWords, WordsFault};
use crate::matches::{matches_of, needed, value_of};
use clap::{ArgMatches, Command};
use ras_table::Word;
use std::alloc::{AllocError, Global};

/// A command that needs three files.
pub fn files_command<'a>(alloc: Global, name: &'a str) -> Result<Command<'a>, AllocError>
    ensures { IfOk result (λ command. app_of command ≡ files_app name.now) }
{
    let inventory = needed(alloc, "INVENTORY");
    let requests = needed(alloc, "REQUESTS");
    let bindings = needed(alloc, "BINDINGS");
    Command::new(alloc, name)
        .arg(inventory)?
        .arg(requests)?
        .arg(bindings)
}

// `check INVENTORY REQUESTS BINDINGS PLAN`.
fn check_command<'a>(alloc: Global) -> Result<Command<'a>, AllocError>
    ensures { IfOk result (λ command. app_of command ≡ check_app) }
{
    let plan = needed(alloc, "PLAN");
    files_command(alloc, "check")?.arg(plan)
}

// The words at the matches.
fn words_at(alloc: Global, matches: &ArgMatches<'_>) -> Result<CheckWords, AllocError>
    ensures { IfOk result (λ words. words ≡ check_words (rows_of (found_of matches.now))) }
{
    Ok(CheckWords {
        inventory: value_of(alloc, matches, "INVENTORY")?,
        requests: value_of(alloc, matches, "REQUESTS")?,
        bindings: value_of(alloc, matches, "BINDINGS")?,
        plan: value_of(alloc, matches, "PLAN")?,
    })
}

/// The words of `check`, the first of which is its name.
pub fn read_check(alloc: Global, words: &[Word]) -> Result<CheckWords, WordsFault>
    ensures { Gives (λ words. words) told result (with_rows check_words (rows_read check_app words.now)) }
{
    let Ok(command) = check_command(alloc) else {
        return Err(WordsFault::Memory);
    };
    let matches = matches_of(alloc, command, words)?;
    match words_at(alloc, &matches) {
        Ok(found) => Ok(found),
        Err(_) => Err(WordsFault::Memory),
    }
}
