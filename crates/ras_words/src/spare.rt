ghost use Rattle.std.specs.Prelude.{◌≡◌, IfOk};
ghost use Rattle.ras_table.specs.Answers.{Gives};
ghost use Rattle.clap.specs.Words.{app_of, found_of, rows_of};
ghost use Rattle.ras_words.specs.Rows.{rows_read, told, with_rows};
ghost use Rattle.ras_words.specs.Words.{spare_app, spare_words};

use crate::check::files_command;
use crate::command::{SpareWords, WordsFault};
use crate::matches::{matches_of, needed, value_of};
use clap::{ArgMatches, Command};
use ras_table::Word;
use std::alloc::{AllocError, Global};

// `spare INVENTORY REQUESTS BINDINGS PLAN FAILURES`.
fn spare_command<'a>(alloc: Global) -> Result<Command<'a>, AllocError>
    ensures { IfOk result (λ command. app_of command ≡ spare_app) }
{
    let plan = needed(alloc, "PLAN");
    let failures = needed(alloc, "FAILURES");
    files_command(alloc, "spare")?.arg(plan)?.arg(failures)
}

// The words at the matches.
fn words_at(alloc: Global, matches: &ArgMatches<'_>) -> Result<SpareWords, AllocError>
    ensures { IfOk result (λ words. words ≡ spare_words (rows_of (found_of matches.now))) }
{
    Ok(SpareWords {
        inventory: value_of(alloc, matches, "INVENTORY")?,
        requests: value_of(alloc, matches, "REQUESTS")?,
        bindings: value_of(alloc, matches, "BINDINGS")?,
        plan: value_of(alloc, matches, "PLAN")?,
        failures: value_of(alloc, matches, "FAILURES")?,
    })
}

/// The words of `spare`, the first of which is its name.
pub fn read_spare(alloc: Global, words: &[Word]) -> Result<SpareWords, WordsFault>
    ensures { Gives (λ words. words) told result (with_rows spare_words (rows_read spare_app words.now)) }
{
    let Ok(command) = spare_command(alloc) else {
        return Err(WordsFault::Memory);
    };
    let matches = matches_of(alloc, command, words)?;
    match words_at(alloc, &matches) {
        Ok(found) => Ok(found),
        Err(_) => Err(WordsFault::Memory),
    }
}
