ghost use Rattle.std.specs.Prelude.{◌≡◌, ◌≤◌, IfOk};
ghost use Rattle.ras_table.specs.Answers.{Gives};
ghost use Rattle.clap.specs.Words.{app_of, found_of, rows_of};
ghost use Rattle.ras_words.specs.Rows.{rows_read, told, with_rows};
ghost use Rattle.ras_words.specs.Words.{core_app, core_words};

use crate::check::files_command;
use crate::command::{CoreWords, WordsFault};
use crate::matches::{matches_of, number_in, value_of};
use crate::solve::nodes_option;
use clap::{ArgMatches, Command};
use ras_table::Word;
use std::alloc::{AllocError, Global};

// `core INVENTORY REQUESTS BINDINGS [--nodes N]`.
fn core_command<'a>(alloc: Global) -> Result<Command<'a>, AllocError>
    ensures { IfOk result (λ command. app_of command ≡ core_app) }
{
    let nodes = nodes_option(alloc);
    files_command(alloc, "core")?.arg(nodes)
}

// The words at the matches.
fn words_at(alloc: Global, matches: &ArgMatches<'_>) -> Result<CoreWords, AllocError>
    ensures words { IfOk result (λ words. words ≡ core_words (rows_of (found_of matches.now))) }
    ensures some { IfOk result (λ words. 1 ≤ words.nodes) }
    ensures nodes { IfOk result (λ words. words.nodes ≤ 20000) }
{
    Ok(CoreWords {
        inventory: value_of(alloc, matches, "INVENTORY")?,
        requests: value_of(alloc, matches, "REQUESTS")?,
        bindings: value_of(alloc, matches, "BINDINGS")?,
        nodes: number_in(matches, "nodes", 1, 20_000, 100) as u32,
    })
}

/// The words of `core`, the first of which is its name.
pub fn read_core(alloc: Global, words: &[Word]) -> Result<CoreWords, WordsFault>
    ensures words { Gives (λ words. words) told result (with_rows core_words (rows_read core_app words.now)) }
    ensures some { IfOk result (λ words. 1 ≤ words.nodes) }
    ensures nodes { IfOk result (λ words. words.nodes ≤ 20000) }
{
    let Ok(command) = core_command(alloc) else {
        return Err(WordsFault::Memory);
    };
    let matches = matches_of(alloc, command, words)?;
    match words_at(alloc, &matches) {
        Ok(found) => Ok(found),
        Err(_) => Err(WordsFault::Memory),
    }
}
