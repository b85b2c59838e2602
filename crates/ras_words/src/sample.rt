ghost use Rattle.std.specs.Prelude.{◌≡◌, ◌≤◌, IfOk, codes, false};
ghost use Rattle.ras_table.specs.Answers.{Gives};
ghost use Rattle.clap.specs.Words.{app_of, found_of, rows_of, rule_of};
ghost use Rattle.ras_words.specs.Rows.{needed_number, rows_read, told, with_rows};
ghost use Rattle.ras_words.specs.Words.{sample_app, sample_words};

use crate::command::{SampleWords, WordsFault};
use crate::matches::{matches_of, number_in};
use clap::{Arg, ArgMatches, Command};
use ras_table::Word;
use std::alloc::{AllocError, Global};

fn number_word<'a>(alloc: Global) -> Arg<'a>
    ensures rule { rule_of result ≡ needed_number (codes "NUMBER") 0 65536 }
    ensures local { result.global ≡ false }
{
    Arg::new(alloc, "NUMBER")
        .required(true)
        .value_parser(clap::value_parser!(u64).range(0..=65_536))
}

fn size_word<'a>(alloc: Global) -> Arg<'a>
    ensures rule { rule_of result ≡ needed_number (codes "SIZE") 2 40 }
    ensures local { result.global ≡ false }
{
    Arg::new(alloc, "SIZE")
        .required(true)
        .value_parser(clap::value_parser!(u64).range(2..=40))
}

// `sample NUMBER SIZE`.
fn sample_command<'a>(alloc: Global) -> Result<Command<'a>, AllocError>
    ensures { IfOk result (λ command. app_of command ≡ sample_app) }
{
    let number = number_word(alloc);
    let size = size_word(alloc);
    Command::new(alloc, "sample").arg(number)?.arg(size)
}

// The words at the matches.
fn words_at(matches: &ArgMatches<'_>) -> SampleWords
    ensures words { result ≡ sample_words (rows_of (found_of matches.now)) }
    ensures number { result.number ≤ 65536 }
    ensures some { 2 ≤ result.size }
    ensures size { result.size ≤ 40 }
{
    SampleWords {
        number: number_in(matches, "NUMBER", 0, 65_536, 0) as u32,
        size: number_in(matches, "SIZE", 2, 40, 2) as u32,
    }
}

/// The words of `sample`, the first of which is its name.
pub fn read_sample(alloc: Global, words: &[Word]) -> Result<SampleWords, WordsFault>
    ensures words { Gives (λ words. words) told result (with_rows sample_words (rows_read sample_app words.now)) }
    ensures number { IfOk result (λ words. words.number ≤ 65536) }
    ensures some { IfOk result (λ words. 2 ≤ words.size) }
    ensures size { IfOk result (λ words. words.size ≤ 40) }
{
    let Ok(command) = sample_command(alloc) else {
        return Err(WordsFault::Memory);
    };
    let matches = matches_of(alloc, command, words)?;
    Ok(words_at(&matches))
}
