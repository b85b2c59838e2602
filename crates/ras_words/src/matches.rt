ghost use Rattle.std.specs.Prelude.{◌≡◌, ◌≤◌, IfOk, IfSome, false, true};
ghost use Rattle.ras_table.specs.Answers.{Gives};
ghost use Rattle.clap.specs.Words.{app_of, found_of, is_simple, is_simple_and_free, rows_of, rule_of};
ghost use Rattle.ras_words.specs.Rows.{Refused, needed, number_in, number_of, rows_read, told, value_of};

use crate::command::WordsFault;
use clap::error::ErrorKind;
use clap::{Arg, ArgMatches, Command, Error};
use ras_table::Word;
use std::alloc::{AllocError, Global};

/// A word that must be there.
pub fn needed<'a>(alloc: Global, id: &'a str) -> Arg<'a>
    ensures rule { rule_of result ≡ needed id.now }
    ensures local { result.global ≡ false }
{
    Arg::new(alloc, id).required(true)
}

// The refusal with the text that the reader of command lines has for the user.
fn refused(alloc: Global, error: &Error) -> WordsFault
    ensures { IfSome (told result) (λ refusal. refusal ≡ Refused) }
{
    match error.to_string(alloc) {
        Ok(text) => WordsFault::Refused(text),
        Err(_) => WordsFault::Memory,
    }
}

/// The matches of a command's words, the first of which is its name.
pub fn matches_of<'a>(
    alloc: Global,
    command: Command<'a>,
    words: &'a [Word],
) -> Result<ArgMatches<'a>, WordsFault>
    requires simple { is_simple (app_of command) ≡ true }
    requires free { is_simple_and_free (app_of command) ≡ true }
    ensures { Gives (λ matches. rows_of (found_of matches)) told result (rows_read (app_of command.entry) words.now) }
{
    match command.try_get_matches_from(words) {
        Ok(matches) => Ok(matches),
        Err(error) => match error.kind() {
            ErrorKind::OutOfMemory => Err(WordsFault::Memory),
            _ => Err(refused(alloc, &error)),
        },
    }
}

/// A copy of the value of an argument.
pub fn value_of(alloc: Global, matches: &ArgMatches<'_>, id: &str) -> Result<Word, AllocError>
    ensures { IfOk result (λ word. word ≡ value_of id.now (rows_of (found_of matches.now))) }
{
    match matches.get_str(id) {
        Some(text) => Word::new(alloc, text),
        None => Word::new(alloc, ""),
    }
}

// The number that a text spells, where it lies in a range.
fn number_of(text: &str, least: u64, most: u64, default: u64) -> u64
    ensures { result ≡ number_of least most default text.now }
{
    match text.parse::<u64>() {
        Ok(n) if n >= least && n <= most => n,
        _ => default,
    }
}

/// The number of an argument in a range, or its default where it is not given.
pub fn number_in(matches: &ArgMatches<'_>, id: &str, least: u64, most: u64, default: u64) -> u64
    requires least { least ≤ default }
    requires most { default ≤ most }
    ensures number { result ≡ number_in id.now least most default (rows_of (found_of matches.now)) }
    ensures at_least { least ≤ result }
    ensures at_most { result ≤ most }
{
    match matches.get_str(id) {
        None => default,
        Some(text) => number_of(text, least, most, default),
    }
}
