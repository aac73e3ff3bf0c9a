//! What `clap` finds in the words of a command.
ghost use Rattle.std.specs.Prelude.{◌≡◌, ◌≤◌, IfErr, IfOk, IfSome, Some, None, map, true};
ghost use Rattle.std.specs.String.{string_bytes};
ghost use Rattle.clap.specs.Words.{app_of, found_of, kind_of, rows_of};
ghost use Rattle.clap.specs.declared.error.kind.ErrorKind.TheVariants as kind;
ghost use Rattle.aq_words.specs.Entries.{entries, is_simple_parser, number_of, text_of};
ghost use Rattle.aq_words.specs.declared.command.WordsFault.TheVariants as fault;

use crate::command::WordsFault;
use clap::error::ErrorKind;
use clap::{ArgMatches, Command, Error};
use std::alloc::{AllocError, Global};

/// Why `clap` refuses words.
fn cause_of(error: &Error) -> WordsFault
    ensures { result ≡ fault.Usage → kind_of error.now ≡ kind.OutOfMemory → ⊥ }
{
    match error.kind() {
        ErrorKind::OutOfMemory => WordsFault::Memory,
        _ => WordsFault::Usage,
    }
}

/// The entries of words, the first of which is the command's name. Usage: `clap` refuses them for another cause than
/// memory. Memory: memory ran out.
pub(crate) fn find_entries<'a>(
    parser: Command<'a>,
    words: &'a [String],
) -> Result<ArgMatches<'a>, WordsFault>
    requires { is_simple_parser (app_of parser) ≡ true }
    ensures found { IfOk result (λ m. entries (app_of parser.entry) (map string_bytes words.entry.now)
        ≡ Some (rows_of (found_of m))) }
    ensures refused { IfErr result (λ e. e ≡ fault.Usage
        → entries (app_of parser.entry) (map string_bytes words.entry.now) ≡ None) }
{
    match parser.try_get_matches_from(words) {
        Ok(matches) => Ok(matches),
        Err(error) => Err(cause_of(&error)),
    }
}

/// The text of an entry, empty where there is none.
pub(crate) fn text_of(
    alloc: Global,
    matches: &ArgMatches<'_>,
    id: &str,
) -> Result<String, AllocError>
    ensures { IfOk result (λ text. string_bytes text ≡ text_of id.entry.now (rows_of (found_of matches.now))) }
{
    match matches.get_str(id) {
        Some(text) => {
            let copy = String::from_str(alloc, text)?;
            Ok(copy)
        }
        None => Ok(String::new(alloc)),
    }
}

/// The number of an entry, from 1 to the most.
pub(crate) fn number_of(matches: &ArgMatches<'_>, id: &str, most: u64) -> Option<u64>
    ensures value { result ≡ number_of id.now most (rows_of (found_of matches.now)) }
    ensures range { IfSome result (λ n. (1 ≤ n) × (n ≤ most)) }
{
    match matches.get_one::<u64>(id) {
        Some(number) => {
            if 1 <= number && number <= most {
                Some(number)
            } else {
                None
            }
        }
        None => None,
    }
}
