//! What clap finds in the words of a command line.

ghost use Rattle.std.specs.Prelude.{◌≡◌, map, string_bytes, true};
ghost use Rattle.clap.specs.Words.{app_of, is_simple, is_simple_and_free};
ghost use Rattle.san_words.specs.inner.Matches.{Finds};

use clap::error::ErrorKind;
use clap::{ArgMatches, Command};

/// Why nothing is found in words.
pub(crate) enum Unheard {
    Refused,
    NoMemory,
}

/// What a command finds in words.
pub(crate) fn find<'a>(command: Command<'a>, words: &'a [String]) -> Result<ArgMatches<'a>, Unheard>
    requires simple { is_simple (app_of command) ≡ true }
    requires free { is_simple_and_free (app_of command) ≡ true }
    ensures { Finds (app_of command.entry) (map string_bytes words.now) result }
{
    match command.try_get_matches_from(words) {
        Ok(matches) => Ok(matches),
        Err(error) => {
            if error.kind() == ErrorKind::OutOfMemory {
                Err(Unheard::NoMemory)
            } else {
                Err(Unheard::Refused)
            }
        }
    }
}
