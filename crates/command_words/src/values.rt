//! Words of a form, read by `clap`.

ghost use Rattle.std.specs.Prelude.{◌≡◌, ◌<◌, length, map, string_bytes, IfOk, MatchOption, None, Some};
ghost use Rattle.clap.specs.Words.{found_of, rows_of};
ghost use Rattle.command_words.specs.Apps.{rows};
ghost use Rattle.command_words.specs.Forms.{Given, read_form};
ghost use Rattle.command_words.specs.Shapes.{form_of};

use crate::dash::has_single_dash;
use crate::form::{Form, form_command};
use clap::ArgMatches;
use clap::error::ErrorKind;
use std::alloc::{AllocError, Global};

/// The values that the words give by name; None where they have no reading in this form.
pub fn read<'a>(
    alloc: Global,
    form: &Form,
    words: &'a [String],
) -> Result<Option<ArgMatches<'a>>, AllocError>
    requires { length form.now.positionals.now < 1000 }
    ensures { IfOk result (λ r. MatchOption r (read_form (form_of form.now) (map (λ w. string_bytes w) words.entry.now)
        ≡ None)
        (λ m. (given : Given) × (read_form (form_of form.now) (map (λ w. string_bytes w) words.entry.now) ≡ Some given)
        × (rows_of (found_of m) ≡ rows given))) }
{
    if has_single_dash(words) {
        return Ok(None);
    }
    let command = form_command(alloc, form)?;
    match command.try_get_matches_from(words) {
        Ok(matches) => Ok(Some(matches)),
        Err(error) => match error.kind() {
            ErrorKind::OutOfMemory => Err(AllocError),
            _ => Ok(None),
        },
    }
}
