//! Forms of words, and the commands of `clap` for them.

ghost use Rattle.std.specs.Prelude.{◌≡◌, IfOk};
ghost use Rattle.clap.specs.Words.{app_of};
ghost use Rattle.command_words.specs.Apps.{form_app};
ghost use Rattle.command_words.specs.Shapes.{form_of};

use clap::{Arg, ArgAction, Command};
use std::alloc::{AllocError, Global};

/// What the words behind a command's name may be: its positionals, in their order, and its options, each with a value.
#[derive(Clone, Copy)]
pub struct Form {
    pub positionals: &'static [&'static str],
    pub options: &'static [&'static str],
}

/// The command of `clap` for a form.
pub fn form_command<'a>(alloc: Global, form: &Form) -> Result<Command<'a>, AllocError>
    ensures { IfOk result (λ c. app_of c ≡ form_app (form_of form.now)) }
{
    let mut command = Command::new(alloc, "")
        .no_binary_name(true)
        .disable_help_flag(true);
    for id in form.positionals {
        let positional = Arg::new(alloc, *id).required(true).action(ArgAction::Set);
        command = command.arg(positional)?;
    }
    for name in form.options {
        let option = Arg::new(alloc, *name).long(*name).action(ArgAction::Set);
        command = command.arg(option)?;
    }
    Ok(command)
}
