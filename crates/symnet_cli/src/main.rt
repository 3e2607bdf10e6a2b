//! The program `symnet`: symbolic execution of SEFL network models.
#![tactic(auto)]

use command_runs::Status;
use fault_places::{KeepingFolder, KeptFolder, is_plain, place_text, plain_text};
use fault_words::reason_text;
use regex_patterns::RegexPatterns;
use sn_edge::{DirFolder, OutSink, Printed};
use std::process::ExitCode;
use std::rt::{Env, Files};
use std::{env, io};
use symnet_program::symnet;

/// The words after the program's name.
fn given_words<R: Env + AllocGlobal>(rt: &R) -> io::Result<Vec<String>> {
    let mut words = env::args(rt)?;
    drop(words.next());
    Ok(words.collect(rt.alloc())?)
}

/// Runs the program over the folder. The contract of `symnet` is long, and goals behind its call are proved with all of it.
fn run_over<R: Files + Print + AllocGlobal>(
    rt: &R,
    words: &[String],
    folder: &mut KeepingFolder<DirFolder<'_, R>>,
) -> Status {
    let mut patterns = RegexPatterns::new();
    let mut out = OutSink::new(Printed::new(rt));
    symnet(rt.alloc(), words, folder, &mut patterns, &mut out)
}

/// How the program ends, and the files that it loaded.
fn run<R: Files + Print + AllocGlobal>(rt: &R, words: &[String]) -> (Status, KeptFolder) {
    let mut folder = KeepingFolder::new(rt.alloc(), DirFolder::new(rt));
    let status = run_over(rt, words, &mut folder);
    (status, folder.kept())
}

/// The status where there are no words.
fn status_without_words(error: &io::Error) -> Status {
    if error.kind() == io::ErrorKind::OutOfMemory {
        Status::NoMemory
    } else {
        Status::Usage
    }
}

/// Shows why there are no words: where memory has not ended, one of them is no text.
fn show_unread<R: Eprint>(rt: &R, status: &Status) -> io::Result<()> {
    match status {
        Status::Usage => rt.eprintln("a word is no UTF-8"),
        _ => Ok(()),
    }
}

/// Shows a status on standard error. One with a name that a terminal may not be shown as it is, and no memory to change that, is not shown.
fn show_named<R: Eprint + AllocGlobal>(rt: &R, status: &Status) -> io::Result<()> {
    if is_plain(status) {
        return rt.eprintln(status);
    }
    match plain_text(rt.alloc(), status) {
        Ok(text) => rt.eprintln(text.as_str()),
        Err(_) => Ok(()),
    }
}

/// Shows a status that is not Done on standard error.
fn show<R: Eprint + AllocGlobal>(rt: &R, status: &Status) -> io::Result<()> {
    match status {
        Status::Done => Ok(()),
        _ => show_named(rt, status),
    }
}

/// Shows the place that a status blames, below it.
fn show_place<R: Eprint + AllocGlobal>(
    rt: &R,
    words: &[String],
    status: &Status,
    folder: &mut KeptFolder,
) -> io::Result<()> {
    let mut patterns = RegexPatterns::new();
    let Some(bytes) = place_text(rt.alloc(), words, status, folder, &mut patterns) else {
        return Ok(());
    };
    match str::from_utf8(&bytes) {
        Ok(text) => rt.eprintln(text),
        Err(_) => Ok(()),
    }
}

/// Shows what the status says in words, below that.
fn show_reason<R: Eprint + AllocGlobal>(
    rt: &R,
    words: &[String],
    status: &Status,
    folder: &mut KeptFolder,
) -> io::Result<()> {
    let mut patterns = RegexPatterns::new();
    match reason_text(rt.alloc(), words, status, folder, &mut patterns) {
        Some(text) => rt.eprintln(text),
        None => Ok(()),
    }
}

/// Runs the program, and shows how it ended. Nothing is left to do where standard error takes nothing.
fn run_and_show<R: Env + Files + Print + Eprint + AllocGlobal>(rt: &R) -> Status {
    match given_words(rt) {
        Ok(words) => {
            let (status, mut folder) = run(rt, &words);
            let _ = show(rt, &status);
            let _ = show_place(rt, &words, &status, &mut folder);
            let _ = show_reason(rt, &words, &status, &mut folder);
            status
        }
        Err(error) => {
            let status = status_without_words(&error);
            let _ = show(rt, &status);
            let _ = show_unread(rt, &status);
            status
        }
    }
}

fn main(rt: HostRuntime) -> ExitCode {
    ExitCode::from(run_and_show(&rt).number())
}
