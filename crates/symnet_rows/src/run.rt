//! Runs of rows.

use command_runs::Status;
use row_tables::{Ending, Given};
use sn_edge::{MemFolder, MemPatterns, MemSink};
use std::alloc::{AllocError, Global};
use symnet_program::symnet;

/// Runs the program over what a row gives, and tells how the run ended.
pub fn run_given(alloc: Global, given: Given) -> Result<Ending, AllocError> {
    let Given {
        words,
        files,
        failing_loads,
        failing_puts,
        kept,
        found,
        bad_patterns,
    } = given;
    let mut folder = MemFolder::new(files, failing_loads);
    let mut patterns = MemPatterns::new(found, bad_patterns);
    let mut out = MemSink::new(failing_puts, kept);
    let status = run_words(alloc, &words, &mut folder, &mut patterns, &mut out);
    drop(words);
    drop(folder);
    drop(patterns);
    ending_of(alloc, &status, &out)
}

/// How a run ended that left the sink so.
fn ending_of(alloc: Global, status: &Status, out: &MemSink) -> Result<Ending, AllocError> {
    let output = out.bytes().to_vec(alloc)?;
    Ok(Ending {
        status: status.number(),
        error: status.to_string(alloc)?,
        output,
    })
}

/// Runs the program. The contract of `symnet` is long, and goals behind its call are proved with all of it.
fn run_words(
    alloc: Global,
    words: &[String],
    folder: &mut MemFolder,
    patterns: &mut MemPatterns,
    out: &mut MemSink,
) -> Status {
    symnet(alloc, words, folder, patterns, out)
}
