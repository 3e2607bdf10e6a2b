//! Runs worked rows of the program `symnet`, from the tables that the words name.
#![tactic(auto)]

mod run;

use row_tables::{Ending, Row, differences, read_table};
use run::run_given;
use std::process::ExitCode;
use std::rt::Files;
use std::{env, fs, io};

/// Prints what differs between how a row was to end and how it ended; `place` tells the row.
fn show_differences<R: Print + AllocGlobal>(
    rt: &R,
    place: &str,
    wanted: &Ending,
    came: &Ending,
) -> io::Result<()> {
    for difference in &differences(rt.alloc(), wanted, came)? {
        println!(rt; "{place}: {difference}")?;
    }
    Ok(())
}

/// Runs a row, and prints what differs. Whether nothing does.
fn run_row<R: Print + AllocGlobal>(rt: &R, table: &str, row: Row) -> io::Result<bool> {
    let alloc = rt.alloc();
    let Row {
        name,
        line,
        given,
        wanted,
    } = row;
    let came = run_given(alloc, given)?;
    let agrees = wanted.is_same(&came);
    if !agrees {
        let place = format!(in alloc; "{table}:{line}: {name}")?;
        show_differences(rt, &place, &wanted, &came)?;
    }
    Ok(agrees)
}

/// Runs all rows of a table, and prints whether each ended as wanted; how many there are goes to standard error.
fn run_rows<R: Print + Eprint + AllocGlobal>(
    rt: &R,
    table: &str,
    rows: Vec<Row>,
) -> io::Result<bool> {
    let count = rows.len();
    let mut agrees = true;
    for row in rows {
        agrees &= run_row(rt, table, row)?;
    }
    if agrees {
        println!(rt; "{table}: each row ended as wanted")?;
    }
    eprintln!(rt; "{table}: {count} rows")?;
    Ok(agrees)
}

/// Runs the table in a file.
fn run_table<R: Files + Print + Eprint + AllocGlobal>(rt: &R, table: &str) -> io::Result<bool> {
    let Ok(bytes) = fs::read(rt, table) else {
        println!(rt; "{table}: the file cannot be read")?;
        return Ok(false);
    };
    match read_table(rt, &bytes) {
        Ok(rows) => run_rows(rt, table, rows),
        Err(fault) => {
            println!(rt; "{table}:{}: {}", fault.line, fault.flaw.text())?;
            Ok(false)
        }
    }
}

/// Runs the tables in files of these names. Where no name is given, that is an error.
fn run_tables<R: Files + Print + Eprint + AllocGlobal>(
    rt: &R,
    tables: &[String],
) -> io::Result<bool> {
    if tables.is_empty() {
        println!(rt; "no table is named")?;
        return Ok(false);
    }
    let mut agrees = true;
    for table in tables {
        agrees &= run_table(rt, table.as_str())?;
    }
    Ok(agrees)
}

fn main(rt: HostRuntime) -> io::Result<ExitCode> {
    let mut words = env::args(&rt)?;
    drop(words.next());
    let tables: Vec<String> = words.collect(rt.alloc())?;
    if run_tables(&rt, &tables)? {
        Ok(ExitCode::SUCCESS)
    } else {
        Ok(ExitCode::FAILURE)
    }
}
