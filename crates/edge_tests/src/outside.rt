//! Rows of the objects in memory, and tries of the adapters.

ghost use Rattle.std.specs.Prelude.{◌≡◌};
ghost use Rattle.regex_patterns.specs.Found.{refusals_after};

use crate::disk::{Disk, Fault, Sevens};
use regex_patterns::RegexPatterns;
use sn_edge::{
    DirFolder, Folder, Found, Loaded, MemFolder, MemPatterns, MemSink, OutSink, Patterns, Printed,
    Put, Sink,
};
use std::alloc::Global;
use std::cell::RefCell;
use std::fmt::Display;
use std::io::ErrorKind;
use std::process::Abort;
use std::{env, fs, io, process};

fn string_of(rt: &impl Abort, alloc: Global, text: &str) -> String {
    String::from_str(alloc, text).expect(rt, "memory")
}

fn one<T: Drop>(rt: &impl Abort, alloc: Global, item: T) -> Vec<T> {
    let mut items = Vec::new(alloc);
    items.push(item).expect(rt, "memory");
    items
}

fn two<T: Drop>(rt: &impl Abort, alloc: Global, first: T, second: T) -> Vec<T> {
    let mut items = one(rt, alloc, first);
    items.push(second).expect(rt, "memory");
    items
}

/// Asserts that the bytes are the same.
fn same(rt: &impl Abort, found: &[u8], want: &[u8]) {
    assert_eq!(rt; found, want);
}

/// Loads a file with these bytes.
fn check_bytes<F: Folder>(
    rt: &impl Abort,
    alloc: Global,
    folder: &mut F,
    name: &str,
    limit: u64,
    want: &[u8],
) {
    match folder.load(alloc, name, limit) {
        Loaded::Bytes(bytes) => same(rt, bytes.as_slice(), want),
        _ => panic!(rt; "no bytes"),
    }
}

/// What a load answers, with the number of bytes where all of them are the byte 7.
#[derive(Clone, Copy, PartialEq, Eq)]
enum Answer {
    Sevens(usize),
    Absent,
    TooBig,
    Failed,
    Other,
}

fn are_sevens(bytes: &[u8]) -> bool {
    for byte in bytes {
        if *byte != 7 {
            return false;
        }
    }
    true
}

fn answer_of(answer: &Loaded) -> Answer {
    match answer {
        Loaded::Bytes(bytes) if are_sevens(bytes) => Answer::Sevens(bytes.len()),
        Loaded::Absent => Answer::Absent,
        Loaded::TooBig => Answer::TooBig,
        Loaded::Failed => Answer::Failed,
        _ => Answer::Other,
    }
}

/// Loads a file, with this answer.
fn check_load<F: Folder>(
    rt: &impl Abort,
    alloc: Global,
    folder: &mut F,
    name: &str,
    limit: u64,
    want: Answer,
) {
    let answer = folder.load(alloc, name, limit);
    assert!(rt; answer_of(&answer) == want, "{name} {limit}");
}

fn file(rt: &impl Abort, alloc: Global, name: &str, bytes: &[u8]) -> (String, Vec<u8>) {
    let bytes = bytes.to_vec(alloc).expect(rt, "memory");
    (string_of(rt, alloc, name), bytes)
}

#[test]
fn mem_folder_answers_in_order(rt: HostRuntime) {
    let alloc = rt.alloc();
    let first = file(&rt, alloc, "job", b"first");
    let files = two(&rt, alloc, first, file(&rt, alloc, "job", b"second"));
    let mut folder = MemFolder::new(files, one(&rt, alloc, 2));
    check_bytes(&rt, alloc, &mut folder, "job", 5, b"first");
    check_load(&rt, alloc, &mut folder, "job", 4, Answer::TooBig);
    check_load(&rt, alloc, &mut folder, "job", 5, Answer::Failed);
    check_load(&rt, alloc, &mut folder, "report", 5, Answer::Absent);
    check_bytes(&rt, alloc, &mut folder, "job", u64::MAX, b"first");
}

fn check_put<S: Sink>(rt: &impl Abort, sink: &mut S, piece: &[u8], answer: Put) {
    assert!(rt; sink.put(piece) == answer, "{piece:?}");
}

#[test]
fn mem_sink_keeps_five_bytes_of_a_failing_put(rt: HostRuntime) {
    let mut sink = MemSink::new(two(&rt, rt.alloc(), 1, 3), 5);
    for (piece, answer, bytes) in [
        (b"head".as_slice(), Put::All, b"head".as_slice()),
        (b"record", Put::Failed, b"headrecor"),
        (b"", Put::All, b"headrecor"),
        (b"tail", Put::Failed, b"headrecortail"),
    ] {
        check_put(&rt, &mut sink, piece, answer);
        same(&rt, sink.bytes(), bytes);
    }
}

fn row(
    rt: &impl Abort,
    alloc: Global,
    pattern: &str,
    name: &str,
    found: bool,
) -> (String, String, bool) {
    (
        string_of(rt, alloc, pattern),
        string_of(rt, alloc, name),
        found,
    )
}

fn rows(rt: &impl Abort, alloc: Global) -> Vec<(String, String, bool)> {
    let mut rows = Vec::new(alloc);
    for (pattern, name, found) in [
        ("a.*", "ab", true),
        ("a.*", "ba", false),
        ("a.*", "ab", false),
        ("(", "ab", true),
    ] {
        let row = row(rt, alloc, pattern, name, found);
        rows.push(row).expect(rt, "memory");
    }
    rows
}

fn check_answer(
    rt: &impl Abort,
    alloc: Global,
    patterns: &mut MemPatterns,
    pattern: &str,
    name: &str,
    want: Found,
) {
    let found = patterns.find(alloc, pattern, name);
    assert!(rt; found == want, "{pattern} in {name}");
}

#[test]
fn mem_patterns_answer_by_rows(rt: HostRuntime) {
    let alloc = rt.alloc();
    let bad = one(&rt, alloc, string_of(&rt, alloc, "("));
    let mut patterns = MemPatterns::new(rows(&rt, alloc), bad);
    for (pattern, name, want) in [
        ("a.*", "ab", Found::Yes),
        ("a.*", "ba", Found::No),
        ("a.*", "a", Found::No),
        ("ab", "a.*", Found::No),
        ("(", "ab", Found::Bad),
    ] {
        check_answer(&rt, alloc, &mut patterns, pattern, name, want);
    }
}

/// Looks for a name, and counts what was refused.
fn check_found(
    rt: &impl Abort,
    alloc: Global,
    patterns: &mut RegexPatterns,
    pattern: &str,
    name: &str,
    want: Found,
)
    ensures { patterns.new ≡ refusals_after patterns.old want }
{
    let found = patterns.find(alloc, pattern, name);
    assert!(rt; found == want, "{pattern} in {name}");
}

/// Takes patterns such that two were refused: a call is proved only of those.
fn refused_two(_patterns: &RegexPatterns)
    requires { _patterns.now ≡ 2 }
{}

#[test]
fn a_pattern_is_found_anywhere_and_a_bad_one_is_counted(rt: HostRuntime) {
    let mut patterns = RegexPatterns::new();
    check_found(&rt, rt.alloc(), &mut patterns, "^opt", "opt1", Found::Yes);
    check_found(&rt, rt.alloc(), &mut patterns, "^opt", "xopt", Found::No);
    check_found(&rt, rt.alloc(), &mut patterns, "opt", "xopt1", Found::Yes);
    check_found(&rt, rt.alloc(), &mut patterns, "(", "xopt", Found::Bad);
    check_found(&rt, rt.alloc(), &mut patterns, "opt", "op", Found::No);
    check_found(
        &rt,
        rt.alloc(),
        &mut patterns,
        "a{999999999}",
        "a",
        Found::Bad,
    );
    refused_two(&patterns);
}

/// Loads a file that is so long, from a disk that fails so.
fn check_sevens(rt: &impl Abort, alloc: Global, file: Sevens, limit: u64, wanted: Answer) {
    let disk = Disk { file };
    let mut folder = DirFolder::new(&disk);
    check_load(rt, alloc, &mut folder, "job", limit, wanted);
}

#[test]
fn a_file_is_read_to_its_end_or_one_byte_past_the_limit(rt: HostRuntime) {
    for (left, fault, limit, wanted) in [
        (70_000, Fault::Nowhere, 70_000, Answer::Sevens(70_000)),
        (70_000, Fault::PastEnd, 69_999, Answer::TooBig),
        (70_000, Fault::Nowhere, 0, Answer::TooBig),
        (1, Fault::PastEnd, 0, Answer::TooBig),
        (3, Fault::AtEnd, 9, Answer::Failed),
    ] {
        check_sevens(&rt, rt.alloc(), Sevens { left, fault }, limit, wanted);
    }
}

/// The path of a file of this process's own.
fn own_path(rt: HostRuntime) -> Option<String> {
    let name = format!(in rt.alloc(); "sn_edge_{}", process::id(rt.process())).ok()?;
    let folder = env::temp_dir(&rt).ok()?;
    let path = folder.join(rt.alloc(), name.as_str()).ok()?;
    String::from_str(rt.alloc(), path.to_str()?).ok()
}

#[test]
fn dir_folder_loads_a_file(rt: HostRuntime) {
    let alloc = rt.alloc();
    let path = own_path(rt).expect(&rt, "a path");
    let text = path.as_str();
    let mut folder = DirFolder::new(&rt);
    check_load(&rt, alloc, &mut folder, text, 9, Answer::Absent);
    fs::write(&rt, text, "a job").expect(&rt, "a file");
    check_bytes(&rt, alloc, &mut folder, text, 5, b"a job");
    check_load(&rt, alloc, &mut folder, text, 4, Answer::TooBig);
    fs::remove_file(&rt, text).expect(&rt, "no file");
    // A folder opens, and a read of it fails.
    check_load(&rt, alloc, &mut folder, ".", 9, Answer::Failed);
}

// An output that takes at most two bytes at once, and none once it has five.
#[derive(Drop)]
struct Narrow {
    bytes: RefCell<Vec<u8>>,
}

impl Print for Narrow {
    fn print<D: Display + Drop>(&self, _value: D) -> io::Result<()> {
        Err(io::Error::from(ErrorKind::Unsupported))
    }

    fn println<D: Display + Drop>(&self, _value: D) -> io::Result<()> {
        Err(io::Error::from(ErrorKind::Unsupported))
    }

    fn write_all(&self, _bytes: &[u8]) -> io::Result<()> {
        Err(io::Error::from(ErrorKind::Unsupported))
    }

    fn write_some(&self, bytes: &[u8]) -> io::Result<usize> {
        let Ok(mut taken) = self.bytes.try_borrow_mut() else {
            return Err(io::Error::from(ErrorKind::Other));
        };
        if bytes.starts_with(b"!") {
            return Err(io::Error::from(ErrorKind::BrokenPipe));
        }
        let count = bytes.len().min(2).min(5usize.saturating_sub(taken.len()));
        taken.extend_from_slice(&bytes[..count])?;
        Ok(count)
    }
}

#[test]
fn out_sink_writes_the_whole_piece_or_fails(rt: HostRuntime) {
    let output = Narrow {
        bytes: RefCell::new(Vec::new(rt.alloc())),
    };
    let mut sink = OutSink::new(Printed::new(&output));
    for (piece, answer) in [
        (b"abc".as_slice(), Put::All),
        (b"", Put::All),
        (b"!", Put::Failed),
        (b"defg", Put::Failed),
    ] {
        check_put(&rt, &mut sink, piece, answer);
    }
    let bytes = output.bytes.into_inner();
    same(&rt, bytes.as_slice(), b"abcde");
    check_put(
        &rt,
        &mut OutSink::new(Printed::new(&rt)),
        b"sn_edge\n",
        Put::All,
    );
}
