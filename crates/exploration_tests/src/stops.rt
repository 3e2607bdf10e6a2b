//! Receivers that stop, and an exploration of many paths.

ghost use Rattle.std.specs.Prelude.{◌≡◌, ◌<◌, []};
ghost use Rattle.net_check.specs.Network.{entry, network};
ghost use Rattle.net_check.specs.Sound.{AreOfOneJob};

use crate::jobs::{accepted, put, records_of, same, same_text, text_of};
use crate::tables::{FORK, TTL};
use net_check::{Accepted, Net};
use path_exec::{Ended, Receiver, Took};
use path_records::Record;
use sefl_meaning::Decision;
use sn_width::Steps;
use std::alloc::Global;
use std::marker::Brand;
use std::process::Abort;
use std::sync::ledger::{Blank, Ledger};
use symbolic_engine::explore_into;

/// Keeps records, and stops with the one of a number.
#[derive(Drop)]
struct Stopping {
    items: Vec<Record>,
    /// The number of the record that it stops with, from 0.
    last: usize,
    stops: u32,
}

impl Receiver for Stopping {
    type Item = Record;

    ghost use Rattle.std.specs.Prelude.{◌≡◌};

    ghost seen = { λ out. record {
      StandsFor = λ items. out.items.items ≡ items;
      StoppedIn = λ items. out.items.items ≡ items;
      stops = out.stops;
      target = 0;
      Takes = λ item. Unit {0};
    } };

    fn take(&mut self, item: Record) -> Took {
        let Some(stops) = self.stops.checked_add(1) else {
            drop(item);
            return Took::NoMemory;
        };
        match self.items.push(item) {
            Err(failed) => {
                drop(failed);
                Took::NoMemory
            }
            Ok(()) => {
                if self.items.len() <= self.last {
                    return Took::More;
                }
                self.stops = stops;
                Took::Stop
            }
        }
    }
}

/// How an exploration ends that the receiver stops.
fn explored<L: Ledger>(
    rt: &impl Abort,
    alloc: Global,
    job: &Accepted,
    limit: u32,
    out: &mut Stopping,
    blank: Blank,
) -> Ended
    requires job { AreOfOneJob (network job.now.net) (entry job.now.injection) }
    requires within { 0 < limit }
    requires empty { out.old.items.items ≡ [] }
    requires name { blank.name ≡ L.name }
    requires parts { blank.parts ≡ L.parts }
    requires some { 0 < blank.parts }
{
    let mut steps = Steps::<L>::new(blank);
    explore_into(alloc, &job.net, &job.injection, 16, limit, out, &mut steps).expect(rt, "memory")
}

/// The records have the same text.
fn assert_record(rt: &impl Abort, alloc: Global, net: &Net, wanted: &Record, record: &Record) {
    let wanted = text_of(rt, alloc, net, wanted);
    let found = text_of(rt, alloc, net, record);
    same_text(rt, found.as_str(), wanted.as_str());
}

/// The second list is the front of the first, by the records' texts.
fn assert_front(rt: &impl Abort, alloc: Global, net: &Net, all: &[Record], front: &[Record]) {
    for (wanted, record) in all.iter().zip(front) {
        assert_record(rt, alloc, net, wanted, record);
    }
}

/// The number of an end: 0 whole, 1 partial, 2 stopped.
fn number_of(ended: Ended) -> u64 {
    match ended {
        Ended::Whole => 0,
        Ended::Partial => 1,
        Ended::Stopped => 2,
    }
}

/// How an exploration ends, and after how many of all records, where the receiver stops with the record of the number.
fn stop_of(all: usize, last: usize, end: u64) -> (u64, usize) {
    if last < all {
        (2, last + 1)
    } else {
        (end, all)
    }
}

/// Asserts how an exploration ended, and after how many records.
fn assert_end(rt: &impl Abort, ended: Ended, count: usize, wanted: (u64, usize)) {
    same(rt, number_of(ended), wanted.0);
    same(rt, count as u64, wanted.1 as u64);
}

/// Stops with the record of the number, where there is one; else the exploration ends so.
fn assert_stop(
    rt: &impl Abort,
    alloc: Global,
    job: &Accepted,
    limit: u32,
    all: &[Record],
    last: usize,
    end: u64,
)
    requires { AreOfOneJob (network job.now.net) (entry job.now.injection) }
{
    assert!(rt; limit > 0);
    let mut out = Stopping {
        items: Vec::new(alloc),
        last,
        stops: 0,
    };
    let ended = explored::<Brand>(rt, alloc, job, limit, &mut out, Blank::new(1));
    assert_end(rt, ended, out.items.len(), stop_of(all.len(), last, end));
    assert_front(rt, alloc, &job.net, all, &out.items);
}

fn assert_stops(rt: &impl Abort, alloc: Global, text: &str, limit: u32, end: u64) {
    let job = accepted(rt, alloc, text);
    let all = records_of(rt, alloc, &job, 16, limit);
    for last in 0..=all.len() {
        assert_stop(rt, alloc, &job, limit, &all, last, end);
    }
    drop(job);
}

/// A refuted side, an undecided path and a Fork.
const MIXED: &str =
    "symnet 1; node a 1 -> 2 { in 0 { constrain global x:8 < 5; if global x:8 + global y:8 == 9 { fork 0, 1; } else { constrain global x:8 > 7; } } } inject a.0 { field global x:8; field global y:8; }";

#[test]
fn a_receiver_stops_an_exploration(rt: HostRuntime) {
    for (text, limit, end) in [
        (TTL, 9, 0),
        (FORK, 3, 0),
        (FORK, 1, 1),
        (MIXED, 9, 0),
        (MIXED, 2, 1),
    ] {
        assert_stops(&rt, rt.alloc(), text, limit, end);
    }
}

/// A job with `count` instructions that do nothing, and then as many copies as the product of `first` and `second`.
fn wide_job(rt: &impl Abort, alloc: Global, count: u32, first: u32, second: u32) -> String {
    let mut text = String::new(alloc);
    put(rt, &mut text, "symnet 2; node a 1 -> 1 { in 0 { ", 1);
    put(rt, &mut text, "noop; ", count);
    put(rt, &mut text, "fork 0", 1);
    put(rt, &mut text, ", 0", first.saturating_sub(1));
    put(rt, &mut text, "; } } node b 1 -> 1 { in 0 { fork 0", 1);
    put(rt, &mut text, ", 0", second.saturating_sub(1));
    put(rt, &mut text, "; } } link a.0 -> b.0; inject a.0 { }", 1);
    text
}

/// The record is the path of these copies.
fn assert_copies(rt: &impl Abort, record: &Record, first: u32, second: u32) {
    let Record::Path { decisions, .. } = record else {
        panic!(rt; "no path");
    };
    let wanted = [Decision::Copy(first), Decision::Copy(second)];
    assert!(rt; decisions.as_slice() == wanted.as_slice());
}

/// The records are the paths of 1,024 copies of 64 copies, in order. Up to the first Fork 500,001 instructions begin, and one
/// for each of its copies: so much is the work of the records, which bounds the counter of the exploration.
fn assert_wide(rt: &impl Abort, records: &[Record]) {
    let mut number: u32 = 0;
    let mut work: u32 = 500_001;
    for record in records {
        assert_copies(rt, record, number / 64, number % 64);
        if number % 64 == 0 {
            work = work.saturating_add(1);
        }
        number = number.saturating_add(1);
    }
    same(rt, u64::from(number), 65_536);
    same(rt, u64::from(work), 501_025);
}

/// Running what the paths share once for each of them would take more than 32,000,000,000 steps.
#[test]
fn many_paths_share_what_comes_before_them(rt: HostRuntime) {
    let alloc = rt.alloc();
    let text = wide_job(&rt, alloc, 500_000, 1_024, 64);
    let job = accepted(&rt, alloc, text.as_str());
    let records = records_of(&rt, alloc, &job, 16, 100_000);
    assert_wide(&rt, &records);
    drop(job);
}
