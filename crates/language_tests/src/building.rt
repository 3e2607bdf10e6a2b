//! What texts are made into.

use crate::jobs::{check_printed, joined, repeated, same_count};
use sefl_builder::build;
use sefl_lex::tokens;
use sefl_syntax::Job;
use std::alloc::Global;
use std::process::Abort;

/// A job in the first version of the text.
const OLD: &str = "symnet 1; node in 1 -> 0x2 { in 0 { tag L3 = -5; untag L3; set head L3-4:8 = (1 +
(global g:8)) - 2; if [not true] and $x:8 in {1..2, 3, 7..0} or [1 != 2 or true] { noop; { } } else {
fork; fork 0, 1; } } out 0 { } } link in.0 -> in.1; inject in.0 { tag L3 = 5; field global g:8; field
head 3:8 = 0x7; where true; } ask reach in in.0; ask invariant local l:1 at out a.1;";

/// The same job in the second version.
const OLD_AS_NEW: &str = "symnet 2;
node in 1 -> 2 {
  in 0 {
    retag L3 = -5;
    untag L3;
    set head L3-4:8 = (1 + global g:8) - 2;
    if not true and $x:8 in {1..2, 3, 7..0} or [1 != 2 or true] {
      noop;
      {
      }
    } else {
      fork;
      fork 0, 1;
    }
  }
  out 0 {
  }
}
link in.0 -> in.1;
inject in.0 {
  tag L3 = 5;
  field global g:8;
  field head 3:8 = 7;
  where true;
}
ask reach in in.0;
ask invariant local l:1 at out a.1;
";

/// A canonical text of the second version.
const NEW: &str = "symnet 2;
node set = mac \"set.mac\" egress;
node f = fib \"f\" chain;
node g = fib \"\" grouped;
node b 0 -> 0 {
  in 0 {
    retag head = any+1;
    tag not = 0;
    allocate head -1:8;
    deallocate local m:8;
    set $v:8 = any;
    set $v:8 = 1 - 2 + head true+0:128 - (3 + 4);
    constrain 1 + 2 <= 3 and [$v:8 > 4 and 5 >= 6] and 7 < 8;
    constrain not [not 1 == 2 or 3 != 4];
    fail \"dead\";
    for o in \"^opt\" {
      forward 1;
    }
  }
}
inject b.0 {
  field head L3+4:8;
}
ask visible head 0:8 at in b.0;
ask reach out b.0 with 1 == 1;
";

/// The job that is made of a text, where one is.
fn built(rt: &impl Abort, alloc: Global, text: &str) -> Option<Job> {
    let found = tokens(alloc, text).expect(rt, "tokens");
    build(alloc, text, found).expect(rt, "memory")
}

/// Checks that a job is made of the text, with this text in the second version.
fn check_built(rt: &impl Abort, alloc: Global, text: &str, canonical: &str) {
    let job = built(rt, alloc, text).expect(rt, "a job");
    check_printed(rt, alloc, &job, canonical);
    drop(job);
}

fn check_not_built(rt: &impl Abort, alloc: Global, text: &str) {
    let job = built(rt, alloc, text);
    assert!(rt; job.is_none());
    drop(job);
}

#[test]
fn jobs_are_made_of_their_texts(rt: HostRuntime) {
    for (text, canonical) in [(OLD, OLD_AS_NEW), (OLD_AS_NEW, OLD_AS_NEW), (NEW, NEW)] {
        check_built(&rt, rt.alloc(), text, canonical);
    }
}

/// A job with a test within `count` parentheses.
fn nested(rt: &impl Abort, alloc: Global, count: u32) -> String {
    let (open, close) = (
        repeated(rt, alloc, "(", count),
        repeated(rt, alloc, ")", count),
    );
    let front = "symnet 2; inject a.0 { where ";
    joined(
        rt,
        alloc,
        &[front, open.as_str(), "1", close.as_str(), " == 1; }"],
    )
}

#[test]
fn parentheses_nest_to_64(rt: HostRuntime) {
    let canonical = "symnet 2;\ninject a.0 {\n  where 1 == 1;\n}\n";
    let most = nested(&rt, rt.alloc(), 64);
    check_built(&rt, rt.alloc(), most.as_str(), canonical);
    let more = nested(&rt, rt.alloc(), 65);
    check_not_built(&rt, rt.alloc(), more.as_str());
}

#[test]
fn a_long_job_is_made_in_one_pass(rt: HostRuntime) {
    let asks = repeated(
        &rt,
        rt.alloc(),
        " ask reach in a.0 with 1 in {1, 2};",
        20_000,
    );
    let text = joined(
        &rt,
        rt.alloc(),
        &["symnet 2; inject a.0 { }", asks.as_str()],
    );
    let job = built(&rt, rt.alloc(), text.as_str()).expect(&rt, "a job");
    same_count(&rt, job.asks.len() as u64, 20_000);
    drop(job);
}
