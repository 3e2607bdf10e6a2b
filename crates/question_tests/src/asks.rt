//! Questions that are answered one by one, and questions that are refused.

ghost use Rattle.net_check.specs.Network.{entry, network};
ghost use Rattle.net_check.specs.Sound.{AreOfOneJob};
ghost use Rattle.exact_records.specs.Packets.{AreExactFor};
ghost use Rattle.exact_records.specs.View.{record_trees};

use crate::jobs::{accepted, let_go, records_of};
use net_check::Accepted;
use path_records::Record;
use queries::{Answer, AskFault, Hit, ask, placed};
use sefl_syntax::Ask;
use sn_width::Num;
use std::alloc::Global;
use std::process::Abort;

/// The number of the record that shows an answer, and the values of a packet.
type Shown = Option<(u64, &'static [Num])>;

/// What is answered to a question.
enum Wanted {
    Yes(Shown),
    No(Shown),
    /// The records of these numbers leave it open.
    Unknown(&'static [u64]),
    Refused(AskFault),
}

/// A job, run with at most `limit` paths and refuted sides, and the answers to its questions.
struct Row {
    job: &'static str,
    limit: u32,
    answers: &'static [Wanted],
}

const ROWS: &[Row] = &[
    // A dying packet does not leave, and the time to live is kept.
    Row {
        job: r#"symnet 1; node r 1 -> 1 { in 0 { if head L3+64:8 <= 1 { fail "dead"; } else { forward 0; } } } inject r.0 { tag L3 = 112; field head L3+64:8; } ask reach out r.0 with head L3+64:8 < 2; ask invariant head L3+64:8 at out r.0; ask reach out r.0;"#,
        limit: 10_000,
        answers: &[
            Wanted::No(None),
            Wanted::Yes(None),
            Wanted::Yes(Some((1, &[2]))),
        ],
    },
    // The time to live is counted down behind the arrival.
    Row {
        job: r#"symnet 1; node r 1 -> 1 { in 0 { set head L3+64:8 = head L3+64:8 - 1; forward 0; } } inject r.0 { tag L3 = 112; field head L3+64:8; } ask visible head L3+64:8 at in r.0; ask visible head L3+64:8 at out r.0; ask invariant head L3+64:8 at out r.0;"#,
        limit: 10_000,
        answers: &[
            Wanted::Yes(None),
            Wanted::No(Some((0, &[0]))),
            Wanted::No(Some((0, &[0]))),
        ],
    },
    // The first record is a refuted side.
    Row {
        job: r#"symnet 1; node a 1 -> 1 { in 0 { if global x:8 < 5 { if global x:8 > 9 { fail "both"; } else { forward 0; } } else { fail "high"; } } } inject a.0 { field global x:8; } ask reach out a.0; ask reach in a.0 with global x:8 == 7;"#,
        limit: 10_000,
        answers: &[Wanted::Yes(Some((1, &[0]))), Wanted::Yes(Some((2, &[7])))],
    },
    // The least values of three paths break a sum.
    Row {
        job: r#"symnet 1; node a 1 -> 0 { in 0 { constrain global x:8 + global y:8 == 5; constrain global x:8 + global y:8 == 6; } } inject a.0 { field global x:8; field global y:8; } ask reach in a.0 with global x:8 + global y:8 == 5 and global x:8 + global y:8 == 6; ask reach in a.0;"#,
        limit: 10_000,
        answers: &[Wanted::Unknown(&[0, 1, 2]), Wanted::Yes(Some((2, &[0, 0])))],
    },
    // Two copies are not tried.
    Row {
        job: r#"symnet 1; node a 1 -> 2 { in 0 { fork 0, 1, 1; } } node b 1 -> 0 { } link a.1 -> b.0; inject a.0 { } ask reach in b.0; ask reach out a.0;"#,
        limit: 1,
        answers: &[Wanted::Unknown(&[1, 2]), Wanted::Yes(Some((0, &[])))],
    },
    // There is no second output port, and the next byte is not injected.
    Row {
        job: r#"symnet 1; node r 1 -> 1 { in 0 { forward 0; } } inject r.0 { tag L3 = 112; field head L3+64:8; } ask reach out r.1; ask visible head L3+72:8 at out r.0; ask visible head L3+64:8 at out r.0;"#,
        limit: 10_000,
        answers: &[
            Wanted::Refused(AskFault::NoPlace),
            Wanted::Refused(AskFault::NoField),
            Wanted::Yes(None),
        ],
    },
    // Two paths end at a port without code, each with the value that it has there.
    Row {
        job: r#"symnet 1; node a 1 -> 1 { in 0 { if global x:8 < 5 { set global x:8 = global x:8 + 1; } else { } forward 0; } } node b 1 -> 0 { } link a.0 -> b.0; inject a.0 { field global x:8; } ask reach in b.0 with global x:8 == 5; ask reach in b.0 with global x:8 == 0; ask visible global x:8 at in b.0;"#,
        limit: 10_000,
        answers: &[
            Wanted::Yes(Some((0, &[4]))),
            Wanted::No(None),
            Wanted::No(Some((0, &[0]))),
        ],
    },
    // The path ends at a port whose code changes the value.
    Row {
        job: r#"symnet 1; node a 1 -> 1 { in 0 { forward 0; } } node b 1 -> 0 { in 0 { set global x:8 = 3; } } link a.0 -> b.0; inject a.0 { field global x:8; } ask reach in b.0 with global x:8 == 4; ask visible global x:8 at in b.0;"#,
        limit: 10_000,
        answers: &[Wanted::Yes(Some((0, &[4]))), Wanted::Yes(None)],
    },
    // The path comes to each port again and again, and is cut at the one by which it entered.
    Row {
        job: r#"symnet 1; node a 1 -> 1 { in 0 { set global x:8 = global x:8 + 1; forward 0; } } link a.0 -> a.0; inject a.0 { field global x:8; } ask reach in a.0 with global x:8 == 0; ask reach out a.0 with global x:8 == 0; ask visible global x:8 at out a.0;"#,
        limit: 10_000,
        answers: &[
            Wanted::Yes(Some((0, &[0]))),
            Wanted::Yes(Some((0, &[255]))),
            Wanted::No(Some((0, &[0]))),
        ],
    },
];

fn is_hit(found: &Option<Hit>, wanted: &Shown) -> bool {
    match (found, wanted) {
        (None, None) => true,
        (Some(hit), Some((number, values))) => {
            hit.number == *number && hit.values.as_slice() == *values
        }
        _ => false,
    }
}

fn is_fault(found: AskFault, wanted: AskFault) -> bool {
    match (found, wanted) {
        (AskFault::NoPlace, AskFault::NoPlace) => true,
        (AskFault::NoField, AskFault::NoField) => true,
        _ => false,
    }
}

fn is_answer(found: &Result<Answer, AskFault>, wanted: &Wanted) -> bool {
    match (found, wanted) {
        (Ok(Answer::Yes { found }), Wanted::Yes(shown)) => is_hit(found, shown),
        (Ok(Answer::No { found }), Wanted::No(shown)) => is_hit(found, shown),
        (Ok(Answer::Unknown { numbers }), Wanted::Unknown(open)) => numbers.as_slice() == *open,
        (Err(fault), Wanted::Refused(wanted)) => is_fault(*fault, *wanted),
        _ => false,
    }
}

/// The answer to one question.
fn answer_to(
    alloc: Global,
    job: &Accepted,
    limit: u32,
    records: &[Record],
    words: &Ask,
) -> Result<Answer, AskFault>
    requires job { AreOfOneJob (network job.now.net) (entry job.now.injection) }
    requires exact { AreExactFor (network job.now.net) (entry job.now.injection) 16 limit (record_trees records.now) }
{
    ask(alloc, &job.net, &job.injection, 16, records, words)
}

fn assert_each(
    rt: &impl Abort,
    alloc: Global,
    job: &Accepted,
    limit: u32,
    records: &[Record],
    wanted: &[Wanted],
)
    requires job { AreOfOneJob (network job.now.net) (entry job.now.injection) }
    requires exact { AreExactFor (network job.now.net) (entry job.now.injection) 16 limit (record_trees records.now) }
{
    for (words, answer) in job.asks.iter().zip(wanted) {
        let found = answer_to(alloc, job, limit, records, words);
        assert!(rt; is_answer(&found, answer));
    }
    assert_eq!(rt; job.asks.len(), wanted.len());
}

fn assert_answers(rt: &impl Abort, alloc: Global, row: &Row) {
    assert!(rt; row.limit > 0);
    let job = accepted(rt, alloc, row.job);
    let records = records_of(rt, alloc, &job, row.limit);
    assert_each(rt, alloc, &job, row.limit, &records, row.answers);
    let_go(job);
}

#[test]
fn questions_are_answered_from_records(rt: HostRuntime) {
    for row in ROWS {
        assert_answers(&rt, rt.alloc(), row);
    }
}

/// A job with three questions, and with words that ask none: of a node that is not there; of a port that is not; of an input
/// port, where packets are to be delivered; twice of a field that is not injected; and of neither a node nor a field.
const ASKS: &str =
    r#"symnet 1; node r 1 -> 1 { in 0 { forward 0; } } inject r.0 { tag L3 = 112; field head L3+64:8; } ask reach out r.0; ask invariant head L3+64:8 at out r.0; ask visible head L3+64:8 at in r.0; ask reach in q.0; ask reach out r.1; ask invariant head L3+64:8 at in r.0; ask visible head L3+72:8 at in r.0; ask invariant head L3+72:8 at out r.0; ask visible head L3+72:8 at in q.0;"#;

const PLACED: &[Option<AskFault>] = &[
    None,
    None,
    None,
    Some(AskFault::NoPlace),
    Some(AskFault::NoPlace),
    Some(AskFault::NoPlace),
    Some(AskFault::NoField),
    Some(AskFault::NoField),
    Some(AskFault::NoPlace),
];

fn is_placed(found: Result<(), AskFault>, wanted: &Option<AskFault>) -> bool {
    match (found, wanted) {
        (Ok(()), None) => true,
        (Err(fault), Some(wanted)) => is_fault(fault, *wanted),
        _ => false,
    }
}

#[test]
fn words_are_refused_for_their_place_or_field(rt: HostRuntime) {
    let job = accepted(&rt, rt.alloc(), ASKS);
    for (words, wanted) in job.asks.iter().zip(PLACED) {
        let found = placed(&job.net, &job.injection, words);
        assert!(rt; is_placed(found, wanted));
    }
    assert_eq!(rt; job.asks.len(), PLACED.len());
    let_go(job);
}
