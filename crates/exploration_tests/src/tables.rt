//! Jobs with their records, worked out by hand.

/// How the text of a record is shown.
#[derive(Clone, Copy)]
pub enum Shown {
    /// The whole text.
    Whole(&'static str),
    /// How it begins and how it ends.
    Ends(&'static str, &'static str),
}

/// A job, run with `hops` hops and at most `limit` paths and refuted sides, and its records.
pub struct Row {
    pub job: &'static str,
    pub hops: u32,
    pub limit: u32,
    pub records: &'static [Shown],
}

use Shown::{Ends, Whole};

pub const TTL: &str =
    r#"symnet 1; node r 1 -> 1 { in 0 { if head L3+64:8 <= 1 { fail "dead"; } else { forward 0; } } } inject r.0 { tag L3 = 112; field head L3+64:8; }"#;

pub const RING: &str =
    r#"symnet 1; node a 1 -> 1 { in 0 { forward 0; } } node b 1 -> 1 { in 0 { forward 0; } } link a.0 -> b.0; link b.0 -> a.0; inject a.0 { }"#;

pub const FORK: &str =
    r#"symnet 1; node a 1 -> 2 { in 0 { fork 0, 1, 1; } } node b 1 -> 0 { } link a.1 -> b.0; inject a.0 { }"#;

/// Conditions of one and of two fields.
pub const SIMPLE: &[Row] = &[
    // Empty code.
    Row {
        job: r#"symnet 1; node a 1 -> 0 { in 0 { } } inject a.0 { }"#,
        hops: 16,
        limit: 10_000,
        records: &[Whole(
            r#"{"decisions":[],"end":"stopped","fields":{"heads":[],"metas":[],"tags":[]},"kind":"path","places":["in a.0"],"verdict":{"sat":[]}}"#,
        )],
    },
    // A time to live that is checked.
    Row {
        job: TTL,
        hops: 16,
        limit: 10_000,
        records: &[
            Whole(
                r#"{"decisions":["then"],"end":{"fault":9,"site":3,"text":"dead"},"fields":{"heads":[[176,[[8,0,[[0,1]]]]]],"metas":[],"tags":[["L3",112]]},"kind":"path","places":["in r.0"],"verdict":{"sat":[0]}}"#,
            ),
            Whole(
                r#"{"decisions":["else"],"end":"delivered","fields":{"heads":[[176,[[8,0,[[0,1]]]]]],"metas":[],"tags":[["L3",112]]},"kind":"path","places":["in r.0","out r.0"],"verdict":{"sat":[2]}}"#,
            ),
        ],
    },
    // A difference that wraps round.
    Row {
        job: r#"symnet 1; node r 1 -> 1 { in 0 { set head L3+64:8 = head L3+64:8 - 1; constrain head L3+64:8 == 255; } } inject r.0 { tag L3 = 112; field head L3+64:8; }"#,
        hops: 16,
        limit: 10_000,
        records: &[
            Whole(
                r#"{"decisions":["pass"],"end":"stopped","fields":{"heads":[[176,[[8,255,[[0,1]]]]]],"metas":[],"tags":[["L3",112]]},"kind":"path","places":["in r.0"],"verdict":{"sat":[0]}}"#,
            ),
            Whole(
                r#"{"decisions":["broken"],"end":{"fault":8,"site":3},"fields":{"heads":[[176,[[8,255,[[0,1]]]]]],"metas":[],"tags":[["L3",112]]},"kind":"path","places":["in r.0"],"verdict":{"sat":[1]}}"#,
            ),
        ],
    },
    // Below 5 and above 9.
    Row {
        job: r#"symnet 1; node a 1 -> 0 { in 0 { constrain global x:8 < 5; constrain global x:8 > 9; } } inject a.0 { field global x:8; }"#,
        hops: 16,
        limit: 10_000,
        records: &[
            Whole(
                r#"{"before":{"sat":[0]},"decisions":["pass","pass"],"kind":"pruned","refutation":[["empty",0,[0,1]]]}"#,
            ),
            Whole(
                r#"{"decisions":["pass","broken"],"end":{"fault":8,"site":3},"fields":{"heads":[],"metas":[[null,"x",[[8,0,[[0,1]]]]]],"tags":[]},"kind":"path","places":["in a.0"],"verdict":{"sat":[0]}}"#,
            ),
            Whole(
                r#"{"decisions":["broken"],"end":{"fault":8,"site":2},"fields":{"heads":[],"metas":[[null,"x",[[8,0,[[0,1]]]]]],"tags":[]},"kind":"path","places":["in a.0"],"verdict":{"sat":[5]}}"#,
            ),
        ],
    },
    // Each of two less than the other.
    Row {
        job: r#"symnet 1; node a 1 -> 0 { in 0 { constrain global s:32 < global d:32; constrain global d:32 < global s:32; } } inject a.0 { field global s:32; field global d:32; }"#,
        hops: 16,
        limit: 10_000,
        records: &[
            Whole(
                r#"{"before":{"sat":[0,1]},"decisions":["pass","pass"],"kind":"pruned","refutation":[["split",1],["split",0],["cycle",[0,1]]]}"#,
            ),
            Whole(
                r#"{"decisions":["pass","broken"],"end":{"fault":8,"site":3},"fields":{"heads":[],"metas":[[null,"d",[[32,0,[[1,1]]]]],[null,"s",[[32,0,[[0,1]]]]]],"tags":[]},"kind":"path","places":["in a.0"],"verdict":{"sat":[0,1]}}"#,
            ),
            Whole(
                r#"{"decisions":["broken"],"end":{"fault":8,"site":2},"fields":{"heads":[],"metas":[[null,"d",[[32,0,[[1,1]]]]],[null,"s",[[32,0,[[0,1]]]]]],"tags":[]},"kind":"path","places":["in a.0"],"verdict":{"sat":[0,0]}}"#,
            ),
        ],
    },
    // A sum that wraps round.
    Row {
        job: r#"symnet 1; node a 1 -> 0 { in 0 { constrain global x:8 + 1 < global x:8; } } inject a.0 { field global x:8; }"#,
        hops: 16,
        limit: 10_000,
        records: &[
            Whole(
                r#"{"decisions":["pass"],"end":"stopped","fields":{"heads":[],"metas":[[null,"x",[[8,0,[[0,1]]]]]],"tags":[]},"kind":"path","places":["in a.0"],"verdict":{"sat":[255]}}"#,
            ),
            Whole(
                r#"{"decisions":["broken"],"end":{"fault":8,"site":2},"fields":{"heads":[],"metas":[[null,"x",[[8,0,[[0,1]]]]]],"tags":[]},"kind":"path","places":["in a.0"],"verdict":{"sat":[0]}}"#,
            ),
        ],
    },
    // Sums of two that stay undecided.
    Row {
        job: r#"symnet 1; node a 1 -> 0 { in 0 { constrain global x:8 + global y:8 == 5; constrain global x:8 + global y:8 == 6; } } inject a.0 { field global x:8; field global y:8; }"#,
        hops: 16,
        limit: 10_000,
        records: &[
            Whole(
                r#"{"decisions":["pass","pass"],"end":"stopped","fields":{"heads":[],"metas":[[null,"x",[[8,0,[[0,1]]]]],[null,"y",[[8,0,[[1,1]]]]]],"tags":[]},"kind":"path","places":["in a.0"],"verdict":{"undecided":{"cause":"outside","pick":0,"values":[0,0]}}}"#,
            ),
            Whole(
                r#"{"decisions":["pass","broken"],"end":{"fault":8,"site":3},"fields":{"heads":[],"metas":[[null,"x",[[8,0,[[0,1]]]]],[null,"y",[[8,0,[[1,1]]]]]],"tags":[]},"kind":"path","places":["in a.0"],"verdict":{"undecided":{"cause":"outside","pick":0,"values":[0,0]}}}"#,
            ),
            Whole(
                r#"{"decisions":["broken"],"end":{"fault":8,"site":2},"fields":{"heads":[],"metas":[[null,"x",[[8,0,[[0,1]]]]],[null,"y",[[8,0,[[1,1]]]]]],"tags":[]},"kind":"path","places":["in a.0"],"verdict":{"sat":[0,0]}}"#,
            ),
        ],
    },
];

/// More choices of cases than are tried.
pub const PAIRS: &[Row] = &[
    // Thirteen unequal pairs.
    Row {
        job: r#"symnet 1; node a 1 -> 0 { in 0 { constrain global a0:8 != global b0:8; constrain global a1:8 != global b1:8; constrain global a2:8 != global b2:8; constrain global a3:8 != global b3:8; constrain global a4:8 != global b4:8; constrain global a5:8 != global b5:8; constrain global a6:8 != global b6:8; constrain global a7:8 != global b7:8; constrain global a8:8 != global b8:8; constrain global a9:8 != global b9:8; constrain global a10:8 != global b10:8; constrain global a11:8 != global b11:8; constrain global a12:8 != global b12:8; } } inject a.0 { field global a0:8; field global b0:8; field global a1:8; field global b1:8; field global a2:8; field global b2:8; field global a3:8; field global b3:8; field global a4:8; field global b4:8; field global a5:8; field global b5:8; field global a6:8; field global b6:8; field global a7:8; field global b7:8; field global a8:8; field global b8:8; field global a9:8; field global b9:8; field global a10:8; field global b10:8; field global a11:8; field global b11:8; field global a12:8; field global b12:8; }"#,
        hops: 16,
        limit: 10_000,
        records: &[
            Ends(
                r#"{"decisions":["pass","pass","pass","pass","pass","pass","pass","pass","pass","pass","pass","pass","pass"],"end":"stopped","fields":"#,
                r#""places":["in a.0"],"verdict":{"undecided":{"cause":"cases","count":8192}}}"#,
            ),
            Ends(
                r#"{"decisions":["pass","pass","pass","pass","pass","pass","pass","pass","pass","pass","pass","pass","broken"],"end":{"fault":8,"site":14},"fields":"#,
                r#""places":["in a.0"],"verdict":{"sat":[0,1,0,1,0,1,0,1,0,1,0,1,0,1,0,1,0,1,0,1,0,1,0,1,0,0]}}"#,
            ),
            Ends(
                r#"{"decisions":["pass","pass","pass","pass","pass","pass","pass","pass","pass","pass","pass","broken"],"end":{"fault":8,"site":13},"fields":"#,
                r#""places":["in a.0"],"verdict":{"sat":[0,1,0,1,0,1,0,1,0,1,0,1,0,1,0,1,0,1,0,1,0,1,0,0,0,0]}}"#,
            ),
            Ends(
                r#"{"decisions":["pass","pass","pass","pass","pass","pass","pass","pass","pass","pass","broken"],"end":{"fault":8,"site":12},"fields":"#,
                r#""places":["in a.0"],"verdict":{"sat":[0,1,0,1,0,1,0,1,0,1,0,1,0,1,0,1,0,1,0,1,0,0,0,0,0,0]}}"#,
            ),
            Ends(
                r#"{"decisions":["pass","pass","pass","pass","pass","pass","pass","pass","pass","broken"],"end":{"fault":8,"site":11},"fields":"#,
                r#""places":["in a.0"],"verdict":{"sat":[0,1,0,1,0,1,0,1,0,1,0,1,0,1,0,1,0,1,0,0,0,0,0,0,0,0]}}"#,
            ),
            Ends(
                r#"{"decisions":["pass","pass","pass","pass","pass","pass","pass","pass","broken"],"end":{"fault":8,"site":10},"fields":"#,
                r#""places":["in a.0"],"verdict":{"sat":[0,1,0,1,0,1,0,1,0,1,0,1,0,1,0,1,0,0,0,0,0,0,0,0,0,0]}}"#,
            ),
            Ends(
                r#"{"decisions":["pass","pass","pass","pass","pass","pass","pass","broken"],"end":{"fault":8,"site":9},"fields":"#,
                r#""places":["in a.0"],"verdict":{"sat":[0,1,0,1,0,1,0,1,0,1,0,1,0,1,0,0,0,0,0,0,0,0,0,0,0,0]}}"#,
            ),
            Ends(
                r#"{"decisions":["pass","pass","pass","pass","pass","pass","broken"],"end":{"fault":8,"site":8},"fields":"#,
                r#""places":["in a.0"],"verdict":{"sat":[0,1,0,1,0,1,0,1,0,1,0,1,0,0,0,0,0,0,0,0,0,0,0,0,0,0]}}"#,
            ),
            Ends(
                r#"{"decisions":["pass","pass","pass","pass","pass","broken"],"end":{"fault":8,"site":7},"fields":"#,
                r#""places":["in a.0"],"verdict":{"sat":[0,1,0,1,0,1,0,1,0,1,0,0,0,0,0,0,0,0,0,0,0,0,0,0,0,0]}}"#,
            ),
            Ends(
                r#"{"decisions":["pass","pass","pass","pass","broken"],"end":{"fault":8,"site":6},"fields":"#,
                r#""places":["in a.0"],"verdict":{"sat":[0,1,0,1,0,1,0,1,0,0,0,0,0,0,0,0,0,0,0,0,0,0,0,0,0,0]}}"#,
            ),
            Ends(
                r#"{"decisions":["pass","pass","pass","broken"],"end":{"fault":8,"site":5},"fields":"#,
                r#""places":["in a.0"],"verdict":{"sat":[0,1,0,1,0,1,0,0,0,0,0,0,0,0,0,0,0,0,0,0,0,0,0,0,0,0]}}"#,
            ),
            Ends(
                r#"{"decisions":["pass","pass","broken"],"end":{"fault":8,"site":4},"fields":"#,
                r#""places":["in a.0"],"verdict":{"sat":[0,1,0,1,0,0,0,0,0,0,0,0,0,0,0,0,0,0,0,0,0,0,0,0,0,0]}}"#,
            ),
            Ends(
                r#"{"decisions":["pass","broken"],"end":{"fault":8,"site":3},"fields":"#,
                r#""places":["in a.0"],"verdict":{"sat":[0,1,0,0,0,0,0,0,0,0,0,0,0,0,0,0,0,0,0,0,0,0,0,0,0,0]}}"#,
            ),
            Ends(
                r#"{"decisions":["broken"],"end":{"fault":8,"site":2},"fields":"#,
                r#""places":["in a.0"],"verdict":{"sat":[0,0,0,0,0,0,0,0,0,0,0,0,0,0,0,0,0,0,0,0,0,0,0,0,0,0]}}"#,
            ),
        ],
    },
];

/// Refuted injections, hops, copies and limits.
pub const LIMITS: &[Row] = &[
    // A refuted injection.
    Row {
        job: r#"symnet 1; node a 1 -> 0 { in 0 {  } } inject a.0 { field global x:8; where global x:8 < 3; where global x:8 > 7; }"#,
        hops: 16,
        limit: 10_000,
        records: &[Whole(
            r#"{"before":null,"decisions":[],"kind":"pruned","refutation":[["empty",0,[0,1]]]}"#,
        )],
    },
    // A ring of two boxes, with 3 hops.
    Row {
        job: RING,
        hops: 3,
        limit: 10_000,
        records: &[Whole(
            r#"{"decisions":[],"end":"cut","fields":{"heads":[],"metas":[],"tags":[]},"kind":"path","places":["in a.0","out a.0","in b.0","out b.0","in a.0","out a.0","in b.0"],"verdict":{"sat":[]}}"#,
        )],
    },
    // The same with 1 hop.
    Row {
        job: RING,
        hops: 1,
        limit: 10_000,
        records: &[Whole(
            r#"{"decisions":[],"end":"cut","fields":{"heads":[],"metas":[],"tags":[]},"kind":"path","places":["in a.0","out a.0","in b.0"],"verdict":{"sat":[]}}"#,
        )],
    },
    // A Fork with a port listed twice.
    Row {
        job: FORK,
        hops: 16,
        limit: 10_000,
        records: &[
            Whole(
                r#"{"decisions":[0],"end":"delivered","fields":{"heads":[],"metas":[],"tags":[]},"kind":"path","places":["in a.0","out a.0"],"verdict":{"sat":[]}}"#,
            ),
            Whole(
                r#"{"decisions":[1],"end":"stopped","fields":{"heads":[],"metas":[],"tags":[]},"kind":"path","places":["in a.0","out a.1","in b.0"],"verdict":{"sat":[]}}"#,
            ),
            Whole(
                r#"{"decisions":[2],"end":"stopped","fields":{"heads":[],"metas":[],"tags":[]},"kind":"path","places":["in a.0","out a.1","in b.0"],"verdict":{"sat":[]}}"#,
            ),
        ],
    },
    // The same with limit 3.
    Row {
        job: FORK,
        hops: 16,
        limit: 3,
        records: &[
            Whole(
                r#"{"decisions":[0],"end":"delivered","fields":{"heads":[],"metas":[],"tags":[]},"kind":"path","places":["in a.0","out a.0"],"verdict":{"sat":[]}}"#,
            ),
            Whole(
                r#"{"decisions":[1],"end":"stopped","fields":{"heads":[],"metas":[],"tags":[]},"kind":"path","places":["in a.0","out a.1","in b.0"],"verdict":{"sat":[]}}"#,
            ),
            Whole(
                r#"{"decisions":[2],"end":"stopped","fields":{"heads":[],"metas":[],"tags":[]},"kind":"path","places":["in a.0","out a.1","in b.0"],"verdict":{"sat":[]}}"#,
            ),
        ],
    },
    // The same with limit 2.
    Row {
        job: FORK,
        hops: 16,
        limit: 2,
        records: &[
            Whole(
                r#"{"decisions":[0],"end":"delivered","fields":{"heads":[],"metas":[],"tags":[]},"kind":"path","places":["in a.0","out a.0"],"verdict":{"sat":[]}}"#,
            ),
            Whole(
                r#"{"decisions":[1],"end":"stopped","fields":{"heads":[],"metas":[],"tags":[]},"kind":"path","places":["in a.0","out a.1","in b.0"],"verdict":{"sat":[]}}"#,
            ),
            Whole(r#"{"decisions":[2],"kind":"unexplored"}"#),
        ],
    },
    // The same with limit 1.
    Row {
        job: FORK,
        hops: 16,
        limit: 1,
        records: &[
            Whole(
                r#"{"decisions":[0],"end":"delivered","fields":{"heads":[],"metas":[],"tags":[]},"kind":"path","places":["in a.0","out a.0"],"verdict":{"sat":[]}}"#,
            ),
            Whole(r#"{"decisions":[1],"kind":"unexplored"}"#),
            Whole(r#"{"decisions":[2],"kind":"unexplored"}"#),
        ],
    },
];

/// Faults, metadata of boxes, and names that a For finds.
pub const FAULTS: &[Row] = &[
    // A cell of another width.
    Row {
        job: r#"symnet 1; node a 1 -> 0 { in 0 { deallocate head 0:16; } } inject a.0 { field head 0:32; }"#,
        hops: 16,
        limit: 10_000,
        records: &[Whole(
            r#"{"decisions":[],"end":{"fault":4,"site":2},"fields":{"heads":[[0,[[32,0,[[0,1]]]]]],"metas":[],"tags":[]},"kind":"path","places":["in a.0"],"verdict":{"sat":[0]}}"#,
        )],
    },
    // A cell that is not set.
    Row {
        job: r#"symnet 1; node a 1 -> 0 { in 0 { allocate global t:8; constrain global t:8 == 0; } } inject a.0 {  }"#,
        hops: 16,
        limit: 10_000,
        records: &[Whole(
            r#"{"decisions":[],"end":{"fault":6,"site":3},"fields":{"heads":[],"metas":[[null,"t",[[8]]]],"tags":[]},"kind":"path","places":["in a.0"],"verdict":{"sat":[]}}"#,
        )],
    },
    // Local metadata of the box that made it.
    Row {
        job: r#"symnet 1; node a 2 -> 1 { in 0 { allocate local n:8; set local n:8 = 5; forward 0; } in 1 { constrain local n:8 == 5; } } node b 1 -> 1 { in 0 { forward 0; } } link a.0 -> b.0; link b.0 -> a.1; inject a.0 { }"#,
        hops: 16,
        limit: 10_000,
        records: &[
            Whole(
                r#"{"decisions":["pass"],"end":"stopped","fields":{"heads":[],"metas":[["a","n",[[8,5,[]]]]],"tags":[]},"kind":"path","places":["in a.0","out a.0","in b.0","out b.0","in a.1"],"verdict":{"sat":[]}}"#,
            ),
            Whole(
                r#"{"before":{"sat":[]},"decisions":["broken"],"kind":"pruned","refutation":[["split",0]]}"#,
            ),
        ],
    },
    // Local metadata of another box.
    Row {
        job: r#"symnet 1; node a 2 -> 1 { in 0 { allocate local n:8; set local n:8 = 5; forward 0; } in 1 { constrain local n:8 == 5; } } node b 1 -> 1 { in 0 { constrain local n:8 == 5; forward 0; } } link a.0 -> b.0; link b.0 -> a.1; inject a.0 { }"#,
        hops: 16,
        limit: 10_000,
        records: &[Whole(
            r#"{"decisions":[],"end":{"fault":7,"site":9},"fields":{"heads":[],"metas":[["a","n",[[8,5,[]]]]],"tags":[]},"kind":"path","places":["in a.0","out a.0","in b.0"],"verdict":{"sat":[]}}"#,
        )],
    },
    // Two iterations of a For; the second finds nothing.
    Row {
        job: r#"symnet 1; node a 1 -> 0 { in 0 { for o in "^opt" { deallocate global opt2:8; } } } inject a.0 { field global opt1:8; field global opt2:8; field global xopt:8; }"#,
        hops: 16,
        limit: 10_000,
        records: &[Whole(
            r#"{"decisions":[],"end":{"fault":7,"site":3},"fields":{"heads":[],"metas":[[null,"opt1",[[8,0,[[0,1]]]]],[null,"xopt",[[8,0,[[2,1]]]]]],"tags":[]},"kind":"path","places":["in a.0"],"verdict":{"sat":[0,0,0]}}"#,
        )],
    },
    // A For that sets what it finds.
    Row {
        job: r#"symnet 1; node a 1 -> 0 { in 0 { for o in "^opt" { set $o:8 = 1; } } } inject a.0 { field global opt1:8; field global opt2:8; field global xopt:8; }"#,
        hops: 16,
        limit: 10_000,
        records: &[Whole(
            r#"{"decisions":[],"end":"stopped","fields":{"heads":[],"metas":[[null,"opt1",[[8,1,[]]]],[null,"opt2",[[8,1,[]]]],[null,"xopt",[[8,0,[[2,1]]]]]],"tags":[]},"kind":"path","places":["in a.0"],"verdict":{"sat":[0,0,0]}}"#,
        )],
    },
];

/// Values that are chosen, fields of 128 bits, and tags.
pub const VALUES: &[Row] = &[
    // A choice.
    Row {
        job: r#"symnet 1; node a 1 -> 0 { in 0 { allocate global t:8; set global t:8 = any; constrain global t:8 == 9; } } inject a.0 {  }"#,
        hops: 16,
        limit: 10_000,
        records: &[
            Whole(
                r#"{"decisions":["pass"],"end":"stopped","fields":{"heads":[],"metas":[[null,"t",[[8,0,[[0,1]]]]]],"tags":[]},"kind":"path","places":["in a.0"],"verdict":{"sat":[9]}}"#,
            ),
            Whole(
                r#"{"decisions":["broken"],"end":{"fault":8,"site":4},"fields":{"heads":[],"metas":[[null,"t",[[8,0,[[0,1]]]]]],"tags":[]},"kind":"path","places":["in a.0"],"verdict":{"sat":[0]}}"#,
            ),
        ],
    },
    // 128 bits.
    Row {
        job: r#"symnet 1; node a 1 -> 0 { in 0 { constrain global x:128 + 1 == 0; } } inject a.0 { field global x:128; }"#,
        hops: 16,
        limit: 10_000,
        records: &[
            Whole(
                r#"{"decisions":["pass"],"end":"stopped","fields":{"heads":[],"metas":[[null,"x",[[128,0,[[0,1]]]]]],"tags":[]},"kind":"path","places":["in a.0"],"verdict":{"sat":["340282366920938463463374607431768211455"]}}"#,
            ),
            Whole(
                r#"{"decisions":["broken"],"end":{"fault":8,"site":2},"fields":{"heads":[],"metas":[[null,"x",[[128,0,[[0,1]]]]]],"tags":[]},"kind":"path","places":["in a.0"],"verdict":{"sat":[0]}}"#,
            ),
        ],
    },
    // Two of 128 bits whose values are fixed.
    Row {
        job: r#"symnet 1; node a 1 -> 0 { in 0 { constrain global s:128 == global d:128; } } inject a.0 { field global s:128; field global d:128; where global s:128 == 0x80000000000000000000000000000000; where global d:128 == 0x80000000000000000000000000000000; }"#,
        hops: 16,
        limit: 10_000,
        records: &[
            Whole(
                r#"{"decisions":["pass"],"end":"stopped","fields":{"heads":[],"metas":[[null,"d",[[128,0,[[1,1]]]]],[null,"s",[[128,0,[[0,1]]]]]],"tags":[]},"kind":"path","places":["in a.0"],"verdict":{"sat":["170141183460469231731687303715884105728","170141183460469231731687303715884105728"]}}"#,
            ),
            Whole(
                r#"{"decisions":["broken"],"end":{"fault":8,"site":2},"fields":{"heads":[],"metas":[[null,"d",[[128,0,[[1,1]]]]],[null,"s",[[128,0,[[0,1]]]]]],"tags":[]},"kind":"path","places":["in a.0"],"verdict":{"undecided":{"cause":"outside","pick":2,"values":["170141183460469231731687303715884105728","170141183460469231731687303715884105728"]}}}"#,
            ),
        ],
    },
    // A router of IPv6.
    Row {
        job: r#"symnet 1; node r 1 -> 1 { in 0 { if head L3+56:8 <= 1 { fail "hops"; } else { } constrain head L3+192:128 in {0x20010DB8000000000000000000000000..0x20010DB8FFFFFFFFFFFFFFFFFFFFFFFF}; forward 0; } } inject r.0 { tag L3 = 112; field head L3+56:8; field head L3+192:128; }"#,
        hops: 16,
        limit: 10_000,
        records: &[
            Whole(
                r#"{"decisions":["then"],"end":{"fault":9,"site":3,"text":"hops"},"fields":{"heads":[[168,[[8,0,[[0,1]]]]],[304,[[128,0,[[1,1]]]]]],"metas":[],"tags":[["L3",112]]},"kind":"path","places":["in r.0"],"verdict":{"sat":[0,0]}}"#,
            ),
            Whole(
                r#"{"decisions":["else","pass"],"end":"delivered","fields":{"heads":[[168,[[8,0,[[0,1]]]]],[304,[[128,0,[[1,1]]]]]],"metas":[],"tags":[["L3",112]]},"kind":"path","places":["in r.0","out r.0"],"verdict":{"sat":[2,"42540766411282592856903984951653826560"]}}"#,
            ),
            Whole(
                r#"{"decisions":["else","broken"],"end":{"fault":8,"site":4},"fields":{"heads":[[168,[[8,0,[[0,1]]]]],[304,[[128,0,[[1,1]]]]]],"metas":[],"tags":[["L3",112]]},"kind":"path","places":["in r.0"],"verdict":{"sat":[2,0]}}"#,
            ),
        ],
    },
    // A header in a header.
    Row {
        job: r#"symnet 2; node a 1 -> 0 { in 0 { tag L3 = L3+160; allocate head L3+64:8; untag L3; constrain head L3+64:8 == 7; } } inject a.0 { tag L3 = 0; field head L3+64:8 = 7; }"#,
        hops: 16,
        limit: 10_000,
        records: &[
            Whole(
                r#"{"decisions":["pass"],"end":"stopped","fields":{"heads":[[64,[[8,7,[]]]],[224,[[8]]]],"metas":[],"tags":[["L3",0]]},"kind":"path","places":["in a.0"],"verdict":{"sat":[]}}"#,
            ),
            Whole(
                r#"{"before":{"sat":[]},"decisions":["broken"],"kind":"pruned","refutation":[["split",0]]}"#,
            ),
        ],
    },
    // The same where tags are no stacks.
    Row {
        job: r#"symnet 1; node a 1 -> 0 { in 0 { tag L3 = L3+160; allocate head L3+64:8; untag L3; constrain head L3+64:8 == 7; } } inject a.0 { tag L3 = 0; field head L3+64:8 = 7; }"#,
        hops: 16,
        limit: 10_000,
        records: &[Whole(
            r#"{"decisions":[],"end":{"fault":1,"site":5},"fields":{"heads":[[64,[[8,7,[]]]],[224,[[8]]]],"metas":[],"tags":[]},"kind":"path","places":["in a.0"],"verdict":{"sat":[]}}"#,
        )],
    },
    // A tag with two addresses.
    Row {
        job: r#"symnet 2; node a 1 -> 0 { in 0 { tag L3 = L3+160; allocate head L3+64:8; } } inject a.0 { tag L3 = 0; field head L3+64:8 = 7; }"#,
        hops: 16,
        limit: 10_000,
        records: &[Whole(
            r#"{"decisions":[],"end":"stopped","fields":{"heads":[[64,[[8,7,[]]]],[224,[[8]]]],"metas":[],"tags":[["L3",0],["L3",160]]},"kind":"path","places":["in a.0"],"verdict":{"sat":[]}}"#,
        )],
    },
];

/// A switch, a translator of addresses and a server.
pub const BOXES: &[Row] = &[
    // A switch, a translator of addresses and a server, and back.
    Row {
        job: r#"symnet 1;
node host 2 -> 2 { in 0 { forward 0; }
  in 1 { allocate global orig:32; set global orig:32 = head L3+96:32; forward 1; } }
node sw 1 -> 2 { in 0 { fork 0, 1; }
  out 0 { constrain head L2+0:48 in {0..2199023320832, 2199023320834..281474976710655}; }
  out 1 { constrain head L2+0:48 in {0..2199023255552, 2199023255852..281474976710655}; } }
node nat 2 -> 2 {
  in 0 { allocate local src:32; set local src:32 = head L3+96:32;
    allocate local port:16; set local port:16 = head L4+0:16;
    allocate local ext:16; set local ext:16 = any; constrain local ext:16 > 1023;
    set head L3+96:32 = 0xCB007101; set head L4+0:16 = local ext:16; forward 0; }
  in 1 { constrain head L4+16:16 == local ext:16;
    set head L3+128:32 = local src:32; set head L4+16:16 = local port:16; forward 1; } }
node srv 1 -> 1 { in 0 {
    allocate local m48:48; set local m48:48 = head L2+0:48;
    set head L2+0:48 = head L2+48:48; set head L2+48:48 = local m48:48;
    deallocate local m48:48;
    allocate local m32:32; set local m32:32 = head L3+96:32;
    set head L3+96:32 = head L3+128:32; set head L3+128:32 = local m32:32;
    deallocate local m32:32;
    if head L3+72:8 in {6, 17} { allocate local m16:16;
      set local m16:16 = head L4+0:16; set head L4+0:16 = head L4+16:16;
      set head L4+16:16 = local m16:16; deallocate local m16:16; } else { }
    forward 0; } }
link host.1 -> sw.0; link sw.0 -> host.0; link sw.1 -> nat.0;
link nat.0 -> srv.0; link srv.0 -> nat.1; link nat.1 -> sw.0;
inject host.1 { tag L2 = 0; tag L3 = L2+112; tag L4 = L3+160;
  field head L2+0:48 = 0x02000000FF01; field head L2+48:48 = 0x020000000001;
  field head L2+96:16 = 0x0800; field head L3+64:8 = 64; field head L3+72:8 = 6;
  field head L3+96:32; field head L3+128:32 = 0xC6336407;
  field head L4+0:16; field head L4+16:16 = 80;
  where head L3+96:32 in {167772160..184549375}; }"#,
        hops: 16,
        limit: 10_000,
        records: &[
            Whole(
                r#"{"before":{"sat":[167772160,0]},"decisions":[0,"pass"],"kind":"pruned","refutation":[["split",1]]}"#,
            ),
            Ends(
                r#"{"decisions":[0,"broken"],"end":{"fault":8,"#,
                r#""out sw.0"],"verdict":{"sat":[167772160,0]}}"#,
            ),
            Ends(
                r#"{"decisions":[1,"pass","pass","then","pass",0,"pass"],"end":"delivered","#,
                r#""out host.0"],"verdict":{"sat":[167772160,0,1024]}}"#,
            ),
            Ends(
                r#"{"before":{"sat":[167772160,0,1024]},"decisions":[1,"pass","pass","then","pass",0,"broken"],"kind":"pruned","refutation":["#,
                r#"]}"#,
            ),
            Ends(
                r#"{"before":{"sat":[167772160,0,1024]},"decisions":[1,"pass","pass","then","pass",1,"pass"],"kind":"pruned","refutation":["#,
                r#"]}"#,
            ),
            Ends(
                r#"{"decisions":[1,"pass","pass","then","pass",1,"broken"],"end":{"fault":8,"#,
                r#""out sw.1"],"verdict":{"sat":[167772160,0,1024]}}"#,
            ),
            Ends(
                r#"{"before":{"sat":[167772160,0,1024]},"decisions":[1,"pass","pass","then","broken"],"kind":"pruned","refutation":["#,
                r#"]}"#,
            ),
            Ends(
                r#"{"before":{"sat":[167772160,0,1024]},"decisions":[1,"pass","pass","else"],"kind":"pruned","refutation":["#,
                r#"]}"#,
            ),
            Ends(
                r#"{"decisions":[1,"pass","broken"],"end":{"fault":8,"#,
                r#""in nat.0"],"verdict":{"sat":[167772160,0,0]}}"#,
            ),
            Ends(
                r#"{"before":{"sat":[167772160,0]},"decisions":[1,"broken"],"kind":"pruned","refutation":["#,
                r#"]}"#,
            ),
        ],
    },
];
