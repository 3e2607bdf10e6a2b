//! Reports, and what becomes of them where a part is changed.

/// A part of a text, what is put in its place, and what is found then: the same report (`same`), some report (`good`), no JSON
/// (`no JSON`), or the first place that has not its shape.
pub type Row = (&'static str, &'static str, &'static str);

/// A box that drops packets whose TTL has run out.
pub const TTL_JOB: &str =
    r#"symnet 1; node r 1 -> 1 { in 0 { if head L3+64:8 <= 1 { fail "dead"; } else { forward 0; } } } inject r.0 { tag L3 = 112; field head L3+64:8; }"#;

/// What is explored of it.
pub const TTL: &str =
    r#"{"hops":16,"limit":10000,"records":[{"decisions":["then"],"end":{"fault":9,"site":3,"text":"dead"},"fields":{"heads":[[176,[[8,0,[[0,1]]]]]],"metas":[],"tags":[["L3",112]]},"kind":"path","places":["in r.0"],"verdict":{"sat":[0]}},{"decisions":["else"],"end":"delivered","fields":{"heads":[[176,[[8,0,[[0,1]]]]]],"metas":[],"tags":[["L3",112]]},"kind":"path","places":["in r.0","out r.0"],"verdict":{"sat":[2]}}],"refuted":0,"state":"done","symnet":1}
"#;

/// A box that knows the metadata names m and n.
pub const ALL_JOB: &str =
    r#"symnet 1; node r 1 -> 1 { in 0 { allocate global m:128; allocate local n:64; } } inject r.0 { tag L3 = 112; }"#;

/// A report with a record of each kind, and each form of its parts.
pub const ALL: &str =
    r#"{"hops":16,"limit":10000,"records":[{"decisions":["then","pass",4294967295],"end":{"fault":9,"site":3,"text":"dead"},"fields":{"heads":[[-64,[[8],[8,3,[[0,1],[2,255]]]]],[176,[]]],"metas":[[null,"m",[[128,"18446744073709551616",[[5,"340282366920938463463374607431768211455"]]]]],["r","n",[[64,18446744073709551615,[]]]]],"tags":[["L3",112]]},"kind":"path","places":["in r.0","out r.0"],"verdict":{"sat":[0,"18446744073709551616"]}},{"decisions":["else"],"end":"cut","fields":{"heads":[],"metas":[],"tags":[]},"kind":"path","places":[],"verdict":{"undecided":{"cause":"cases","count":8192}}},{"before":{"undecided":{"cause":"outside","pick":7,"values":[1]}},"decisions":["broken"],"kind":"pruned","refutation":[["empty",6,[0,1]],["domain",18446744073709551615],["split",2],["cycle",[4,5]]]},{"before":null,"decisions":[],"kind":"pruned","refutation":[]},{"decisions":[1],"end":{"fault":8,"site":30},"fields":{"heads":[],"metas":[],"tags":[]},"kind":"path","places":[],"verdict":{"undecided":{"cause":"coupled","count":65}}},{"decisions":[2],"kind":"unexplored"}],"refuted":2,"state":"partial","symnet":1}
"#;

/// Faults of the report of the TTL, and names that are not the net's.
pub const TTL_ROWS: &[Row] = &[
    (r#"{"hops""#, r#"{"hops""#, "same"),
    (r#""hops":16"#, r#""hops":0"#, "/hops"),
    (r#","verdict":{"sat":[0]}"#, "", "/records/0"),
    (r#""in r.0""#, r#""in q.0""#, "/records/0/places/0"),
    (r#""in r.0""#, r#""in r.00""#, "/records/0/places/0"),
    (r#""in r.0""#, r#""in r.4294967296""#, "/records/0/places/0"),
    (r#""in r.0""#, r#""in r.""#, "/records/0/places/0"),
    (r#""in r.0""#, r#""in r""#, "/records/0/places/0"),
    (r#""in r.0""#, r#""on r.0""#, "/records/0/places/0"),
    (r#""in r.0""#, r#""in  r.0""#, "/records/0/places/0"),
    (r#""in r.0""#, r#""in r.0.0""#, "/records/0/places/0"),
    (r#""in r.0""#, r#""in .0""#, "/records/0/places/0"),
    (r#""L3""#, r#""L4""#, "/records/0/fields/tags/0/0"),
    (r#""L3""#, r#""r""#, "/records/0/fields/tags/0/0"),
    (
        r#""metas":[]"#,
        r#""metas":[[null,"m",[]]]"#,
        "/records/0/fields/metas/0/1",
    ),
    (
        r#""metas":[]"#,
        r#""metas":[["q","m",[]]]"#,
        "/records/0/fields/metas/0/0",
    ),
    ("[[0,1]]", "[[1,1],[0,1]]", "/records/0/fields/heads/0/1/0"),
    (r#"["then"]"#, r#"["then""#, "no JSON"),
    (r#""L3""#, "\"L3\0\"", "no JSON"),
];

/// Forms that are read, and written as they were.
pub const READ_BACK: &[Row] = &[
    (r#""in r.0""#, r#""out r.4294967295""#, "same"),
    (
        "[176,[[8,0,[[0,1]]]]]",
        r#"[-2147483648,[[8],[128,"340282366920938463463374607431768211455",[[18446744073709551615,"18446744073709551616"]]]]]"#,
        "same",
    ),
    (
        r#""end":{"fault":9,"site":3,"text":"dead"}"#,
        r#""end":{"fault":7,"site":4294967295}"#,
        "same",
    ),
    (
        r#""end":{"fault":9,"site":3,"text":"dead"}"#,
        r#""end":{"fault":8,"site":0}"#,
        "same",
    ),
    (
        r#""end":{"fault":9,"site":3,"text":"dead"}"#,
        r#""end":"stopped""#,
        "same",
    ),
    (
        r#""end":{"fault":9,"site":3,"text":"dead"}"#,
        r#""end":"cut""#,
        "same",
    ),
    (r#""dead""#, r#""\u0000""#, "same"),
    (
        r#"["then"]"#,
        r#"["pass","broken","else","then",0,4294967295]"#,
        "same",
    ),
    (
        r#"{"sat":[0]}"#,
        r#"{"undecided":{"cause":"outside","pick":7,"values":[1,"18446744073709551616"]}}"#,
        "same",
    ),
    (
        r#"{"sat":[0]}"#,
        r#"{"undecided":{"cause":"cases","count":18446744073709551615}}"#,
        "same",
    ),
    (
        r#"{"sat":[0]}"#,
        r#"{"undecided":{"cause":"coupled","count":65}}"#,
        "same",
    ),
    (
        r#""records":["#,
        r#""records":[{"decisions":[2],"kind":"unexplored"},"#,
        "same",
    ),
    (
        r#""records":["#,
        r#""records":[{"before":null,"decisions":[],"kind":"pruned","refutation":[]},"#,
        "same",
    ),
    (
        r#""records":["#,
        r#""records":[{"before":{"sat":[5]},"decisions":["pass"],"kind":"pruned","refutation":[["empty",6,[0,1]],["domain",18446744073709551615],["split",2],["cycle",[4,5]]]},"#,
        "same",
    ),
    (
        r#""refuted":0,"state":"done""#,
        r#""refuted":18446744073709551615,"state":"partial""#,
        "same",
    ),
    (
        r#""hops":16,"limit":10000"#,
        r#""hops":256,"limit":100000"#,
        "same",
    ),
];

/// Rules of a report's keys and numbers, each broken once.
pub const HEAD: &[Row] = &[
    (r#"{"hops""#, r#"{"hops""#, "same"),
    // Keys before members, and members in the order of keys.
    (r#""hops":16"#, r#""hop":16"#, ""),
    (r#","symnet":1"#, "", ""),
    (r#","symnet":1"#, r#","symnet":1,"t":0"#, ""),
    (r#""hops":16"#, r#""hops":0"#, "/hops"),
    (r#""hops":16"#, r#""hops":256"#, "same"),
    (r#""hops":16"#, r#""hops":257"#, "/hops"),
    (r#""hops":16"#, r#""hops":"16""#, "/hops"),
    (
        r#""hops":16,"limit":10000"#,
        r#""hops":0,"limit":0"#,
        "/hops",
    ),
    (r#""limit":10000"#, r#""limit":100001"#, "/limit"),
    (r#""limit":10000"#, r#""limit":0"#, "/limit"),
    (r#""refuted":2"#, r#""records":0,"refuted":2"#, "/records"),
    (r#""records":["#, r#""records":[0,"#, "/records/0"),
    (r#""refuted":2"#, r#""refuted":null"#, "/refuted"),
    (r#""state":"partial""#, r#""state":"open""#, "/state"),
    (r#""symnet":1"#, r#""symnet":2"#, "/symnet"),
    (r#""symnet":1"#, r#""symnet":true"#, "/symnet"),
];

/// The report of the TTL with the most choices of cases.
pub const CASES: Row = (r#"{"hops""#, r#"{"cases":4096,"hops""#, "same");

/// Rules of the most choices of cases.
pub const BOUNDED: &[Row] = &[
    CASES,
    (r#"{"hops""#, r#"{"cases":1,"hops""#, "same"),
    (
        r#"{"hops""#,
        r#"{"cases":18446744073709551615,"hops""#,
        "same",
    ),
    (r#"{"hops""#, r#"{"cases":0,"hops""#, "/cases"),
    (r#"{"hops""#, r#"{"cases":-1,"hops""#, "/cases"),
    (r#"{"hops""#, r#"{"cases":1e3,"hops""#, "/cases"),
    (
        r#"{"hops""#,
        r#"{"cases":18446744073709551616,"hops""#,
        "/cases",
    ),
    (r#"{"hops""#, r#"{"cases":"4096","hops""#, "/cases"),
    (r#"{"hops""#, r#"{"cases":null,"hops""#, "/cases"),
    (r#"{"hops":16"#, r#"{"cases":0,"hops":0"#, "/cases"),
    (r#"{"hops":16"#, r#"{"cases":4096,"hops":0"#, "/hops"),
    (r#"{"hops""#, r#"{"cases":4096,"cases":0,"hops""#, "/cases"),
    // Other keys are refused at the whole.
    (r#"{"hops""#, r#"{"case":4096,"hops""#, ""),
    (r#"{"hops":16"#, r#"{"cases":4096,"hop":16"#, ""),
    (r#"{"hops":16,"#, r#"{"cases":0,"#, ""),
];

/// The report with the most choices of cases in other words.
pub const OTHER_ORDER: &[Row] = &[
    (r#"{"hops""#, r#"{"cases":0,"cases":4096,"hops""#, "good"),
    (r#""hops":16,"#, r#""hops":16,"cases":4096,"#, "good"),
    (r#","symnet":1"#, r#","symnet":1,"cases":4096"#, "good"),
];

/// Rules of records, decisions and ends.
pub const RECORDS: &[Row] = &[
    // What decides comes before the keys, and keys before what they hold.
    (
        r#","verdict":{"sat""#,
        r#","verdicts":{"sat""#,
        "/records/0",
    ),
    (r#""kind":"path""#, r#""kind":"pat""#, "/records/0/kind"),
    (r#""kind":"path""#, r#""kind":7"#, "/records/0/kind"),
    (r#""kind":"path""#, r#""king":"path""#, "/records/0"),
    (r#""kind":"pruned""#, r#""kind":"path""#, "/records/2"),
    (
        r#"["then","pass",4294967295]"#,
        "{}",
        "/records/0/decisions",
    ),
    (r#""then""#, r#""Then""#, "/records/0/decisions/0"),
    ("4294967295", "4294967296", "/records/0/decisions/2"),
    (r#"["else"]"#, "[null]", "/records/1/decisions/0"),
    (r#""fault":9"#, r#""fault":10"#, "/records/0/end/fault"),
    (r#""fault":9"#, r#""fault":0"#, "/records/0/end/fault"),
    (r#""fault":9"#, r#""fault":8"#, "/records/0/end"),
    (r#""fault":9,"#, "", "/records/0/end"),
    (r#""site":3"#, r#""site":4294967296"#, "/records/0/end/site"),
    (r#""text":"dead""#, r#""text":5"#, "/records/0/end/text"),
    (r#""end":"cut""#, r#""end":"cut off""#, "/records/1/end"),
    (r#""end":"cut""#, r#""end":[]"#, "/records/1/end"),
    (
        r#""fields":{"heads":[],"metas":[],"tags":[]}"#,
        r#""fields":[]"#,
        "/records/1/fields",
    ),
    (
        r#""heads":[],"#,
        r#""heads":null,"#,
        "/records/1/fields/heads",
    ),
    (
        r#""metas":[],"#,
        r#""metas":{},"#,
        "/records/1/fields/metas",
    ),
    (r#""tags":[]"#, r#""tags":"L3""#, "/records/1/fields/tags"),
    (r#""places":[]"#, r#""places":{}"#, "/records/1/places"),
];

/// Rules of what a packet carries.
pub const CARRIED: &[Row] = &[
    (r#""tags":[["#, r#""tag":[["#, "/records/0/fields"),
    ("[[-64,", "[[-2147483649,", "/records/0/fields/heads/0/0"),
    ("[[-64,", "[[-2147483648,", "same"),
    ("[176,", "[2147483648,", "/records/0/fields/heads/1/0"),
    ("[176,[]]", "[176]", "/records/0/fields/heads/1"),
    ("[176,[]]", "[176,[],[]]", "/records/0/fields/heads/1"),
    ("[176,[]]", "[176,0]", "/records/0/fields/heads/1/1"),
    ("[176,[]]", "176", "/records/0/fields/heads/1"),
    (r#"[null,"m""#, r#"["m","m""#, "/records/0/fields/metas/0/0"),
    (
        r#"[null,"m""#,
        r#"[null,"o""#,
        "/records/0/fields/metas/0/1",
    ),
    (r#"[null,"m""#, r#"["x","o""#, "/records/0/fields/metas/0/0"),
    (r#"[null,"m","#, r#"["m","#, "/records/0/fields/metas/0"),
    (r#"[null,"m""#, "[null,null", "/records/0/fields/metas/0/1"),
    (r#""L3""#, r#""L4""#, "/records/0/fields/tags/0/0"),
    (r#""L3""#, "null", "/records/0/fields/tags/0/0"),
    (r#"["L3",112]"#, r#"["L3"]"#, "/records/0/fields/tags/0"),
    (
        r#"["L3",112]"#,
        r#"["L3","112"]"#,
        "/records/0/fields/tags/0/1",
    ),
    (r#""in r.0""#, r#""in q.0""#, "/records/0/places/0"),
    (r#""in r.0""#, "0", "/records/0/places/0"),
];

/// Rules of cells and of numbers of 128 bits.
pub const CELLS: &[Row] = &[
    // Cells: a length, members, and then their order.
    ("[[8],", "[[],", "/records/0/fields/heads/0/1/0"),
    ("[[8],", "[[8,0],", "/records/0/fields/heads/0/1/0"),
    ("[[8],", "[[0],", "/records/0/fields/heads/0/1/0/0"),
    ("[[8],", "[[129],", "/records/0/fields/heads/0/1/0/0"),
    (
        "[8,3,[[0,1],[2,255]]]",
        "[8,256,[[0,1],[2,255]]]",
        "/records/0/fields/heads/0/1/1",
    ),
    (
        "[8,3,[[0,1],[2,255]]]",
        "[8,3,[[0,1],[2,256]]]",
        "/records/0/fields/heads/0/1/1",
    ),
    (
        "[8,3,[[0,1],[2,255]]]",
        "[8,3,[[0,1],[2,0]]]",
        "/records/0/fields/heads/0/1/1",
    ),
    (
        "[8,3,[[0,1],[2,255]]]",
        "[8,3,[[2,1],[2,255]]]",
        "/records/0/fields/heads/0/1/1",
    ),
    (
        "[8,3,[[0,1],[2,255]]]",
        "[8,3,[[3,1],[2,255]]]",
        "/records/0/fields/heads/0/1/1",
    ),
    (
        "[8,3,[[0,1],[2,255]]]",
        "[8,256,[[0,1],[2,-1]]]",
        "/records/0/fields/heads/0/1/1/2/1/1",
    ),
    (
        "[8,3,[[0,1],[2,255]]]",
        "[8,256,[[0,1],[2]]]",
        "/records/0/fields/heads/0/1/1/2/1",
    ),
    (
        "[8,3,[[0,1],[2,255]]]",
        "[8,3,{}]",
        "/records/0/fields/heads/0/1/1/2",
    ),
    // Numbers of 128 bits.
    (
        r#""18446744073709551616""#,
        "18446744073709551616",
        "/records/0/fields/metas/0/2/0/1",
    ),
    (
        r#""18446744073709551616""#,
        r#""18446744073709551615""#,
        "/records/0/fields/metas/0/2/0/1",
    ),
    (
        r#""18446744073709551616""#,
        r#""018446744073709551616""#,
        "/records/0/fields/metas/0/2/0/1",
    ),
    (
        r#""18446744073709551616""#,
        r#""""#,
        "/records/0/fields/metas/0/2/0/1",
    ),
    (
        "340282366920938463463374607431768211455",
        "340282366920938463463374607431768211456",
        "/records/0/fields/metas/0/2/0/2/0/1",
    ),
    (r#""sat":[0,"#, r#""sat":["0","#, "/records/0/verdict/sat/0"),
];

/// Rules of verdicts, causes and refutations.
pub const VERDICTS: &[Row] = &[
    // Verdicts, causes and refutations.
    (
        r#""verdict":{"sat":[0,"#,
        r#""verdict":{"sat":[],"undecided":[0,"#,
        "/records/0/verdict",
    ),
    (
        r#""verdict":{"sat":[0,"#,
        r#""verdict":{"set":[0,"#,
        "/records/0/verdict",
    ),
    (r#""before":null"#, r#""before":{}"#, "/records/3/before"),
    (
        r#""cause":"cases""#,
        r#""cause":"case""#,
        "/records/1/verdict/undecided/cause",
    ),
    (
        r#""cause":"cases""#,
        r#""cause":"outside""#,
        "/records/1/verdict/undecided",
    ),
    (r#""cause":"cases","#, "", "/records/1/verdict/undecided"),
    (
        r#""count":8192"#,
        r#""count":18446744073709551616"#,
        "/records/1/verdict/undecided/count",
    ),
    (
        r#""pick":7"#,
        r#""pick":-7"#,
        "/records/2/before/undecided/pick",
    ),
    (
        r#""values":[1]"#,
        r#""values":1"#,
        "/records/2/before/undecided/values",
    ),
    (
        r#""refutation":[]"#,
        r#""refutation":null"#,
        "/records/3/refutation",
    ),
    (r#"["empty",6,[0,1]]"#, "[]", "/records/2/refutation/0"),
    (r#"["empty",6,[0,1]]"#, "[6]", "/records/2/refutation/0/0"),
    (
        r#"["empty",6,[0,1]]"#,
        r#"["full",6,[0,1]]"#,
        "/records/2/refutation/0/0",
    ),
    (
        r#"["empty",6,[0,1]]"#,
        r#"["empty",6]"#,
        "/records/2/refutation/0",
    ),
    (
        r#"["empty",6,[0,1]]"#,
        r#"["empty",6,[0,null]]"#,
        "/records/2/refutation/0/2/1",
    ),
    (
        r#"["split",2]"#,
        r#"["split",4294967296]"#,
        "/records/2/refutation/2/1",
    ),
    (
        r#"["cycle",[4,5]]"#,
        r#""cycle""#,
        "/records/2/refutation/3",
    ),
    (
        r#"["cycle",[4,5]]"#,
        r#"["cycle",4]"#,
        "/records/2/refutation/3/1",
    ),
    (
        r#"{"decisions":[2],"#,
        r#"{"decisions":[2],"end":"cut","#,
        "/records/5",
    ),
    // The first of two.
    (r#""broken""#, r#""broke""#, "/records/2/decisions/0"),
    (
        r#""before":{"undecided":{"cause":"outside","pick":7,"values":[1]}},"decisions":["broken"]"#,
        r#""before":[],"decisions":0"#,
        "/records/2/before",
    ),
];

/// Splits of members of a formula: the way has one number of 32 bits or more.
pub const SPLITS: &[Row] = &[
    (r#"["split",2]"#, r#"["split",2,[0,4294967295]]"#, "same"),
    (r#"["split",2]"#, r#"["split", 2, [0, 1]]"#, "good"),
    (
        r#"["split",2]"#,
        r#"["split",2,[]]"#,
        "/records/2/refutation/2/2",
    ),
    (
        r#"["split",2]"#,
        r#"["split",2,0]"#,
        "/records/2/refutation/2/2",
    ),
    (
        r#"["split",2]"#,
        r#"["split",2,["0"]]"#,
        "/records/2/refutation/2/2/0",
    ),
    (
        r#"["split",2]"#,
        r#"["split",2,[-1]]"#,
        "/records/2/refutation/2/2/0",
    ),
    (
        r#"["split",2]"#,
        r#"["split",2,[0,4294967296]]"#,
        "/records/2/refutation/2/2/1",
    ),
    (
        r#"["split",2]"#,
        r#"["split",2,[0],[1]]"#,
        "/records/2/refutation/2",
    ),
    (r#"["split",2]"#, r#"["split"]"#, "/records/2/refutation/2"),
    (
        r#"["domain",18446744073709551615]"#,
        r#"["domain",0,[0]]"#,
        "/records/2/refutation/1",
    ),
];

/// Values that a writer of JSON may make.
pub const ODD: &[Row] = &[
    // A key that comes twice has its last value; blanks and another order of keys change nothing.
    (r#""hops":16"#, r#""hops":0,"hops":16"#, "good"),
    (r#""hops":16"#, r#""hops":16,"hops":0"#, "/hops"),
    (
        r#""hops":16,"limit":10000"#,
        " \"limit\" :\t10000,\n\"hops\":16",
        "good",
    ),
    // Floats and what reads as one.
    (r#""hops":16"#, r#""hops":16.0"#, "/hops"),
    (r#""hops":16"#, r#""hops":1e1"#, "/hops"),
    (r#""site":3"#, r#""site":-0"#, "/records/0/end/site"),
    (r#""hops":16"#, r#""hops":1e999"#, "no JSON"),
    (r#""hops":16"#, r#""hops":016"#, "no JSON"),
    (r#""hops":16"#, r#""hops":-16"#, "/hops"),
    (
        r#""refuted":2"#,
        r#""refuted":-9223372036854775808"#,
        "/refuted",
    ),
    (
        r#""refuted":2"#,
        r#""refuted":18446744073709551615"#,
        "same",
    ),
    (
        r#""refuted":2"#,
        r#""refuted":18446744073709551616"#,
        "/refuted",
    ),
    (
        r#""refuted":2"#,
        r#""refuted":340282366920938463463374607431768211457"#,
        "/refuted",
    ),
    // NUL, as a byte and as an escape.
    (r#""dead""#, r#""\u0000""#, "same"),
    (r#""dead""#, "\"\0\"", "no JSON"),
    (r#""hops":16"#, "\0\"hops\":16", "no JSON"),
    (r#""L3""#, r#""L3\u0000""#, "/records/0/fields/tags/0/0"),
    (r#""dead""#, r#""\ud800""#, "no JSON"),
    (r#""state""#, "state", "no JSON"),
    (r#""symnet":1}"#, r#""symnet":1}{}"#, "no JSON"),
    (r#""symnet":1}"#, r#""symnet":1,}"#, "no JSON"),
];

/// Other texts, and what is found.
pub const OTHERS: &[(&str, &str)] = &[
    ("", "no JSON"),
    ("\n", "no JSON"),
    ("[", "no JSON"),
    ("]", "no JSON"),
    ("{}", ""),
    ("[]", ""),
    ("null", ""),
    ("true", ""),
    ("1", ""),
    (r#""report""#, ""),
    ("\0", "no JSON"),
    (r#"{"hops":16}"#, ""),
];
