//! The table of a report's parts.

ghost use Rattle.std.specs.Prelude.{◌≡◌};
ghost use Rattle.report_shape.specs.Shape.{form, numbers, texts, lists, objects};
ghost use Rattle.report_shape.specs.Held.{form_of, text_form, list_form, object_form};

use crate::form::{Field, Form, Lists, Objects, Texts};
use crate::part::Part;

const NO: Form = Form {
    null: false,
    number: None,
    text: Texts::Refused,
    list: Lists::Refused,
    reduced: false,
    object: Objects::Refused,
};

fn number(least: i128, greatest: i128) -> Form
    ensures { form_of result ≡ numbers least greatest }
{
    Form {
        number: Some((least, greatest)),
        ..NO
    }
}

fn text(text: Texts) -> Form
    ensures { form_of result ≡ texts (text_form text) }
{
    Form { text, ..NO }
}

fn list(list: Lists) -> Form
    ensures { form_of result ≡ lists (list_form list) }
{
    Form { list, ..NO }
}

fn object(object: Objects) -> Form
    ensures { form_of result ≡ objects (object_form object) }
{
    Form { object, ..NO }
}

const REPORT: &[Field] = &[
    ("hops", Part::Hops),
    ("limit", Part::Limit),
    ("records", Part::Records),
    ("refuted", Part::Count),
    ("state", Part::State),
    ("symnet", Part::Version),
];

// A report that says the most choices of cases.
const BOUNDED: &[Field] = &[
    ("cases", Part::Cases),
    ("hops", Part::Hops),
    ("limit", Part::Limit),
    ("records", Part::Records),
    ("refuted", Part::Count),
    ("state", Part::State),
    ("symnet", Part::Version),
];

const PATH: &[Field] = &[
    ("decisions", Part::Decisions),
    ("end", Part::End),
    ("fields", Part::Fields),
    ("kind", Part::Word),
    ("places", Part::Places),
    ("verdict", Part::Verdict),
];

const PRUNED: &[Field] = &[
    ("before", Part::Before),
    ("decisions", Part::Decisions),
    ("kind", Part::Word),
    ("refutation", Part::Refutation),
];

const UNEXPLORED: &[Field] = &[("decisions", Part::Decisions), ("kind", Part::Word)];

const FAULT: &[Field] = &[("fault", Part::Count), ("site", Part::Id)];

const MESSAGE: &[Field] = &[
    ("fault", Part::Count),
    ("site", Part::Id),
    ("text", Part::Text),
];

const CARRIED: &[Field] = &[
    ("heads", Part::Heads),
    ("metas", Part::Metas),
    ("tags", Part::Tags),
];

const COUNTED: &[Field] = &[("cause", Part::Word), ("count", Part::Count)];

const OUTSIDE: &[Field] = &[
    ("cause", Part::Word),
    ("pick", Part::Id),
    ("values", Part::Values),
];

const WHOLE: Objects = Objects::Of(&[REPORT, BOUNDED]);

const FIELDS: Objects = Objects::Of(&[CARRIED]);

const RECORD: Objects = Objects::ByWord(
    "kind",
    &[
        ("path", PATH),
        ("pruned", PRUNED),
        ("unexplored", UNEXPLORED),
    ],
);

const END: Objects = Objects::ByNumber("fault", &[(1, 8, FAULT), (9, 9, MESSAGE)]);

const VERDICT: Objects = Objects::Of(&[&[("sat", Part::Values)], &[("undecided", Part::Cause)]]);

const CAUSE: Objects = Objects::ByWord(
    "cause",
    &[
        ("cases", COUNTED),
        ("coupled", COUNTED),
        ("outside", OUTSIDE),
    ],
);

const STEP: Lists = Lists::Headed(&[
    ("empty", 3, &[Part::Word, Part::Count, Part::Ids]),
    ("domain", 2, &[Part::Word, Part::Count]),
    ("split", 2, &[Part::Word, Part::Id, Part::Way]),
    ("cycle", 2, &[Part::Word, Part::Ids]),
]);

const CELL: Lists = Lists::Rows(&[&[Part::Width], &[Part::Width, Part::Value, Part::Terms]]);

/// The form of the part.
pub(crate) fn form_for(part: Part) -> Form
    ensures { form_of result ≡ form part }
{
    match part {
        Part::Report => object(WHOLE),
        Part::Cases => number(1, 18_446_744_073_709_551_615),
        Part::Hops => number(1, 256),
        Part::Limit => number(1, 100_000),
        Part::Records => list(Lists::Of(Part::Record)),
        Part::Record => object(RECORD),
        Part::State => text(Texts::Words(&["done", "partial"])),
        Part::Version => number(1, 1),
        Part::Word => text(Texts::Any),
        Part::Decisions => list(Lists::Of(Part::Decision)),
        Part::Decision => Form {
            number: Some((0, 4_294_967_295)),
            text: Texts::Words(&["then", "else", "pass", "broken"]),
            ..NO
        },
        Part::Places => list(Lists::Of(Part::Place)),
        Part::Place => text(Texts::Known),
        Part::End => Form {
            text: Texts::Words(&["stopped", "delivered", "cut"]),
            object: END,
            ..NO
        },
        Part::Text => text(Texts::Any),
        Part::Fields => object(FIELDS),
        Part::Heads => list(Lists::Of(Part::Head)),
        Part::Head => list(Lists::Rows(&[&[Part::Address, Part::Cells]])),
        Part::Metas => list(Lists::Of(Part::Meta)),
        Part::Meta => list(Lists::Rows(&[&[Part::Owner, Part::MetaName, Part::Cells]])),
        Part::Owner => Form {
            null: true,
            text: Texts::Known,
            ..NO
        },
        Part::MetaName => text(Texts::Known),
        Part::Tags => list(Lists::Of(Part::Tag)),
        Part::Tag => list(Lists::Rows(&[&[Part::TagName, Part::Address]])),
        Part::TagName => text(Texts::Known),
        Part::Address => number(-2_147_483_648, 2_147_483_647),
        Part::Cells => list(Lists::Of(Part::Cell)),
        Part::Cell => Form {
            list: CELL,
            reduced: true,
            ..NO
        },
        Part::Width => number(1, 128),
        Part::Value => Form {
            number: Some((0, 18_446_744_073_709_551_615)),
            text: Texts::Large,
            ..NO
        },
        Part::Terms => list(Lists::Of(Part::Term)),
        Part::Term => list(Lists::Rows(&[&[Part::Count, Part::Value]])),
        Part::Verdict => object(VERDICT),
        Part::Before => Form {
            null: true,
            object: VERDICT,
            ..NO
        },
        Part::Cause => object(CAUSE),
        Part::Values => list(Lists::Of(Part::Value)),
        Part::Refutation => list(Lists::Of(Part::Step)),
        Part::Step => list(STEP),
        Part::Ids => list(Lists::Of(Part::Id)),
        Part::Way => list(Lists::OneOrMore(Part::Id)),
        Part::Id => number(0, 4_294_967_295),
        Part::Count => number(0, 18_446_744_073_709_551_615),
        Part::Nothing => NO,
    }
}
