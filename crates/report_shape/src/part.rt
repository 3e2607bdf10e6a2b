//! The parts of a report.

/// A part of a report. Lists of a part are parts of their own.
#[derive(Clone, Copy)]
pub enum Part {
    Report,
    /// The most choices of cases.
    Cases,
    /// The most hops of a walk.
    Hops,
    /// The most records.
    Limit,
    Records,
    Record,
    /// Whether all was explored.
    State,
    /// The version of the format.
    Version,
    /// A text that decides the form of what it stands in.
    Word,
    Decisions,
    Decision,
    Places,
    Place,
    End,
    Text,
    Fields,
    Heads,
    /// An address with its cells.
    Head,
    Metas,
    /// An owner, a name and their cells.
    Meta,
    /// The name of a node, null for a global.
    Owner,
    MetaName,
    Tags,
    /// A name of a tag with an address.
    Tag,
    TagName,
    /// In bits from the front, which may be negative.
    Address,
    Cells,
    Cell,
    Width,
    /// A number of 128 bits.
    Value,
    Terms,
    /// A symbol with its coefficient.
    Term,
    Verdict,
    Before,
    Cause,
    Values,
    Refutation,
    Step,
    Ids,
    /// The way to a member of a formula.
    Way,
    /// A number of 32 bits.
    Id,
    /// A number of 64 bits.
    Count,
    /// What no value is.
    Nothing,
}
