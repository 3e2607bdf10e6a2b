//! What may be wrong with a record.

/// The part of a record that does not hold. They are tried in this order.
#[derive(Clone, Copy, PartialEq, Eq)]
pub enum Part {
    /// A path whose decisions do not lead to an end, or whose values do not take them; or decisions that are
    /// left unexplored and are not open.
    NotTaken,
    /// A refuted side whose decisions do not end at a test, whose refutation is not accepted, or whose earlier
    /// verdict does not hold.
    NotRefuted,
    /// A path with other places, another end or other fields.
    OtherEnd,
    /// A path with a cause that may not be given.
    NotUndecided,
}
