//! What is written of refuted sides.

/// What is written of refuted sides.
#[derive(Clone, Copy)]
pub enum RefutedSides {
    /// All of them, as other records.
    Written,
    /// None: only their number is told.
    Counted,
}
