//! What decides the cases of a condition.

use refutation_check::Refutation;

/// What decides the cases of a condition.
#[derive(Drop)]
pub(crate) enum Found {
    /// The least integers that meet one case of each choice, for zero and each coupled symbol.
    Integers { values: Vec<i128> },
    /// No values satisfy every formula that is not outside.
    Refuted { refutation: Refutation },
}
