//! The order of words.

ghost use Rattle.std.specs.Prelude.{◌≡◌};
ghost use Rattle.difference_solver.specs.Words.{comes_before};

/// Whether the left integers come before the right ones, by the first that differ.
pub(crate) fn is_before(left: &[i128], right: &[i128]) -> bool
    ensures { result ≡ comes_before left.now right.now }
{
    for index in 0..left.len().min(right.len()) {
        if left[index] < right[index] {
            return true;
        }
        if right[index] < left[index] {
            return false;
        }
    }
    false
}
