//! The least symbol whose domain is empty.

ghost use Rattle.std.specs.Prelude.{◌≡◌};
ghost use Rattle.interval_solver.specs.Domains.{first_or_last, first_with};

/// The least place, with one more that counts or does not and comes after all others.
pub(crate) fn after_push(empty: Option<u64>, is_empty: bool, place: u64) -> Option<u64>
    ensures { result ≡ first_or_last empty is_empty place }
{
    match empty {
        Some(first) => Some(first),
        None => is_empty.then_some(place),
    }
}

/// The least place, where one that did not count now counts or does not.
pub(crate) fn after_change(empty: Option<u64>, is_empty: bool, place: u64) -> Option<u64>
    ensures { result ≡ first_with empty is_empty place }
{
    if !is_empty {
        return empty;
    }
    match empty {
        Some(first) => Some(first.min(place)),
        None => Some(place),
    }
}
