//! Counts that never fall.
ghost use Rattle.std.specs.Prelude.{◌≡◌, ◌+◌, ◌-◌, ◌^◌, IsTrue, IsFalse};

/// Adds one. A full count stays as it was, and the answer is `false`.
pub fn raise(count: &mut u64) -> bool
    ensures raised { IsTrue result → count.new ≡ count.old + 1 }
    ensures full { IsFalse result → count.old ≡ 2 ^ 64 - 1 }
    ensures stays { IsFalse result → count.new ≡ count.old }
{
    if *count == u64::MAX {
        return false;
    }
    *count += 1;
    true
}
