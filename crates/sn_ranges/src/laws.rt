//! What holds of all sets of ranges.

ghost use Rattle.std.specs.Prelude.{◌≡◌, ℕ, Bool, ◌&&◌};
ghost use Rattle.sn_width.specs.Width.{FitsWidth};
ghost use Rattle.sn_ranges.specs.Laws.{OneListForEachSet, FaultlessWhereAllFit};
ghost use Rattle.sn_ranges.specs.Ranges.{RangeSet, IsSetOf, fits_width, is_member};
ghost use Rattle.sn_ranges.specs.Sets.{set_of};

/// Two sets of one width that have the same values are equal.
pub fn one_list_for_each_set()
    ensures { OneListForEachSet }
{}

/// `from_list` finds a fault in a list exactly where some pair is reversed or past the max.
pub fn faultless_where_all_fit()
    ensures { FaultlessWhereAllFit }
{}

/// The set of a test holds the values of the width that pass it, and each set is that of its test.
pub fn the_set_of_a_test()
    ensures set { (width : ℕ) (test : ℕ → Bool)
        → IsSetOf width (λ value. fits_width width value && test value) (set_of width test) }
    ensures members { (width : ℕ) (test : ℕ → Bool) (value : ℕ) → FitsWidth width value
        → is_member (set_of width test).pairs value ≡ test value }
    ensures only { (width : ℕ) (test : ℕ → Bool) (set : RangeSet)
        → IsSetOf width test set → set ≡ set_of width test }
    ensures within { (width : ℕ) (test : ℕ → Bool) (set : RangeSet)
        → IsSetOf width (λ value. fits_width width value && test value) set → set ≡ set_of width test }
    ensures same { (width : ℕ) (test other : ℕ → Bool)
        → ((value : ℕ) → FitsWidth width value → test value ≡ other value)
        → set_of width test ≡ set_of width other }
{}
