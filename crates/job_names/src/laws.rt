//! What follows from the definitions alone. These functions do nothing: their contracts are the laws.

ghost use Rattle.std.specs.Prelude.{◌≡◌, ℕ, List, fold, bytes_eq};
ghost use Rattle.std.specs.Cmp.Lexicographic.{slice_cmp};
ghost use Rattle.std.specs.List.{list_any};
ghost use Rattle.std.specs.List.Sorted.{IsStrictlySortedBy};
ghost use Rattle.std.specs.Ordering.{nat_cmp};
ghost use Rattle.sefl_syntax.specs.Trees.{JobTree};
ghost use Rattle.job_items.specs.Items.{job_items};
ghost use Rattle.job_items.specs.Rules.{counted, no_counts};
ghost use Rattle.job_names.specs.Occurrences.{as_set, meta_names};

/// Texts as a set ascend by bytes, and are those texts.
pub fn sets_ascend()
    ensures ascending { (texts : List (List ℕ)) → IsStrictlySortedBy (slice_cmp nat_cmp) (as_set texts) }
    ensures members { (texts : List (List ℕ)) (text : List ℕ)
        → list_any (bytes_eq text) (as_set texts) ≡ list_any (bytes_eq text) texts }
{}

/// The metadata names of a job are those that acceptance counts.
pub fn names_are_counted()
    ensures { (j : JobTree) → meta_names j ≡ (fold counted no_counts (job_items j)).names }
{}
