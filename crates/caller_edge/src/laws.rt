//! What lists as bytes have. This function does nothing: its contract is the law.

ghost use Rattle.std.specs.Prelude.{◌≡◌, ℕ, List};
ghost use Rattle.caller_edge.specs.Lists.{HasFiles, HasTexts};

/// Bytes have one list of texts at most, and one of files.
pub fn lists_are_read_in_one_way()
    ensures texts { (bytes : List ℕ) (one other : List (List ℕ)) → HasTexts bytes one → HasTexts bytes other
        → one ≡ other }
    ensures files { (bytes : List ℕ) (one other : List (List ℕ × List ℕ)) → HasFiles bytes one → HasFiles bytes other
        → one ≡ other }
{}
