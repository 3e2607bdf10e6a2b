//! What has the form of a part. This function does nothing: its contract is the law.

ghost use Rattle.std.specs.Prelude.{◌≡◌, ◌∷◌, ◌++◌, [], ℕ, List, Bool, Some, None};
ghost use Rattle.serde_json.specs.Data.{Data};
ghost use Rattle.serde_json.specs.Read.{read};
ghost use Rattle.serde_json.specs.Written.{compact_text};
ghost use Rattle.report_shape.specs.declared.part.Part.{Part};
ghost use Rattle.report_shape.specs.Faults.{fault};

use run_text::json_laws::lines_are_read;

/// The compact text of a value that has its form, with a line feed behind it, is read as that value: its numbers are
/// whole and of 64 bits, its keys ascend, and it nests to ten at most.
pub fn shaped_lines_are_read()
    ensures { (knows : Part → List ℕ → Bool) (part : Part) (d : Data) → fault knows part d ≡ None
        → read (compact_text d ++ 10 ∷ []) ≡ Some d }
{
    lines_are_read();
}
