//! Texts that grow.

ghost use Rattle.std.specs.Prelude.{string_bytes, OnOk};
ghost use Rattle.serde_json.specs.Written.{comma_if};
ghost use Rattle.kept_texts.specs.Kept.{Grows};

use sn_width::NoMemory;

/// Puts a text behind another one.
pub(crate) fn put(out: &mut String, text: &str) -> Result<(), NoMemory>
    ensures { OnOk result (Grows text.now (string_bytes out.old) (string_bytes out.new)) }
{
    out.push_str(text)?;
    Ok(())
}

/// Puts the comma behind a text that came before.
pub(crate) fn put_comma(out: &mut String, later: bool) -> Result<(), NoMemory>
    ensures { OnOk result (Grows (comma_if later) (string_bytes out.old) (string_bytes out.new)) }
{
    if later { put(out, ",") } else { Ok(()) }
}
