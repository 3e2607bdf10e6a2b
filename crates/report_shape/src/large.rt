//! Numbers of 128 bits.

ghost use Rattle.std.specs.Prelude.{◌≡◌, IfOk};
ghost use Rattle.report_shape.specs.Numbers.{large_of};

use sn_width::NoMemory;
use std::alloc::Global;

/// The number from `2^64` on that the text is the digits of.
pub fn large_of(alloc: Global, text: &str) -> Result<Option<u128>, NoMemory>
    ensures { IfOk result (λ number. number ≡ large_of text.now) }
{
    let Ok(number) = text.parse::<u128>() else {
        return Ok(None);
    };
    if number < 18_446_744_073_709_551_616 {
        return Ok(None);
    }
    let digits = number.to_string(alloc)?;
    if digits.as_str() == text {
        Ok(Some(number))
    } else {
        Ok(None)
    }
}
