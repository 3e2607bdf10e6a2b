//! A part of a report from bytes.

ghost use Rattle.report_shape.specs.Reads.{Reads};

use crate::fault::{Names, first_fault};
use crate::part::Part;
use serde_json::Value;
use sn_width::NoMemory;
use std::alloc::Global;

/// Why bytes do not show a part of a report.
#[derive(Drop)]
pub enum ShapeFault {
    /// They are not the text of a JSON value, as `serde_json` reads it.
    NotJson,
    /// The first place of the value that has not its form, as a JSON Pointer (RFC 6901).
    NotShaped { pointer: String },
    NoMemory,
}

impl From<NoMemory> for ShapeFault {
    ghost use Rattle.std.specs.Prelude.{◌≡◌};
    ghost use Rattle.report_shape.specs.declared.read.ShapeFault.TheVariants.{NoMemory as OutOfMemory};

    ghost from_gives = { λ _ fault. fault ≡ OutOfMemory };

    fn from(_error: NoMemory) -> ShapeFault {
        ShapeFault::NoMemory
    }
}

/// The value that the bytes are the text of, which has the part's form; or the first place that has not.
pub fn read_value<N: Names>(
    alloc: Global,
    names: &N,
    part: Part,
    bytes: &[u8],
) -> Result<Value, ShapeFault>
    ensures { Reads (N.knows names.now) part bytes.now result }
{
    let value = match Value::from_slice(alloc, bytes) {
        Ok(value) => value,
        Err(error) => {
            if error.is_memory() {
                return Err(ShapeFault::NoMemory);
            }
            return Err(ShapeFault::NotJson);
        }
    };
    match first_fault(&value, alloc, names, part)? {
        Some(pointer) => Err(ShapeFault::NotShaped { pointer }),
        None => Ok(value),
    }
}
