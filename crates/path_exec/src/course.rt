//! The decisions of what is explored.

ghost use Rattle.std.specs.Prelude.{◌≡◌, ◌++◌, ◌∷◌, [], take, OnOk};
ghost use Rattle.path_exec.specs.Handing.{IsNumbered};

use sefl_meaning::Decision;
use sn_width::NoMemory;

/// Says that the number of a copy is of its type. It does nothing.
fn is_numbered(decision: Decision)
    ensures { IsNumbered decision }
{
    if let Decision::Copy(number) = decision {
        let _number = number;
    }
}

/// Cuts the decisions to a depth, and puts one more behind them.
pub(crate) fn turn_to(
    course: &mut Vec<Decision>,
    depth: usize,
    decision: Decision,
) -> Result<(), NoMemory>
    ensures turned { OnOk result (course.new.items ≡ take depth course.old.items ++ decision ∷ []) }
    ensures numbered { IsNumbered decision }
{
    is_numbered(decision);
    course.truncate(depth);
    course.push(decision)?;
    Ok(())
}
