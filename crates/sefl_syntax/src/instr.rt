//! Instructions.

use crate::cond::Cond;
use crate::expr::Expr;
use crate::name::Name;
use crate::reference::{Addr, Target};
use crate::text::Text;

/// An instruction of a port's code.
#[derive(Drop)]
pub enum Instr {
    /// Pushes an unset cell.
    Allocate(Target),
    /// Removes the top cell.
    Deallocate(Target),
    /// Sets the top cell to the expression's value.
    Assign {
        target: Target,
        value: Expr,
    },
    /// Sets the top cell to an unknown value.
    AssignAny(Target),
    /// Pushes an address on the tag's list.
    CreateTag {
        name: Name,
        addr: Addr,
    },
    /// Replaces the top of the tag's list, or makes a list of one.
    SetTag {
        name: Name,
        addr: Addr,
    },
    /// Removes the top of the tag's list.
    DestroyTag(Name),
    /// Goes on where the condition is true, and ends as failed where it is not.
    Constrain(Cond),
    /// Ends as failed with the text.
    Fail(Text),
    If {
        test: Cond,
        first: Vec<Instr>,
        other: Vec<Instr>,
    },
    /// Runs the body once for each allocated metadata name that the pattern finds.
    For {
        var: Name,
        pattern: Text,
        body: Vec<Instr>,
    },
    /// Leaves the box by the output port.
    Forward(u32),
    /// Leaves the box in one copy for each listed output port.
    Fork(Vec<u32>),
    Block(Vec<Instr>),
    NoOp,
}
