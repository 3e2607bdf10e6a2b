//! Calls on cells, as rows of tables, and their answers.

use cell_stacks::Cell;
use sn_width::{LayoutFault, Num, StepFault, Width};
use std::process::Abort;

/// What a call answers: the number that it reads, 0 where it does something, or its fault.
pub type Answer = Result<Num, LayoutFault>;

/// What is done with the cells of a place.
#[derive(Clone, Copy)]
pub enum Act {
    Allocate,
    Deallocate,
    Assign(Num),
    Read,
}

pub fn width_of(rt: &impl Abort, bits: u8) -> Width {
    Width::new(bits).expect(rt, "a width has 1 to 128 bits")
}

/// The answer of a call that does something.
pub fn answered(rt: &impl Abort, step: Result<(), StepFault>) -> Answer {
    match step {
        Ok(()) => Ok(0),
        Err(StepFault::Layout(fault)) => Err(fault),
        Err(StepFault::NoMemory) => panic!(rt; "memory"),
    }
}

/// Whether these are the values of the cells, from bottom to top.
pub fn values_are(cells: &[Cell<&Num>], wanted: &[Option<Num>]) -> bool {
    for (cell, value) in cells.iter().zip(wanted) {
        if cell.value.copied() != *value {
            return false;
        }
    }
    cells.len() == wanted.len()
}
