//! Delivered paths, as they are compared.

use cell_stacks::Cell;
use interval_solver::Domains;
use lin_term::Term;
use path_cond::PathCond;
use path_formula::Formula;
use sefl_meaning::Decision;

/// A delivered path: its number among the records, the name of the box and the port that it is delivered by, its header cells, and
/// its condition with its domains, whose formulas stand in a row. Contracts see a path with the number, exit, cells and condition.
#[derive(Drop)]
pub(crate) struct Delivery<'a> {
    pub number: u64,
    pub exit: Option<(&'a str, u32)>,
    pub heads: &'a [(i32, Vec<Cell<Term>>)],
    pub condition: &'a PathCond,
    pub domains: &'a Domains,
    pub formulas: Vec<(&'a Formula, bool)>,
    /// Its decisions, and a mark for each of its formulas: formulas with one mark are probably the same. No contract speaks of them.
    pub decisions: &'a [Decision],
    pub marks: Vec<u32>,
}
