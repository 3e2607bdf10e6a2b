//! Atoms: what is evaluated at one width.

ghost use Rattle.std.specs.Prelude.{◌≡◌, ◌++◌, ◌==◌, ◌||◌, nat_lt, length, OnOk, IfOk, option_to_list};
ghost use Rattle.std.specs.List.{list_all, list_any};
ghost use Rattle.sn_width.specs.Width.{max_value};
ghost use Rattle.sefl_syntax.specs.Views.{expr_tree, summand_trees};
ghost use Rattle.job_items.specs.Atoms.{expr_reads, summand_reads, expr_constants, summand_constants, comparison, membership, assignment, lone};
ghost use Rattle.job_items.specs.AtomRules.{width_of, atom_width, is_mixed, is_too_wide, is_reversed};
ghost use Rattle.job_items.specs.Gathered.{lent};

use sefl_syntax::{Expr, Sign, Target};
use sn_width::{NoMemory, Num, Width};
use std::alloc::Global;
use std::marker::Model;

/// What is evaluated at one width: the references that are read or set, the constants, and the
/// ranges of a membership test.
#[derive(Drop)]
pub struct Atom<'a> {
    reads: Vec<&'a Target>,
    constants: Vec<Num>,
    ranges: &'a [(Num, Num)],
}

impl<'a> Model for Atom<'a> {
    ghost use Rattle.job_items.specs.Atoms as spec;
    ghost use Rattle.job_items.specs.Gathered.{lent};

    ghost Value = { spec.Atom };

    ghost view = { λ a. record { reads = lent a.reads.items; constants = a.constants.items; ranges = a.ranges.now } };
}

impl<'a> Atom<'a> {
    /// The atom of a comparison.
    pub fn comparison(alloc: Global, left: &'a Expr, right: &'a Expr) -> Result<Atom<'a>, NoMemory>
        ensures { IfOk result (λ a. a ≡ comparison (expr_tree left.now) (expr_tree right.now)) }
    {
        let mut reads = Vec::new(alloc);
        let mut constants = Vec::new(alloc);
        add_expr(&mut reads, &mut constants, left)?;
        add_expr(&mut reads, &mut constants, right)?;
        Ok(Atom {
            reads,
            constants,
            ranges: &[],
        })
    }

    /// The atom of a membership test.
    pub fn membership(
        alloc: Global,
        value: &'a Expr,
        ranges: &'a [(Num, Num)],
    ) -> Result<Atom<'a>, NoMemory>
        ensures { IfOk result (λ a. a ≡ membership (expr_tree value.now) ranges.now) }
    {
        let mut reads = Vec::new(alloc);
        let mut constants = Vec::new(alloc);
        add_expr(&mut reads, &mut constants, value)?;
        Ok(Atom {
            reads,
            constants,
            ranges,
        })
    }

    /// The atom of an assignment, the target first.
    pub fn assignment(
        alloc: Global,
        target: &'a Target,
        value: &'a Expr,
    ) -> Result<Atom<'a>, NoMemory>
        ensures { IfOk result (λ a. a ≡ assignment target.now (expr_tree value.now)) }
    {
        let mut reads = Vec::new(alloc);
        let mut constants = Vec::new(alloc);
        reads.push(target)?;
        add_expr(&mut reads, &mut constants, value)?;
        Ok(Atom {
            reads,
            constants,
            ranges: &[],
        })
    }

    /// The atom of a reference by itself, with the value that it is given.
    pub fn lone(alloc: Global, target: &'a Target, value: Option<Num>) -> Result<Atom<'a>, NoMemory>
        ensures { IfOk result (λ a. a ≡ lone target.now (option_to_list value)) }
    {
        let mut reads = Vec::new(alloc);
        let mut constants = Vec::new(alloc);
        reads.push(target)?;
        if let Some(value) = value {
            constants.push(value)?;
        }
        Ok(Atom {
            reads,
            constants,
            ranges: &[],
        })
    }

    /// The width of the first reference, and 64 bits where there is none.
    fn max(&self) -> Num
        ensures { result ≡ max_value (atom_width self.now) }
    {
        match self.reads.as_slice() {
            [] => Num::from(u64::MAX),
            [first, ..] => first.width().max(),
        }
    }

    /// Whether the references differ in width.
    pub fn is_mixed(&self) -> bool
        ensures { result ≡ is_mixed self.now }
    {
        match self.reads.as_slice() {
            [] => false,
            [first, rest @ ..] => !have_width(rest, first.width()),
        }
    }

    /// Whether a constant or an end of a range exceeds the atom's width.
    pub fn is_too_wide(&self) -> bool
        ensures { result ≡ is_too_wide self.now }
    {
        let max = self.max();
        self.has_constant_above(max) || self.has_end_above(max)
    }

    fn has_constant_above(&self, max: Num) -> bool
        ensures { result ≡ list_any (nat_lt max) self.now.constants }
    {
        self.constants.iter().any(|constant| max < *constant)
    }

    fn has_end_above(&self, max: Num) -> bool
        ensures { result ≡ list_any (λ range. nat_lt max range.0 || nat_lt max range.1) self.now.ranges }
    {
        self.ranges
            .iter()
            .any(|range| max < range.0 || max < range.1)
    }

    /// Whether the first number of a range exceeds its second.
    pub fn is_reversed(&self) -> bool
        ensures { result ≡ is_reversed self.now }
    {
        self.ranges.iter().any(|range| range.1 < range.0)
    }

    /// The references, those that are set among them.
    pub fn reads(&self) -> &[&'a Target]
        ensures { lent result.now ≡ self.now.reads }
    {
        &self.reads
    }

    /// How many ranges the atom has.
    pub fn range_count(&self) -> usize
        ensures { result ≡ length self.now.ranges }
    {
        self.ranges.len()
    }
}

/// Whether all references have this width.
fn have_width(reads: &[&Target], width: Width) -> bool
    ensures { result ≡ list_all (λ target. width_of target == width) (lent reads.now) }
{
    for target in reads {
        if target.width() != width {
            return false;
        }
    }
    true
}

/// Adds the references and the constants of an expression.
#[cycle(add_expr)]
fn add_expr<'a>(
    reads: &mut Vec<&'a Target>,
    constants: &mut Vec<Num>,
    expr: &'a Expr,
) -> Result<(), NoMemory>
    ensures reads { OnOk result (lent reads.new.items ≡ lent reads.old.items ++ expr_reads (expr_tree expr.now)) }
    ensures constants { OnOk result (constants.new.items ≡ constants.old.items ++ expr_constants (expr_tree expr.now)) }
{
    match expr {
        Expr::Const(value) => {
            constants.push(*value)?;
            Ok(())
        }
        Expr::Read(target) => {
            reads.push(target)?;
            Ok(())
        }
        Expr::Sum { first, rest } => {
            add_expr(reads, constants, first)?;
            add_summands(reads, constants, rest)
        }
    }
}

/// Adds those of the further members of a sum.
#[cycle(add_expr)]
fn add_summands<'a>(
    reads: &mut Vec<&'a Target>,
    constants: &mut Vec<Num>,
    summands: &'a [(Sign, Expr)],
) -> Result<(), NoMemory>
    ensures reads { OnOk result (lent reads.new.items
        ≡ lent reads.old.items ++ summand_reads (summand_trees summands.now)) }
    ensures constants { OnOk result (constants.new.items
        ≡ constants.old.items ++ summand_constants (summand_trees summands.now)) }
{
    for (_, operand) in summands {
        add_expr(reads, constants, operand)?;
    }
    Ok(())
}
