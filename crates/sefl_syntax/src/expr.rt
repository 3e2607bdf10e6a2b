//! Expressions.

ghost use Rattle.std.specs.Prelude.{◌≡◌, ◌++◌, Some, OnOk, string_bytes};
ghost use Rattle.sefl_syntax.specs.TermText.{sign_text, expr_text, operand_text, summands_text};
ghost use Rattle.sefl_syntax.specs.Views.{expr_tree, summand_trees};

use crate::reference::Target;
use sn_width::{Num, Width};
use std::alloc::AllocError;
use std::fmt;
use std::fmt::Write;

/// Whether a member of a sum is added or taken away.
#[derive(Clone, Copy, PartialEq, Eq)]
pub enum Sign {
    Plus,
    Minus,
}

/// An expression. Its value wraps at the width of the atom or assignment that it stands in.
#[derive(Drop)]
pub enum Expr {
    Const(Num),
    Read(Target),
    /// A chain of `+` and `-`, with all its members.
    Sum {
        first: Box<Expr>,
        rest: Vec<(Sign, Expr)>,
    },
}

/// The width of the first reference; None without one. Nothing is proved of it: by a wrong width only time is lost.
#[cycle(first_width)]
pub(crate) fn first_width(expr: &Expr) -> Option<Width> {
    match expr {
        Expr::Const(_) => None,
        Expr::Read(Target::Header { width, .. }) => Some(*width),
        Expr::Read(Target::Meta { width, .. }) => Some(*width),
        Expr::Read(Target::Bound { width, .. }) => Some(*width),
        Expr::Sum { first, rest } => {
            if let Some(width) = first_width(first) {
                return Some(width);
            }
            first_width_among(rest)
        }
    }
}

#[cycle(first_width)]
fn first_width_among(summands: &[(Sign, Expr)]) -> Option<Width> {
    for (_, operand) in summands {
        if let Some(width) = first_width(operand) {
            return Some(width);
        }
    }
    None
}

impl fmt::Display for Sign {
    ghost output = { λ sign. Some (sign_text sign) };

    fn fmt<W: fmt::Write>(&self, f: &mut fmt::Formatter<W>) -> fmt::Result {
        f.write_str(match self {
            Sign::Plus => "+",
            Sign::Minus => "-",
        })
    }
}

/// Appends the text of an expression.
#[tactic(auto, using(crate::proofs::Levels::sum_written))]
#[cycle(write_expr)]
pub(crate) fn write_expr(out: &mut String, expr: &Expr) -> Result<(), AllocError>
    ensures { OnOk result (string_bytes out.new
        ≡ string_bytes out.old ++ expr_text (expr_tree expr.now)) }
{
    match expr {
        Expr::Const(value) => write!(out, "{value}"),
        Expr::Read(target) => write!(out, "{target}"),
        Expr::Sum { first, rest } => {
            write_operand(out, first)?;
            write_summands(out, rest)
        }
    }
}

/// Appends the text of an operand: a sum is in parentheses.
#[tactic(auto, using(crate::proofs::Levels::operand_written))]
#[cycle(write_expr)]
fn write_operand(out: &mut String, operand: &Expr) -> Result<(), AllocError>
    ensures { OnOk result (string_bytes out.new ≡ string_bytes out.old
        ++ operand_text (expr_tree operand.now)) }
{
    match operand {
        Expr::Const(value) => write!(out, "{value}"),
        Expr::Read(target) => write!(out, "{target}"),
        Expr::Sum { .. } => {
            out.push_str("(")?;
            write_expr(out, operand)?;
            out.push_str(")")
        }
    }
}

/// Appends the further members of a sum, each with its sign.
#[cycle(write_expr)]
fn write_summands(out: &mut String, summands: &[(Sign, Expr)]) -> Result<(), AllocError>
    ensures { OnOk result (string_bytes out.new ≡ string_bytes out.old
        ++ summands_text (summand_trees summands.now)) }
{
    for (sign, operand) in summands {
        write!(out, " {sign} ")?;
        write_operand(out, operand)?;
    }
    Ok(())
}
