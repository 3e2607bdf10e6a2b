//! Conditions.

ghost use Rattle.std.specs.Prelude.{◌≡◌, ◌++◌, IfOk, OnOk, string_bytes};
ghost use Rattle.sefl_syntax.specs.TermText.{cond_text, chain_text, joint_text, needs_brackets, bracketed, range_text, ranges_text};
ghost use Rattle.sefl_syntax.specs.Views.{cond_tree, cond_trees, expr_tree};

use crate::expr::{Expr, first_width, write_expr};
use crate::range_list::RangeList;
use sn_width::{NoMemory, Num, Rel, Width};
use std::alloc::{AllocError, Global};
use std::fmt::Write;

/// A condition. Every comparison and membership test in it is evaluated, from left to right.
#[derive(Drop)]
pub enum Cond {
    True,
    Compare { rel: Rel, left: Expr, right: Expr },
    /// Whether the value lies in one of the ranges, both ends of each included.
    Member { value: Expr, ranges: RangeList },
    And(Vec<Cond>),
    Or(Vec<Cond>),
    Not(Box<Cond>),
}

impl Cond {
    ghost use Rattle.sefl_syntax.specs.Trees.{member};

    /// Whether the value lies in one of the ranges, both ends of each included.
    pub fn member(alloc: Global, value: Expr, ranges: Vec<(Num, Num)>) -> Result<Cond, NoMemory>
        ensures { IfOk result (λ test. cond_tree test ≡ member (expr_tree value) ranges.items) }
    {
        // The width of the atom, by which the set of the ranges is asked for.
        let width = match first_width(&value) {
            Some(width) => width,
            None => Width::new(64).unwrap(),
        };
        let ranges = RangeList::new(alloc, width, ranges)?;
        Ok(Cond::Member { value, ranges })
    }
}

/// How the members of a chain are joined: by `and`, or by `or`.
#[derive(Clone, Copy, PartialEq, Eq)]
pub enum Joint {
    All,
    Any,
}

impl Joint {
    fn text(self) -> &'static str
        ensures { result.now ≡ joint_text self }
    {
        match self {
            Joint::All => " and ",
            Joint::Any => " or ",
        }
    }

    /// Whether the member would be read as a part of the chain that it stands in.
    fn needs_brackets(self, member: &Cond) -> bool
        ensures { result ≡ needs_brackets self (cond_tree member.now) }
    {
        match (self, member) {
            (Joint::All, Cond::And(_) | Cond::Or(_)) | (Joint::Any, Cond::Or(_)) => true,
            _ => false,
        }
    }
}

/// Appends the text of a condition.
#[cycle(write_cond)]
pub(crate) fn write_cond(out: &mut String, cond: &Cond) -> Result<(), AllocError>
    ensures { OnOk result (string_bytes out.new
        ≡ string_bytes out.old ++ cond_text (cond_tree cond.now)) }
{
    match cond {
        Cond::True => out.push_str("true"),
        Cond::Compare { rel, left, right } => {
            write_expr(out, left)?;
            write!(out, " {rel} ")?;
            write_expr(out, right)
        }
        Cond::Member { value, ranges } => {
            write_expr(out, value)?;
            out.push_str(" in {")?;
            write_ranges(out, ranges.listed())?;
            out.push_str("}")
        }
        Cond::And(members) => write_chain(out, Joint::All, members),
        Cond::Or(members) => write_chain(out, Joint::Any, members),
        Cond::Not(member) => {
            out.push_str("not ")?;
            write_member(out, Joint::All, member)
        }
    }
}

/// Appends a member of a chain, in brackets where it needs them.
#[cycle(write_cond)]
fn write_member(out: &mut String, joint: Joint, member: &Cond) -> Result<(), AllocError>
    ensures { OnOk result (string_bytes out.new ≡ string_bytes out.old
        ++ bracketed (needs_brackets joint (cond_tree member.now)) (cond_text (cond_tree member.now))) }
{
    if !joint.needs_brackets(member) {
        return write_cond(out, member);
    }
    out.push_str("[")?;
    write_cond(out, member)?;
    out.push_str("]")
}

/// Appends the members of a chain.
#[cycle(write_cond)]
fn write_chain(out: &mut String, joint: Joint, members: &[Cond]) -> Result<(), AllocError>
    ensures { OnOk result (string_bytes out.new ≡ string_bytes out.old
        ++ chain_text joint (cond_trees members.now)) }
{
    let [first, rest @ ..] = members else {
        return Ok(());
    };
    write_member(out, joint, first)?;
    for member in rest {
        out.push_str(joint.text())?;
        write_member(out, joint, member)?;
    }
    Ok(())
}

/// Appends ranges with commas between them.
fn write_ranges(out: &mut String, ranges: &[(Num, Num)]) -> Result<(), AllocError>
    ensures { OnOk result (string_bytes out.new ≡ string_bytes out.old
        ++ ranges_text ranges.now) }
{
    let [first, rest @ ..] = ranges else {
        return Ok(());
    };
    write_range(out, first)?;
    for range in rest {
        out.push_str(", ")?;
        write_range(out, range)?;
    }
    Ok(())
}

/// Appends a range: one of one number as that number.
#[tactic(auto, unfolding(crate::specs::TermText::range_text))]
fn write_range(out: &mut String, range: &(Num, Num)) -> Result<(), AllocError>
    ensures { OnOk result (string_bytes out.new ≡ string_bytes out.old ++ range_text range.now) }
{
    let (first, last) = *range;
    if first == last {
        return write!(out, "{first}");
    }
    write!(out, "{first}..{last}")
}
