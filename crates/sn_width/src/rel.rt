//! The relations of a comparison.

ghost use Rattle.std.specs.Prelude.{◌≡◌, ℕ, not};

use crate::width::Num;
use std::fmt;

/// A relation between two numbers: `==`, `!=`, `<`, `<=`, `>` or `>=`.
#[derive(Clone, Copy, PartialEq, Eq)]
pub enum Rel {
    Eq,
    Ne,
    Lt,
    Le,
    Gt,
    Ge,
}

impl Rel {
    ghost use Rattle.sn_width.specs.Rel.{relates};

    /// Whether `left` stands in this relation to `right`.
    pub fn holds(self, left: Num, right: Num) -> bool
        ensures { result ≡ relates self left right }
    {
        match self {
            Rel::Eq => left == right,
            Rel::Ne => left != right,
            Rel::Lt => left < right,
            Rel::Le => left <= right,
            Rel::Gt => left > right,
            Rel::Ge => left >= right,
        }
    }

    /// The relation in which two numbers stand exactly where they do not stand in this one.
    pub fn negated(self) -> Rel
        ensures { (left right : ℕ) → relates result left right ≡ not (relates self left right) }
    {
        match self {
            Rel::Eq => Rel::Ne,
            Rel::Ne => Rel::Eq,
            Rel::Lt => Rel::Ge,
            Rel::Le => Rel::Gt,
            Rel::Gt => Rel::Le,
            Rel::Ge => Rel::Lt,
        }
    }

    /// The relation in which the right number stands to the left one where the left one stands in this one to it.
    pub fn exchanged(self) -> Rel
        ensures { (left right : ℕ) → relates result right left ≡ relates self left right }
    {
        match self {
            Rel::Eq => Rel::Eq,
            Rel::Ne => Rel::Ne,
            Rel::Lt => Rel::Gt,
            Rel::Le => Rel::Ge,
            Rel::Gt => Rel::Lt,
            Rel::Ge => Rel::Le,
        }
    }
}

impl fmt::Display for Rel {
    ghost use Rattle.std.specs.Prelude.{Some};
    ghost use Rattle.sn_width.specs.Rel.{sign_of};

    ghost output = { λ rel. Some (sign_of rel) };

    fn fmt<W: fmt::Write>(&self, f: &mut fmt::Formatter<W>) -> fmt::Result {
        f.write_str(match self {
            Rel::Eq => "==",
            Rel::Ne => "!=",
            Rel::Lt => "<",
            Rel::Le => "<=",
            Rel::Gt => ">",
            Rel::Ge => ">=",
        })
    }
}
