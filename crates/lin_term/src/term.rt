//! Terms.

ghost use Rattle.std.specs.Prelude.{◌≡◌, ℕ, ◌*◌, ◌%◌, ◌^◌, ◌<◌, ◌≤◌, ◌↔◌, List, [], ◌∷◌, length, slice_get, slice_index, IsTrue, IsNone, IsSome, IfOk, IfSome};
ghost use Rattle.sn_width.specs.Width.{FitsWidth, wrapped_sum, wrapped_difference};

use crate::merge::{merged, plus_times};
use crate::parts::{Part, Parts};
use crate::reduced::is_reduced;
use sn_width::{NoMemory, Num, SymId, Width};
use std::alloc::Global;
use std::marker::Model;

/// A constant plus coefficients times symbols, modulo `2^w`.
#[derive(Drop)]
pub struct Term {
    width: Width,
    constant: Num,
    /// Ascending by symbol, with coefficients that are not 0.
    parts: Parts,
}

impl Model for Term {
    ghost use Rattle.lin_term.specs.Terms.{LinearTerm, IsReduced};

    ghost Value = { LinearTerm };

    ghost view = { λ t. record { width = t.width; constant = t.constant; parts = t.parts } };

    ghost invariant = { λ t. IsReduced (record { width = t.width; constant = t.constant; parts = t.parts }) };
}

impl Term {
    ghost use Rattle.lin_term.specs.Terms.{LinearTerm, IsReduced, value_at, IsSum, IsDifference, IsCombination};
    ghost use Rattle.lin_term.specs.Sums.{term_sum, term_difference};

    /// A number. It must be at most the width's maximum.
    pub fn of_const(alloc: Global, width: Width, value: Num) -> Result<Term, NoMemory>
        requires { FitsWidth width value }
        ensures term { IfOk result
            (λ t. t ≡ record { width = width; constant = value; parts = [] }) }
        ensures reduced { IfOk result IsReduced }
        ensures value { IfOk result (λ t. (values : List ℕ) → value_at t values ≡ value) }
    {
        Ok(Term {
            width,
            constant: value,
            parts: Parts::none(),
        })
    }

    /// A symbol.
    pub fn of_symbol(alloc: Global, width: Width, symbol: SymId) -> Result<Term, NoMemory>
        ensures term { IfOk result
            (λ t. t ≡ record { width = width; constant = 0; parts = (symbol, 1) ∷ [] }) }
        ensures reduced { IfOk result IsReduced }
        ensures value { IfOk result
            (λ t. (values : List ℕ) → value_at t values ≡ slice_index values symbol.0 % 2 ^ width) }
    {
        // So 1 is a number of the width.
        prove!(width.bits() >= 1);
        Ok(Term {
            width,
            constant: 0,
            parts: Parts::one((symbol, 1)),
        })
    }

    /// The term of this width, constant and parts, where they are those of a reduced term: no number
    /// is past the width's maximum, no coefficient is 0, and the symbols ascend.
    pub fn of_parts(width: Width, constant: Num, parts: Vec<(SymId, Num)>) -> Option<Term>
        ensures reduced { IsSome result
            ↔ IsReduced (record { width = width; constant = constant; parts = parts.items }) }
        ensures term { IfSome result
            (λ t. t ≡ record { width = width; constant = constant; parts = parts.items }) }
    {
        if !is_reduced(width, constant, &parts) {
            return None;
        }
        Some(Term {
            width,
            constant,
            parts: Parts::from_vec(parts),
        })
    }

    /// `self + other`. The two have one width.
    pub fn plus(&self, alloc: Global, other: &Term) -> Result<Term, NoMemory>
        requires { self.now.width ≡ other.now.width }
        ensures term { IfOk result (λ t. t ≡ term_sum self.now other.now) }
        ensures sum { IfOk result (IsSum self.now other.now) }
        ensures reduced { IfOk result IsReduced }
        ensures value { IfOk result (λ t. (values : List ℕ) → value_at t values
            ≡ wrapped_sum self.now.width (value_at self.now values) (value_at other.now values)) }
    {
        self.plus_multiple(alloc, 1, other)
    }

    /// `self - other`. The two have one width.
    pub fn minus(&self, alloc: Global, other: &Term) -> Result<Term, NoMemory>
        requires { self.now.width ≡ other.now.width }
        ensures term { IfOk result (λ t. t ≡ term_difference self.now other.now) }
        ensures difference { IfOk result (IsDifference self.now other.now) }
        ensures reduced { IfOk result IsReduced }
        ensures value { IfOk result (λ t. (values : List ℕ) → value_at t values
            ≡ wrapped_difference self.now.width (value_at self.now values) (value_at other.now values)) }
    {
        // The width's greatest value is minus one, modulo `2^w`.
        self.plus_multiple(alloc, self.width.max(), other)
    }

    /// `self + factor * other`. The two have one width.
    fn plus_multiple(&self, alloc: Global, factor: Num, other: &Term) -> Result<Term, NoMemory>
        requires { self.now.width ≡ other.now.width }
        ensures combination { IfOk result (IsCombination factor self.now other.now) }
        ensures other { IsReduced other.now }
    {
        let parts = merged(
            alloc,
            self.width,
            self.parts.as_slice(),
            factor,
            other.parts.as_slice(),
        )?;
        Ok(Term {
            width: self.width,
            constant: plus_times(self.width, self.constant, factor, other.constant),
            parts,
        })
    }

    /// The value where each symbol is the number at its place in `values`, and 0 past their end.
    pub fn value(&self, values: &[Num]) -> Num
        ensures value { result ≡ value_at self.now values.now }
        ensures reduced { IsReduced self.now }
    {
        let mut total = self.constant;
        for (symbol, coefficient) in self.parts.as_slice() {
            let number = number_of(*symbol, values);
            total = plus_times(self.width, total, *coefficient, number);
        }
        total
    }

    /// Whether width, constant and parts are equal.
    pub fn same(&self, other: &Term) -> bool
        ensures same { IsTrue result ↔ (self.now ≡ other.now) }
        ensures reduced { IsReduced self.now }
    {
        self.width == other.width
            && self.constant == other.constant
            && same_parts(self.parts.as_slice(), other.parts.as_slice())
    }

    /// The width of the constant, the coefficients and the values.
    pub fn width(&self) -> Width
        ensures width { result ≡ self.now.width }
        ensures reduced { IsReduced self.now }
    {
        self.width
    }

    /// The constant.
    pub fn constant(&self) -> Num
        ensures constant { result ≡ self.now.constant }
        ensures reduced { IsReduced self.now }
    {
        self.constant
    }

    /// The part at a place from 0, ascending by symbol; None past the last one.
    pub fn part(&self, index: usize) -> Option<(SymId, Num)>
        ensures part { result ≡ slice_get self.now.parts index }
        ensures past { IsNone result ↔ (length self.now.parts ≤ index) }
        ensures coefficient { IfSome result
            (λ part. (0 < part.1) × FitsWidth self.now.width part.1) }
        ensures reduced { IsReduced self.now }
    {
        part_at(self.parts.as_slice(), index)
    }

    /// An equal term.
    pub fn copy(&self, alloc: Global) -> Result<Term, NoMemory>
        ensures same { IfOk result (λ t. t ≡ self.now) }
        ensures reduced { IsReduced self.now }
    {
        Ok(Term {
            width: self.width,
            constant: self.constant,
            parts: self.parts.copy(alloc)?,
        })
    }
}

/// The number of a symbol: that at its place in `values`, and 0 past their end.
fn number_of(symbol: SymId, values: &[Num]) -> Num
    ensures { result ≡ slice_index values.now symbol.0 }
{
    values.get(symbol.0 as usize).copied().unwrap_or(0)
}

/// Whether the parts are equal, in their order.
fn same_parts(left: &[Part], right: &[Part]) -> bool
    ensures { IsTrue result ↔ (left.now ≡ right.now) }
{
    left == right
}

/// The part at a place; None past the last one.
fn part_at(parts: &[Part], index: usize) -> Option<Part>
    ensures { result ≡ slice_get parts.now index }
{
    parts.get(index).copied()
}
