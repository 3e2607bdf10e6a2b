//! Sets of values of a width.

ghost use Rattle.std.specs.Prelude.{◌≡◌, ◌==◌, ℕ, ◌≤◌, ◌↔◌, ◌&&◌, ◌||◌, not, false, length, slice_get, IsNone, IfSome, IfNone, IfOk, IsOkUnless};
ghost use Rattle.sn_width.specs.Width.{FitsWidth, wrapped_sum, wrapped_difference};
ghost use Rattle.sn_ranges.specs.Ranges.{is_member, fits_width, IsCanonical, IsSetOf, IsLeast};
ghost use Rattle.sn_ranges.specs.Sets.{set_of};
ghost use Rattle.sn_ranges.specs.Faults.{fault_of};

use crate::fault::{RangeFault, find_fault};
use crate::gaps::gaps;
use crate::meet::meet;
use crate::merge::{join, sorted};
use crate::shift::{append_raised, wrap};
use sn_width::{NoMemory, Num, Width};
use std::alloc::Global;
use std::marker::Model;

/// A set of values of a width, as the least list of ranges that holds them: the ranges ascend, and
/// no two overlap or touch. Each range has both its ends among its members.
#[derive(Drop)]
pub struct Ranges {
    width: Width,
    ranges: Vec<(Num, Num)>,
}

impl Model for Ranges {
    ghost use Rattle.sn_ranges.specs.Ranges.{RangeSet, IsCanonical};

    ghost Value = { RangeSet };

    ghost view = { λ set. record { width = set.width; pairs = set.ranges.items } };

    ghost invariant = { λ set. IsCanonical set.width set.ranges.items };
}

impl Ranges {
    /// The numbers of any of the pairs of ends, which come in any order and may overlap.
    pub fn from_list(alloc: Global, width: Width, list: &[(Num, Num)]) -> Result<Ranges, RangeFault>
        ensures fault { IfSome (fault_of width list.now) (λ fault. result ≡ Err fault) }
        ensures no_fault { IfNone (fault_of width list.now) (IsOkUnless result RangeFault.NoMemory) }
        ensures set { IfOk result (IsSetOf width (is_member list.now)) }
        ensures set_is { IfOk result (λ set. set ≡ set_of width (is_member list.now)) }
    {
        if let Some(fault) = find_fault(width, list) {
            return Err(fault);
        }
        let ranges = sorted(alloc, list)?;
        Ok(Ranges { width, ranges })
    }

    /// The numbers of both sets.
    pub fn meet(&self, alloc: Global, other: &Ranges) -> Result<Ranges, NoMemory>
        requires { self.now.width ≡ other.now.width }
        ensures { IfOk result (IsSetOf self.now.width
            (λ value. is_member self.now.pairs value && is_member other.now.pairs value)) }
    {
        let width = self.width;
        let ranges = meet(alloc, &self.ranges, &other.ranges)?;
        Ok(Ranges { width, ranges })
    }

    /// The numbers of either set.
    pub fn join(&self, alloc: Global, other: &Ranges) -> Result<Ranges, NoMemory>
        requires { self.now.width ≡ other.now.width }
        ensures { IfOk result (IsSetOf self.now.width
            (λ value. is_member self.now.pairs value || is_member other.now.pairs value)) }
    {
        let width = self.width;
        let ranges = join(alloc, &self.ranges, &other.ranges)?;
        Ok(Ranges { width, ranges })
    }

    /// The complement: the values of the width that are no members.
    pub fn other(&self, alloc: Global) -> Result<Ranges, NoMemory>
        ensures { IfOk result (IsSetOf self.now.width
            (λ value. fits_width self.now.width value && not (is_member self.now.pairs value))) }
    {
        let width = self.width;
        let ranges = gaps(alloc, &self.ranges, width.max())?;
        Ok(Ranges { width, ranges })
    }

    /// Each member plus `c`, a value of the width, modulo `2^w`.
    pub fn shift(&self, alloc: Global, c: Num) -> Result<Ranges, NoMemory>
        requires { FitsWidth self.now.width c }
        ensures set { IfOk result (IsSetOf self.now.width (λ value. fits_width self.now.width value
            && is_member self.now.pairs (wrapped_difference self.now.width value c))) }
        ensures moved { IfOk result (λ set. (value : ℕ) → FitsWidth self.now.width value
            → is_member set.pairs (wrapped_sum self.now.width value c) ≡ is_member self.now.pairs value) }
    {
        let width = self.width;
        let room = width.max() - c;
        let mut ranges = wrap(alloc, &self.ranges, room)?;
        append_raised(&mut ranges, &self.ranges, room, c)?;
        Ok(Ranges { width, ranges })
    }

    /// An equal set.
    pub fn copy(&self, alloc: Global) -> Result<Ranges, NoMemory>
        ensures { IfOk result (λ set. set ≡ self.now) }
    {
        let width = self.width;
        let ranges = Vec::from_slice(alloc, &self.ranges)?;
        Ok(Ranges { width, ranges })
    }

    /// Whether the number is a member.
    pub fn has(&self, value: Num) -> bool
        ensures { result ≡ is_member self.now.pairs value }
    {
        let index = self.ranges.partition_point(|range| range.1 < value);
        index < self.ranges.len() && self.ranges[index].0 <= value
    }

    /// The least member; None where there is none.
    pub fn least(&self) -> Option<Num>
        ensures none { IsNone result ↔ ((value : ℕ) → is_member self.now.pairs value ≡ false) }
        ensures least { IfSome result (IsLeast self.now.pairs) }
    {
        let range = self.ranges.first()?;
        Some(range.0)
    }

    /// The number of ranges.
    pub fn len(&self) -> usize
        ensures { result ≡ length self.now.pairs }
    {
        self.ranges.len()
    }

    /// Whether the set has no member.
    pub fn is_empty(&self) -> bool
        ensures { result ≡ (length self.now.pairs == 0) }
    {
        self.ranges.is_empty()
    }

    /// The width whose values these are.
    pub fn width(&self) -> Width
        ensures value { result ≡ self.now.width }
        ensures canonical { IsCanonical self.now.width self.now.pairs }
    {
        self.width
    }

    /// The two ends of the range at the index; None past the last range.
    pub fn range(&self, index: usize) -> Option<(Num, Num)>
        ensures none { IsNone result ↔ (length self.now.pairs ≤ index) }
        ensures value { result ≡ slice_get self.now.pairs index }
    {
        self.ranges.get(index).copied()
    }
}
