//! Values of cells and truths of tests, as the operations on them.

ghost use Rattle.std.specs.Prelude.{◌≡◌, map, IfOk};
ghost use Rattle.sefl_meaning.specs.Terms.{joined};
ghost use Rattle.sefl_meaning.specs.Values.{Values};

use sefl_syntax::{RangeList, Sign};
use sn_width::{NoMemory, Num, Rel, Width};
use std::alloc::Global;

/// Operations on values of cells and on truths of tests. What they compute is `values`; a test is
/// seen as its truth.
pub trait Arithmetic {
    /// What a cell holds.
    type Value: Drop;

    /// What a condition is evaluated to.
    type Test: Drop;

    /// What a test is seen as.
    ghost Truth: { Type 0 };

    /// The truth of a test.
    ghost truth: { Self.Test → Truth };

    /// The operations of the meaning.
    ghost values: { Self → Values Self.Value Truth };

    /// An equal value.
    fn copied(&self, alloc: Global, value: &Self::Value) -> Result<Self::Value, NoMemory>
        ensures { IfOk result (λ copy. copy ≡ value.now) };

    /// The number, modulo `2^w`.
    fn constant(&self, alloc: Global, width: Width, number: Num) -> Result<Self::Value, NoMemory>
        ensures { IfOk result (λ v. v ≡ (values self.now).constant width number) };

    /// The value of the unknown field of this number, from 0.
    fn unknown(&self, alloc: Global, width: Width, number: u64) -> Result<Self::Value, NoMemory>
        ensures { IfOk result (λ v. v ≡ (values self.now).unknown width number) };

    /// The sum, modulo `2^w`.
    fn plus(
        &self,
        alloc: Global,
        width: Width,
        left: &Self::Value,
        right: &Self::Value,
    ) -> Result<Self::Value, NoMemory>
        ensures { IfOk result (λ v. v ≡ (values self.now).plus width left.now right.now) };

    /// The difference, modulo `2^w`.
    fn minus(
        &self,
        alloc: Global,
        width: Width,
        left: &Self::Value,
        right: &Self::Value,
    ) -> Result<Self::Value, NoMemory>
        ensures { IfOk result (λ v. v ≡ (values self.now).minus width left.now right.now) };

    /// Whether the first stands in the relation to the second.
    fn compare(&self, width: Width, rel: Rel, left: Self::Value, right: Self::Value) -> Self::Test
        ensures { truth result ≡ (values self.now).compare width rel left right };

    /// Whether the value lies in one of the ranges.
    fn member(
        &self,
        alloc: Global,
        width: Width,
        value: Self::Value,
        ranges: &RangeList,
    ) -> Result<Self::Test, NoMemory>
        ensures { IfOk result (λ t. truth t ≡ (values self.now).member width value ranges.now) };

    /// The test that is true.
    fn always(&self) -> Self::Test
        ensures { truth result ≡ (values self.now).always };

    /// Whether all of the tests hold.
    fn all_of(&self, tests: Vec<Self::Test>) -> Self::Test
        ensures { truth result ≡ (values self.now).all_of (map truth tests.items) };

    /// Whether one of the tests holds.
    fn any_of(&self, tests: Vec<Self::Test>) -> Self::Test
        ensures { truth result ≡ (values self.now).any_of (map truth tests.items) };

    /// Whether the test does not hold.
    fn negation(&self, alloc: Global, test: Self::Test) -> Result<Self::Test, NoMemory>
        ensures { IfOk result (λ t. truth t ≡ (values self.now).negation (truth test)) };
}

/// The sum or the difference, by the sign.
pub fn joined<A: Arithmetic>(
    alloc: Global,
    o: &A,
    width: Width,
    sign: Sign,
    left: &A::Value,
    right: &A::Value,
) -> Result<A::Value, NoMemory>
    ensures { IfOk result (λ v. v ≡ joined (A.values o.now) width sign left.now right.now) }
{
    match sign {
        Sign::Plus => o.plus(alloc, width, left, right),
        Sign::Minus => o.minus(alloc, width, left, right),
    }
}
