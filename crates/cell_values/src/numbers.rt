//! Numbers as the values of cells.

ghost use Rattle.std.specs.Prelude.{◌≡◌, ◌%◌, ◌^◌, map};
ghost use Rattle.std.specs.List.{list_all, list_any};
ghost use Rattle.sn_width.specs.Width.{FitsWidth, wrapped_sum, wrapped_difference};
ghost use Rattle.sefl_meaning.specs.Values.{numbers};

use crate::arithmetic::Arithmetic;
use sefl_syntax::RangeList;
use sn_width::{NoMemory, Num, Rel, Width};
use std::alloc::Global;

/// The numbers of a packet: those of its unknown fields and, behind them, its choices.
#[derive(Clone, Copy)]
pub struct Numbers<'a> {
    pub numbers: &'a [Num],
    pub unknowns: usize,
}

impl<'a> Numbers<'a> {
    /// The number at this place of the packet's list, modulo `2^w`; 0 past its end.
    pub fn number_at(&self, width: Width, place: usize) -> Num
        ensures { result ≡ (numbers self.now.numbers.now self.now.unknowns).unknown width place }
    {
        match self.numbers.get(place).copied() {
            None => 0,
            Some(value) => reduced(width, value),
        }
    }

    /// The choice of this number on a walk, from 0, at a width; 0 past the end of the list.
    pub fn choice(&self, width: Width, number: usize) -> Num
        ensures { result ≡ (numbers self.now.numbers.now self.now.unknowns).choice width number }
    {
        let Some(place) = self.unknowns.checked_add(number) else {
            return 0;
        };
        self.number_at(width, place)
    }
}

impl<'a> Arithmetic for Numbers<'a> {
    ghost use Rattle.std.specs.Prelude.{Bool};
    ghost use Rattle.sefl_meaning.specs.Values.{numbers};

    type Value = Num;

    type Test = bool;

    ghost Truth = { Bool };

    ghost truth = { λ truth. truth };

    ghost values = { λ o. numbers o.numbers.now o.unknowns };

    fn copied(&self, _alloc: Global, value: &Num) -> Result<Num, NoMemory> {
        Ok(*value)
    }

    fn constant(&self, _alloc: Global, width: Width, number: Num) -> Result<Num, NoMemory> {
        Ok(reduced(width, number))
    }

    fn unknown(&self, _alloc: Global, width: Width, number: u64) -> Result<Num, NoMemory> {
        Ok(self.number_at(width, number as usize))
    }

    fn plus(&self, _alloc: Global, width: Width, left: &Num, right: &Num) -> Result<Num, NoMemory> {
        Ok(sum(width, *left, *right))
    }

    fn minus(
        &self,
        _alloc: Global,
        width: Width,
        left: &Num,
        right: &Num,
    ) -> Result<Num, NoMemory> {
        Ok(difference(width, *left, *right))
    }

    fn compare(&self, _width: Width, rel: Rel, left: Num, right: Num) -> bool {
        rel.holds(left, right)
    }

    fn member(
        &self,
        _alloc: Global,
        _width: Width,
        value: Num,
        ranges: &RangeList,
    ) -> Result<bool, NoMemory> {
        Ok(ranges.has(value))
    }

    fn always(&self) -> bool {
        true
    }

    fn all_of(&self, tests: Vec<bool>) -> bool
        ensures { result ≡ (numbers self.now.numbers.now self.now.unknowns).all_of (map (λ truth. truth) tests.items) }
    {
        all(&tests)
    }

    fn any_of(&self, tests: Vec<bool>) -> bool
        ensures { result ≡ (numbers self.now.numbers.now self.now.unknowns).any_of (map (λ truth. truth) tests.items) }
    {
        any(&tests)
    }

    fn negation(&self, _alloc: Global, test: bool) -> Result<bool, NoMemory> {
        Ok(!test)
    }
}

/// The number modulo `2^w`.
pub fn reduced(width: Width, number: Num) -> Num
    ensures value { result ≡ number % 2 ^ width }
    ensures fits { FitsWidth width result }
{
    let max = width.max();
    if number <= max {
        return number;
    }
    number % (max + 1)
}

fn sum(width: Width, a: Num, b: Num) -> Num
    ensures { result ≡ wrapped_sum width a b }
{
    width.add(reduced(width, a), reduced(width, b))
}

fn difference(width: Width, a: Num, b: Num) -> Num
    ensures { result ≡ wrapped_difference width a b }
{
    if b > width.max() {
        return reduced(width, a);
    }
    width.sub(reduced(width, a), b)
}

fn all(tests: &[bool]) -> bool
    ensures { result ≡ list_all (λ truth. truth) tests.now }
{
    tests.iter().all(|test| *test)
}

fn any(tests: &[bool]) -> bool
    ensures { result ≡ list_any (λ truth. truth) tests.now }
{
    tests.iter().any(|test| *test)
}
