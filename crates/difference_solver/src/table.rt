ghost use Rattle.std.specs.Prelude.{◌≡◌, ◌+◌, ◌*◌, ◌<◌, ◌≤◌, vec_len};

use std::alloc::{AllocError, Global};

/// Where a kept bound comes from: it was given, or it is the sum of the bounds on its two ends and
/// the unknown between them.
#[derive(Clone, Copy, PartialEq, Eq)]
pub enum Source {
    Given { index: u32 },
    Sum { through: u32 },
}

/// A bound on two unknowns, which the table names by its place.
#[derive(Clone, Copy, PartialEq, Eq)]
pub struct Kept {
    pub at_most: i128,
    pub source: Source,
}

impl Kept {
    ghost use Rattle.difference_solver.specs.Kept.{is_lesser};

    /// Whether no bound is kept before, or a greater one.
    fn is_below(&self, before: Option<Kept>) -> bool
        ensures { result ≡ is_lesser before self.now }
    {
        match before {
            None => true,
            Some(before) => self.at_most < before.at_most,
        }
    }
}

/// The least bound so far on each pair of unknowns from 0 to `count`, a row for each `plus`.
#[derive(Drop)]
pub struct Table {
    count: u32,
    entries: Vec<Option<Kept>>,
    ghost few: { count ≤ 64 },
    ghost square: { vec_len entries ≡ (count + 1) * (count + 1) },
}

impl Table {
    ghost use Rattle.std.specs.Prelude.{ℕ, ◌≢◌, Some, None, IfOk, IfSome, IsSome};
    ghost use Rattle.difference_solver.specs.Kept.{lesser};
    ghost use Rattle.difference_solver.specs.Table.{entry};

    pub fn new(alloc: Global, count: u32) -> Result<Table, AllocError>
        requires { count ≤ 64 }
        ensures empty { IfOk result (λ t. (p q : ℕ) → entry t p q ≡ None) }
        ensures count { IfOk result (λ t. t.count ≡ count) }
    {
        let width = count as usize + 1;
        Ok(Table {
            count,
            entries: vec![in alloc; None; width * width]?,
        })
    }

    pub fn count(&self) -> u32
        ensures same { result ≡ self.now.count }
        ensures few { result ≤ 64 }
    {
        self.count
    }

    fn place(&self, plus: u32, minus: u32) -> usize
        requires plus { plus ≤ self.now.count }
        requires minus { minus ≤ self.now.count }
        ensures place { result ≡ plus * (self.now.count + 1) + minus }
        ensures within { result < vec_len self.now.entries }
    {
        plus as usize * (self.count as usize + 1) + minus as usize
    }

    /// The bound that is kept on `plus` less `minus`.
    pub fn get(&self, plus: u32, minus: u32) -> Option<Kept>
        requires plus { plus ≤ self.now.count }
        requires minus { minus ≤ self.now.count }
        ensures { result ≡ entry self.now plus minus }
    {
        self.entries[self.place(plus, minus)]
    }

    /// Where the bound that is kept on `plus` less `minus` comes from.
    pub fn source(&self, plus: u32, minus: u32) -> Source
        requires plus { plus ≤ self.now.count }
        requires minus { minus ≤ self.now.count }
        requires kept { IsSome (entry self.now plus minus) }
        ensures { IfSome (entry self.now plus minus) (λ x. result ≡ x.source) }
    {
        self.get(plus, minus).unwrap().source
    }

    fn set(&mut self, plus: u32, minus: u32, kept: Kept)
        requires plus { plus ≤ self.old.count }
        requires minus { minus ≤ self.old.count }
        ensures changed { entry self.new plus minus ≡ Some kept }
        ensures same { (p q : ℕ) → (p ≡ plus → q ≢ minus) → entry self.new p q ≡ entry self.old p q }
        ensures count { self.new.count ≡ self.old.count }
    {
        let place = self.place(plus, minus);
        self.entries[place] = Some(kept);
    }

    /// Keeps this bound on `plus` less `minus` where it is below the one kept so far.
    pub fn keep(&mut self, plus: u32, minus: u32, kept: Kept)
        requires plus { plus ≤ self.old.count }
        requires minus { minus ≤ self.old.count }
        ensures changed { entry self.new plus minus ≡ lesser (entry self.old plus minus) kept }
        ensures same { (p q : ℕ) → (p ≡ plus → q ≢ minus) → entry self.new p q ≡ entry self.old p q }
        ensures count { self.new.count ≡ self.old.count }
    {
        if kept.is_below(self.get(plus, minus)) {
            self.set(plus, minus, kept);
        }
    }
}
