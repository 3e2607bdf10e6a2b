//! Patterns that find names.
ghost use Rattle.std.specs.Prelude.{◌<◌, ℕ, List, IsTrue, IsFalse};
ghost use Rattle.std.specs.Option.{ForSome};
ghost use Rattle.sn_edge.specs.Told.{PatternsKept, PatternsTold};
ghost use Rattle.sn_edge.specs.declared.patterns.Found.{Found};
ghost use Rattle.sn_edge.specs.Found.{OnYes, OnNo, OnBad, IsBadUnlessStopped};

use std::alloc::Global;

/// Whether a pattern finds a name.
#[derive(Clone, Copy, PartialEq, Eq)]
pub enum Found {
    Yes,
    No,
    /// The pattern is refused.
    Bad,
    /// There was no memory for the search, or a count is full.
    NoMemory,
}

/// What decides which names a pattern finds.
pub trait Patterns {
    /// What it tells of its patterns, and how often one was refused.
    ghost told: { Self → PatternsTold };

    /// What one call of `find` may answer and leave, for a pattern, first, and a name.
    ghost find_gives: { Self → List ℕ → List ℕ → Found → Self → Type 0 };

    /// Whether the pattern finds the name.
    fn find(&mut self, alloc: Global, pattern: &str, name: &str) -> Found
        ensures kept { PatternsKept (told self.old) (told self.new) }
        ensures refused { OnBad result ((told self.old).refusals < (told self.new).refusals) }
        ensures yes { OnYes result (ForSome (told self.old).matches (λ finds. IsTrue (finds pattern.now name.now))) }
        ensures no { OnNo result (ForSome (told self.old).matches (λ finds. IsFalse (finds pattern.now name.now))) }
        ensures bad { OnBad result (ForSome (told self.old).bad (λ is_bad. IsTrue (is_bad pattern.now))) }
        ensures gives { find_gives self.old pattern.now name.now result self.new }
        ensures at_bad { ForSome (told self.old).bad
            (λ is_bad. IsTrue (is_bad pattern.now) → IsBadUnlessStopped result) };
}
