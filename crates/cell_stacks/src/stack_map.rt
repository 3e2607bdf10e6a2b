//! Stacks of any members under keys.

ghost use Rattle.std.specs.Prelude.{◌≡◌, [], ◌∷◌, IfOk, OnOk, OnErr, IfSome, option_copied};
ghost use Rattle.std.specs.Option.{option_map};
ghost use Rattle.sn_tree.specs.Ends.{first, tail};
ghost use Rattle.sn_tree.specs.Pairs.{IsAscending, next_after, last_before, pair_of};
ghost use Rattle.cell_stacks.specs.Stacks.{IsNonEmpty, NoneEmpty, stack_at, with_stack};

use sn_tree::{Pairs, Shared, Tree};
use sn_width::NoMemory;
use std::alloc::Global;
use std::marker::Model;

/// A map from keys to stacks, seen as the list of pairs of a key and the members of its stack from
/// the top down, ascending by key. No stack is empty. Copies share what they have in common.
#[derive(Drop)]
pub struct StackMap<K: Ord + Copy, X: Drop> {
    stacks: Tree<K, Shared<X>>,
}

impl<K: Ord + Copy, X: Drop> Model for StackMap<K, X> {
    ghost use Rattle.std.specs.Prelude.{List};
    ghost use Rattle.cell_stacks.specs.Stacks.{NoneEmpty};

    ghost Value = { List (K × List X) };

    ghost view = { λ map. map.stacks };

    ghost invariant = { λ map. NoneEmpty map.stacks };
}

impl<K: Ord + Copy, X: Drop> StackMap<K, X> {
    /// The map with no stack.
    pub fn new() -> StackMap<K, X>
        ensures { result ≡ [] }
    {
        StackMap {
            stacks: Tree::empty(),
        }
    }

    /// The same map. Takes no memory; an `Err` says that a count of owners is full.
    pub fn fork(&self) -> Result<StackMap<K, X>, NoMemory>
        ensures same { IfOk result (λ copy. copy ≡ self.now) }
    {
        let stacks = self.stacks.fork()?;
        Ok(StackMap { stacks })
    }

    /// The top member at a key; `None` exactly where the key is absent.
    pub fn top(&self, key: &K) -> Option<&X>
        ensures member { option_copied result ≡ first (stack_at K.cmp key.now self.now) }
        ensures none_empty { NoneEmpty self.now }
        ensures ascending { IsAscending K.cmp self.now }
    {
        let stack = self.stacks.get(key)?;
        stack.top()
    }

    /// Puts a member on top of those at the key.
    pub fn push(&mut self, alloc: Global, key: K, member: X) -> Result<(), NoMemory>
        ensures ok { OnOk result (self.new ≡ with_stack K.cmp key (member ∷ stack_at K.cmp key self.old) self.old) }
        ensures err { OnErr result (self.new ≡ self.old) }
    {
        let stack = self.with_member(alloc, &key, member)?;
        self.stacks.set(alloc, key, stack)
    }

    /// Removes the top member at the key, if there is one.
    pub fn pop(&mut self, alloc: Global, key: K) -> Result<(), NoMemory>
        ensures ok { OnOk result (self.new ≡ with_stack K.cmp key (tail (stack_at K.cmp key self.old)) self.old) }
        ensures err { OnErr result (self.new ≡ self.old) }
    {
        let stack = self.members_below(&key)?;
        if stack.is_empty() {
            let stacks = self.stacks.without(alloc, &key)?;
            self.stacks = stacks;
            return Ok(());
        }
        self.stacks.set(alloc, key, stack)
    }

    /// Puts a member in place of the top one at the key, or alone where the key is absent.
    pub fn replace_top(&mut self, alloc: Global, key: K, member: X) -> Result<(), NoMemory>
        ensures ok { OnOk result (self.new ≡ with_stack K.cmp key (member ∷ tail (stack_at K.cmp key self.old))
            self.old) }
        ensures err { OnErr result (self.new ≡ self.old) }
    {
        let stack = self.members_below(&key)?;
        let stack = stack.push(alloc, member)?;
        self.stacks.set(alloc, key, stack)
    }

    /// The stack of the least greater key; `None` exactly where there is no such key.
    pub fn above(&self, key: &K) -> Option<(&K, &Shared<X>)>
        ensures pair { option_map pair_of result ≡ next_after K.cmp key.now self.now }
        ensures some { IfSome result (λ pair. IsNonEmpty pair.1.now) }
    {
        self.stacks.above(key)
    }

    /// The stack of the greatest smaller key; `None` exactly where there is no such key.
    pub fn below(&self, key: &K) -> Option<(&K, &Shared<X>)>
        ensures pair { option_map pair_of result ≡ last_before K.cmp key.now self.now }
        ensures some { IfSome result (λ pair. IsNonEmpty pair.1.now) }
    {
        self.stacks.below(key)
    }

    /// The keys with their stacks, ascending by key.
    pub fn pairs(&self, alloc: Global) -> Result<Pairs<'_, K, Shared<X>>, NoMemory>
        ensures all { IfOk result (λ pairs. pairs ≡ self.now) }
        ensures none_empty { NoneEmpty self.now }
        ensures ascending { IsAscending K.cmp self.now }
    {
        let pairs = self.stacks.pairs(alloc)?;
        Ok(pairs)
    }

    /// The stack at the key with one more member on top.
    fn with_member(&self, alloc: Global, key: &K, member: X) -> Result<Shared<X>, NoMemory>
        ensures { IfOk result (λ stack. stack ≡ member ∷ stack_at K.cmp key.now self.now) }
    {
        match self.stacks.get(key) {
            None => Shared::empty().push(alloc, member),
            Some(stack) => stack.push(alloc, member),
        }
    }

    /// The stack below the top member at the key; empty where the key is absent.
    fn members_below(&self, key: &K) -> Result<Shared<X>, NoMemory>
        ensures { IfOk result (λ stack. stack ≡ tail (stack_at K.cmp key.now self.now)) }
    {
        let Some(stack) = self.stacks.get(key) else {
            return Ok(Shared::empty());
        };
        let Some(below) = stack.below() else {
            return Ok(Shared::empty());
        };
        let below = below.fork()?;
        Ok(below)
    }
}
