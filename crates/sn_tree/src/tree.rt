//! A map whose copies share their nodes.
ghost use Rattle.std.specs.Prelude.{◌≡◌, [], IfOk, OnOk, OnErr, option_copied};
ghost use Rattle.std.specs.Option.{option_map};
ghost use Rattle.std.specs.Iterator.{YieldsFirstBy, item_count};
ghost use Rattle.sn_tree.specs.Pairs.{IsAscending, value_at, next_after, last_before, pairs_with, pairs_without, pair_of};

use crate::branch::Branch;
use sn_width::NoMemory;
use std::alloc::Global;
use std::marker::Model;
use std::rc::Rc;
use std::vec;

/// A map, seen as the list of its pairs, ascending by key, each key once. A change makes a new map
/// that shares what it can with the old one, and leaves the old one as it was.
pub struct Tree<K: Ord + Copy, V: Drop> {
    root: Branch<K, V>,
}

impl<K: Ord + Copy, V: Drop> Model for Tree<K, V> {
    ghost use Rattle.std.specs.Prelude.{List};

    ghost Value = { List (K × V) };

    ghost view = { λ tree. tree.root.0 };

    ghost use Rattle.sn_tree.specs.Pairs.{IsAscending};

    ghost invariant = { λ tree. IsAscending K.cmp tree.root.0 };
}

impl<K: Ord + Copy, V: Drop> Tree<K, V> {
    /// The map with no pair.
    pub fn empty() -> Tree<K, V>
        ensures { result ≡ [] }
    {
        Tree {
            root: Branch::leaf(),
        }
    }

    /// The same map. Takes no memory; an `Err` says that the count of owners is full.
    pub fn fork(&self) -> Result<Tree<K, V>, NoMemory>
        ensures same { IfOk result (λ copy. copy ≡ self.now) }
    {
        let root = self.root.fork()?;
        Ok(Tree { root })
    }

    /// The value at a key; `None` exactly where the map has no such key.
    pub fn get(&self, key: &K) -> Option<&V>
        ensures value { option_copied result ≡ value_at K.cmp key.now self.now }
        ensures ascending { IsAscending K.cmp self.now }
    {
        self.root.get(key)
    }

    /// The map with this value at the key, in place of what was there.
    pub fn with(&self, alloc: Global, key: K, value: V) -> Result<Tree<K, V>, NoMemory>
        ensures put { IfOk result (λ tree. tree ≡ pairs_with K.cmp key value self.now) }
    {
        if self.root.get(&key).is_some() {
            let mut root = self.root.fork()?;
            root.replace(alloc, key, value)?;
            return Ok(Tree { root });
        }
        let value = Rc::new(alloc, value)?;
        let root = self.root.with(alloc, key, &value)?;
        Ok(Tree { root })
    }

    /// Puts this value at the key, in place of what was there: in place, where no other map has the
    /// nodes on the way to it. At an `Err` nothing has changed.
    pub fn set(&mut self, alloc: Global, key: K, value: V) -> Result<(), NoMemory>
        ensures put { OnOk result (self.new ≡ pairs_with K.cmp key value self.old) }
        ensures same { OnErr result (self.new ≡ self.old) }
    {
        if self.root.get(&key).is_some() {
            return self.root.replace(alloc, key, value);
        }
        let value = Rc::new(alloc, value)?;
        let root = self.root.with(alloc, key, &value)?;
        self.root = root;
        Ok(())
    }

    /// The map with nothing at the key: the same map, where it has no such key.
    pub fn without(&self, alloc: Global, key: &K) -> Result<Tree<K, V>, NoMemory>
        ensures removed { IfOk result (λ tree. tree ≡ pairs_without K.cmp key.now self.now) }
    {
        let root = self.root.without(alloc, key)?;
        Ok(Tree { root })
    }

    /// The pair of the least key that is greater; `None` exactly where there is none.
    pub fn above(&self, key: &K) -> Option<(&K, &V)>
        ensures pair { option_map pair_of result ≡ next_after K.cmp key.now self.now }
        ensures ascending { IsAscending K.cmp self.now }
    {
        self.root.above(key)
    }

    /// The pair of the greatest key that is less; `None` exactly where there is none.
    pub fn below(&self, key: &K) -> Option<(&K, &V)>
        ensures pair { option_map pair_of result ≡ last_before K.cmp key.now self.now }
        ensures ascending { IsAscending K.cmp self.now }
    {
        self.root.below(key)
    }

    /// The pairs, ascending by key.
    pub fn pairs(&self, alloc: Global) -> Result<Pairs<'_, K, V>, NoMemory>
        ensures all { IfOk result (λ pairs. pairs ≡ self.now) }
        ensures ascending { IsAscending K.cmp self.now }
    {
        let mut pairs = Vec::new(alloc);
        self.root.append_to(&mut pairs)?;
        Ok(Pairs {
            rest: pairs.into_iter(),
        })
    }
}

// By hand, so that a caller's proof sees a call in place of what the drop of a node does.
impl<K: Ord + Copy, V: Drop> Drop for Tree<K, V> {
    fn drop(self) {
        let Tree { root } = self;
        drop(root);
    }
}

/// The pairs of a map, ascending by key, seen as the list of those still to come.
#[derive(Drop)]
pub struct Pairs<'a, K: Ord + Copy, V: Drop> {
    rest: vec::IntoIter<(&'a K, &'a V)>,
}

impl<'a, K: Ord + Copy, V: Drop> Model for Pairs<'a, K, V> {
    ghost use Rattle.std.specs.Prelude.{List, map};
    ghost use Rattle.std.specs.Vec.Iter.{into_iter_items};
    ghost use Rattle.sn_tree.specs.Pairs.{pair_of};

    ghost Value = { List (K × V) };

    ghost view = { λ pairs. map pair_of (into_iter_items pairs.rest) };
}

impl<'a, K: Ord + Copy, V: Drop> Iterator for Pairs<'a, K, V> {
    type Item = (&'a K, &'a V);

    ghost next_gives = { YieldsFirstBy pair_of (λ pairs. pairs) };

    ghost remaining = { item_count (λ pairs. pairs) };

    fn next(&mut self) -> Option<(&'a K, &'a V)> {
        self.rest.next()
    }
}
