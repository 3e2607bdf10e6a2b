//! A height-balanced search tree whose copies share their nodes.
ghost use Rattle.std.specs.Prelude.{◌≡◌, [], ◌++◌, ◌+◌, max, map, IfOk, OnOk, OnErr, is_some, IsTrue, ◌↔◌, option_copied};
ghost use Rattle.std.specs.Option.{option_map};
ghost use Rattle.sn_tree.specs.Pairs.{IsAscending, value_at, next_after, last_before, pairs_with, pairs_without, pair_of};
ghost use Rattle.sn_tree.specs.Nodes.{DifferByAtMost, IsUpToOneMore};
ghost use Rattle.sn_tree.specs.Ends.{first, tail};
ghost use Rattle.sn_tree.specs.Nodes.{held_pair_of};

mod balance;

use balance::{balance, join};
use sn_width::NoMemory;
use std::alloc::{AllocError, Global};
use std::cmp::Ordering;
use std::marker::Model;
use std::rc::Rc;

/// A tree, seen as its pairs in order and its height.
#[cycle(branch)]
#[derive(Drop)]
pub struct Branch<K: Ord + Copy, V: Drop> {
    node: Option<Rc<Node<K, V>>>,
}

#[cycle(branch)]
#[derive(Drop)]
struct Node<K: Ord + Copy, V: Drop> {
    left: Branch<K, V>,
    key: K,
    value: Rc<V>,
    right: Branch<K, V>,
    height: u8,
}

impl<K: Ord + Copy, V: Drop> Clone for Node<K, V> {
    ghost use Rattle.sn_tree.specs.Nodes.{IsSameNode};

    ghost is_clone = { IsSameNode };

    fn clone(&self) -> Result<Node<K, V>, AllocError> {
        let (Ok(left), Ok(right)) = (self.left.fork(), self.right.fork()) else {
            return Err(AllocError);
        };
        let value = self.value.clone()?;
        Ok(Node {
            left,
            key: self.key,
            value,
            right,
            height: self.height,
        })
    }
}

impl<K: Ord + Copy, V: Drop> Model for Branch<K, V> {
    ghost use Rattle.std.specs.Prelude.{ℕ, List, length};

    ghost Value = { List (K × V) × ℕ };

    ghost use Rattle.sn_tree.specs.Nodes.{pairs_and_height, IsBalanced};

    ghost view = { λ b. pairs_and_height b.node };

    ghost invariant = { λ b. IsBalanced K.cmp b.node };

    ghost size = { λ b. length b.0 };

    ghost use Rattle.std.proofs.Common.{arith, length-append};

    ghost size_decreases = { λ b h. Prim.grind (arith, length-append) };
}

impl<K: Ord + Copy, V: Drop> Branch<K, V> {
    pub fn leaf() -> Branch<K, V>
        ensures { result ≡ ([], 0) }
    {
        Branch { node: None }
    }

    pub fn height(&self) -> u8
        ensures { result ≡ self.now.1 }
    {
        match &self.node {
            None => 0,
            Some(node) => node.height,
        }
    }

    /// The same tree. Takes no memory; an `Err` says that the count of owners is full.
    pub fn fork(&self) -> Result<Branch<K, V>, NoMemory>
        ensures same { IfOk result (λ copy. copy ≡ self.now) }
    {
        match &self.node {
            None => Ok(Branch::leaf()),
            Some(node) => {
                let node = node.clone()?;
                Ok(Branch { node: Some(node) })
            }
        }
    }

    /// The value at a key.
    pub fn get(&self, key: &K) -> Option<&V>
        ensures { option_copied result ≡ value_at K.cmp key.now self.now.0 }
    {
        match &self.node {
            None => None,
            Some(node) => {
                let node: &Node<K, V> = node;
                match key.cmp(&node.key) {
                    Ordering::Less => node.left.get(key),
                    Ordering::Equal => Some(&node.value),
                    Ordering::Greater => node.right.get(key),
                }
            }
        }
    }

    /// The pair of the least key that is greater.
    pub fn above(&self, key: &K) -> Option<(&K, &V)>
        ensures { option_map pair_of result ≡ next_after K.cmp key.now self.now.0 }
    {
        match &self.node {
            None => None,
            Some(node) => {
                let node: &Node<K, V> = node;
                match key.cmp(&node.key) {
                    Ordering::Less => match node.left.above(key) {
                        None => Some((&node.key, &node.value)),
                        Some(pair) => Some(pair),
                    },
                    Ordering::Equal => node.right.above(key),
                    Ordering::Greater => node.right.above(key),
                }
            }
        }
    }

    /// The pair of the greatest key that is less.
    pub fn below(&self, key: &K) -> Option<(&K, &V)>
        ensures { option_map pair_of result ≡ last_before K.cmp key.now self.now.0 }
    {
        match &self.node {
            None => None,
            Some(node) => {
                let node: &Node<K, V> = node;
                match key.cmp(&node.key) {
                    Ordering::Greater => match node.right.below(key) {
                        None => Some((&node.key, &node.value)),
                        Some(pair) => Some(pair),
                    },
                    Ordering::Equal => node.left.below(key),
                    Ordering::Less => node.left.below(key),
                }
            }
        }
    }

    /// Puts the pairs after those that `pairs` has.
    pub fn append_to<'a>(&'a self, pairs: &mut Vec<(&'a K, &'a V)>) -> Result<(), NoMemory>
        ensures { OnOk result (map pair_of pairs.new.items ≡ map pair_of pairs.old.items ++ self.now.0) }
    {
        match &self.node {
            None => Ok(()),
            Some(node) => {
                let node: &Node<K, V> = node;
                node.left.append_to(pairs)?;
                pairs.push((&node.key, &node.value))?;
                node.right.append_to(pairs)
            }
        }
    }

    /// The tree with this value at the key, in place of what was there.
    pub fn with(&self, alloc: Global, key: K, value: &Rc<V>) -> Result<Branch<K, V>, NoMemory>
        ensures pairs { IfOk result (λ b. b.0 ≡ pairs_with K.cmp key value.now.value self.now.0) }
        ensures height { IfOk result (λ b. IsUpToOneMore self.now.1 b.1) }
    {
        match &self.node {
            None => join(alloc, &Branch::leaf(), key, value, &Branch::leaf()),
            Some(node) => {
                let node: &Node<K, V> = node;
                match key.cmp(&node.key) {
                    Ordering::Less => {
                        let left = node.left.with(alloc, key, value)?;
                        balance(alloc, &left, node.key, &node.value, &node.right)
                    }
                    Ordering::Equal => join(alloc, &node.left, key, value, &node.right),
                    Ordering::Greater => {
                        let right = node.right.with(alloc, key, value)?;
                        balance(alloc, &node.left, node.key, &node.value, &right)
                    }
                }
            }
        }
    }

    /// The tree with nothing at the key.
    pub fn without(&self, alloc: Global, key: &K) -> Result<Branch<K, V>, NoMemory>
        ensures pairs { IfOk result (λ b. b.0 ≡ pairs_without K.cmp key.now self.now.0) }
        ensures height { IfOk result (λ b. IsUpToOneMore b.1 self.now.1) }
    {
        match &self.node {
            None => Ok(Branch::leaf()),
            Some(node) => {
                let node: &Node<K, V> = node;
                match key.cmp(&node.key) {
                    Ordering::Less => {
                        let left = node.left.without(alloc, key)?;
                        balance(alloc, &left, node.key, &node.value, &node.right)
                    }
                    Ordering::Equal => append(alloc, &node.left, &node.right),
                    Ordering::Greater => {
                        let right = node.right.without(alloc, key)?;
                        balance(alloc, &node.left, node.key, &node.value, &right)
                    }
                }
            }
        }
    }

    /// Puts a value in place of that at a key that is there: in place where this tree alone owns the
    /// node. At an `Err` nothing has changed.
    pub fn replace(&mut self, alloc: Global, key: K, value: V) -> Result<(), NoMemory>
        requires present { IsTrue (is_some (value_at K.cmp key self.old.0)) }
        ensures pairs { OnOk result (self.new.0 ≡ pairs_with K.cmp key value self.old.0) }
        ensures same { OnErr result (self.new.0 ≡ self.old.0) }
        ensures height { self.new.1 ≡ self.old.1 }
    {
        let Some(held) = &mut self.node else {
            unreachable!()
        };
        let node = Rc::make_mut(held)?;
        match key.cmp(&node.key) {
            Ordering::Less => node.left.replace(alloc, key, value),
            Ordering::Equal => {
                if let Some(place) = Rc::get_mut(&mut node.value) {
                    *place = value;
                } else {
                    node.value = Rc::new(alloc, value)?;
                }
                node.key = key;
                Ok(())
            }
            Ordering::Greater => node.right.replace(alloc, key, value),
        }
    }

    /// Whether there is no pair.
    fn is_leaf(&self) -> bool
        ensures pairs { IsTrue result ↔ (self.now.0 ≡ []) }
        ensures height { IsTrue result → self.now.1 ≡ 0 }
    {
        let Some(node) = &self.node else {
            return true;
        };
        let _node: &Node<K, V> = node;
        false
    }

    /// The key of the first pair, and its value.
    fn first(&self) -> Option<(&K, &Rc<V>)>
        ensures { option_map held_pair_of result ≡ first self.now.0 }
    {
        match &self.node {
            None => None,
            Some(node) => {
                let node: &Node<K, V> = node;
                match node.left.first() {
                    None => Some((&node.key, &node.value)),
                    Some(pair) => Some(pair),
                }
            }
        }
    }

    /// The tree without its first pair.
    fn without_first(&self, alloc: Global) -> Result<Branch<K, V>, NoMemory>
        ensures pairs { IfOk result (λ b. b.0 ≡ tail self.now.0) }
        ensures height { IfOk result (λ b. IsUpToOneMore b.1 self.now.1) }
    {
        let Some(node) = &self.node else {
            return Ok(Branch::leaf());
        };
        let node: &Node<K, V> = node;
        if node.left.is_leaf() {
            return node.right.fork();
        }
        let left = node.left.without_first(alloc)?;
        balance(alloc, &left, node.key, &node.value, &node.right)
    }
}

/// The pairs of one tree and then those of another.
fn append<K: Ord + Copy, V: Drop>(
    alloc: Global,
    left: &Branch<K, V>,
    right: &Branch<K, V>,
) -> Result<Branch<K, V>, NoMemory>
    requires ascending { IsAscending K.cmp (left.now.0 ++ right.now.0) }
    requires balanced { DifferByAtMost 1 left.now.1 right.now.1 }
    ensures pairs { IfOk result (λ b. b.0 ≡ left.now.0 ++ right.now.0) }
    ensures height { IfOk result (λ b. IsUpToOneMore b.1 (max left.now.1 right.now.1 + 1)) }
{
    if right.is_leaf() {
        return left.fork();
    }
    let Some((key, value)) = right.first() else {
        unreachable!()
    };
    let others = right.without_first(alloc)?;
    balance(alloc, left, *key, value, &others)
}
