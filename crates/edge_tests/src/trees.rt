//! Persistent stacks and maps.

use sn_tree::{Shared, Tree};
use std::alloc::Global;
use std::process::Abort;

fn stack_of(rt: &impl Abort, alloc: Global, count: u32) -> Shared<u32> {
    let mut stack = Shared::empty();
    for member in 0..count {
        stack = stack.push(alloc, member).expect(rt, "memory");
    }
    stack
}

/// Each key with itself.
fn tree_of(rt: &impl Abort, alloc: Global, count: u32) -> Tree<u32, u32> {
    let mut tree = Tree::empty();
    for key in 0..count {
        tree = tree.with(alloc, key, key).expect(rt, "memory");
    }
    tree
}

fn top(stack: &Shared<u32>) -> Option<u32> {
    stack.top().copied()
}

fn second(stack: &Shared<u32>) -> Option<u32> {
    top(stack.below()?)
}

fn assert_members(rt: &impl Abort, alloc: Global, stack: &Shared<u32>, wanted: &[u32]) {
    let members: Vec<u32> = stack.iter().copied().collect(alloc).expect(rt, "memory");
    same_all(rt, members.as_slice(), wanted);
}

fn value(tree: &Tree<u32, u32>, key: u32) -> Option<u32> {
    tree.get(&key).copied()
}

fn above(tree: &Tree<u32, u32>, key: u32) -> Option<u32> {
    Some(*tree.above(&key)?.0)
}

fn below(tree: &Tree<u32, u32>, key: u32) -> Option<u32> {
    Some(*tree.below(&key)?.0)
}

fn keys_of(rt: &impl Abort, alloc: Global, tree: &Tree<u32, u32>) -> Vec<u32> {
    let pairs = tree.pairs(alloc).expect(rt, "memory");
    let mut keys = Vec::new(alloc);
    for (key, _) in pairs {
        keys.push(*key).expect(rt, "memory");
    }
    keys
}

/// Asserts that the numbers are the same.
fn same_all(rt: &impl Abort, found: &[u32], wanted: &[u32]) {
    assert_eq!(rt; found, wanted);
}

/// Asserts that the member or the key is the same.
fn same(rt: &impl Abort, found: Option<u32>, wanted: Option<u32>) {
    assert_eq!(rt; found, wanted);
}

fn assert_keys(rt: &impl Abort, alloc: Global, tree: &Tree<u32, u32>, wanted: &[u32]) {
    let keys = keys_of(rt, alloc, tree);
    same_all(rt, keys.as_slice(), wanted);
}

fn check_count(rt: &impl Abort, alloc: Global, tree: &Tree<u32, u32>, wanted: usize) {
    let pairs = tree.pairs(alloc).expect(rt, "memory");
    assert_eq!(rt; pairs.count(), wanted);
}

#[test]
fn stack_of_a_million_members_is_dropped(rt: HostRuntime) {
    let stack = stack_of(&rt, rt.alloc(), 1_000_000);
    same(&rt, top(&stack), Some(999_999));
}

/// The stack with 7 on top.
fn with_seven(rt: &impl Abort, alloc: Global, stack: &Shared<u32>) -> Shared<u32> {
    let copy = stack.fork().expect(rt, "a copy");
    copy.push(alloc, 7).expect(rt, "memory")
}

fn check_empty(rt: &impl Abort, stack: &Shared<u32>, wanted: bool) {
    assert!(rt; stack.is_empty() == wanted);
}

#[test]
fn stack_shows_its_members_from_the_newest_down(rt: HostRuntime) {
    let alloc = rt.alloc();
    let old = stack_of(&rt, alloc, 2);
    let new = with_seven(&rt, alloc, &old);
    assert_members(&rt, alloc, &new, &[7, 1, 0]);
    same(&rt, top(&old), Some(1));
    same(&rt, second(&new), Some(1));
    check_empty(&rt, &Shared::empty(), true);
    check_empty(&rt, &old, false);
}

/// The key 2 with 20, and then 1 with 10.
fn two_keys(rt: &impl Abort, alloc: Global) -> Tree<u32, u32> {
    let one = Tree::empty().with(alloc, 2, 20).expect(rt, "memory");
    one.with(alloc, 1, 10).expect(rt, "memory")
}

#[test]
fn tree_of_two_keys(rt: HostRuntime) {
    let alloc = rt.alloc();
    let old = two_keys(&rt, alloc);
    same(&rt, above(&old, 1), Some(2));
    same(&rt, below(&old, 1), None);
    let new = old.without(alloc, &2).expect(&rt, "memory");
    assert_keys(&rt, alloc, &new, &[1]);
    assert_keys(&rt, alloc, &old, &[1, 2]);
    same(&rt, value(&old, 2), Some(20));
}

/// The tree without the even keys below 10,000.
fn without_evens(rt: &impl Abort, alloc: Global, tree: &Tree<u32, u32>) -> Tree<u32, u32> {
    let mut copy = tree.fork().expect(rt, "a copy");
    for half in 0..5_000u32 {
        copy = copy.without(alloc, &(2 * half)).expect(rt, "memory");
    }
    copy
}

#[test]
fn fork_of_ten_thousand_keys_keeps_them(rt: HostRuntime) {
    let alloc = rt.alloc();
    let tree = tree_of(&rt, alloc, 10_000);
    let copy = without_evens(&rt, alloc, &tree);
    check_count(&rt, alloc, &copy, 5_000);
    check_count(&rt, alloc, &tree, 10_000);
}

fn fork_both(rt: &impl Abort, tree: &Tree<u32, u32>, stack: &Shared<u32>) {
    drop(tree.fork().expect(rt, "a copy"));
    drop(stack.fork().expect(rt, "a copy"));
}

#[test]
fn forks_of_large_values_are_cheap(rt: HostRuntime) {
    let alloc = rt.alloc();
    let tree = tree_of(&rt, alloc, 100_000);
    let stack = stack_of(&rt, alloc, 100_000);
    for _ in 0..1_000_000 {
        fork_both(&rt, &tree, &stack);
    }
    same(&rt, value(&tree, 99_999), Some(99_999));
}
