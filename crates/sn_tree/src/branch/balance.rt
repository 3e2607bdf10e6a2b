//! Nodes made anew, and in balance.
ghost use Rattle.std.specs.Prelude.{◌≡◌, ◌∷◌, ◌++◌, ◌+◌, max, IfOk};
ghost use Rattle.sn_tree.specs.Pairs.{IsAscending};
ghost use Rattle.sn_tree.specs.Nodes.{DifferByAtMost, IsHeightOver, IsUpToOneMore};

use super::{Branch, Node};
use sn_width::NoMemory;
use std::alloc::Global;
use std::rc::Rc;

/// A node over two sides whose heights differ by at most one. A height past a `u8` is want of
/// memory: so high a tree has more than 2^170 pairs.
pub fn join<K: Ord + Copy, V: Drop>(
    alloc: Global,
    left: &Branch<K, V>,
    key: K,
    value: &Rc<V>,
    right: &Branch<K, V>,
) -> Result<Branch<K, V>, NoMemory>
    requires ascending { IsAscending K.cmp (left.now.0 ++ (key, value.now.value) ∷ right.now.0) }
    requires balanced { DifferByAtMost 1 left.now.1 right.now.1 }
    ensures pairs { IfOk result (λ b. b.0 ≡ left.now.0 ++ (key, value.now.value) ∷ right.now.0) }
    ensures height { IfOk result (λ b. b.1 ≡ max left.now.1 right.now.1 + 1) }
{
    let higher = left.height().max(right.height());
    if higher == u8::MAX {
        return Err(NoMemory);
    }
    let height = higher + 1;
    let (left, value, right) = (left.fork()?, value.clone()?, right.fork()?);
    let node = Rc::new(
        alloc,
        Node {
            left,
            key,
            value,
            right,
            height,
        },
    )?;
    Ok(Branch { node: Some(node) })
}

/// A tree over two sides whose heights differ by at most two, as after a change of one side.
pub fn balance<K: Ord + Copy, V: Drop>(
    alloc: Global,
    left: &Branch<K, V>,
    key: K,
    value: &Rc<V>,
    right: &Branch<K, V>,
) -> Result<Branch<K, V>, NoMemory>
    requires ascending { IsAscending K.cmp (left.now.0 ++ (key, value.now.value) ∷ right.now.0) }
    requires nearly_balanced { DifferByAtMost 2 left.now.1 right.now.1 }
    ensures pairs { IfOk result (λ b. b.0 ≡ left.now.0 ++ (key, value.now.value) ∷ right.now.0) }
    ensures height { IfOk result (λ b. IsHeightOver left.now.1 right.now.1 b.1) }
{
    let (left_height, right_height) = (left.height(), right.height());
    if left_height > right_height && left_height - right_height > 1 {
        lean_left(alloc, left, key, value, right)
    } else if right_height > left_height && right_height - left_height > 1 {
        lean_right(alloc, left, key, value, right)
    } else {
        join(alloc, left, key, value, right)
    }
}

fn lean_left<K: Ord + Copy, V: Drop>(
    alloc: Global,
    left: &Branch<K, V>,
    key: K,
    value: &Rc<V>,
    right: &Branch<K, V>,
) -> Result<Branch<K, V>, NoMemory>
    requires ascending { IsAscending K.cmp (left.now.0 ++ (key, value.now.value) ∷ right.now.0) }
    requires two_higher { left.now.1 ≡ right.now.1 + 2 }
    ensures pairs { IfOk result (λ b. b.0 ≡ left.now.0 ++ (key, value.now.value) ∷ right.now.0) }
    ensures height { IfOk result (λ b. IsUpToOneMore left.now.1 b.1) }
{
    let Some(node) = &left.node else {
        unreachable!()
    };
    let node: &Node<K, V> = node;
    if node.left.height() < node.right.height() {
        return lift_right_of_left(alloc, node, key, value, right);
    }
    let inner = join(alloc, &node.right, key, value, right)?;
    join(alloc, &node.left, node.key, &node.value, &inner)
}

// The right side of the left side becomes the top.
fn lift_right_of_left<K: Ord + Copy, V: Drop>(
    alloc: Global,
    node: &Node<K, V>,
    key: K,
    value: &Rc<V>,
    right: &Branch<K, V>,
) -> Result<Branch<K, V>, NoMemory>
    requires ascending { IsAscending K.cmp ((node.now.left.0 ++ (node.now.key, node.now.value.value) ∷ node.now.right.0)
        ++ (key, value.now.value) ∷ right.now.0) }
    requires left_as_high { node.now.left.1 ≡ right.now.1 }
    requires middle_higher { node.now.right.1 ≡ right.now.1 + 1 }
    ensures pairs { IfOk result (λ b. b.0 ≡ (node.now.left.0 ++ (node.now.key, node.now.value.value) ∷ node.now.right.0)
        ++ (key, value.now.value) ∷ right.now.0) }
    ensures height { IfOk result (λ b. b.1 ≡ right.now.1 + 2) }
{
    let high = &node.right;
    let Some(middle) = &high.node else {
        unreachable!()
    };
    let middle: &Node<K, V> = middle;
    let outer = join(alloc, &node.left, node.key, &node.value, &middle.left)?;
    let inner = join(alloc, &middle.right, key, value, right)?;
    join(alloc, &outer, middle.key, &middle.value, &inner)
}

fn lean_right<K: Ord + Copy, V: Drop>(
    alloc: Global,
    left: &Branch<K, V>,
    key: K,
    value: &Rc<V>,
    right: &Branch<K, V>,
) -> Result<Branch<K, V>, NoMemory>
    requires ascending { IsAscending K.cmp (left.now.0 ++ (key, value.now.value) ∷ right.now.0) }
    requires two_higher { right.now.1 ≡ left.now.1 + 2 }
    ensures pairs { IfOk result (λ b. b.0 ≡ left.now.0 ++ (key, value.now.value) ∷ right.now.0) }
    ensures height { IfOk result (λ b. IsUpToOneMore right.now.1 b.1) }
{
    let Some(node) = &right.node else {
        unreachable!()
    };
    let node: &Node<K, V> = node;
    if node.right.height() < node.left.height() {
        return lift_left_of_right(alloc, left, key, value, node);
    }
    let inner = join(alloc, left, key, value, &node.left)?;
    join(alloc, &inner, node.key, &node.value, &node.right)
}

// The left side of the right side becomes the top.
fn lift_left_of_right<K: Ord + Copy, V: Drop>(
    alloc: Global,
    left: &Branch<K, V>,
    key: K,
    value: &Rc<V>,
    node: &Node<K, V>,
) -> Result<Branch<K, V>, NoMemory>
    requires ascending { IsAscending K.cmp (left.now.0 ++ (key, value.now.value)
        ∷ (node.now.left.0 ++ (node.now.key, node.now.value.value) ∷ node.now.right.0)) }
    requires right_as_high { node.now.right.1 ≡ left.now.1 }
    requires middle_higher { node.now.left.1 ≡ left.now.1 + 1 }
    ensures pairs { IfOk result (λ b. b.0 ≡ left.now.0 ++ (key, value.now.value)
        ∷ (node.now.left.0 ++ (node.now.key, node.now.value.value) ∷ node.now.right.0)) }
    ensures height { IfOk result (λ b. b.1 ≡ left.now.1 + 2) }
{
    let high = &node.left;
    let Some(middle) = &high.node else {
        unreachable!()
    };
    let middle: &Node<K, V> = middle;
    let inner = join(alloc, left, key, value, &middle.left)?;
    let outer = join(alloc, &middle.right, node.key, &node.value, &node.right)?;
    join(alloc, &inner, middle.key, &middle.value, &outer)
}
