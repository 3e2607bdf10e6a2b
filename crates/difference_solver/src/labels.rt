//! Labels of unknowns: those that occur in the same choice get the same one.

ghost use Rattle.std.specs.Prelude.{◌≡◌, ◌≤◌, slice_index};

use crate::choice::Choice;
use std::alloc::{AllocError, Global};

/// The label of an unknown.
pub(crate) fn label_of(labels: &[u32], unknown: usize) -> u32
    ensures { result ≡ slice_index labels.now unknown }
{
    labels.get(unknown).copied().unwrap_or(0)
}

/// The label of the first unknown other than 0 of a choice, and 0 where there is none.
pub(crate) fn first_label(labels: &[u32], choice: &Choice) -> u32 {
    for case in &choice.cases {
        for bound in case {
            for unknown in [bound.plus, bound.minus] {
                if unknown != 0 {
                    return label_of(labels, unknown as usize);
                }
            }
        }
    }
    0
}

/// Gives all unknowns that have the label of this one another label.
fn relabel(labels: &mut [u32], unknown: u32, to: u32) {
    let from = label_of(labels, unknown as usize);
    if unknown == 0 || from == to {
        return;
    }
    for label in labels.iter_mut() {
        if *label == from {
            *label = to;
        }
    }
}

/// Gives all unknowns of a choice, and those that have a label of theirs, the same label.
fn join(labels: &mut [u32], choice: &Choice) {
    let to = first_label(labels, choice);
    for case in &choice.cases {
        for bound in case {
            relabel(labels, bound.plus, to);
            relabel(labels, bound.minus, to);
        }
    }
}

/// A label for each unknown from 0 to `count`: that of unknown 0 is 0, and the others are above `count`, the same for
/// those that occur in the same choice, and different ones for those that no chain of choices joins. No contract says so:
/// who uses the labels looks whether the unknowns of each choice have the same.
pub(crate) fn labels_of(
    alloc: Global,
    choices: &[Choice],
    count: u32,
) -> Result<Vec<u32>, AllocError>
    requires { count ≤ 64 }
{
    let mut labels = vec![in alloc; 0u32]?;
    for before in 0..count {
        labels.push(count + 1 + before)?;
    }
    for choice in choices {
        join(labels.as_mut_slice(), choice);
    }
    Ok(labels)
}

/// Changes the labels above `count` to the numbers from 1 on. Answers the last one, or 0.
pub(crate) fn renumber(labels: &mut [u32], count: u32) -> u32
    requires { count ≤ 64 }
    ensures { result ≤ count }
{
    let mut last = 0;
    for before in 0..count {
        let unknown = before + 1;
        if label_of(labels, unknown as usize) > count {
            last += 1;
            relabel(labels, unknown, last);
        }
    }
    last
}
