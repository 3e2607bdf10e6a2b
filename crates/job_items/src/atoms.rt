//! The atoms of conditions and instructions, and what may be wrong with one of them.

ghost use Rattle.std.specs.Prelude.{◌≡◌, ◌++◌, [], ◌∷◌, OnOk, IfOk, option_to_list};
ghost use Rattle.std.specs.List.{list_any};
ghost use Rattle.sefl_syntax.specs.Views.{cond_tree, cond_trees, instr_tree};
ghost use Rattle.job_items.specs.Atoms.{lone, cond_atoms, conds_atoms, instr_atoms};
ghost use Rattle.job_items.specs.AtomRules.{is_mixed, is_too_wide, is_reversed};

use crate::atom::Atom;
use sefl_syntax::{Cond, Instr, Target};
use sn_width::{NoMemory, Num};
use std::alloc::Global;

/// The atoms of a condition, from left to right.
pub(crate) fn cond_atoms(alloc: Global, cond: &Cond) -> Result<Vec<Atom<'_>>, NoMemory>
    ensures { IfOk result (λ atoms. atoms.items ≡ cond_atoms (cond_tree cond.now)) }
{
    let mut atoms = Vec::new(alloc);
    add_cond(alloc, &mut atoms, cond)?;
    Ok(atoms)
}

/// The atom of a reference by itself, with the value that it is given.
pub(crate) fn lone_atom(
    alloc: Global,
    target: &Target,
    value: Option<Num>,
) -> Result<Vec<Atom<'_>>, NoMemory>
    ensures { IfOk result (λ atoms. atoms.items ≡ lone target.now (option_to_list value) ∷ []) }
{
    let mut atoms = Vec::new(alloc);
    let atom = Atom::lone(alloc, target, value)?;
    atoms.push(atom)?;
    Ok(atoms)
}

/// The atoms of an instruction, without those of the instructions in its blocks.
pub(crate) fn instr_atoms(alloc: Global, instr: &Instr) -> Result<Vec<Atom<'_>>, NoMemory>
    ensures { IfOk result (λ atoms. atoms.items ≡ instr_atoms (instr_tree instr.now)) }
{
    match instr {
        Instr::Allocate(target) => lone_atom(alloc, target, None),
        Instr::Deallocate(target) => lone_atom(alloc, target, None),
        Instr::AssignAny(target) => lone_atom(alloc, target, None),
        Instr::Assign { target, value } => {
            let mut atoms = Vec::new(alloc);
            let atom = Atom::assignment(alloc, target, value)?;
            atoms.push(atom)?;
            Ok(atoms)
        }
        Instr::Constrain(test) => cond_atoms(alloc, test),
        Instr::If { test, .. } => cond_atoms(alloc, test),
        Instr::CreateTag { .. } => Ok(Vec::new(alloc)),
        Instr::SetTag { .. } => Ok(Vec::new(alloc)),
        Instr::DestroyTag(_) => Ok(Vec::new(alloc)),
        Instr::Fail(_) => Ok(Vec::new(alloc)),
        Instr::For { .. } => Ok(Vec::new(alloc)),
        Instr::Forward(_) => Ok(Vec::new(alloc)),
        Instr::Fork(_) => Ok(Vec::new(alloc)),
        Instr::Block(_) => Ok(Vec::new(alloc)),
        Instr::NoOp => Ok(Vec::new(alloc)),
    }
}

/// Adds the atoms of a condition.
#[cycle(add_cond)]
fn add_cond<'a>(alloc: Global, atoms: &mut Vec<Atom<'a>>, cond: &'a Cond) -> Result<(), NoMemory>
    ensures { OnOk result (atoms.new.items ≡ atoms.old.items ++ cond_atoms (cond_tree cond.now)) }
{
    match cond {
        Cond::True => Ok(()),
        Cond::Compare { left, right, .. } => {
            let atom = Atom::comparison(alloc, left, right)?;
            atoms.push(atom)?;
            Ok(())
        }
        Cond::Member { value, ranges } => {
            let atom = Atom::membership(alloc, value, ranges.listed())?;
            atoms.push(atom)?;
            Ok(())
        }
        Cond::And(members) => add_conds(alloc, atoms, members),
        Cond::Or(members) => add_conds(alloc, atoms, members),
        Cond::Not(member) => add_cond(alloc, atoms, member),
    }
}

/// Adds the atoms of the members of a chain.
#[cycle(add_cond)]
fn add_conds<'a>(
    alloc: Global,
    atoms: &mut Vec<Atom<'a>>,
    conds: &'a [Cond],
) -> Result<(), NoMemory>
    ensures { OnOk result (atoms.new.items ≡ atoms.old.items ++ conds_atoms (cond_trees conds.now)) }
{
    for member in conds {
        add_cond(alloc, atoms, member)?;
    }
    Ok(())
}

/// Whether an atom has references of different widths.
pub(crate) fn any_mixed(atoms: &[Atom<'_>]) -> bool
    ensures { result ≡ list_any is_mixed atoms.now }
{
    atoms.iter().any(|atom| atom.is_mixed())
}

/// Whether a constant or an end of a range exceeds the width of its atom.
pub(crate) fn any_too_wide(atoms: &[Atom<'_>]) -> bool
    ensures { result ≡ list_any is_too_wide atoms.now }
{
    atoms.iter().any(|atom| atom.is_too_wide())
}

/// Whether the first number of a range exceeds its second.
pub(crate) fn any_reversed(atoms: &[Atom<'_>]) -> bool
    ensures { result ≡ list_any is_reversed atoms.now }
{
    atoms.iter().any(|atom| atom.is_reversed())
}
