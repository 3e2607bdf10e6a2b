//! The tests of an injection, and the asks.

ghost use Rattle.std.specs.Prelude.{◌≡◌, ◌∷◌, [], IfOk, map, is_none};
ghost use Rattle.std.specs.List.{list_any};
ghost use Rattle.sefl_syntax.specs.Views.{cond_tree, ask_tree};
ghost use Rattle.job_items.specs.AtomRules.{width_of};
ghost use Rattle.job_items.specs.Atoms.{ask_atoms, cond_atoms};
ghost use Rattle.job_items.specs.Gathered.{lent};
ghost use Rattle.job_items.specs.Items.{ask_item, test_item};
ghost use Rattle.job_items.specs.LentTags.{lent_tags};
ghost use Rattle.job_items.specs.Progress.{progress_of, outcome_from, Follows};
ghost use Rattle.job_items.specs.Rules.{early_breach, differs_from, injected_width, is_at, is_same_address, is_same_scope, reads_at_other_width, reads_what_is_not_injected};

use crate::atom::Atom;
use crate::atoms::{any_mixed, any_reversed, any_too_wide, cond_atoms, lone_atom};
use crate::halt::Halt;
use crate::place::{Vars, any_loose};
use crate::rule::{Breach, Rule};
use crate::tags::resolved;
use crate::tally::{Tally, first_breach};
use sefl_syntax::{Ask, Cond, Name, RawField, Scope, Target};
use sn_width::{NoMemory, Width};
use std::alloc::Global;
use std::collections::BTreeMap;

/// Passes the tests of an injection, up to the first that breaks a rule.
pub(crate) fn check_tests<'a>(
    alloc: Global,
    tally: &mut Tally<'a>,
    tags: &BTreeMap<&'a Name, i32>,
    fields: &'a [RawField],
    tests: &'a [Cond],
) -> Result<(), Halt>
    ensures { Follows (outcome_from (progress_of tally.old)
        (map (test_item (lent_tags tags.now.entries) fields.now) (map cond_tree tests.now))) result
        (progress_of tally.new) }
{
    for test in tests {
        check_test(alloc, tally, tags, fields, test)?;
    }
    Ok(())
}

fn check_test<'a>(
    alloc: Global,
    tally: &mut Tally<'a>,
    tags: &BTreeMap<&'a Name, i32>,
    fields: &'a [RawField],
    test: &'a Cond,
) -> Result<(), Halt>
    ensures { Follows (outcome_from (progress_of tally.old)
        (test_item (lent_tags tags.now.entries) fields.now (cond_tree test.now) ∷ [])) result (progress_of tally.new) }
{
    let atoms = cond_atoms(alloc, test)?;
    let early = test_breach(tags, fields, test, &atoms);
    tally.add_test()?;
    tally.weigh(&atoms, early, 0, 0)?;
    tally.step()
}

/// The first rule before that on limits that the test breaks.
fn test_breach<'a>(
    tags: &BTreeMap<&'a Name, i32>,
    fields: &'a [RawField],
    test: &Cond,
    atoms: &[Atom<'a>],
) -> Option<Breach>
    requires { atoms.now ≡ cond_atoms (cond_tree test.now) }
    ensures { result ≡ early_breach (test_item (lent_tags tags.now.entries) fields.now (cond_tree test.now)) }
{
    first_breach(&[
        (
            any_mixed(atoms) || any_at_other_width(tags, fields, atoms),
            Breach::Breaks(Rule::WidthMismatch),
        ),
        (any_too_wide(atoms), Breach::Breaks(Rule::TooWide)),
        (
            any_not_injected(tags, fields, atoms),
            Breach::Breaks(Rule::Unbound),
        ),
        (any_reversed(atoms), Breach::Breaks(Rule::BadRanges)),
    ])
}

/// Whether a reference reads an injected field at another width.
fn any_at_other_width<'a>(
    tags: &BTreeMap<&'a Name, i32>,
    fields: &'a [RawField],
    atoms: &[Atom<'a>],
) -> bool
    ensures { result ≡ list_any (reads_at_other_width (lent_tags tags.now.entries) fields.now) atoms.now }
{
    for atom in atoms {
        if reads_at_other_width(tags, fields, atom.reads()) {
            return true;
        }
    }
    false
}

fn reads_at_other_width<'a>(
    tags: &BTreeMap<&'a Name, i32>,
    fields: &'a [RawField],
    reads: &[&'a Target],
) -> bool
    ensures { result ≡ list_any (λ target. differs_from (injected_width (lent_tags tags.now.entries) fields.now target)
        (width_of target)) (lent reads.now) }
{
    for target in reads {
        if differs_from(injected_width(tags, fields, target), target.width()) {
            return true;
        }
    }
    false
}

fn differs_from(injected: Option<Width>, width: Width) -> bool
    ensures { result ≡ differs_from injected width }
{
    match injected {
        None => false,
        Some(injected) => injected != width,
    }
}

/// Whether a reference reads what is not injected.
fn any_not_injected<'a>(
    tags: &BTreeMap<&'a Name, i32>,
    fields: &'a [RawField],
    atoms: &[Atom<'a>],
) -> bool
    ensures { result ≡ list_any (reads_what_is_not_injected (lent_tags tags.now.entries) fields.now) atoms.now }
{
    for atom in atoms {
        if reads_what_is_not_injected(tags, fields, atom.reads()) {
            return true;
        }
    }
    false
}

fn reads_what_is_not_injected<'a>(
    tags: &BTreeMap<&'a Name, i32>,
    fields: &'a [RawField],
    reads: &[&'a Target],
) -> bool
    ensures { result ≡ list_any (λ target. is_none (injected_width (lent_tags tags.now.entries) fields.now target))
        (lent reads.now) }
{
    for target in reads {
        if injected_width(tags, fields, target).is_none() {
            return true;
        }
    }
    false
}

/// The width of the first of these fields that begins where the reference reads.
fn injected_width<'a>(
    tags: &BTreeMap<&'a Name, i32>,
    fields: &'a [RawField],
    target: &'a Target,
) -> Option<Width>
    ensures { result ≡ injected_width (lent_tags tags.now.entries) fields.now target.now }
{
    for field in fields {
        if is_at(tags, target, &field.target) {
            return Some(field.target.width());
        }
    }
    None
}

/// Whether a field begins where the reference reads.
fn is_at<'a>(tags: &BTreeMap<&'a Name, i32>, target: &'a Target, own: &'a Target) -> bool
    ensures { result ≡ is_at (lent_tags tags.now.entries) target.now own.now }
{
    match target {
        Target::Header { addr, .. } => match own {
            Target::Header { addr: own_addr, .. } => {
                is_same_address(resolved(tags, addr), resolved(tags, own_addr))
            }
            Target::Meta { .. } => false,
            Target::Bound { .. } => false,
        },
        Target::Meta { scope, name, .. } => match own {
            Target::Meta {
                scope: own_scope,
                name: own_name,
                ..
            } => is_same_scope(*scope, *own_scope) && name == own_name,
            Target::Header { .. } => false,
            Target::Bound { .. } => false,
        },
        Target::Bound { .. } => false,
    }
}

fn is_same_address(first: Option<i64>, second: Option<i64>) -> bool
    ensures { result ≡ is_same_address first second }
{
    match first {
        None => false,
        Some(a) => match second {
            None => false,
            Some(b) => a == b,
        },
    }
}

fn is_same_scope(first: Scope, second: Scope) -> bool
    ensures { result ≡ is_same_scope first second }
{
    match (first, second) {
        (Scope::Global, Scope::Global) => true,
        (Scope::Local, Scope::Local) => true,
        (Scope::Global, Scope::Local) => false,
        (Scope::Local, Scope::Global) => false,
    }
}

/// Passes the asks, up to the first that breaks a rule.
pub(crate) fn check_asks<'a>(
    alloc: Global,
    tally: &mut Tally<'a>,
    asks: &'a [Ask],
) -> Result<(), Halt>
    ensures { Follows (outcome_from (progress_of tally.old) (map ask_item (map ask_tree asks.now))) result
        (progress_of tally.new) }
{
    for ask in asks {
        check_ask(alloc, tally, ask)?;
    }
    Ok(())
}

fn check_ask<'a>(alloc: Global, tally: &mut Tally<'a>, ask: &'a Ask) -> Result<(), Halt>
    ensures { Follows (outcome_from (progress_of tally.old) (ask_item (ask_tree ask.now) ∷ [])) result
        (progress_of tally.new) }
{
    let atoms = ask_atoms(alloc, ask)?;
    let early = ask_breach(ask, &atoms);
    tally.add_ask()?;
    tally.weigh(&atoms, early, 0, 0)?;
    tally.step()
}

/// The first rule before that on limits that the ask breaks.
fn ask_breach(ask: &Ask, atoms: &[Atom<'_>]) -> Option<Breach>
    requires { atoms.now ≡ ask_atoms (ask_tree ask.now) }
    ensures { result ≡ early_breach (ask_item (ask_tree ask.now)) }
{
    first_breach(&[
        (any_mixed(atoms), Breach::Breaks(Rule::WidthMismatch)),
        (any_too_wide(atoms), Breach::Breaks(Rule::TooWide)),
        (any_loose(Vars::Free, atoms), Breach::Breaks(Rule::Unbound)),
        (any_reversed(atoms), Breach::Breaks(Rule::BadRanges)),
    ])
}

/// The atoms of an ask.
pub(crate) fn ask_atoms(alloc: Global, ask: &Ask) -> Result<Vec<Atom<'_>>, NoMemory>
    ensures { IfOk result (λ atoms. atoms.items ≡ ask_atoms (ask_tree ask.now)) }
{
    match ask {
        Ask::Reach { test, .. } => cond_atoms(alloc, test),
        Ask::Invariant { target, .. } => lone_atom(alloc, target, None),
        Ask::Visible { target, .. } => lone_atom(alloc, target, None),
    }
}
