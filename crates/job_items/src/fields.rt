//! The fields of an injection.

ghost use Rattle.std.specs.Prelude.{◌≡◌, ◌∷◌, [], pos, ◌+ℤ◌, int_lt};
ghost use Rattle.std.specs.List.{list_any};
ghost use Rattle.job_items.specs.Atoms.{field_atoms};
ghost use Rattle.job_items.specs.Items.{field_item, field_items};
ghost use Rattle.job_items.specs.LentTags.{lent_tags};
ghost use Rattle.job_items.specs.Progress.{progress_of, outcome_from, Follows};
ghost use Rattle.job_items.specs.Rules.{do_overlap, do_meet, early_breach};

use crate::atom::Atom;
use crate::atoms::{any_mixed, any_too_wide, lone_atom};
use crate::halt::Halt;
use crate::place::{Vars, any_loose};
use crate::rule::{Breach, Rule};
use crate::tags::{begins_outside, lacks_tag, resolved};
use crate::tally::{Tally, first_breach};
use sefl_syntax::{Name, RawField, Target};
use sn_width::Width;
use std::alloc::Global;
use std::collections::BTreeMap;

/// Passes the fields of an injection, up to the first that breaks a rule.
pub(crate) fn check_fields<'a>(
    alloc: Global,
    tally: &mut Tally<'a>,
    tags: &BTreeMap<&'a Name, i32>,
    fields: &'a [RawField],
) -> Result<(), Halt>
    ensures { Follows (outcome_from (progress_of tally.old) (field_items (lent_tags tags.now.entries) [] fields.now))
        result (progress_of tally.new) }
{
    for (i, field) in fields.iter().enumerate() {
        let before = fields.split_at(i).0;
        check_field(alloc, tally, tags, before, field)?;
    }
    Ok(())
}

fn check_field<'a>(
    alloc: Global,
    tally: &mut Tally<'a>,
    tags: &BTreeMap<&'a Name, i32>,
    before: &'a [RawField],
    field: &'a RawField,
) -> Result<(), Halt>
    ensures { Follows (outcome_from (progress_of tally.old)
        (field_item (lent_tags tags.now.entries) before.now field.now ∷ [])) result (progress_of tally.new) }
{
    let atoms = lone_atom(alloc, &field.target, field.value)?;
    let early = field_breach(tags, before, field, &atoms);
    tally.add_field()?;
    tally.weigh(&atoms, early, 0, 0)?;
    if begins_outside(tags, &field.target) {
        return Err(Halt::Broken(Breach::Breaks(Rule::BadAddress)));
    }
    tally.step()
}

/// The first rule before that on limits that the field breaks.
fn field_breach<'a>(
    tags: &BTreeMap<&'a Name, i32>,
    before: &'a [RawField],
    field: &'a RawField,
    atoms: &[Atom<'_>],
) -> Option<Breach>
    requires { atoms.now ≡ field_atoms field.now }
    ensures { result ≡ early_breach (field_item (lent_tags tags.now.entries) before.now field.now) }
{
    first_breach(&[
        (any_mixed(atoms), Breach::Breaks(Rule::WidthMismatch)),
        (any_too_wide(atoms), Breach::Breaks(Rule::TooWide)),
        (
            any_loose(Vars::Free, atoms) || lacks_tag(tags, &field.target),
            Breach::Breaks(Rule::Unbound),
        ),
        (
            overlaps_any(tags, before, &field.target),
            Breach::Breaks(Rule::Overlap),
        ),
    ])
}

/// Whether the field shares a bit or a name with one of these.
fn overlaps_any<'a>(
    tags: &BTreeMap<&'a Name, i32>,
    before: &'a [RawField],
    target: &'a Target,
) -> bool
    ensures { result ≡ list_any (λ own. do_overlap (lent_tags tags.now.entries) target.now own.target) before.now }
{
    for own in before {
        if do_overlap(tags, target, &own.target) {
            return true;
        }
    }
    false
}

/// Whether two fields share a bit or a name.
fn do_overlap<'a>(tags: &BTreeMap<&'a Name, i32>, target: &'a Target, own: &'a Target) -> bool
    ensures { result ≡ do_overlap (lent_tags tags.now.entries) target.now own.now }
{
    match target {
        Target::Header { addr, width } => match own {
            Target::Header {
                addr: own_addr,
                width: size,
            } => do_meet(
                resolved(tags, addr),
                *width,
                resolved(tags, own_addr),
                *size,
            ),
            Target::Meta { .. } => false,
            Target::Bound { .. } => false,
        },
        Target::Meta { name, .. } => match own {
            Target::Meta { name: own_name, .. } => name == own_name,
            Target::Header { .. } => false,
            Target::Bound { .. } => false,
        },
        Target::Bound { .. } => false,
    }
}

/// Whether two runs of bits share one.
fn do_meet(first: Option<i64>, width: Width, second: Option<i64>, size: Width) -> bool
    ensures { result ≡ do_meet first width second size }
{
    match first {
        None => false,
        Some(a) => match second {
            None => false,
            Some(b) => is_below(a, b, size) && is_below(b, a, width),
        },
    }
}

/// Whether `a` is below the end of the run of `size` bits that begins at `b`.
fn is_below(a: i64, b: i64, size: Width) -> bool
    ensures { result ≡ int_lt a (b +ℤ pos size) }
{
    i128::from(a) < i128::from(b) + i128::from(size.bits())
}
