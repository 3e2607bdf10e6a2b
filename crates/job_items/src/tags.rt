//! The tags of an injection.

ghost use Rattle.std.specs.Prelude.{◌≡◌, Some, ◌∷◌, [], OnOk, IfSome, is_some, ◌+ℤ◌};
ghost use Rattle.job_items.specs.Items.{tag_item, tag_items};
ghost use Rattle.job_items.specs.LentTags.{lent_tags};
ghost use Rattle.job_items.specs.Progress.{progress_of, outcome_from, Follows};
ghost use Rattle.job_items.specs.Rules.{lacks_tag, begins_outside, is_outside};
ghost use Rattle.sn_width.specs.Address.{is_address};
ghost use Rattle.job_items.specs.Tags.{resolved, with_address, with_tag, tags_after, tag_address};

use crate::halt::Halt;
use crate::rule::{Breach, Rule};
use crate::tally::{Tally, first_breach};
use sefl_syntax::{Addr, Name, Target};
use sn_width::NoMemory;
use std::collections::BTreeMap;

/// Passes lines that make tags, up to the first that breaks a rule.
pub(crate) fn check_tags<'a>(
    tally: &mut Tally<'a>,
    tags: &mut BTreeMap<&'a Name, i32>,
    lines: &'a [(Name, Addr)],
) -> Result<(), Halt>
    ensures follows { Follows (outcome_from (progress_of tally.old) (tag_items (lent_tags tags.old.entries) lines.now))
        result (progress_of tally.new) }
    ensures made { OnOk result (lent_tags tags.new.entries ≡ tags_after (lent_tags tags.old.entries) lines.now) }
{
    for line in lines {
        check_tag(tally, tags, line)?;
    }
    Ok(())
}

fn check_tag<'a>(
    tally: &mut Tally<'a>,
    tags: &mut BTreeMap<&'a Name, i32>,
    line: &'a (Name, Addr),
) -> Result<(), Halt>
    ensures follows { Follows (outcome_from (progress_of tally.old)
        (tag_item (lent_tags tags.old.entries) line.now ∷ [])) result (progress_of tally.new) }
    ensures made { OnOk result (lent_tags tags.new.entries ≡ with_tag (lent_tags tags.old.entries) line.now) }
{
    let address = resolved(tags, &line.1);
    let early = first_breach(&[(address.is_none(), Breach::Breaks(Rule::Unbound))]);
    tally.weigh(&[], early, 0, 0)?;
    if is_outside(address) {
        return Err(Halt::Broken(Breach::Breaks(Rule::BadAddress)));
    }
    make_tag(tags, &line.0, address)?;
    tally.step()
}

/// Makes a tag where it has an address in range.
fn make_tag<'a>(
    tags: &mut BTreeMap<&'a Name, i32>,
    name: &'a Name,
    address: Option<i64>,
) -> Result<(), NoMemory>
    ensures { OnOk result (lent_tags tags.new.entries ≡ with_address (lent_tags tags.old.entries) name.now address) }
{
    match address {
        None => Ok(()),
        Some(number) => make_tag_at(tags, name, number),
    }
}

fn make_tag_at<'a>(
    tags: &mut BTreeMap<&'a Name, i32>,
    name: &'a Name,
    number: i64,
) -> Result<(), NoMemory>
    ensures { OnOk result (lent_tags tags.new.entries
        ≡ with_address (lent_tags tags.old.entries) name.now (Some number)) }
{
    match address_of(number) {
        None => Ok(()),
        Some(address) => {
            tags.insert(name, address)?;
            Ok(())
        }
    }
}

/// The number, where it is an address: one from -2^20 to 2^20 - 1.
fn address_of(number: i64) -> Option<i32>
    ensures is_there { is_some result ≡ is_address number }
    ensures value { IfSome result (λ address. address ≡ number) }
{
    if number < -1_048_576 || number > 1_048_575 {
        return None;
    }
    Some(number as i32)
}

/// The bit that an address stands for; None where there is no such tag.
pub(crate) fn resolved<'a>(tags: &BTreeMap<&'a Name, i32>, addr: &'a Addr) -> Option<i64>
    ensures { result ≡ resolved (lent_tags tags.now.entries) addr.now }
{
    match &addr.tag {
        None => Some(i64::from(addr.offset)),
        Some(name) => match address_of_tag(tags, name) {
            None => None,
            Some(base) => Some(total(base, addr.offset)),
        },
    }
}

/// The address of a tag; None where there is no such tag.
#[tactic(auto, using(crate::proofs::LentLemmas::lent_lookup_tag))]
fn address_of_tag<'a>(tags: &BTreeMap<&'a Name, i32>, name: &'a Name) -> Option<i32>
    ensures { result ≡ tag_address (lent_tags tags.now.entries) name.now }
{
    tags.get(&name).copied()
}

fn total(base: i32, offset: i32) -> i64
    ensures { result ≡ base +ℤ offset }
{
    i64::from(base) + i64::from(offset)
}

/// Whether there is an address, but out of range.
fn is_outside(address: Option<i64>) -> bool
    ensures { result ≡ is_outside address }
{
    match address {
        None => false,
        Some(number) => address_of(number).is_none(),
    }
}

/// Whether a header's address names a tag that is not made.
pub(crate) fn lacks_tag<'a>(tags: &BTreeMap<&'a Name, i32>, target: &'a Target) -> bool
    ensures { result ≡ lacks_tag (lent_tags tags.now.entries) target.now }
{
    match target {
        Target::Header { addr, .. } => resolved(tags, addr).is_none(),
        Target::Meta { .. } => false,
        Target::Bound { .. } => false,
    }
}

/// Whether a header's address is out of range.
pub(crate) fn begins_outside<'a>(tags: &BTreeMap<&'a Name, i32>, target: &'a Target) -> bool
    ensures { result ≡ begins_outside (lent_tags tags.now.entries) target.now }
{
    match target {
        Target::Header { addr, .. } => is_outside(resolved(tags, addr)),
        Target::Meta { .. } => false,
        Target::Bound { .. } => false,
    }
}
