//! Ranges as a membership lists them, and the set that they stand for.

ghost use Rattle.std.specs.Prelude.{◌≡◌, IfOk, IfSome};
ghost use Rattle.sn_ranges.specs.Ranges.{is_member};
ghost use Rattle.sn_ranges.specs.Sets.{set_of};
ghost use Rattle.sefl_syntax.specs.RangeLists.{IsKept, KeepsSet};

use crate::sets::set_of;
use sn_ranges::Ranges;
use sn_ranges::laws::the_set_of_a_test;
use sn_width::{NoMemory, Num, Width};
use std::alloc::Global;
use std::marker::Model;
use std::rc::Rc;

/// A list of at most this many ranges keeps no set: most memberships are short, and a set of so few is soon made.
const FEW: usize = 8;

/// Ranges in any order, each with both its ends; they may overlap. Contracts see the list. Of a long list the set is made
/// once, at the width that the membership has, and shared by all who ask for it.
#[derive(Drop)]
pub struct RangeList {
    listed: Vec<(Num, Num)>,
    set: Option<Rc<Ranges>>,
}

impl Model for RangeList {
    ghost use Rattle.std.specs.Prelude.{List};
    ghost use Rattle.sn_ranges.specs.Ranges.{Range};
    ghost use Rattle.sefl_syntax.specs.RangeLists.{KeepsSet};

    ghost Value = { List Range };

    ghost view = { λ ranges. ranges.listed.items };

    ghost invariant = { λ ranges. KeepsSet ranges.listed.items ranges.set };
}

impl RangeList {
    /// The ranges of a membership of this width. At another one they are the same ranges, whose set is made anew each time.
    pub fn new(alloc: Global, width: Width, listed: Vec<(Num, Num)>) -> Result<RangeList, NoMemory>
        ensures { IfOk result (λ ranges. ranges ≡ listed.items) }
    {
        let set = set_to_keep(alloc, width, &listed)?;
        Ok(RangeList { listed, set })
    }

    /// The ranges, as they are listed.
    pub fn listed(&self) -> &[(Num, Num)]
        ensures { result.now ≡ self.now }
    {
        &self.listed
    }

    /// The values of the width that lie in one of the ranges. Takes no time where they are kept.
    pub fn set(&self, alloc: Global, width: Width) -> Result<Rc<Ranges>, NoMemory>
        ensures { IfOk result (λ set. set.value ≡ set_of width (is_member self.now)) }
    {
        if let Some(set) = self.kept(width) {
            return Ok(set.clone()?);
        }
        let set = set_of(alloc, width, &self.listed)?;
        Ok(Rc::new(alloc, set)?)
    }

    /// Whether the number lies in one of the ranges.
    pub fn has(&self, number: Num) -> bool
        ensures { result ≡ is_member self.now number }
    {
        match &self.set {
            None => is_member(number, &self.listed),
            Some(set) => is_within(number, set, &self.listed),
        }
    }

    /// The set at this width, where it is kept.
    fn kept(&self, width: Width) -> Option<&Rc<Ranges>>
        ensures { IfSome result (λ set. set.now.value ≡ set_of width (is_member self.now)) }
    {
        let set = self.set.as_ref()?;
        if set.width() != width {
            return None;
        }
        Some(set)
    }
}

/// The set that a list keeps: none where it is short.
fn set_to_keep(
    alloc: Global,
    width: Width,
    listed: &[(Num, Num)],
) -> Result<Option<Rc<Ranges>>, NoMemory>
    ensures { IfOk result (KeepsSet listed.now) }
{
    if listed.len() <= FEW {
        return Ok(None);
    }
    let set = set_of(alloc, width, listed)?;
    let set = Rc::new(alloc, set)?;
    Ok(Some(set))
}

/// Whether the number lies in one of the listed ranges, by their set where the number is a value of its width.
fn is_within(number: Num, set: &Ranges, listed: &[(Num, Num)]) -> bool
    requires { IsKept listed.now set.now }
    ensures { result ≡ is_member listed.now number }
{
    the_set_of_a_test();
    if number > set.width().max() {
        return is_member(number, listed);
    }
    set.has(number)
}

/// Whether the number lies in one of the ranges.
#[tactic(auto, unfolding(sn_ranges::specs::Ranges::is_member, sn_ranges::specs::Ranges::in_range))]
fn is_member(number: Num, ranges: &[(Num, Num)]) -> bool
    ensures { result ≡ is_member ranges.now number }
{
    ranges
        .iter()
        .any(|range| range.0 <= number && number <= range.1)
}
