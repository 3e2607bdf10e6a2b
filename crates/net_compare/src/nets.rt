//! The comparison of two nets, from the records of their explorations.

ghost use Rattle.std.specs.Prelude.{◌++◌, ◌≡◌, ℕ, IfOk, map};
ghost use Rattle.std.specs.List.{AllByRecursion};
ghost use Rattle.net_check.specs.Network.{entry, network};
ghost use Rattle.exact_records.specs.Packets.{AreExactFor};
ghost use Rattle.exact_records.specs.View.{record_trees};
ghost use Rattle.compare_meaning.specs.Paths.{IsWhole, delivered_from};
ghost use Rattle.net_compare.specs.Clashing.{TellsClash, numbered_path, shifted};
ghost use Rattle.path_questions.specs.Formulas.{explored};
ghost use Rattle.net_compare.specs.Delivering.{AreStatesOf};
ghost use Rattle.net_compare.specs.Facings.{IsSound};
ghost use Rattle.net_compare.specs.Halves.{ComparedAs, half_of};
ghost use Rattle.net_compare.specs.Saying.{seen_path};

use crate::clashes::{are_within, first_clash};
use crate::comparing::{Compared, compare_paths};
use crate::deliveries::deliveries_of;
use crate::delivery::Delivery;
use crate::exploring::Explored;
use crate::marks::Known;
use compare_meaning::laws::{known_comparisons_are_right, what_is_known_is_the_comparison};
use compare_typing::laws::paths_that_do_not_clash_agree;
use net_check::{Accepted, Injection, Net};
use path_cond::PathCond;
use same_injections::same_injection;
use sn_width::NoMemory;
use std::alloc::Global;

/// Why two nets are not compared.
#[derive(Drop)]
pub enum CompareFault {
    /// Their injections differ.
    OtherInjection,
    /// Two delivered paths leave by one port of boxes of one name, and neither's widths of symbols begin those of the other. These are
    /// the numbers of the first two such paths; those of the right net are counted on from the number of the left net's records.
    Widths { one: u64, other: u64 },
    NoMemory,
}

impl From<NoMemory> for CompareFault {
    ghost use Rattle.std.specs.Prelude.{◌≡◌};
    ghost use Rattle.net_compare.specs.declared.nets.CompareFault.TheVariants.{NoMemory as OutOfMemory};

    ghost from_gives = { λ _ fault. fault ≡ OutOfMemory };

    fn from(_error: NoMemory) -> CompareFault {
        CompareFault::NoMemory
    }
}

/// Whether two nets deliver the same, from one exploration of each with `hops` hops. The records are exact, and none is left out.
pub fn compare<'c>(
    alloc: Global,
    left: &'c Accepted,
    lefts: &'c Explored,
    right: &'c Accepted,
    rights: &'c Explored,
    hops: u32,
) -> Result<Compared, CompareFault>
    requires left { IsWhole hops (half_of hops (network left.now.net) (entry left.now.injection)
        (record_trees lefts.now.records.items)) }
    requires right { IsWhole hops (half_of hops (network right.now.net) (entry right.now.injection)
        (record_trees rights.now.records.items)) }
    requires left_states { AreStatesOf (explored (network left.now.net) (entry left.now.injection) hops)
        (record_trees lefts.now.records.items) lefts.now.states.items }
    requires right_states { AreStatesOf (explored (network right.now.net) (entry right.now.injection) hops)
        (record_trees rights.now.records.items) rights.now.states.items }
    ensures { ComparedAs hops
        (half_of hops (network left.now.net) (entry left.now.injection) (record_trees lefts.now.records.items))
        (half_of hops (network right.now.net) (entry right.now.injection) (record_trees rights.now.records.items))
        result }
{
    known_comparisons_are_right();
    what_is_known_is_the_comparison();
    if !same_injection(&left.injection, &right.injection) {
        return Err(CompareFault::OtherInjection);
    }
    let mut nothing = Known::nothing(alloc);
    let own = paths_of(alloc, &left.net, &left.injection, hops, lefts, &mut nothing)?;
    let mut known = Known::of(alloc, own.as_slice())?;
    let others = paths_of(
        alloc,
        &right.net,
        &right.injection,
        hops,
        rights,
        &mut known,
    )?;
    if let Some((one, other)) = clash_of(alloc, &own, &others, lefts.records.len() as u64)? {
        return Err(CompareFault::Widths { one, other });
    }
    let compared = compare_paths(alloc, &own, &others)?;
    Ok(compared)
}

/// The delivered paths of an exploration. Formulas that are known are marked as they are there.
fn paths_of<'a>(
    alloc: Global,
    net: &'a Net,
    injection: &Injection,
    hops: u32,
    found: &'a Explored,
    known: &mut Known<'_>,
) -> Result<Vec<Delivery<'a>>, NoMemory>
    requires exact { (limit : ℕ) × AreExactFor (network net.now) (entry injection.now) hops limit
        (record_trees found.now.records.items) }
    requires states { AreStatesOf (explored (network net.now) (entry injection.now) hops)
        (record_trees found.now.records.items) found.now.states.items }
    ensures paths { IfOk result (λ list. map seen_path list.items
        ≡ delivered_from (network net.now) (explored (network net.now) (entry injection.now) hops) 0
        (record_trees found.now.records.items)) }
    ensures sound { IfOk result (λ list. AllByRecursion IsSound list.items) }
{
    deliveries_of(
        alloc,
        net,
        injection,
        hops,
        found.records.as_slice(),
        found.states.as_slice(),
        known,
    )
}

/// The numbers of the first two paths that clash, those of the right net counted on from a number.
fn clash_of(
    alloc: Global,
    lefts: &[Delivery<'_>],
    rights: &[Delivery<'_>],
    shift: u64,
) -> Result<Option<(u64, u64)>, NoMemory>
    ensures { IfOk result (TellsClash (map seen_path lefts.now ++ map (shifted shift) (map seen_path rights.now))) }
{
    paths_that_do_not_clash_agree();
    if let Some(longest) = widest(lefts, rights) {
        if are_within(lefts, longest) && are_within(rights, longest) {
            return Ok(None);
        }
    }
    let both = numbered(alloc, lefts, rights, shift)?;
    Ok(first_clash(&both))
}

/// The condition with the most symbols.
fn widest<'d>(lefts: &'d [Delivery<'d>], rights: &'d [Delivery<'d>]) -> Option<&'d PathCond> {
    let mut most: Option<&PathCond> = None;
    for path in lefts {
        most = wider(most, path.condition);
    }
    for path in rights {
        most = wider(most, path.condition);
    }
    most
}

fn wider<'d>(most: Option<&'d PathCond>, other: &'d PathCond) -> Option<&'d PathCond> {
    match most {
        None => Some(other),
        Some(one) if one.symbols() < other.symbols() => Some(other),
        Some(one) => Some(one),
    }
}

/// All paths with their numbers, those of the right net counted on from a number.
fn numbered<'d>(
    alloc: Global,
    lefts: &'d [Delivery<'d>],
    rights: &'d [Delivery<'d>],
    shift: u64,
) -> Result<Vec<(u64, &'d Delivery<'d>)>, NoMemory>
    ensures { IfOk result (λ both. map numbered_path both.items
        ≡ map seen_path lefts.now ++ map (shifted shift) (map seen_path rights.now)) }
{
    let mut both = Vec::new(alloc);
    for path in lefts {
        both.push((path.number, path))?;
    }
    for path in rights {
        let Some(number) = path.number.checked_add(shift) else {
            return Err(NoMemory);
        };
        both.push((number, path))?;
    }
    Ok(both)
}
