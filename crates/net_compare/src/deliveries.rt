//! The delivered paths of the records of an exploration.

ghost use Rattle.std.specs.Prelude.{◌≡◌, ℕ, IfOk, IfSome, Some, map, option_map, slice_get};
ghost use Rattle.std.specs.List.{AllByRecursion};
ghost use Rattle.net_check.specs.Network.{entry, network};
ghost use Rattle.exact_records.specs.Packets.{AreExactFor};
ghost use Rattle.exact_records.specs.Records.{HasMeaning};
ghost use Rattle.exact_records.specs.View.{record_tree, record_trees};
ghost use Rattle.compare_meaning.specs.Outputs.{exit_of, name_in};
ghost use Rattle.compare_meaning.specs.Paths.{delivered, delivered_from};
ghost use Rattle.path_questions.specs.Formulas.{explored};
ghost use Rattle.net_compare.specs.Delivering.{AreStatesOf, LeadsIfDelivered};
ghost use Rattle.net_compare.specs.Facings.{IsSound};
ghost use Rattle.net_compare.specs.Saying.{exit_seen, seen_path};

use crate::delivery::Delivery;
use crate::marks::{Known, marks_of};
use crate::rows::row_of;
use net_check::{Injection, Net};
use path_records::Record;
use refutation_check::laws::a_condition_is_judged_by_its_trees;
use sefl_meaning::{End, Place};
use sn_width::NoMemory;
use std::alloc::Global;
use sym_state::SymState;
use term_values::laws::the_tests_of_fitting_terms;

/// The delivered paths among the records of an exploration, in order, each with its number among all of them, its condition and its
/// domains, which are those of its state. Formulas that are known are marked as they are there.
pub(crate) fn deliveries_of<'a>(
    alloc: Global,
    net: &'a Net,
    injection: &Injection,
    hops: u32,
    records: &'a [Record],
    states: &'a [SymState],
    known: &mut Known<'_>,
) -> Result<Vec<Delivery<'a>>, NoMemory>
    requires exact { (limit : ℕ) × AreExactFor (network net.now) (entry injection.now) hops limit
        (record_trees records.now) }
    requires states { AreStatesOf (explored (network net.now) (entry injection.now) hops) (record_trees records.now)
        states.now }
    ensures paths { IfOk result (λ list. map seen_path list.items
        ≡ delivered_from (network net.now) (explored (network net.now) (entry injection.now) hops) 0
        (record_trees records.now)) }
    ensures sound { IfOk result (λ list. AllByRecursion IsSound list.items) }
{
    let mut list = Vec::new(alloc);
    let mut number: u64 = 0;
    for record in records {
        let state = state_at(states, list.len());
        if let Some(delivery) = delivery_of(
            alloc,
            net,
            injection,
            hops,
            number,
            record,
            state,
            list.last(),
            known,
        )? {
            list.push(delivery)?;
        }
        let Some(next) = number.checked_add(1) else {
            return Err(NoMemory);
        };
        number = next;
    }
    Ok(list)
}

/// The state of this place.
fn state_at<'a>(states: &'a [SymState], place: usize) -> Option<&'a SymState>
    ensures { option_map (λ s. s.now) result ≡ slice_get states.now place }
{
    states.get(place)
}

/// The delivered path that a record of this number is, if it is one. It has this state.
fn delivery_of<'a>(
    alloc: Global,
    net: &'a Net,
    injection: &Injection,
    hops: u32,
    number: u64,
    one: &'a Record,
    state: Option<&'a SymState>,
    previous: Option<&Delivery<'_>>,
    known: &mut Known<'_>,
) -> Result<Option<Delivery<'a>>, NoMemory>
    requires meaning { HasMeaning (explored (network net.now) (entry injection.now) hops) (record_tree one.now) }
    requires state { LeadsIfDelivered (explored (network net.now) (entry injection.now) hops) (record_tree one.now)
        (option_map (λ s. s.now) state) }
    ensures path { IfOk result (λ found. option_map seen_path found
        ≡ delivered (network net.now) (explored (network net.now) (entry injection.now) hops) number
        (record_tree one.now)) }
    ensures sound { IfOk result (λ found. IfSome found IsSound) }
{
    match one {
        Record::Path {
            decisions,
            places,
            end: End::Delivered,
            fields,
            verdict: _,
        } => {
            let Some(state) = state else {
                return Ok(None);
            };
            the_tests_of_fitting_terms();
            a_condition_is_judged_by_its_trees();
            state.terms_are_typed();
            let condition = state.condition();
            condition.formulas_are_typed();
            let formulas = row_of(alloc, condition)?;
            let marks = marks_of(alloc, previous, decisions, &formulas, known)?;
            Ok(Some(Delivery {
                number,
                exit: exit_of(net, places),
                heads: &fields.heads,
                condition,
                domains: state.domains(),
                formulas,
                decisions,
                marks,
            }))
        }
        _ => Ok(None),
    }
}

/// The name of the box and the port of the last of these places.
fn exit_of<'a>(net: &'a Net, places: &[Place]) -> Option<(&'a str, u32)>
    ensures { option_map exit_seen result ≡ exit_of (network net.now) places.now }
{
    match places.split_last() {
        None => None,
        Some((place, _before)) => Some((name_of(net, *place), place.port)),
    }
}

/// The name of the box of a place; empty for a number that is none of the net's.
fn name_of<'a>(net: &'a Net, place: Place) -> &'a str
    ensures { result.now ≡ name_in (network net.now) place.node }
{
    if place.node.0 >= net.node_count() {
        return "";
    }
    net.node_name(place.node).text()
}
