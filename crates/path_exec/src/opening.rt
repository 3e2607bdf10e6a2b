//! Nodes that wait for decisions, and what comes of the next one.

ghost use Rattle.std.specs.Prelude.{◌≡◌, ◌<◌, ◌∷◌, [], suc, IfOk, OnOk};
ghost use Rattle.std.specs.List.{AllByRecursion};
ghost use Rattle.sefl_meaning.specs.Routes.{Splits};
ghost use Rattle.exact_records.specs.Points.{condition_at, decided, IsAt, IsKnown, IsPending};
ghost use Rattle.path_exec.specs.Coursing.{IsOnCourse, StaysOnCourse};
ghost use Rattle.path_exec.specs.Handing.{IsListed, IsNumbered, handed_if};
ghost use Rattle.path_exec.specs.Location.{behind_last};
ghost use Rattle.path_exec.specs.Offers.{offer_at, offer_count};
ghost use Rattle.path_exec.specs.OpenNodes.{obligations_of, IsFork, IsPut, IsOpenNode};
ghost use Rattle.path_exec.specs.Keeping.{Keeps};

use crate::course::turn_to;
use crate::engine::{Engine, Next, Offer, Tried};
use crate::running::advance;
use exact_records::laws::{records_that_stand_are_exact, steps_keep_what_stands, verdicts_stay};
use sefl_meaning::Decision;
use sn_width::{NoMemory, Steps};
use std::alloc::Global;
use std::rc::Rc;
use std::sync::ledger::Ledger;

/// A node, how many decisions led to it, how many of its own were taken, and what was found of its condition.
#[derive(Drop)]
pub(crate) struct OpenNode<N: Drop, D: Drop> {
    pub(crate) node: N,
    pub(crate) depth: usize,
    pub(crate) offer: Offer,
    pub(crate) taken: u32,
    pub(crate) finding: Rc<D>,
}

/// How many decisions there are.
fn offer_count(offer: Offer) -> u32
    ensures { result ≡ offer_count offer }
{
    match offer {
        Offer::If => 2,
        Offer::Constrain => 2,
        Offer::Fork { copies } => copies,
    }
}

/// The decision of this number, in their order.
pub(crate) fn offer_at(offer: Offer, number: u32) -> Decision
    ensures { result ≡ offer_at offer number }
{
    match offer {
        Offer::If => {
            if number == 0 {
                Decision::Then
            } else {
                Decision::Else
            }
        }
        Offer::Constrain => {
            if number == 0 {
                Decision::Pass
            } else {
                Decision::Broken
            }
        }
        Offer::Fork { copies: _ } => Decision::Copy(number),
    }
}

/// Puts a node onto the stack, where it has a decision left.
fn put<N: Drop, D: Drop>(
    open_node: OpenNode<N, D>,
    open_nodes: &mut Vec<OpenNode<N, D>>,
) -> Result<(), NoMemory>
    ensures { OnOk result (IsPut open_node open_nodes.old.items open_nodes.new.items) }
{
    if open_node.taken >= offer_count(open_node.offer) {
        return Ok(());
    }
    open_nodes.push(open_node)?;
    Ok(())
}

/// The same, after its next decision.
pub(crate) fn put_back<N: Drop, D: Drop>(
    open_node: OpenNode<N, D>,
    open_nodes: &mut Vec<OpenNode<N, D>>,
) -> Result<(), NoMemory>
    requires { open_node.taken < offer_count open_node.offer }
    ensures { OnOk result (IsPut (record open_node { taken = suc open_node.taken }) open_nodes.old.items
        open_nodes.new.items) }
{
    let OpenNode {
        node,
        depth,
        offer,
        taken,
        finding,
    } = open_node;
    let next = OpenNode {
        node,
        depth,
        offer,
        taken: taken + 1,
        finding,
    };
    put(next, open_nodes)
}

/// Goes on from a place, with what was found of its condition, behind these decisions: to the end of its path, or to the next node.
pub(crate) fn go_on<E: Engine, L: Ledger>(
    alloc: Global,
    engine: &E,
    place: E::Place,
    finding: Rc<E::Finding>,
    course: &[Decision],
    open_nodes: &mut Vec<OpenNode<E::Node, E::Finding>>,
    steps: &mut Steps<L>,
) -> Result<Option<E::Found>, NoMemory>
    requires splits { Splits (E.views engine.now).start.tree }
    requires at { IsAt (E.views engine.now).start (behind_last (E.views engine.now).start
        ((E.views engine.now).place_at place)) }
    requires known { IsKnown
        (condition_at (E.views engine.now).start (behind_last (E.views engine.now).start
        ((E.views engine.now).place_at place)))
        ((E.views engine.now).verdict_of finding.value) }
    requires behind { course.now ≡ ((E.views engine.now).place_at place).decisions }
    requires listed { IsListed course.now }
    ensures keeps { IfOk result (λ made. Keeps (E.views engine.now)
        ((
          behind_last (E.views engine.now).start ((E.views engine.now).place_at place),
          decided ((E.views engine.now).verdict_of finding.value),
        ) ∷ [])
        open_nodes.old.items open_nodes.new.items (handed_if course.now made) steps.old steps.new) }
    ensures course { IfOk result (λ made. StaysOnCourse (E.views engine.now) course.now open_nodes.old.items course.now
        open_nodes.new.items) }
{
    steps_keep_what_stands();
    verdicts_stay();
    records_that_stand_are_exact();
    let next = advance(alloc, engine, place, steps)?;
    match next {
        Next::AtEnd { over } => Ok(Some(engine.path(over, finding))),
        Next::AtNode { node, offer } => {
            let open_node = OpenNode {
                node,
                depth: course.len(),
                offer,
                taken: 0,
                finding,
            };
            put(open_node, open_nodes)?;
            Ok(None)
        }
    }
}

/// Takes the next copy of a Fork.
fn take_copy<E: Engine, L: Ledger>(
    alloc: Global,
    engine: &E,
    open_node: OpenNode<E::Node, E::Finding>,
    course: &mut Vec<Decision>,
    open_nodes: &mut Vec<OpenNode<E::Node, E::Finding>>,
    steps: &mut Steps<L>,
) -> Result<Option<E::Found>, NoMemory>
    requires splits { Splits (E.views engine.now).start.tree }
    requires fork { IsFork open_node.offer }
    requires open_node { IsOpenNode (E.views engine.now) open_node }
    requires pending { AllByRecursion (λ obligation. IsPending (E.views engine.now).start obligation.0 obligation.1)
        (obligations_of (E.views engine.now) open_node) }
    requires on_course { IsOnCourse (E.views engine.now) course.old.items open_node }
    requires numbered { AllByRecursion IsNumbered course.old.items }
    ensures keeps { IfOk result (λ made. Keeps (E.views engine.now) (obligations_of (E.views engine.now) open_node)
        open_nodes.old.items open_nodes.new.items
        (handed_if course.new.items made) steps.old steps.new) }
    ensures course { IfOk result (λ made. StaysOnCourse (E.views engine.now)
        ((E.views engine.now).node_at open_node.node).decisions
        open_nodes.old.items course.new.items open_nodes.new.items) }
{
    steps_keep_what_stands();
    verdicts_stay();
    records_that_stand_are_exact();
    let decision = offer_at(open_node.offer, open_node.taken);
    let place = engine.take(alloc, &open_node.node, decision)?;
    let finding = Rc::clone(&open_node.finding)?;
    turn_to(course, open_node.depth, decision)?;
    put_back(open_node, open_nodes)?;
    go_on(alloc, engine, place, finding, course, open_nodes, steps)
}

/// Tries the next side of a test: a refuted one, or what comes of it.
fn try_side<E: Engine, L: Ledger>(
    alloc: Global,
    engine: &E,
    open_node: OpenNode<E::Node, E::Finding>,
    course: &mut Vec<Decision>,
    open_nodes: &mut Vec<OpenNode<E::Node, E::Finding>>,
    steps: &mut Steps<L>,
) -> Result<Option<E::Found>, NoMemory>
    requires splits { Splits (E.views engine.now).start.tree }
    requires test { IsFork open_node.offer → ⊥ }
    requires open_node { IsOpenNode (E.views engine.now) open_node }
    requires pending { AllByRecursion (λ obligation. IsPending (E.views engine.now).start obligation.0 obligation.1)
        (obligations_of (E.views engine.now) open_node) }
    requires on_course { IsOnCourse (E.views engine.now) course.old.items open_node }
    requires numbered { AllByRecursion IsNumbered course.old.items }
    ensures keeps { IfOk result (λ made. Keeps (E.views engine.now) (obligations_of (E.views engine.now) open_node)
        open_nodes.old.items open_nodes.new.items
        (handed_if course.new.items made) steps.old steps.new) }
    ensures course { IfOk result (λ made. StaysOnCourse (E.views engine.now)
        ((E.views engine.now).node_at open_node.node).decisions
        open_nodes.old.items course.new.items open_nodes.new.items) }
{
    steps_keep_what_stands();
    verdicts_stay();
    records_that_stand_are_exact();
    let decision = offer_at(open_node.offer, open_node.taken);
    let tried = engine.try_take(alloc, &open_node.node, decision, &open_node.finding)?;
    turn_to(course, open_node.depth, decision)?;
    match tried {
        Tried::Refuted { refutation } => {
            let before = Rc::clone(&open_node.finding)?;
            let found = engine.pruned(&open_node.node, before, refutation);
            put_back(open_node, open_nodes)?;
            Ok(Some(found))
        }
        Tried::Open { place, finding } => {
            let finding = Rc::new(alloc, finding)?;
            put_back(open_node, open_nodes)?;
            go_on(alloc, engine, place, finding, course, open_nodes, steps)
        }
    }
}

/// Takes the next decision of a node.
pub(crate) fn take_next<E: Engine, L: Ledger>(
    alloc: Global,
    engine: &E,
    open_node: OpenNode<E::Node, E::Finding>,
    course: &mut Vec<Decision>,
    open_nodes: &mut Vec<OpenNode<E::Node, E::Finding>>,
    steps: &mut Steps<L>,
) -> Result<Option<E::Found>, NoMemory>
    requires splits { Splits (E.views engine.now).start.tree }
    requires open_node { IsOpenNode (E.views engine.now) open_node }
    requires pending { AllByRecursion (λ obligation. IsPending (E.views engine.now).start obligation.0 obligation.1)
        (obligations_of (E.views engine.now) open_node) }
    requires on_course { IsOnCourse (E.views engine.now) course.old.items open_node }
    requires numbered { AllByRecursion IsNumbered course.old.items }
    ensures keeps { IfOk result (λ made. Keeps (E.views engine.now) (obligations_of (E.views engine.now) open_node)
        open_nodes.old.items open_nodes.new.items
        (handed_if course.new.items made) steps.old steps.new) }
    ensures course { IfOk result (λ made. StaysOnCourse (E.views engine.now)
        ((E.views engine.now).node_at open_node.node).decisions
        open_nodes.old.items course.new.items open_nodes.new.items) }
{
    match open_node.offer {
        Offer::If => try_side(alloc, engine, open_node, course, open_nodes, steps),
        Offer::Constrain => try_side(alloc, engine, open_node, course, open_nodes, steps),
        Offer::Fork { copies: _ } => take_copy(alloc, engine, open_node, course, open_nodes, steps),
    }
}
