//! The exploration.

ghost use Rattle.std.specs.Prelude.{◌≡◌, ◌<◌, ◌≤◌, ◌∷◌, [], ℕ, None, IfOk};
ghost use Rattle.sefl_meaning.specs.Routes.{Splits};
ghost use Rattle.exact_records.specs.Points.{first_point, to_decide};
ghost use Rattle.path_exec.specs.OpenNodes.{all_obligations, AreOpenNodes};
ghost use Rattle.path_exec.specs.Coursing.{AreOnCourse, MetOnCourse, StaysOnCourse};
ghost use Rattle.path_exec.specs.Handing.{handed_if};
ghost use Rattle.path_exec.specs.Receiving.{IsSame, TakesOwn};
ghost use Rattle.path_exec.specs.Keeping.{Keeps, Leaves, Runs};
ghost use Rattle.path_exec.specs.Ending.{BegunAs, Explored, LeftAs, RanAs};

use crate::course::turn_to;
use crate::engine::{Engine, Tried};
use crate::observer::Observer;
use crate::opening::{OpenNode, go_on, offer_at, put_back, take_next};
use crate::receiver::Took;
use exact_records::laws::{records_that_stand_are_exact, steps_keep_what_stands, verdicts_stay};
use sefl_meaning::Decision;
use sn_width::{NoMemory, Steps};
use std::alloc::Global;
use std::rc::Rc;
use std::sync::ledger::Ledger;

/// How an exploration ends.
#[derive(Clone, Copy)]
pub enum Ended {
    /// Nothing is left out.
    Whole,
    /// The limit was met, and what is left was named.
    Partial,
    /// The observer stopped.
    Stopped,
}

/// How the exploration below the limit ends.
#[derive(Clone, Copy)]
pub(crate) enum Ran {
    /// Nothing is left.
    Over,
    /// The limit was met.
    Met,
    Interrupted,
}

/// Decides the injection's condition, and goes on where it is not refuted.
fn begin<E: Engine, L: Ledger>(
    alloc: Global,
    engine: &E,
    open_nodes: &mut Vec<OpenNode<E::Node, E::Finding>>,
    steps: &mut Steps<L>,
) -> Result<Option<E::Found>, NoMemory>
    requires splits { Splits (E.views engine.now).start.tree }
    ensures keeps { IfOk result (λ made. Keeps (E.views engine.now)
        ((first_point (E.views engine.now).start, to_decide None) ∷ [])
        open_nodes.old.items open_nodes.new.items (handed_if [] made) steps.old steps.new) }
    ensures course { IfOk result (λ made. StaysOnCourse (E.views engine.now) [] open_nodes.old.items []
        open_nodes.new.items) }
{
    steps_keep_what_stands();
    verdicts_stay();
    records_that_stand_are_exact();
    let tried = engine.try_begin(alloc)?;
    match tried {
        Tried::Refuted { refutation } => Ok(Some(engine.refuted(refutation))),
        Tried::Open { place, finding } => {
            let finding = Rc::new(alloc, finding)?;
            go_on(alloc, engine, place, finding, &[], open_nodes, steps)
        }
    }
}

/// Takes the first step, and hands over what it finds, if anything: how much was handed over; None where the observer stopped.
fn start<E: Engine, K: Observer<Found = E::Found>, L: Ledger>(
    alloc: Global,
    engine: &E,
    limit: u32,
    open_nodes: &mut Vec<OpenNode<E::Node, E::Finding>>,
    out: &mut K,
    steps: &mut Steps<L>,
) -> Result<Option<u32>, NoMemory>
    requires some { 0 < limit }
    requires splits { Splits (E.views engine.now).start.tree }
    requires empty { open_nodes.old.items ≡ [] }
    requires stands { (K.seen out.old).StandsFor [] }
    requires takes { TakesOwn (E.views engine.now) (K.seen out.old) }
    ensures same { IsSame (K.seen out.old) (K.seen out.new) }
    ensures begun { BegunAs (E.views engine.now) limit (K.seen out.old).stops (K.seen out.new) open_nodes.new.items
        steps.old steps.new result }
    ensures course { IfOk result (λ count. AreOnCourse (E.views engine.now) [] open_nodes.new.items) }
{
    steps_keep_what_stands();
    records_that_stand_are_exact();
    let Some(found) = begin(alloc, engine, open_nodes, steps)? else {
        return Ok(Some(0));
    };
    match out.see(found, &[]) {
        Took::More => Ok(Some(1)),
        Took::Stop => Ok(None),
        Took::NoMemory => Err(NoMemory),
    }
}

/// Explores below the limit, where so much was handed over.
fn run<E: Engine, K: Observer<Found = E::Found>, L: Ledger>(
    alloc: Global,
    engine: &E,
    limit: u32,
    first: u32,
    course: &mut Vec<Decision>,
    open_nodes: &mut Vec<OpenNode<E::Node, E::Finding>>,
    out: &mut K,
    steps: &mut Steps<L>,
) -> Result<Ran, NoMemory>
    requires splits { Splits (E.views engine.now).start.tree }
    requires within { first ≤ limit }
    requires open_nodes { AreOpenNodes (E.views engine.now) open_nodes.old.items }
    requires course { AreOnCourse (E.views engine.now) course.old.items open_nodes.old.items }
    requires takes { TakesOwn (E.views engine.now) (K.seen out.old) }
    requires runs { (before : ℕ) × Runs (E.views engine.now) limit first (K.seen out.old)
        (all_obligations (E.views engine.now) open_nodes.old.items) before steps.old }
    ensures same { IsSame (K.seen out.old) (K.seen out.new) }
    ensures ran { (before : ℕ) → Runs (E.views engine.now) limit first (K.seen out.old)
        (all_obligations (E.views engine.now) open_nodes.old.items) before steps.old
        → RanAs (E.views engine.now) limit (K.seen out.old).stops (K.seen out.new) open_nodes.new.items before steps.new
        result }
    ensures course { MetOnCourse (E.views engine.now) course.new.items open_nodes.new.items result }
{
    records_that_stand_are_exact();
    let mut count = first;
    while count < limit {
        let Some(next) = open_nodes.pop() else {
            return Ok(Ran::Over);
        };
        let Some(found) = take_next(alloc, engine, next, course, open_nodes, steps)? else {
            continue;
        };
        match out.see(found, course) {
            Took::More => count += 1,
            Took::Stop => return Ok(Ran::Interrupted),
            Took::NoMemory => return Err(NoMemory),
        }
    }
    Ok(Ran::Met)
}

/// Names what is left, each decision that is not tried.
fn leave<E: Engine, K: Observer<Found = E::Found>>(
    engine: &E,
    limit: u32,
    course: &mut Vec<Decision>,
    open_nodes: &mut Vec<OpenNode<E::Node, E::Finding>>,
    out: &mut K,
) -> Result<Ended, NoMemory>
    requires splits { Splits (E.views engine.now).start.tree }
    requires open_nodes { AreOpenNodes (E.views engine.now) open_nodes.old.items }
    requires course { AreOnCourse (E.views engine.now) course.old.items open_nodes.old.items }
    requires takes { TakesOwn (E.views engine.now) (K.seen out.old) }
    ensures same { IsSame (K.seen out.old) (K.seen out.new) }
    ensures left { (before after : ℕ) → Leaves (E.views engine.now) limit (K.seen out.old)
        (all_obligations (E.views engine.now) open_nodes.old.items) before after
        → LeftAs (E.views engine.now) limit (K.seen out.old).stops (K.seen out.new) before after result }
{
    steps_keep_what_stands();
    records_that_stand_are_exact();
    while let Some(next) = open_nodes.pop() {
        let decision = offer_at(next.offer, next.taken);
        turn_to(course, next.depth, decision)?;
        put_back(next, open_nodes)?;
        let found = engine.unexplored();
        match out.see(found, course) {
            Took::More => {}
            Took::Stop => return Ok(Ended::Stopped),
            Took::NoMemory => return Err(NoMemory),
        }
    }
    Ok(Ended::Partial)
}

/// Explores, and hands over what is found, at once and with the decisions that led there: at most `limit` of paths and refuted
/// sides, in the order of their decisions, and then each decision that is left.
///
/// For want of memory, and where the observer answers it, what was handed over is exact so far.
pub fn explore_into<E: Engine, K: Observer<Found = E::Found>, L: Ledger>(
    alloc: Global,
    engine: &E,
    limit: u32,
    out: &mut K,
    steps: &mut Steps<L>,
) -> Result<Ended, NoMemory>
    requires some { 0 < limit }
    requires splits { Splits (E.views engine.now).start.tree }
    requires stands { (K.seen out.old).StandsFor [] }
    requires takes { TakesOwn (E.views engine.now) (K.seen out.old) }
    ensures same { IsSame (K.seen out.old) (K.seen out.new) }
    ensures explored { Explored (E.views engine.now) limit (K.seen out.old).stops (K.seen out.new) steps.old steps.new
        result }
{
    steps_keep_what_stands();
    records_that_stand_are_exact();
    let mut open_nodes = Vec::new(alloc);
    let mut course = Vec::new(alloc);
    let Some(count) = start(alloc, engine, limit, &mut open_nodes, out, steps)? else {
        return Ok(Ended::Stopped);
    };
    let ran = run(
        alloc,
        engine,
        limit,
        count,
        &mut course,
        &mut open_nodes,
        out,
        steps,
    )?;
    match ran {
        Ran::Over => Ok(Ended::Whole),
        Ran::Interrupted => Ok(Ended::Stopped),
        Ran::Met => {
            if open_nodes.is_empty() {
                return Ok(Ended::Whole);
            }
            leave(engine, limit, &mut course, &mut open_nodes, out)
        }
    }
}
