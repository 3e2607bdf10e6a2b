//! Traces of paths.

ghost use Rattle.std.specs.Prelude.{◌≡◌, [], IfOk, reverse};
ghost use Rattle.interval_solver.specs.Domains.{AreDomainsOf};
ghost use Rattle.path_trace.specs.Traces.{node_of};
ghost use Rattle.sn_tree.specs.Ends.{first};

use interval_solver::Domains;
use path_cond::PathCond;
use sefl_meaning::{Decision, Place};
use sn_tree::Shared;
use sn_width::{NoMemory, NodeId};
use std::alloc::Global;
use std::marker::Model;

/// What a path has met: a condition, and the decisions and the ports on the way. Copies share what they have in common.
/// Contracts see no domains, since they are those of the condition.
pub struct Trace {
    pub(crate) condition: PathCond,
    pub(crate) domains: Domains,
    /// The newest on top.
    pub(crate) decisions: Shared<Decision>,
    /// The newest on top.
    pub(crate) places: Shared<Place>,
}

impl Model for Trace {
    ghost use Rattle.std.specs.Coded.{codes};
    ghost use Rattle.interval_solver.specs.Domains.{AreDomainsOf};
    ghost use Rattle.path_formula.specs.contracts.formula.Formula as the_formula;
    ghost use Rattle.path_trace.specs.Traces.{Met};

    ghost Value = { Met };

    ghost coded = { Prim.hlevel (codes, the_formula.the_row.coded) };

    ghost view = { λ t. record { condition = t.condition; decisions = t.decisions; places = t.places } };

    ghost invariant = { λ t. AreDomainsOf t.condition t.domains };
}

impl Trace {
    /// With this condition, before any decision and any port.
    pub fn of(alloc: Global, condition: PathCond) -> Result<Trace, NoMemory>
        ensures { IfOk result (λ t. t ≡ record { condition = condition; decisions = []; places = [] }) }
    {
        let domains = Domains::of(alloc, &condition)?;
        Ok(Trace {
            condition,
            domains,
            decisions: Shared::empty(),
            places: Shared::empty(),
        })
    }

    /// The same trace. Takes no memory; an `Err` says that a count of owners is full.
    pub fn fork(&self) -> Result<Trace, NoMemory>
        ensures { IfOk result (λ copy. copy ≡ self.now) }
    {
        let decisions = self.decisions.fork()?;
        let places = self.places.fork()?;
        let domains = self.domains.fork()?;
        let condition = self.condition.fork()?;
        Ok(Trace {
            condition,
            domains,
            decisions,
            places,
        })
    }

    /// The symbols, and the formulas met so far with the truths that they must have.
    pub fn condition(&self) -> &PathCond
        ensures { result.now ≡ self.now.condition }
    {
        &self.condition
    }

    /// The domains of the condition.
    pub fn domains(&self) -> &Domains
        ensures { AreDomainsOf self.now.condition result.now }
    {
        &self.domains
    }

    /// The decisions, in the order in which they were made.
    pub fn decisions(&self, alloc: Global) -> Result<Vec<Decision>, NoMemory>
        ensures { IfOk result (λ decisions. decisions.items ≡ reverse self.now.decisions) }
    {
        oldest_first(alloc, &self.decisions)
    }

    /// The ports that were arrived at, in this order.
    pub fn places(&self, alloc: Global) -> Result<Vec<Place>, NoMemory>
        ensures { IfOk result (λ places. places.items ≡ reverse self.now.places) }
    {
        oldest_first(alloc, &self.places)
    }

    /// The port that was arrived at last; None exactly before that.
    pub fn last_place(&self) -> Option<Place>
        ensures { result ≡ first self.now.places }
    {
        self.places.top().copied()
    }

    /// The node of the port that was arrived at last; node 0 before that.
    pub fn node(&self) -> NodeId
        ensures { result ≡ node_of self.now.places }
    {
        match self.places.top() {
            None => NodeId(0),
            Some(place) => place.node,
        }
    }
}

// Written out, and not derived, so that the proof of a function that lets one go sees a call.
impl Drop for Trace {
    fn drop(self) {
        let Trace {
            condition,
            domains,
            decisions,
            places,
        } = self;
        drop(condition);
        drop(domains);
        drop(decisions);
        drop(places);
    }
}

/// The members from the oldest on; they stand the newest first.
fn oldest_first<T: Copy + Drop>(alloc: Global, members: &Shared<T>) -> Result<Vec<T>, NoMemory>
    ensures { IfOk result (λ list. list.items ≡ reverse members.now) }
{
    let mut list: Vec<T> = members.iter().copied().collect(alloc)?;
    list.reverse();
    Ok(list)
}
