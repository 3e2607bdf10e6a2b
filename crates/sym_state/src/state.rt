//! Symbolic states.

ghost use Rattle.std.specs.Prelude.{◌≡◌, ◌≤◌, IfOk, length};
ghost use Rattle.interval_solver.specs.Domains.{AreDomainsOf};
ghost use Rattle.instr_steps.specs.Scenes.{scene_of};
ghost use Rattle.net_check.specs.Network.{network};
ghost use Rattle.sefl_meaning.specs.Valued.{CarriedFits};
ghost use Rattle.sn_tree.specs.Ends.{first};
ghost use Rattle.sym_state.specs.Symbolic.{node_of, scene_in};
ghost use Rattle.term_values.specs.Fits.{typed_fits};

use header_layers::Layers;
use instr_steps::Scene;
use interval_solver::Domains;
use lin_term::Term;
use metadata_scopes::Scopes;
use net_check::Net;
use path_cond::PathCond;
use path_trace::Trace;
use sefl_meaning::{Carried, Iteration, Place};
use sn_tree::Shared;
use sn_width::{NoMemory, NodeId};
use std::marker::Model;

/// What a packet with unknown fields carries, and what it has met on its way. The symbols are the
/// unknown fields and, behind them, the choices. Copies share what they have in common. Contracts
/// see no domains, since they are those of the condition.
pub struct SymState {
    pub(crate) carried: Carried<Term>,
    pub(crate) trace: Trace,
    pub(crate) unknowns: u64,
}

impl Model for SymState {
    ghost use Rattle.std.specs.Coded.{codes};
    ghost use Rattle.path_formula.specs.contracts.formula.Formula as the_formula;
    ghost use Rattle.sefl_meaning.specs.View.{carried_of};
    ghost use Rattle.sym_state.specs.Symbolic.{IsSound, Symbolic};

    ghost Value = { Symbolic };

    ghost coded = { Prim.hlevel (codes, the_formula.the_row.coded) };

    ghost view = { λ s. record { carried = carried_of s.carried; condition = s.trace.condition; decisions = s.trace.decisions; places = s.trace.places; unknowns = s.unknowns } };

    ghost invariant = { λ s. IsSound (carried_of s.carried) s.trace.condition s.unknowns };
}

impl SymState {
    /// The same state. Takes no memory; an `Err` says that a count of owners is full.
    pub fn fork(&self) -> Result<SymState, NoMemory>
        ensures { IfOk result (λ copy. copy ≡ self.now) }
    {
        let trace = self.trace.fork()?;
        let scopes = self.carried.scopes.fork()?;
        let layers = self.carried.layers.fork()?;
        Ok(SymState {
            carried: Carried { layers, scopes },
            trace,
            unknowns: self.unknowns,
        })
    }

    /// The symbols, and the formulas met so far with the truths that they must have.
    pub fn condition(&self) -> &PathCond
        ensures { result.now ≡ self.now.condition }
    {
        self.trace.condition()
    }

    /// The domains of the condition.
    pub fn domains(&self) -> &Domains
        ensures { AreDomainsOf self.now.condition result.now }
    {
        self.trace.domains()
    }

    /// Tags and header cells.
    pub fn layers(&self) -> &Layers<Term>
        ensures { result.now ≡ self.now.carried.layers }
    {
        &self.carried.layers
    }

    /// Metadata.
    pub fn scopes(&self) -> &Scopes<Term>
        ensures { result.now ≡ self.now.carried.scopes }
    {
        &self.carried.scopes
    }

    /// How many of the symbols, the first ones, are unknown fields.
    pub fn unknowns(&self) -> u64
        ensures count { result ≡ self.now.unknowns }
        ensures known { self.now.unknowns ≤ length self.now.condition.widths }
    {
        self.unknowns
    }

    /// Says that the carried terms are typed over the symbols. It does nothing.
    pub fn terms_are_typed(&self)
        ensures { CarriedFits (typed_fits self.now.condition.widths) self.now.carried }
    {
        let _carried = &self.carried;
    }

    /// The port that was arrived at last; None exactly before that.
    pub fn last_place(&self) -> Option<Place>
        ensures { result ≡ first self.now.places }
    {
        self.trace.last_place()
    }

    /// The node of the port that was arrived at last; node 0 before that.
    pub(crate) fn node(&self) -> NodeId
        ensures { result ≡ node_of self.now.places }
    {
        self.trace.node()
    }

    /// Where the code runs that the state has come to, in these iterations.
    pub(crate) fn scene<'b>(&self, net: &'b Net, bound: &'b Shared<Iteration>) -> Scene<'b>
        ensures { scene_of result ≡ scene_in (network net.now) bound.now self.now }
    {
        Scene {
            net,
            node: self.node(),
            iterations: bound,
        }
    }
}

// Written out, and not derived, so that the proof of a function that lets one go sees a call.
impl Drop for SymState {
    fn drop(self) {
        let SymState {
            carried,
            trace,
            unknowns: _,
        } = self;
        drop(carried);
        drop(trace);
    }
}
