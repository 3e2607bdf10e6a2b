//! What the runs of one exploration begin with, and their states.

ghost use Rattle.std.specs.Prelude.{◌≡◌, IfOk};
ghost use Rattle.symbolic_engine.specs.Origins.{IsRunOf};

use sn_width::NoMemory;
use std::alloc::Global;
use std::marker::{Brand, Model, PhantomData};
use sym_state::SymState;

/// What is explored. Each exploration picks it, so that a state of one is no state of another.
pub trait Origin {
    ghost use Rattle.net_check.specs.Network.{Network};
    ghost use Rattle.exact_records.specs.Records.{SymStart};

    ghost net: { Network };

    ghost start: { SymStart };
}

impl Origin for Brand {
    ghost use Rattle.symbolic_engine.specs.Origins.{no_net, no_start};

    ghost net = { no_net };

    ghost start = { no_start };
}

/// A state of a run of this exploration. It stands on the heap, so that a run is moved as one pointer.
pub struct Run<B: Origin> {
    state: Box<SymState>,
    of: PhantomData<B>,
}

impl<B: Origin> Model for Run<B> {
    ghost use Rattle.std.specs.Coded.{codes};
    ghost use Rattle.path_formula.specs.contracts.formula.Formula as the_formula;
    ghost use Rattle.sym_state.specs.Symbolic.{Symbolic};
    ghost use Rattle.symbolic_engine.specs.Origins.{IsRunOf};

    ghost Value = { Symbolic };

    ghost coded = { Prim.hlevel (codes, the_formula.the_row.coded) };

    ghost view = { λ run. run.state.value };

    ghost invariant = { λ run. IsRunOf B.start run.state.value };
}

impl<B: Origin> Run<B> {
    pub(crate) fn new(alloc: Global, state: SymState) -> Result<Run<B>, NoMemory>
        requires { IsRunOf B.start state }
        ensures { IfOk result (λ run. run ≡ state) }
    {
        let state = Box::new(alloc, state)?;
        Ok(Run::<B>::of(state))
    }

    /// The run whose state stands there.
    pub(crate) fn of(state: Box<SymState>) -> Run<B>
        requires { IsRunOf B.start state.value }
        ensures { result ≡ state.value }
    {
        Run {
            state,
            of: PhantomData,
        }
    }

    /// The same run, where it stands.
    pub(crate) fn fork(&self, alloc: Global) -> Result<Run<B>, NoMemory>
        ensures { IfOk result (λ copy. copy ≡ self.now) }
    {
        let state = self.state.fork()?;
        Run::<B>::new(alloc, state)
    }

    /// Says that the state is of a run of this exploration. It does nothing.
    pub fn is_own(&self)
        ensures { IsRunOf B.start self.now }
    {
        let _state = &self.state;
    }

    /// The state.
    pub fn state(&self) -> &SymState
        ensures is { result.now ≡ self.now }
        ensures run { IsRunOf B.start self.now }
    {
        &self.state
    }

    /// The state, where it stands.
    pub(crate) fn into_box(self) -> Box<SymState>
        ensures is { result.value ≡ self }
        ensures run { IsRunOf B.start self }
    {
        let Run { state, of: _ } = self;
        state
    }

    pub(crate) fn into_state(self) -> SymState
        ensures is { result ≡ self }
        ensures run { IsRunOf B.start self }
    {
        let Run { state, of: _ } = self;
        Box::into_inner(state)
    }
}

// Written out, and not derived, so that the proof of a function that lets a run go sees a call.
impl<B: Origin> Drop for Run<B> {
    fn drop(self) {
        let Run { state, of: _ } = self;
        drop(state);
    }
}
