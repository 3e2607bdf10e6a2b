//! Where a guided run waits for a decision, or is over.

use path_exec::engine::Next;
use std::marker::Model;
use symbolic_engine::{Finished, Origin, Waiting};

/// Where decisions lead, which contracts see as the state and the end there.
#[derive(Drop)]
pub(crate) struct Stop<'a, B: Origin> {
    pub next: Next<Finished<B>, Waiting<'a, B>>,
}

impl<'a, B: Origin> Model for Stop<'a, B> {
    ghost use Rattle.std.specs.Coded.{codes};
    ghost use Rattle.path_formula.specs.contracts.formula.Formula as the_formula;
    ghost use Rattle.path_exec.specs.Stepping.{IsLedThere};
    ghost use Rattle.record_checks.specs.Stops.{Stop as Seen};
    ghost use Rattle.symbolic_engine.specs.Seeing.{views_of};
    ghost use Rattle.path_replay.specs.Stopping.{stop_of};

    ghost Value = { Seen };

    ghost coded = { Prim.hlevel (codes, the_formula.the_row.coded) };

    ghost view = { λ stop. stop_of stop.next };

    ghost invariant = { λ stop. IsLedThere (views_of B.start B.net) stop.next };
}
