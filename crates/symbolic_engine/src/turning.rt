//! What a decision makes of a node.

ghost use Rattle.std.specs.Prelude.{◌≡◌, true, IfOk, OnOk};
ghost use Rattle.net_check.specs.Network.{network};
ghost use Rattle.symbolic_engine.specs.Stages.{has_typed_test};
ghost use Rattle.symbolic_engine.specs.Turning.{IsAwaited, IsNoted, IsStageBehind};

use crate::origin::{Origin, Run};
use crate::points::Waiting;
use crate::stage::{Stage, Wait};
use code_frames::{answer, copied};
use net_check::Net;
use path_formula::laws::the_tests_of_types;
use path_trace::holds;
use sefl_meaning::Decision;
use sn_width::NoMemory;
use std::alloc::Global;
use sym_state::SymState;

/// Adds the decision that is awaited, and the formula of its test.
fn note(
    alloc: Global,
    state: &mut SymState,
    wait: &Wait<'_>,
    decision: Decision,
) -> Result<(), NoMemory>
    requires awaited { IsAwaited wait.now decision }
    requires typed { has_typed_test state.old wait.now ≡ true }
    ensures { OnOk result (IsNoted wait.now state.old decision state.new) }
{
    the_tests_of_types();
    match wait {
        Wait::Asked { test, .. } => {
            let formula = test.copy(alloc)?;
            state.constrain(alloc, formula, decision)?;
            Ok(())
        }
        Wait::Forked { .. } => {
            let Decision::Copy(number) = decision else {
                // Only copies are awaited.
                unreachable!()
            };
            state.copy(alloc, number)?;
            Ok(())
        }
    }
}

/// The run of a node with the decision that is awaited.
pub(crate) fn noted<B: Origin>(
    alloc: Global,
    node: &Waiting<'_, B>,
    decision: Decision,
) -> Result<Run<B>, NoMemory>
    requires { IsAwaited node.now.wait decision }
    ensures { IfOk result (λ there. IsNoted node.now.wait node.now.run decision there) }
{
    let here = node.run.fork(alloc)?;
    let mut state = here.into_box();
    note(alloc, &mut *state, &node.wait, decision)?;
    Ok(Run::<B>::of(state))
}

/// The stage behind an awaited decision.
pub(crate) fn stage_behind<'a>(
    alloc: Global,
    net: &Net,
    wait: &Wait<'a>,
    decision: Decision,
) -> Result<Stage<'a>, NoMemory>
    requires { IsAwaited wait.now decision }
    ensures { IfOk result (IsStageBehind (network net.now) wait.now decision) }
{
    match wait {
        Wait::Asked {
            running,
            question,
            test: _,
            frames,
        } => {
            let mut frames = copied(alloc, frames)?;
            let left = answer::<SymState>(question, holds(decision), &mut frames)?;
            let running = *running;
            Ok(Stage::Inside {
                running,
                left,
                frames,
            })
        }
        Wait::Forked { node, hops, ports } => {
            let Decision::Copy(number) = decision else {
                // Only copies are awaited.
                unreachable!()
            };
            Ok(Stage::Leaving {
                node: *node,
                port: ports[number as usize],
                hops: *hops,
            })
        }
    }
}
