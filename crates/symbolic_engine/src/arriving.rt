//! Ports that a run arrives at, and what comes behind their code.

ghost use Rattle.std.specs.Prelude.{◌≡◌, ℕ, reverse, IfOk};
ghost use Rattle.lin_term.specs.Terms.{LinearTerm};
ghost use Rattle.path_formula.specs.Formulas.{FormulaTree};
ghost use Rattle.sefl_syntax.specs.declared.net.Side.TheVariants.{Inward as AtInput, Outward as AtOutput};
ghost use Rattle.net_check.specs.Network.{Network, network};
ghost use Rattle.sefl_meaning.specs.Courses.{Progress};
ghost use Rattle.sefl_meaning.specs.Trees.{over, port_course};
ghost use Rattle.sefl_meaning.specs.Values.{Values};
ghost use Rattle.sefl_meaning.specs.Walks.{place_at};
ghost use Rattle.sym_state.specs.Symbolic.{with_place};
ghost use Rattle.code_frames.specs.Frames.{course_frames, exit_of};
ghost use Rattle.path_exec.specs.Location.{point_at};
ghost use Rattle.path_exec.specs.Moves.{Reaches};
ghost use Rattle.symbolic_engine.specs.Origins.{location_of, progress_in};
ghost use Rattle.symbolic_engine.specs.Stages.{behind_running, behind_side, from_port, wait_tree};
ghost use Rattle.symbolic_engine.specs.declared.stage.Wait.TheVariants.{Forked as ForkedAt};
ghost use Rattle.symbolic_engine.specs.Seeing.{MovedFrom, standing_at};

use crate::origin::{Origin, Run};
use crate::points::{Finished, Standing, Waiting};
use crate::stage::{Running, Stage, Wait};
use cell_values::{code_of, failed_at, first_site, hops_behind, link_of};
use code_frames::{Exit, Frame};
use net_check::Net;
use path_exec::engine::{Moved, Next, Offer};
use sefl_meaning::{End, Place};
use sefl_syntax::Side;
use sn_tree::Shared;
use sn_width::{NoMemory, NodeId};
use std::alloc::Global;

/// The code of a port, as it is to run.
fn port_frames<'a>(
    alloc: Global,
    net: &'a Net,
    node: NodeId,
    side: Side,
    port: u32,
) -> Result<Vec<Frame<'a>>, NoMemory>
    ensures { IfOk result (λ frames. (o : Values LinearTerm FormulaTree) (p : Progress LinearTerm)
        → course_frames o (network net.now) node (reverse frames.items) p
        ≡ port_course o (network net.now) node side port p) }
{
    let site = first_site(net, node, side, port)?;
    let code = code_of(net, node, side, port);
    let iterations = Shared::empty();
    let mut frames = Vec::new(alloc);
    frames.push(Frame::Code {
        iterations,
        site,
        code,
    })?;
    Ok(frames)
}

/// The run, with one port more that it arrived at.
fn arrived<B: Origin>(
    alloc: Global,
    run: Run<B>,
    node: NodeId,
    side: Side,
    port: u32,
) -> Result<Run<B>, NoMemory>
    ensures { IfOk result (λ there. there ≡ with_place run (place_at node side port)) }
{
    let mut state = run.into_box();
    state.arrive(alloc, Place { node, side, port })?;
    Ok(Run::<B>::of(state))
}

/// Arrives at a port, with `hops` hops left: before its code, or, where that does not run, where the run is cut.
pub(crate) fn arrive<'a, B: Origin>(
    alloc: Global,
    net: &'a Net,
    run: Run<B>,
    node: NodeId,
    side: Side,
    port: u32,
    hops: u32,
) -> Result<Standing<'a, B>, NoMemory>
    ensures { IfOk result (λ there. (begun : ℕ) → Reaches B.start
        (point_at begun (location_of B.start run (λ n.
        from_port (network net.now) run.unknowns side hops node port (progress_in run n))))
        (point_at begun (standing_at B.start (network net.now) there.run there.stage)) there.run.carried) }
{
    run.is_own();
    let run = arrived(alloc, run, node, side, port)?;
    let Some(rest) = hops_behind(side, hops) else {
        let stage = Stage::Cut;
        return Ok(Standing { run, stage });
    };
    let frames = port_frames(alloc, net, node, side, port)?;
    let running = Running {
        node,
        side,
        port,
        hops: rest,
    };
    let left = None;
    let stage = Stage::Inside {
        running,
        left,
        frames,
    };
    Ok(Standing { run, stage })
}

/// The run is over.
pub(crate) fn ended<'a, B: Origin>(
    run: Run<B>,
    how: End,
) -> Moved<Standing<'a, B>, Finished<B>, Waiting<'a, B>>
    ensures { (own : Network) → MovedFrom B.start own run (λ n. over (progress_in run n) how) result }
{
    run.is_own();
    let over = Finished { run, how };
    let next = Next::AtEnd { over };
    Moved::Stopped { next }
}

/// The run waits for a copy.
fn forked<'a, B: Origin>(
    run: Run<B>,
    node: NodeId,
    hops: u32,
    ports: &'a [u32],
) -> Result<Moved<Standing<'a, B>, Finished<B>, Waiting<'a, B>>, NoMemory>
    ensures { IfOk result (λ moved. (own : Network)
        → MovedFrom B.start own run (wait_tree own (ForkedAt node hops ports.entry) run) moved) }
{
    let Ok(copies) = u32::try_from(ports.len()) else {
        return Err(NoMemory);
    };
    run.is_own();
    let wait = Wait::Forked { node, hops, ports };
    let node = Waiting { run, wait };
    let offer = Offer::Fork { copies };
    let next = Next::AtNode { node, offer };
    Ok(Moved::Stopped { next })
}

/// Goes on where the code of a port has come to its exit.
pub(crate) fn behind<'a, B: Origin>(
    alloc: Global,
    net: &'a Net,
    run: Run<B>,
    running: Running,
    exit: Exit<'a>,
) -> Result<Moved<Standing<'a, B>, Finished<B>, Waiting<'a, B>>, NoMemory>
    ensures { IfOk result (λ moved. MovedFrom B.start (network net.now) run
        (λ n. behind_running (network net.now) run.unknowns running (exit_of exit.entry) (progress_in run n)) moved) }
{
    match running.side {
        Side::Inward => passed(alloc, net, run, running, exit),
        Side::Outward => crossed(alloc, net, run, running, exit),
    }
}

/// Behind the code of an input port.
fn passed<'a, B: Origin>(
    alloc: Global,
    net: &'a Net,
    run: Run<B>,
    running: Running,
    exit: Exit<'a>,
) -> Result<Moved<Standing<'a, B>, Finished<B>, Waiting<'a, B>>, NoMemory>
    ensures { IfOk result (λ moved. MovedFrom B.start (network net.now) run
        (λ n. behind_side (network net.now) run.unknowns running.node running.port running.hops AtInput
        (exit_of exit.entry) (progress_in run n)) moved) }
{
    match exit {
        Exit::Off => Ok(ended(run, End::Stopped)),
        Exit::Go(port) => {
            let place = arrive(
                alloc,
                net,
                run,
                running.node,
                Side::Outward,
                port,
                running.hops,
            )?;
            Ok(Moved::Arrived { place })
        }
        Exit::Forked(ports) => forked(run, running.node, running.hops, ports),
        Exit::Failed { failure, site } => Ok(ended(run, failed_at(failure, site))),
    }
}

/// Behind the code of an output port.
fn crossed<'a, B: Origin>(
    alloc: Global,
    net: &'a Net,
    run: Run<B>,
    running: Running,
    exit: Exit<'a>,
) -> Result<Moved<Standing<'a, B>, Finished<B>, Waiting<'a, B>>, NoMemory>
    ensures { IfOk result (λ moved. MovedFrom B.start (network net.now) run
        (λ n. behind_side (network net.now) run.unknowns running.node running.port running.hops AtOutput
        (exit_of exit.entry) (progress_in run n)) moved) }
{
    match exit {
        Exit::Off => match link_of(net, running.node, running.port) {
            None => Ok(ended(run, End::Delivered)),
            Some((node, port)) => {
                let place = arrive(alloc, net, run, node, Side::Inward, port, running.hops)?;
                Ok(Moved::Arrived { place })
            }
        },
        Exit::Failed { failure, site } => Ok(ended(run, failed_at(failure, site))),
        // Forward and Fork do not stand at an output port.
        Exit::Go(_) => Ok(ended(run, End::Stopped)),
        Exit::Forked(_) => Ok(ended(run, End::Stopped)),
    }
}
