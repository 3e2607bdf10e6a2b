//! A packet on its way, and its run of a port's code.

ghost use Rattle.std.specs.Prelude.{◌≡◌, IfOk, OnOk};
ghost use Rattle.cell_stacks.specs.Outcome.{Meets};
ghost use Rattle.sefl_syntax.specs.Views.{code_tree};
ghost use Rattle.net_check.specs.Network.{network};
ghost use Rattle.sefl_meaning.specs.Carried.{scene_at};
ghost use Rattle.sefl_meaning.specs.Runs.{noting, run_code};
ghost use Rattle.sefl_meaning.specs.Values.{numbers};
ghost use Rattle.sefl_meaning.specs.View.{carried_of, trail_of};
ghost use Rattle.instr_steps.specs.Scenes.{scene_of};
ghost use Rattle.code_frames.specs.Steps.{chosen};
ghost use Rattle.packet_run.specs.Packets.{RunsAs, given_of, progress_of};

use code_frames::{Exit, Frame, Machine, Move, answer, next};
use instr_steps::{Numbers, Scene, Step, put, take, truth_of};
use net_check::Net;
use sefl_meaning::laws::runs_are_ways;
use sefl_meaning::{Decision, End, Place, State, Walk};
use sefl_syntax::{Cond, Instr, Target};
use sn_tree::Shared;
use sn_width::{NameId, NoMemory, NodeId, Num, StepFault, Steps, Width};
use std::alloc::Global;
use std::sync::ledger::Ledger;

/// The numbers of a packet, what was decided on its way so far, what it carries, and the widths of the choices that were made.
pub struct Packet<'a> {
    pub numbers: Numbers<'a>,
    pub decisions: Vec<Decision>,
    pub state: State,
    pub choices: Vec<Width>,
}

impl<'a> Packet<'a> {
    /// The walk that has ended so, over these ports.
    pub fn into_walk(self, places: Vec<Place>, end: End) -> Walk
        ensures { trail_of result ≡ record {
          decisions = self.entry.decisions.items;
          places = places.items;
          end' = end;
          state = carried_of self.entry.state;
        } }
    {
        let Packet {
            numbers: _,
            decisions,
            state,
            choices: _,
        } = self;
        Walk {
            decisions,
            places,
            end,
            state,
        }
    }
}

// Written out, and not derived, so that the proof of a function that lets one go sees a call.
impl<'a> Drop for Packet<'a> {
    fn drop(self) {
        let Packet {
            numbers: _,
            decisions,
            state,
            choices,
        } = self;
        drop(decisions);
        drop(state);
        drop(choices);
    }
}

impl<'a> Machine for Packet<'a> {
    ghost use Rattle.std.specs.Prelude.{ℕ, Bool, List};
    ghost use Rattle.sefl_meaning.specs.declared.walk.Decision.{Decision};
    ghost use Rattle.sefl_meaning.specs.Values.{numbers};
    ghost use Rattle.sefl_meaning.specs.View.{carried_of};

    type Value = Num;

    type Test = bool;

    ghost Truth = { Bool };

    ghost truth = { λ truth. truth };

    ghost values = { λ p. numbers p.numbers.numbers.now p.numbers.unknowns };

    ghost carried = { λ p. carried_of p.state };

    ghost choices = { λ p. p.choices.items };

    ghost Rest = { List Decision × List ℕ × ℕ };

    ghost rest = { λ p. (p.decisions.items, p.numbers.numbers.now, p.numbers.unknowns) };

    ghost IsFit = { λ p test. Unit {0} };

    fn step<L: Ledger>(
        &mut self,
        alloc: Global,
        at: &Scene<'_>,
        step: Step<'_>,
        steps: &mut Steps<L>,
    ) -> Result<(), StepFault> {
        steps.tick();
        take(alloc, &self.numbers, at, &mut self.state, step)
    }

    fn choose<L: Ledger>(
        &mut self,
        alloc: Global,
        at: &Scene<'_>,
        target: &Target,
        steps: &mut Steps<L>,
    ) -> Result<(), StepFault> {
        steps.tick();
        choose(
            alloc,
            &self.numbers,
            at,
            &mut self.state,
            &mut self.choices,
            target,
        )
    }

    fn test<L: Ledger>(
        &self,
        alloc: Global,
        at: &Scene<'_>,
        test: &Cond,
        steps: &mut Steps<L>,
    ) -> Result<bool, StepFault> {
        steps.tick();
        truth_of(alloc, &self.numbers, at, &self.state, test)
    }

    fn iterations<L: Ledger>(
        &self,
        alloc: Global,
        node: NodeId,
        names: &[NameId],
        steps: &mut Steps<L>,
    ) -> Result<Vec<(Option<NodeId>, NameId)>, NoMemory> {
        steps.tick();
        self.state.scopes.present(alloc, node, names)
    }

    fn pass<L: Ledger>(&self, steps: &mut Steps<L>) {
        steps.tick();
    }
}

/// Puts the packet's next choice into the top cell.
fn choose(
    alloc: Global,
    o: &Numbers<'_>,
    at: &Scene<'_>,
    state: &mut State,
    choices: &mut Vec<Width>,
    target: &Target,
) -> Result<(), StepFault>
    ensures { Meets (chosen (numbers o.now.numbers.now o.now.unknowns) (scene_of at.now) target.now
        (carried_of state.old, choices.old.items))
        result (carried_of state.old, choices.old.items) (carried_of state.new, choices.new.items) }
{
    let width = target.width();
    let value = o.choice(width, choices.len());
    choices.push(width)?;
    match put(alloc, at, state, target, value) {
        Ok(()) => Ok(()),
        Err(fault) => {
            choices.pop();
            Err(fault)
        }
    }
}

/// Runs code of a box, whose first instruction has the site.
pub fn run_code<'a, L: Ledger>(
    alloc: Global,
    net: &Net,
    node: NodeId,
    site: u32,
    code: &'a [Instr],
    packet: &mut Packet<'_>,
    steps: &mut Steps<L>,
) -> Result<Exit<'a>, NoMemory>
    ensures run { IfOk result (λ exit. RunsAs packet.new exit (noting packet.old.decisions.items
        (run_code packet.old.numbers.numbers.now packet.old.numbers.unknowns (scene_at (network net.now) node) site
        (code_tree code.now) (progress_of packet.old)))) }
    ensures given { OnOk result (given_of packet.new ≡ given_of packet.old) }
{
    runs_are_ways();
    let mut frames = Vec::new(alloc);
    let iterations = Shared::empty();
    frames.push(Frame::Code {
        iterations,
        site,
        code,
    })?;
    loop {
        match next(alloc, packet, net, node, &mut frames, steps)? {
            Move::Ended(exit) => return Ok(exit),
            Move::Asked { question, test } => {
                packet.decisions.push(question.decision(test))?;
                if let Some(exit) = answer::<Packet<'_>>(&question, test, &mut frames)? {
                    return Ok(exit);
                }
            }
        }
    }
}
