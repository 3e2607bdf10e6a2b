//! Instructions by what they do.

ghost use Rattle.std.specs.Prelude.{◌≡◌};
ghost use Rattle.sefl_syntax.specs.Views.{instr_tree};
ghost use Rattle.code_frames.specs.Acts.{act_tree};

use instr_steps::Step;
use sefl_syntax::{Cond, Instr, Name, Target, Text};

/// An instruction by its parts: it changes what is carried, makes a choice, or says what runs next.
#[derive(Clone, Copy)]
pub(crate) enum Act<'a> {
    Step(Step<'a>),
    Choose(&'a Target),
    Flow(Flow<'a>),
}

/// An instruction that says what runs next, by its parts.
#[derive(Clone, Copy)]
pub(crate) enum Flow<'a> {
    Constrain(&'a Cond),
    Fail(&'a Text),
    If {
        test: &'a Cond,
        first: &'a [Instr],
        other: &'a [Instr],
    },
    For {
        var: &'a Name,
        pattern: &'a Text,
        body: &'a [Instr],
    },
    Forward(u32),
    Fork(&'a [u32]),
    Block(&'a [Instr]),
    NoOp,
}

/// What an instruction does.
pub(crate) fn act_of(instr: &Instr) -> Act<'_>
    ensures { act_tree result ≡ instr_tree instr.now }
{
    match instr {
        Instr::Allocate(target) => Act::Step(Step::Allocate(target)),
        Instr::Deallocate(target) => Act::Step(Step::Deallocate(target)),
        Instr::Assign { target, value } => Act::Step(Step::Assign { target, value }),
        Instr::AssignAny(target) => Act::Choose(target),
        Instr::CreateTag { name, addr } => Act::Step(Step::CreateTag { name, addr }),
        Instr::SetTag { name, addr } => Act::Step(Step::SetTag { name, addr }),
        Instr::DestroyTag(name) => Act::Step(Step::DestroyTag(name)),
        Instr::Constrain(test) => Act::Flow(Flow::Constrain(test)),
        Instr::Fail(text) => Act::Flow(Flow::Fail(text)),
        Instr::If { test, first, other } => Act::Flow(Flow::If { test, first, other }),
        Instr::For { var, pattern, body } => Act::Flow(Flow::For { var, pattern, body }),
        Instr::Forward(port) => Act::Flow(Flow::Forward(*port)),
        Instr::Fork(ports) => Act::Flow(Flow::Fork(ports)),
        Instr::Block(body) => Act::Flow(Flow::Block(body)),
        Instr::NoOp => Act::Flow(Flow::NoOp),
    }
}
