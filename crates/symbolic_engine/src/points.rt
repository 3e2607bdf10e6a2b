//! Places, ends and nodes of runs.

ghost use Rattle.std.specs.Prelude.{◌≡◌, true};
ghost use Rattle.symbolic_engine.specs.Stages.{has_typed_test};

use crate::origin::{Origin, Run};
use crate::stage::{Stage, Wait};
use sefl_meaning::End;

/// A run, and how far it has come.
#[derive(Drop)]
pub struct Standing<'a, B: Origin> {
    pub run: Run<B>,
    pub stage: Stage<'a>,
}

/// A run that is over.
#[derive(Drop)]
pub struct Finished<B: Origin> {
    pub run: Run<B>,
    pub how: End,
}

/// A run that waits. The formula that it waits for is over the symbols of its state.
#[derive(Drop)]
pub struct Waiting<'a, B: Origin> {
    pub run: Run<B>,
    pub wait: Wait<'a>,
    pub ghost typed: { has_typed_test run wait ≡ true },
}
