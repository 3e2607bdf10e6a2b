//! Acceptance.

ghost use Rattle.std.specs.Prelude.{◌≡◌, map, IfOk, IfErr};
ghost use Rattle.sefl_syntax.specs.Views.{ask_tree, job_tree};
ghost use Rattle.net_check.specs.Network.{entry, network};
ghost use Rattle.pattern_answers.specs.Asking.{IsStep};
ghost use Rattle.sn_edge.specs.Told.{PatternsKept};
ghost use Rattle.command_edge.specs.Files.{PatternsShow};
ghost use Rattle.command_runs.specs.Jobs.{AcceptFails, IsBadAt, IsTaken};

use crate::refusal::fault_of_refusal;
use command_edge::InputFault;
use net_check::{Accepted, accept};
use sefl_syntax::Job;
use sn_edge::Patterns;
use std::alloc::Global;

/// Accepts a job whose nodes have code.
pub fn accept_filled<P: Patterns>(
    alloc: Global,
    job: Job,
    patterns: &mut P,
) -> Result<Accepted, InputFault>
    ensures kept { PatternsKept (P.told patterns.old) (P.told patterns.new) }
    ensures taken { IfOk result (λ a. IsTaken (IsStep P.told P.find_gives) P.told
        patterns.old (job_tree job) (network a.net) (entry a.injection) patterns.new) }
    ensures asks { IfOk result (λ a. map ask_tree a.asks.items ≡ (job_tree job).asks) }
    ensures fails { IfErr result (λ fault. AcceptFails (IsBadAt (IsStep P.told P.find_gives) P.told)
        patterns.old (job_tree job) fault patterns.new) }
    ensures shows { IfErr result (PatternsShow (P.told patterns.old) (P.told patterns.new)) }
{
    match accept(alloc, job, patterns) {
        Ok(accepted) => Ok(accepted),
        Err(fault) => Err(fault_of_refusal(fault)),
    }
}
