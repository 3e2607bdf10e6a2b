//! What is found of the paths of a job that are cut.

ghost use Rattle.std.specs.Prelude.{◌≡◌, ◌<◌, IfOk, IfErr, string_bytes};
ghost use Rattle.net_check.specs.Network.{entry, network};
ghost use Rattle.net_check.specs.Sound.{AreOfOneJob};
ghost use Rattle.command_edge.specs.declared.fault.OwnFault.TheVariants.{NoMemory as NoMemoryFault};
ghost use Rattle.path_questions.specs.Deciding.{entry_of, net_of};
ghost use Rattle.loops_command.specs.Loops.{AreLoops, IsLoopsText};

use crate::text::{OpenPaths, loops_text};
use ask_command::ending_of;
use command_edge::{Ending, OwnFault};
use loop_check::laws::what_is_found_is_right;
use loop_check::{Finding, Mark};
use loop_meaning::LoopAnswer;
use net_check::Accepted;
use path_questions::Subject;
use sn_width::{NoMemory, Steps};
use std::alloc::Global;
use std::marker::{Brand, PhantomData};
use std::sync::ledger::{Blank, Ledger};
use symbolic_engine::observe;

/// What is found, from one exploration.
fn search_with<M: Mark, L: Ledger>(
    alloc: Global,
    subject: &Subject<'_>,
    limit: u32,
    blank: Blank,
) -> Result<(Ending, Vec<(u64, LoopAnswer)>), NoMemory>
    requires job { AreOfOneJob (net_of subject.now) (entry_of subject.now) }
    requires limit { 0 < limit }
    requires net { net_of subject.now ≡ M.net }
    requires entry { entry_of subject.now ≡ M.entry }
    requires hops { subject.now.hops ≡ M.hops }
    requires name { blank.name ≡ L.name }
    requires parts { blank.parts ≡ L.parts }
    requires some { 0 < blank.parts }
    ensures { IfOk result (λ r. AreLoops M.hops limit M.net M.entry r.0 r.1.items) }
{
    what_is_found_is_right();
    let mut steps = Steps::<L>::new(blank);
    let mut finding: Finding<'_, M> = Finding {
        alloc,
        subject: *subject,
        found: Vec::new(alloc),
        count: 0,
        of: PhantomData,
    };
    let ended = observe(
        alloc,
        subject.net,
        subject.injection,
        subject.hops,
        limit,
        &mut finding,
        &mut steps,
    )?;
    let Finding { found, .. } = finding;
    Ok((ending_of(ended), found))
}

/// The text of what is found, with its ending.
pub(crate) fn text_of_loops(
    alloc: Global,
    job: &Accepted,
    hops: u32,
    limit: u32,
    detail: OpenPaths,
) -> Result<(Ending, String), OwnFault>
    requires job { AreOfOneJob (network job.now.net) (entry job.now.injection) }
    requires limit { 0 < limit }
    ensures text { IfOk result (λ t. IsLoopsText hops limit (network job.now.net) (entry job.now.injection) detail t.0
        (string_bytes t.1)) }
    ensures refused { IfErr result (λ fault. fault ≡ NoMemoryFault) }
{
    let subject = Subject {
        net: &job.net,
        injection: &job.injection,
        hops,
    };
    let (ending, found) = search_with::<Brand, Brand>(alloc, &subject, limit, Blank::new(1))?;
    let text = loops_text(alloc, &found, detail)?;
    Ok((ending, text))
}
