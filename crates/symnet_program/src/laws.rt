//! What a run tells, and what a status tells in a world. These functions do nothing: their contracts are the laws. With the
//! clauses `ran` and `told` of `symnet` they speak of each call, and of each whose outside tells such a world.

ghost use Rattle.std.specs.Prelude.{◌≡◌, ◌⊎◌, ◌<◌, ◌≤◌, ℕ, Bool, List, length, Option, Some, None};
ghost use Rattle.std.specs.Option.{ForSome};
ghost use Rattle.sn_width.specs.declared.ids.Site.{Site};
ghost use Rattle.sefl_syntax.specs.Trees.{JobTree};
ghost use Rattle.job_items.specs.Rules.{refusal};
ghost use Rattle.job_items.specs.declared.rule.Rule.{Rule};
ghost use Rattle.net_check.specs.Network.{Entry, Network};
ghost use Rattle.net_check.specs.Sound.{IsSound};
ghost use Rattle.sefl_lex.specs.Packets.{packet_of};
ghost use Rattle.command_runs.specs.Flaws.{Flaw, HasFlaw};
ghost use Rattle.command_runs.specs.Inputs.{AllOpen, Given, IsSettled};
ghost use Rattle.command_runs.specs.Jobs.{first_bad};
ghost use Rattle.command_runs.specs.Outside.{World, outside, world};
ghost use Rattle.command_runs.specs.Refusals.{fault_by_rule};
ghost use Rattle.command_edge.specs.Puts.{Outcome};
ghost use Rattle.command_edge.specs.declared.ending.Ending.TheVariants as ending;
ghost use Rattle.command_runs.specs.Tables.{FirstUnfilled, IsFilled};
ghost use Rattle.command_edge.specs.declared.fault.InputFault.{InputFault};
ghost use Rattle.command_edge.specs.declared.limits.TheConstants.{FILE_LIMIT};
ghost use Rattle.symnet_program.specs.Commands.{inputs, work};
ghost use Rattle.symnet_program.specs.Headline.{TellsJob};
ghost use Rattle.symnet_program.specs.Program.{IsCaused, MayWrite};
ghost use Rattle.symnet_program.specs.Run.{IsRun};
ghost use Rattle.walk_command.specs.Walks.{WalksOf};
ghost use Rattle.command_runs.specs.Status.{IsUnread, IsWritten, MayBeBad, OrBad, input_status, outcome_status};
ghost use Rattle.symnet_program.specs.Told.{HasFileIn, HasJobIn, MayStop, Ran, TellsNet};
ghost use Rattle.command_words.specs.Commands.{Command as CommandOf, explore, walk};
ghost use Rattle.path_records.specs.declared.sides.RefutedSides.{RefutedSides as Sides};
ghost use Rattle.command_runs.specs.declared.status.Status.{Status as StatusOf};
ghost use Rattle.command_runs.specs.declared.status.Status.TheVariants.{BadPattern, Done, NoFile, Partial, Syntax, TooBig};

use command_runs::laws::{jobs_are_filled_once, worlds_decide};
use sn_edge::{Folder, Patterns};
use walk_command::laws::walks_have_one_outcome;

/// What a run tells, each by itself. The status has its cause. The sink gained the text that the command defines, a beginning of it,
/// or nothing. With Done `explore` wrote the report of the job in the file, and this tells all walks of all packets that meet the
/// injection; with Partial too, but that walks may go on by decisions that were not tried.
pub fn runs_tell<F: Folder, P: Patterns>()
    ensures cause { (u v : F × P) (said : Option CommandOf) (status : StatusOf) (part : List ℕ)
        → IsRun (outside F.told F.load_gives P.told P.find_gives) u v said status part
        → IsCaused (outside F.told F.load_gives P.told P.find_gives) u v said status }
    ensures written { (u v : F × P) (said : Option CommandOf) (status : StatusOf) (part : List ℕ)
        → IsRun (outside F.told F.load_gives P.told P.find_gives) u v said status part
        → MayWrite (outside F.told F.load_gives P.told P.find_gives) u v said status part }
    ensures headline { (u v : F × P) (job : List ℕ) (cases hops limit : ℕ) (pruned : Sides)
        (whole : List ℕ)
        → IsRun (outside F.told F.load_gives P.told P.find_gives) u v (Some (explore job hops limit cases pruned)) Done
        whole
        → TellsJob (outside F.told F.load_gives P.told P.find_gives) u v job cases hops limit pruned ending.Done
        whole }
    ensures partial { (u v : F × P) (job : List ℕ) (cases hops limit : ℕ) (pruned : Sides)
        (whole : List ℕ)
        → IsRun (outside F.told F.load_gives P.told P.find_gives) u v (Some (explore job hops limit cases pruned)) Partial
        whole
        → TellsJob (outside F.told F.load_gives P.told P.find_gives) u v job cases hops limit pruned ending.Partial
        whole }
{}

/// What is wrong with the job's file, or with the files of its tables, is told, unless a file was not read or there was no memory.
pub fn jobs_are_told()
    ensures absent { (command : CommandOf) (job : List ℕ) (w : World) (status : StatusOf) → Ran w command job status
        → w.at job ≡ None → (status ≡ NoFile job) ⊎ IsUnread status }
    ensures long { (command : CommandOf) (job : List ℕ) (w : World) (status : StatusOf) (bytes : List ℕ)
        → Ran w command job status → w.at job ≡ Some bytes → FILE_LIMIT < length bytes
        → (status ≡ TooBig job) ⊎ IsUnread status }
    ensures flawed { (command : CommandOf) (job : List ℕ) (w : World) (status : StatusOf) (bytes : List ℕ) (flaw : Flaw)
        → Ran w command job status → HasFileIn w job bytes → HasFlaw bytes flaw
        → (status ≡ Syntax flaw.line flaw.column flaw.kind) ⊎ IsUnread status }
    ensures tables { (command : CommandOf) (job : List ℕ) (w : World) (status : StatusOf) (j : JobTree) (fault : InputFault)
        → Ran w command job status → HasJobIn w job j
        → FirstUnfilled (Some w.at) j.net.nodes fault → IsSettled w fault
        → (status ≡ input_status fault) ⊎ IsUnread status }
    ensures refused { (command : CommandOf) (job : List ℕ) (w : World) (status : StatusOf) (j full : JobTree) (site : Site)
        (rule : Rule)
        → Ran w command job status → HasJobIn w job j
        → IsFilled (Some w.at) j full → refusal full ≡ Some (site.0, rule)
        → (status ≡ input_status (fault_by_rule site rule)) ⊎ IsUnread status }
    ensures bad { (command : CommandOf) (job : List ℕ) (w : World) (status : StatusOf) (j full : JobTree) (site : Site)
        → Ran w command job status → HasJobIn w job j
        → IsFilled (Some w.at) j full → IsSound full
        → ForSome w.is_bad (λ is_bad. first_bad is_bad full ≡ Some site.0
        → (status ≡ BadPattern site) ⊎ IsUnread status) }
{
    jobs_are_filled_once();
}

/// Of a job that with code for its tables breaks no rule, and that has no bad pattern, `explore` tells Done or Partial.
pub fn explored_jobs_are_told()
    ensures { (job : List ℕ) (cases hops limit : ℕ) (pruned : Sides) (w : World) (status : StatusOf) (j full : JobTree)
        → IsCaused (world w) tt tt (Some (explore job hops limit cases pruned)) status → HasJobIn w job j
        → IsFilled (Some w.at) j full → IsSound full → IsWritten status ⊎ MayBeBad status }
{
    jobs_are_filled_once();
}

/// Of a job that with code for its tables breaks no rule, `walk` tells what comes of the packet's file, where it is told what the
/// patterns find; unless the run was stopped, or a pattern is bad.
pub fn walked_jobs_are_told()
    ensures absent { (job packet : List ℕ) (hops limit : ℕ) (w : World) (status : StatusOf) (net : Network) (i : Entry)
        → IsCaused (world w) tt tt (Some (walk job packet hops limit)) status → TellsNet w job net i
        → w.at packet ≡ None → (status ≡ NoFile packet) ⊎ OrBad IsUnread status }
    ensures long { (job packet : List ℕ) (hops limit : ℕ) (w : World) (status : StatusOf) (net : Network) (i : Entry)
        (bytes : List ℕ)
        → IsCaused (world w) tt tt (Some (walk job packet hops limit)) status → TellsNet w job net i
        → w.at packet ≡ Some bytes → FILE_LIMIT < length bytes → (status ≡ TooBig packet) ⊎ OrBad IsUnread status }
    ensures walked { (job packet : List ℕ) (hops limit : ℕ) (w : World) (status : StatusOf) (net : Network)
        (i : Entry) (bytes : List ℕ) (outcome : Outcome)
        → IsCaused (world w) tt tt (Some (walk job packet hops limit)) status → TellsNet w job net i
        → HasFileIn w packet bytes → WalksOf hops limit net i (packet_of bytes) outcome
        → (status ≡ outcome_status outcome) ⊎ MayBeBad status }
{
    worlds_decide();
    jobs_are_filled_once();
    walks_have_one_outcome();
}

/// Where all inputs are good, and it is told what the patterns find, the status tells what the own work comes to on them.
pub fn own_work_is_told()
    ensures { (command : CommandOf) (w : World) (finds : List ℕ → List ℕ → Bool) (given : List Given)
        (status : StatusOf)
        → w.finds ≡ Some finds → AllOpen (world w) tt (inputs command) given tt
        → IsCaused (world w) tt tt (Some command) status
        → ((outcome : Outcome) × (work command).comes given outcome × (status ≡ outcome_status outcome))
        ⊎ MayStop w status }
{
    worlds_decide();
}
