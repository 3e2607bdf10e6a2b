//! Laws of loops that are found. Each is the contract of a function that does nothing.

ghost use Rattle.std.specs.Prelude.{◌≡◌, ◌≤◌, ℕ, [], List};
ghost use Rattle.net_check.specs.Network.{Entry, Network};
ghost use Rattle.command_edge.specs.Puts.{Outcome};
ghost use Rattle.command_edge.specs.declared.ending.Ending.{Ending as EndingOf};
ghost use Rattle.command_edge.specs.declared.ending.Ending.TheVariants.{Done};
ghost use Rattle.hop_bounds.specs.Beyond.{HasSameWalks};
ghost use Rattle.loop_check.specs.Finding.{AreFound};
ghost use Rattle.loops_command.specs.Endless.{GoesRound};
ghost use Rattle.loops_command.specs.Loops.{IsLoopsText, LoopsOf};
ghost use Rattle.loops_command.specs.declared.text.OpenPaths.{OpenPaths as OpenPathsOf};

use explore_command::laws::explorations_have_one_ending;
use hop_bounds::laws::uncut_records_go_beyond;
use loop_meaning::laws::a_cut_path_arrives;
use one_list::laws::{exact_records_are_one, verdicts_are_one};

/// Where `loops` ends with Done and finds no path that is cut, each packet has the same walks under every larger bound of hops.
pub fn without_cut_paths_walks_stay()
    ensures { (hops limit : ℕ) (net : Network) (i : Entry) (detail : OpenPathsOf) (whole : List ℕ)
        → (t : IsLoopsText hops limit net i detail Done whole)
        → t.found ≡ [] → (more : ℕ) → hops ≤ more → HasSameWalks net i hops more }
{
    uncut_records_go_beyond();
}

/// What `loops` comes to of a job is one thing.
pub fn loops_have_one_outcome()
    ensures { (hops limit : ℕ) (net : Network) (i : Entry) (detail : OpenPathsOf) (a b : Outcome)
        → LoopsOf hops limit net i detail a → LoopsOf hops limit net i detail b → a ≡ b }
{
    verdicts_are_one();
    a_cut_path_arrives();
    exact_records_are_one();
    explorations_have_one_ending();
}

/// Each loop that `loops` finds on a path which is marked satisfiable has a packet: the path's own, which goes round for ever.
pub fn loops_of_packets_are_for_ever()
    ensures { (hops limit : ℕ) (net : Network) (i : Entry) (detail : OpenPathsOf) (ending : EndingOf) (whole : List ℕ)
        → (t : IsLoopsText hops limit net i detail ending whole)
        → AreFound (GoesRound net i hops) 0 t.are.records t.found }
{
    a_cut_path_arrives();
}
