//! Laws of what `explore` writes. Each is the contract of a function that does nothing.

ghost use Rattle.std.specs.Prelude.{◌≡◌, ℕ, List};
ghost use Rattle.net_check.specs.Network.{Entry, Network};
ghost use Rattle.path_records.specs.declared.sides.RefutedSides.TheVariants.{Counted};
ghost use Rattle.command_edge.specs.Puts.{Outcome};
ghost use Rattle.command_edge.specs.declared.ending.Ending.{Ending as EndingOf};
ghost use Rattle.exact_records.specs.Packets.{AreExactFor};
ghost use Rattle.exact_records.specs.Records.{RecordTree};
ghost use Rattle.explore_command.specs.Explores.{IsEnding, ReportsOf};
ghost use Rattle.explore_command.specs.Laws.{CutsAreBeginnings, ReportsAreReadBack, ReportsTellWalks, UncutReportsGoBeyond};

use exact_records::laws::whole_records_have_one_path_a_walk;
use hop_bounds::laws::uncut_records_go_beyond;
use one_list::laws::{alike_records_tell_the_same, exact_records_are_one};
use path_report::laws::lines_are_read_back;
use record_lines::laws::a_record_comes_behind_the_others;
use record_text::laws::lines_join;

/// The headline: where the report of a job is written whole, it tells the walks of all packets that meet the injection, each by
/// exactly one path; or by one path or by decisions that were not tried, where something was left out. And it is read back.
pub fn reports_tell_walks()
    ensures { (net : Network) (i : Entry) (hops : ℕ) → ReportsTellWalks net i hops }
{
    whole_records_have_one_path_a_walk();
    uncut_records_go_beyond();
    lines_join();
    lines_are_read_back();
}

/// What is read of a report is a report of just its records that are written, with the number of its refuted sides.
pub fn reports_are_read_back()
    ensures { (net : Network) (i : Entry) (hops : ℕ) → ReportsAreReadBack net i hops }
{
    lines_join();
    lines_are_read_back();
}

/// What was written where the sink failed is a beginning of a report, or of the head and the pieces of records that are exact
/// so far: at most as many paths and refuted sides as the limit, and untried decisions only behind that many.
pub fn cuts_are_beginnings()
    ensures { (net : Network) (i : Entry) (hops : ℕ) → CutsAreBeginnings net i hops }
{
    lines_join();
    a_record_comes_behind_the_others();
}

/// Where no path of a report was cut by the bound of hops, and nothing was left untried, each packet has the same walks under
/// every larger bound, and the report's records are exact for it.
pub fn uncut_reports_hold_beyond()
    ensures { (net : Network) (i : Entry) (hops : ℕ) → UncutReportsGoBeyond net i hops }
{
    uncut_records_go_beyond();
}

/// Lists of records that are exact for one net, injection, hops and limit end alike: something was left untried in all of them, or
/// in none.
pub fn explorations_have_one_ending()
    ensures { (hops limit : ℕ) (net : Network) (i : Entry) (rs qs : List RecordTree) (a b : EndingOf)
        → AreExactFor net i hops limit rs
        → AreExactFor net i hops limit qs → IsEnding a rs → IsEnding b qs → a ≡ b }
{
    alike_records_tell_the_same();
    exact_records_are_one();
}

/// Where refuted sides are only counted, `explore` of a job comes to one report.
pub fn counted_reports_have_one_outcome()
    ensures { (hops limit : ℕ) (net : Network) (i : Entry) (a b : Outcome)
        → ReportsOf hops limit Counted net i a → ReportsOf hops limit Counted net i b → a ≡ b }
{
    alike_records_tell_the_same();
    exact_records_are_one();
}
