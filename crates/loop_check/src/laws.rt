//! Laws of what is found. Each is the contract of a function that does nothing.

ghost use Rattle.std.specs.Prelude.{ℕ, List};
ghost use Rattle.net_check.specs.Network.{Entry, Network};
ghost use Rattle.exact_records.specs.Packets.{AreExactFor};
ghost use Rattle.exact_records.specs.Records.{RecordTree};
ghost use Rattle.loop_meaning.specs.declared.answer.LoopAnswer.{LoopAnswer};
ghost use Rattle.loop_check.specs.Finding.{AreFound, AreRight, IsAnswerTo};

use loop_meaning::laws::loops_are_for_ever;

/// What is found of the paths that are cut among exact records is right.
pub fn what_is_found_is_right()
    ensures { (net : Network) (i : Entry) (hops limit : ℕ) (records : List RecordTree) (found : List (ℕ × LoopAnswer))
        → AreExactFor net i hops limit records → AreFound (IsAnswerTo net i hops) 0 records found
        → AreRight net i hops 0 records found }
{
    loops_are_for_ever();
}
