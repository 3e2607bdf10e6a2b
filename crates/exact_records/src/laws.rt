//! Laws of exact records. Each is the contract of a function that does nothing.

ghost use Rattle.std.specs.Prelude.{ℕ};
ghost use Rattle.sefl_meaning.specs.Network.{Network, Entry};
ghost use Rattle.sefl_meaning.specs.Routes.{Splits};
ghost use Rattle.exact_records.specs.Records.{SymStart};
ghost use Rattle.exact_records.specs.Whole.{WalksHaveOnePath};
ghost use Rattle.exact_records.specs.Laws.{ExactRecordsShowWalks, PacketsTakeRoutes, PassagesTakeRoutes, RecordsTellPackets, StandingIsExact, StepsStand, VerdictsStay};

use crate::below::{facts, meanings};

/// Each step of an exploration keeps that the records made and the obligations left stand for the whole.
pub fn steps_keep_what_stands()
    ensures { (s : SymStart) → StepsStand s }
{
    facts();
}

/// A verdict stays known where symbols come that no formula has, and is written with zeros for them.
pub fn verdicts_stay()
    ensures { (s : SymStart) → VerdictsStay s }
{
    facts();
}

/// Records that stand are exact so far; where nothing is left they are exact. Each split has a copy.
pub fn records_that_stand_are_exact()
    ensures { (s : SymStart) → Splits s.tree → StandingIsExact s }
{
    facts();
}

/// The decisions that values take are those of the walks of the packet with these values, and each walk
/// is what the route of its decisions is at the packet.
pub fn packets_take_routes()
    ensures decisions { (net : Network) (i : Entry) (hops : ℕ) → PacketsTakeRoutes net i hops }
    ensures passages { (net : Network) (i : Entry) (hops : ℕ) → PassagesTakeRoutes net i hops }
{
    meanings();
}

/// Each record tells of packets what it means: the values of a path take it, and nothing takes a
/// refuted side.
pub fn records_tell_packets()
    ensures { (net : Network) (i : Entry) (hops : ℕ) → RecordsTellPackets net i hops }
{
    facts();
    meanings();
}

/// Exact records show each walk of each packet once.
pub fn exact_records_show_each_walk()
    ensures { (net : Network) (i : Entry) (hops : ℕ) → ExactRecordsShowWalks net i hops }
{
    facts();
    meanings();
}

/// Where nothing was left out, each walk of each packet that meets the injection has exactly one path,
/// with its decisions, places, end and fields.
pub fn whole_records_have_one_path_a_walk()
    ensures { (net : Network) (i : Entry) (hops : ℕ) → WalksHaveOnePath net i hops }
{}
