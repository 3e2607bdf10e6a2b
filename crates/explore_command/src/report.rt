//! The report of a job, piece by piece.

ghost use Rattle.std.specs.Prelude.{◌≡◌, ◌<◌, [], ◌∷◌, IfErr};
ghost use Rattle.sn_edge.specs.Told.{SinkKept};
ghost use Rattle.net_check.specs.Network.{entry, network};
ghost use Rattle.net_check.specs.Sound.{AreOfOneJob};
ghost use Rattle.command_runs.specs.Inputs.{given_of};
ghost use Rattle.command_edge.specs.Puts.{WriteShows};
ghost use Rattle.command_runs.specs.Runs.{Performs};
ghost use Rattle.explore_command.specs.Explores.{explore_work, is_done, said_choices};
ghost use Rattle.explore_command.specs.Putting.{PutsEnd, PutsRecords, PutsRest, StopShows, tail_of, tail_unless};

use command_edge::{Ending, Stop};
use kept_texts::{OfNet, Pieces};
use net_check::{Accepted, USUAL_CHOICES};
use path_exec::Ended;
use path_records::RefutedSides;
use record_lines::{Lines, Mark, put_head, put_tail};
use record_text::laws::lines_join;
use report_forms::names_are_spelled;
use report_forms::own_laws::exact_records_fit;
use sn_edge::{Put, Sink};
use sn_width::{NoMemory, Steps};
use std::alloc::Global;
use std::marker::{Brand, PhantomData};
use std::sync::ledger::{Blank, Ledger};
use symbolic_engine::observe;

/// What the tail of a report says.
#[derive(Clone, Copy)]
struct Tail {
    ending: Ending,
    /// How many records are refuted sides.
    refuted: u64,
}

/// What the tail says, if memory did not end.
fn tail_unless(over: bool, ending: Ending, refuted: u64) -> Result<Tail, Stop>
    ensures { result ≡ tail_unless over ending refuted }
{
    if over {
        return Err(Stop::NoMemory);
    }
    Ok(Tail { ending, refuted })
}

/// What the tail says where an exploration ended so; or why there is none.
fn tail_of(ended: Result<Ended, NoMemory>, over: bool, refuted: u64) -> Result<Tail, Stop>
    ensures { result ≡ tail_of ended over refuted }
{
    match ended {
        Ok(Ended::Whole) => tail_unless(over, Ending::Done, refuted),
        Ok(Ended::Partial) => tail_unless(over, Ending::Partial, refuted),
        Ok(Ended::Stopped) => Err(Stop::Write),
        Err(_) => Err(Stop::NoMemory),
    }
}

/// The bound on choices of cases that a report says: none where it is the usual one.
fn said_choices(most: u64) -> Option<u64>
    ensures { result ≡ said_choices most }
{
    match most {
        USUAL_CHOICES => None,
        _ => Some(most),
    }
}

/// Whether nothing was left out.
fn is_done(ending: Ending) -> bool
    ensures { result ≡ is_done ending }
{
    match ending {
        Ending::Done => true,
        Ending::Partial => false,
    }
}

/// Puts the records as they are found, by these pieces.
fn explore_records<N: OfNet, M: Mark<K>, K: Sink, L: Ledger>(
    alloc: Global,
    job: &Accepted,
    hops: u32,
    limit: u32,
    sides: RefutedSides,
    pieces: &mut Pieces<'_, N>,
    out: &mut K,
    blank: Blank,
) -> Result<Tail, Stop>
    requires job { AreOfOneJob (network job.now.net) (entry job.now.injection) }
    requires limit { 0 < limit }
    requires net { network job.now.net ≡ N.net }
    requires sides { sides ≡ M.sides }
    requires first { M.is_first out.old }
    requires alone { (u : K) → M.is_first u → u ≡ out.old }
    requires name { blank.name ≡ L.name }
    requires parts { blank.parts ≡ L.parts }
    requires some { 0 < blank.parts }
    ensures out_kept { SinkKept (K.told out.old) (K.told out.new) }
    ensures puts { PutsRecords K.told K.put_gives hops limit sides (network job.now.net) (entry job.now.injection)
        out.old out.new result }
    ensures shows { IfErr result (StopShows (K.told out.old) (K.told out.new)) }
{
    exact_records_fit();
    names_are_spelled(&job.net);
    let mut steps = Steps::<L>::new(blank);
    let mut lines: Lines<'_, '_, '_, N, M, K> = Lines {
        alloc,
        pieces,
        out,
        sides,
        over: false,
        some: false,
        refuted: 0,
        of: PhantomData,
    };
    let ended = observe(
        alloc,
        &job.net,
        &job.injection,
        hops,
        limit,
        &mut lines,
        &mut steps,
    );
    tail_of(ended, lines.over, lines.refuted)
}

/// Puts the records as they are found.
fn put_records<N: OfNet, M: Mark<K>, K: Sink, L: Ledger>(
    alloc: Global,
    job: &Accepted,
    hops: u32,
    limit: u32,
    sides: RefutedSides,
    out: &mut K,
    blank: Blank,
) -> Result<Tail, Stop>
    requires job { AreOfOneJob (network job.now.net) (entry job.now.injection) }
    requires limit { 0 < limit }
    requires net { network job.now.net ≡ N.net }
    requires sides { sides ≡ M.sides }
    requires first { M.is_first out.old }
    requires alone { (u : K) → M.is_first u → u ≡ out.old }
    requires name { blank.name ≡ L.name }
    requires parts { blank.parts ≡ L.parts }
    requires some { 0 < blank.parts }
    ensures out_kept { SinkKept (K.told out.old) (K.told out.new) }
    ensures puts { PutsRecords K.told K.put_gives hops limit sides (network job.now.net) (entry job.now.injection)
        out.old out.new result }
    ensures shows { IfErr result (StopShows (K.told out.old) (K.told out.new)) }
{
    let mut pieces: Pieces<'_, N> = Pieces::new(alloc, &job.net);
    explore_records::<N, M, K, L>(alloc, job, hops, limit, sides, &mut pieces, out, blank)
}

/// Puts the tail.
fn put_end<K: Sink>(alloc: Global, tail: Tail, out: &mut K) -> Result<Ending, Stop>
    ensures out_kept { SinkKept (K.told out.old) (K.told out.new) }
    ensures puts { PutsEnd K.told K.put_gives out.old out.new tail result }
    ensures shows { IfErr result (StopShows (K.told out.old) (K.told out.new)) }
{
    match put_tail(alloc, tail.refuted, is_done(tail.ending), out) {
        Put::All => Ok(tail.ending),
        Put::Failed => Err(Stop::Write),
        Put::NoMemory => Err(Stop::NoMemory),
    }
}

/// Puts what comes behind the head.
fn put_rest<K: Sink>(
    alloc: Global,
    job: &Accepted,
    hops: u32,
    limit: u32,
    sides: RefutedSides,
    out: &mut K,
) -> Result<Ending, Stop>
    requires job { AreOfOneJob (network job.now.net) (entry job.now.injection) }
    requires limit { 0 < limit }
    ensures out_kept { SinkKept (K.told out.old) (K.told out.new) }
    ensures puts { PutsRest K.told K.put_gives hops limit sides (network job.now.net) (entry job.now.injection) out.old
        out.new result }
    ensures shows { IfErr result (StopShows (K.told out.old) (K.told out.new)) }
{
    let tail = put_records::<Brand, Brand, K, Brand>(
        alloc,
        job,
        hops,
        limit,
        sides,
        out,
        Blank::new(1),
    )?;
    put_end(alloc, tail, out)
}

/// Puts the report: its head, its records as they are found, and its tail.
pub(crate) fn put_report<K: Sink>(
    alloc: Global,
    job: &Accepted,
    hops: u32,
    limit: u32,
    sides: RefutedSides,
    out: &mut K,
) -> Result<Ending, Stop>
    requires job { AreOfOneJob (network job.now.net) (entry job.now.injection) }
    requires limit { 0 < limit }
    ensures out_kept { SinkKept (K.told out.old) (K.told out.new) }
    ensures performs { Performs K.told K.put_gives out.old out.new
        (explore_work (entry job.now.injection).most_choices hops limit sides) (given_of job.now ∷ []) result }
    ensures shows { WriteShows (K.told out.old) (K.told out.new) result }
{
    lines_join();
    let cases = said_choices(job.injection.most_choices());
    match put_head(alloc, cases, hops, limit, out) {
        Put::All => put_rest(alloc, job, hops, limit, sides, out),
        Put::Failed => Err(Stop::Write),
        Put::NoMemory => Err(Stop::NoMemory),
    }
}
