//! The head and the tail of a report.

ghost use Rattle.std.specs.Prelude.{◌<◌};
ghost use Rattle.sn_edge.specs.Told.{SinkKept};
ghost use Rattle.sn_edge.specs.Put.{OnFailed};
ghost use Rattle.record_text.specs.Reports.{head_text, tail_text};
ghost use Rattle.record_lines.specs.Lines.{PutAs};

use record_text::{head_text, tail_text};
use sn_edge::{Put, Sink};
use std::alloc::Global;

/// Puts a text in one piece.
#[tactic(auto, using(crate::proofs::LineLemmas::put_as))]
pub(crate) fn put_piece<K: Sink>(piece: &str, out: &mut K) -> Put
    ensures kept { SinkKept (K.told out.old) (K.told out.new) }
    ensures failed { OnFailed result ((K.told out.old).faults < (K.told out.new).faults) }
    ensures puts { PutAs K.told K.put_gives out.old out.new piece.now result }
{
    out.put(piece.as_bytes())
}

/// Puts what stands before the records of a report.
pub fn put_head<K: Sink>(
    alloc: Global,
    cases: Option<u64>,
    hops: u32,
    limit: u32,
    out: &mut K,
) -> Put
    ensures kept { SinkKept (K.told out.old) (K.told out.new) }
    ensures failed { OnFailed result ((K.told out.old).faults < (K.told out.new).faults) }
    ensures puts { PutAs K.told K.put_gives out.old out.new (head_text cases hops limit) result }
{
    match head_text(alloc, cases, hops, limit) {
        Ok(text) => put_piece(&text, out),
        Err(_) => Put::NoMemory,
    }
}

/// Puts what stands behind the records of a report; `refuted` of them are refuted sides.
pub fn put_tail<K: Sink>(alloc: Global, refuted: u64, complete: bool, out: &mut K) -> Put
    ensures kept { SinkKept (K.told out.old) (K.told out.new) }
    ensures failed { OnFailed result ((K.told out.old).faults < (K.told out.new).faults) }
    ensures puts { PutAs K.told K.put_gives out.old out.new (tail_text refuted complete) result }
{
    match tail_text(alloc, refuted, complete) {
        Ok(text) => put_piece(&text, out),
        Err(_) => Put::NoMemory,
    }
}
