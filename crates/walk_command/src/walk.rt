//! The command `walk`.

ghost use Rattle.std.specs.Prelude.{◌≡◌, Some, [], ◌∷◌, IfOk, IfErr, string_bytes};
ghost use Rattle.net_check.specs.Network.{entry, network};
ghost use Rattle.net_check.specs.Sound.{AreOfOneJob};
ghost use Rattle.sefl_lex.specs.Packets.{packet_of};
ghost use Rattle.command_runs.specs.Inputs.{given_of, some_bytes};
ghost use Rattle.command_edge.specs.Puts.{text as a_text};
ghost use Rattle.command_runs.specs.Runs.{IsRefusal};
ghost use Rattle.walk_command.specs.Walks.{IsNoPacket, IsWalkRefusal, IsWalksText, WalkComes};

use crate::fault::fault_of_walk;
use crate::walks_text;
use command_edge::{Ending, OwnFault};
use command_runs::{Both, ByteFile, JobFile, OnePiece, Two};
use concrete_run::walk_all;
use net_check::Accepted;
use sefl_lex::{PacketFault, read_packet};
use sn_width::Num;
use std::alloc::Global;

/// All walks of the packet of one file through the job of the other, with `hops` hops; refused where they are more than
/// the limit.
#[derive(Clone, Copy)]
pub struct Walk<'a> {
    pub source: Both<JobFile<'a>, ByteFile<'a>>,
    pub hops: u32,
    pub limit: u32,
}

/// The numbers that the bytes of a packet's file spell.
pub(crate) fn numbers_of(alloc: Global, bytes: &[u8]) -> Result<Vec<Num>, OwnFault>
    ensures numbers { IfOk result (λ values. packet_of bytes.now ≡ Some values.items) }
    ensures refused { IfErr result (IsNoPacket bytes.now) }
{
    match read_packet(alloc, bytes) {
        Ok(values) => Ok(values),
        Err(PacketFault::NotNumbers) => Err(OwnFault::BadPacket { kind: 4 }),
        Err(PacketFault::NoMemory) => Err(OwnFault::NoMemory),
    }
}

/// The text of the walks of a packet with these numbers.
pub(crate) fn text_of_walks(
    alloc: Global,
    job: &Accepted,
    values: &[Num],
    hops: u32,
    limit: u32,
) -> Result<String, OwnFault>
    requires { AreOfOneJob (network job.now.net) (entry job.now.injection) }
    ensures text { IfOk result (λ text. IsWalksText hops limit (network job.now.net) (entry job.now.injection)
        values.now (string_bytes text)) }
    ensures refused { IfErr result (IsWalkRefusal hops limit (network job.now.net) (entry job.now.injection)
        values.now) }
{
    match walk_all(alloc, &job.net, &job.injection, values, hops, limit) {
        Ok(walks) => Ok(walks_text(alloc, &job.net, &walks)?),
        Err(fault) => Err(fault_of_walk(fault)),
    }
}

/// The text of all walks of the packet of the file.
fn text_of(
    alloc: Global,
    given: &Two<Accepted, Vec<u8>>,
    hops: u32,
    limit: u32,
) -> Result<(Ending, String), OwnFault>
    requires { AreOfOneJob (network given.now.first.net) (entry given.now.first.injection) }
    ensures text { IfOk result (λ t. WalkComes hops limit
        (given_of given.now.first ∷ some_bytes given.now.second.items ∷ []) (a_text t.0 (string_bytes t.1))) }
    ensures refused { IfErr result (IsRefusal (WalkComes hops limit
        (given_of given.now.first ∷ some_bytes given.now.second.items ∷ []))) }
{
    let values = numbers_of(alloc, &given.second)?;
    let text = text_of_walks(alloc, &given.first, &values, hops, limit)?;
    Ok((Ending::Done, text))
}

impl<'a> OnePiece for Walk<'a> {
    type From = Both<JobFile<'a>, ByteFile<'a>>;

    ghost source = { λ w. w.source };

    ghost comes = { λ w. WalkComes w.hops w.limit };

    fn source(&self) -> &Both<JobFile<'a>, ByteFile<'a>> {
        &self.source
    }

    fn text(
        &self,
        alloc: Global,
        given: Two<Accepted, Vec<u8>>,
    ) -> Result<(Ending, String), OwnFault> {
        text_of(alloc, &given, self.hops, self.limit)
    }
}
