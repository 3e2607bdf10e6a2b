//! The command `walk` with `--packets lines`.

ghost use Rattle.std.specs.Prelude.{◌≡◌, ◌≢◌, ◌<◌, ◌≤◌, [], ◌∷◌, drop, length, IfErr, IfOk, string_bytes};
ghost use Rattle.std.specs.List.{prefix_len};
ghost use Rattle.net_check.specs.Network.{entry, network};
ghost use Rattle.net_check.specs.Sound.{AreOfOneJob};
ghost use Rattle.run_text.specs.Tokens.{Gains};
ghost use Rattle.sefl_lex.specs.Packets.{packet_of};
ghost use Rattle.command_runs.specs.Inputs.{given_of, some_bytes};
ghost use Rattle.command_runs.specs.Runs.{IsRefusal};
ghost use Rattle.command_edge.specs.Puts.{text as a_text};
ghost use Rattle.command_edge.specs.declared.ending.Ending.TheVariants.{Done};
ghost use Rattle.walk_command.specs.Lines.{AreLinesOf, IsLineOf, LinesCome, TellsRefusal, is_line_byte, lines, refusal_data, refusal_line};
ghost use Rattle.walk_command.specs.Walks.{WalksOf};

use crate::walk::{numbers_of, text_of_walks};
use command_edge::{Ending, OwnFault};
use command_runs::{Both, ByteFile, JobFile, OnePiece, Two};
use net_check::Accepted;
use run_text::JsonText;
use run_text::json_laws::objects_are_written;
use sn_width::NoMemory;
use std::alloc::Global;

/// The room that a line has at the start, in bytes.
const ROOM: usize = 64;

/// Of each packet of one file, which stand on its lines, all walks through the job of the other, with `hops` hops; a line that says
/// why there are none where the packet is refused, or has more walks than the limit.
#[derive(Clone, Copy)]
pub struct WalkLines<'a> {
    pub source: Both<JobFile<'a>, ByteFile<'a>>,
    pub hops: u32,
    pub limit: u32,
}

/// How many bytes stand before the first line feed, or before the end.
fn line_bytes(bytes: &[u8]) -> usize
    ensures count { result ≡ prefix_len is_line_byte bytes.now }
    ensures within { result ≤ length bytes.now }
{
    bytes.iter().take_while(|byte| **byte != b'\n').count()
}

/// What stands behind a line feed.
fn behind_feed(bytes: &[u8]) -> &[u8]
    ensures { result.now ≡ drop 1 bytes.now }
{
    match bytes.split_first() {
        Some((_, rest)) => rest,
        None => bytes,
    }
}

/// The first line, and what stands behind its line feed.
fn next_line(bytes: &[u8]) -> (&[u8], &[u8])
    requires { bytes.now ≢ [] }
    ensures line { lines bytes.now ≡ result.0.now ∷ lines result.1.now }
    ensures shorter { length result.1.now < length bytes.now }
{
    let (line, rest) = bytes.split_at(line_bytes(bytes));
    (line, behind_feed(rest))
}

fn write_refusal(out: &mut JsonText, name: &str, number: u64, why: &str) -> Result<(), NoMemory>
    ensures { Gains (refusal_data name.now number why.now) result out.old out.new }
{
    objects_are_written();
    out.begin_object()?;
    out.key(name)?;
    out.count(number)?;
    out.key("refused")?;
    out.string(why)?;
    out.key("symnet")?;
    out.count(1)?;
    out.end_object()?;
    Ok(())
}

/// Why a packet has no walks, as one line of JSON, keys ascending, with a line feed at its end.
#[tactic(auto, unfolding(crate::specs::Lines::refusal_line))]
fn refusal_line(alloc: Global, name: &str, number: u64, why: &str) -> Result<String, NoMemory>
    ensures { IfOk result (λ text. string_bytes text ≡ refusal_line name.now number why.now) }
{
    let mut out = JsonText::with_capacity(alloc, ROOM)?;
    write_refusal(&mut out, name, number, why)?;
    let mut text = out.into_text();
    text.push('\n')?;
    Ok(text)
}

/// The line of a packet that is refused.
fn line_of_refusal(alloc: Global, fault: OwnFault) -> Result<String, NoMemory>
    ensures { IfOk result (λ text. TellsRefusal fault (string_bytes text)) }
{
    match fault {
        OwnFault::BadPacket { kind } => refusal_line(alloc, "kind", u64::from(kind), "bad packet"),
        OwnFault::TooMany { count } => refusal_line(alloc, "count", count, "too many walks"),
        // memory ended: a packet is refused for nothing else
        _ => Err(NoMemory),
    }
}

/// The text of all walks of the packet that the bytes spell.
fn walks_of(
    alloc: Global,
    job: &Accepted,
    bytes: &[u8],
    hops: u32,
    limit: u32,
) -> Result<String, OwnFault>
    requires { AreOfOneJob (network job.now.net) (entry job.now.injection) }
    ensures text { IfOk result (λ text. WalksOf hops limit (network job.now.net) (entry job.now.injection)
        (packet_of bytes.now) (a_text Done (string_bytes text))) }
    ensures refused { IfErr result (IsRefusal (WalksOf hops limit (network job.now.net) (entry job.now.injection)
        (packet_of bytes.now))) }
{
    let values = numbers_of(alloc, bytes)?;
    text_of_walks(alloc, job, &values, hops, limit)
}

/// The line of the packet that the bytes spell.
fn line_of(
    alloc: Global,
    job: &Accepted,
    bytes: &[u8],
    hops: u32,
    limit: u32,
) -> Result<String, NoMemory>
    requires { AreOfOneJob (network job.now.net) (entry job.now.injection) }
    ensures { IfOk result (λ text. IsLineOf hops limit (network job.now.net) (entry job.now.injection) bytes.now
        (string_bytes text)) }
{
    match walks_of(alloc, job, bytes, hops, limit) {
        Ok(text) => Ok(text),
        Err(fault) => line_of_refusal(alloc, fault),
    }
}

/// The lines of the packets on the lines of the bytes.
fn text_of_lines(
    alloc: Global,
    job: &Accepted,
    bytes: &[u8],
    hops: u32,
    limit: u32,
) -> Result<String, NoMemory>
    requires { AreOfOneJob (network job.now.net) (entry job.now.injection) }
    ensures { IfOk result (λ text. AreLinesOf hops limit (network job.now.net) (entry job.now.injection)
        (lines bytes.now) (string_bytes text)) }
{
    let mut out = String::new(alloc);
    let mut rest = bytes;
    while !rest.is_empty() {
        let (line, behind) = next_line(rest);
        out.push_str(&line_of(alloc, job, line, hops, limit)?)?;
        rest = behind;
    }
    Ok(out)
}

/// The lines of the packets of the file.
fn text_of(
    alloc: Global,
    given: &Two<Accepted, Vec<u8>>,
    hops: u32,
    limit: u32,
) -> Result<(Ending, String), OwnFault>
    requires { AreOfOneJob (network given.now.first.net) (entry given.now.first.injection) }
    ensures text { IfOk result (λ t. LinesCome hops limit
        (given_of given.now.first ∷ some_bytes given.now.second.items ∷ []) (a_text t.0 (string_bytes t.1))) }
    ensures refused { IfErr result (IsRefusal (LinesCome hops limit
        (given_of given.now.first ∷ some_bytes given.now.second.items ∷ []))) }
{
    let text = text_of_lines(alloc, &given.first, &given.second, hops, limit)?;
    Ok((Ending::Done, text))
}

impl<'a> OnePiece for WalkLines<'a> {
    type From = Both<JobFile<'a>, ByteFile<'a>>;

    ghost source = { λ w. w.source };

    ghost comes = { λ w. LinesCome w.hops w.limit };

    fn source(&self) -> &Both<JobFile<'a>, ByteFile<'a>> {
        &self.source
    }

    fn text(
        &self,
        alloc: Global,
        given: Two<Accepted, Vec<u8>>,
    ) -> Result<(Ending, String), OwnFault> {
        text_of(alloc, &given, self.hops, self.limit)
    }
}
