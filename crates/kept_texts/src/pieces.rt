//! The pieces of records.

ghost use Rattle.std.specs.Prelude.{◌≡◌, string_bytes, IfOk, OnOk};
ghost use Rattle.net_check.specs.Network.{network};
ghost use Rattle.serde_json.specs.Written.{compact_text};
ghost use Rattle.path_records.specs.Shown.{fields_seen};
ghost use Rattle.run_text.specs.Forms.{end_data, fields_data, term_data};
ghost use Rattle.record_text.specs.Records.{before_data, path_data, pruned_data, record_data, refutation_data, unexplored_data, verdict_data};
ghost use Rattle.kept_texts.specs.Kept.{Grows, piece};

use crate::bytes::{put, put_comma};
use crate::cells::{KeptCells, put_heads, put_metas};
use crate::list::KeptList;
use crate::members::OfNet;
use net_check::Net;
use path_records::{Fields, Record};
use record_text::laws::lists_are_joined;
use record_text::{write_before, write_refutation, write_verdict};
use refutation_check::{Refute, Verdict};
use run_text::{JsonText, write_end};
use sefl_meaning::{Decision, End, Place};
use sn_width::{NameId, NoMemory, NodeId, TagId};
use std::alloc::Global;
use std::marker::Model;

/// The room that the text of an end has at the start, in bytes.
const END_ROOM: usize = 32;

/// The room that other texts have at the start, in bytes.
const ROOM: usize = 256;

/// What is kept of the texts of the last record.
#[derive(Drop)]
struct KeptTexts<N: OfNet> {
    alloc: Global,
    decisions: KeptList<N, Decision>,
    places: KeptList<N, Place>,
    tags: KeptList<N, (TagId, i32)>,
    heads: KeptCells<N, i32>,
    metas: KeptCells<N, (Option<NodeId>, NameId)>,
}

/// The pieces of records of a net. Contracts see the last one.
#[derive(Drop)]
pub struct Pieces<'a, N: OfNet> {
    net: &'a Net,
    texts: KeptTexts<N>,
    piece: String,
}

impl<'a, N: OfNet> Model for Pieces<'a, N> {
    ghost use Rattle.std.specs.Prelude.{◌≡◌, ℕ, List, string_bytes};
    ghost use Rattle.net_check.specs.Network.{network};

    ghost Value = { List ℕ };

    ghost view = { λ pieces. string_bytes pieces.piece };

    ghost invariant = { λ pieces. network pieces.net.now ≡ N.net };
}

fn end_text(alloc: Global, end: &End) -> Result<String, NoMemory>
    ensures { IfOk result (λ text. string_bytes text ≡ compact_text (end_data end.now)) }
{
    let mut out = JsonText::with_capacity(alloc, END_ROOM)?;
    write_end(&mut out, end)?;
    Ok(out.into_text())
}

fn verdict_text(alloc: Global, verdict: &Verdict) -> Result<String, NoMemory>
    ensures { IfOk result (λ text. string_bytes text ≡ compact_text (verdict_data verdict.now)) }
{
    let mut out = JsonText::with_capacity(alloc, ROOM)?;
    write_verdict(alloc, &mut out, verdict)?;
    Ok(out.into_text())
}

fn before_text(alloc: Global, before: &Option<Verdict>) -> Result<String, NoMemory>
    ensures { IfOk result (λ text. string_bytes text ≡ compact_text (before_data before.now)) }
{
    let mut out = JsonText::with_capacity(alloc, ROOM)?;
    write_before(alloc, &mut out, before)?;
    Ok(out.into_text())
}

fn refutation_text(alloc: Global, steps: &[Refute]) -> Result<String, NoMemory>
    ensures { IfOk result (λ text. string_bytes text ≡ compact_text (refutation_data steps.now)) }
{
    let mut out = JsonText::with_capacity(alloc, ROOM)?;
    write_refutation(&mut out, steps)?;
    Ok(out.into_text())
}

impl<N: OfNet> KeptTexts<N> {
    fn new(alloc: Global) -> KeptTexts<N> {
        KeptTexts {
            alloc,
            decisions: KeptList::new(alloc),
            places: KeptList::new(alloc),
            tags: KeptList::new(alloc),
            heads: Vec::new(alloc),
            metas: Vec::new(alloc),
        }
    }

    /// Puts what is carried at the end of a path.
    fn put_fields(&mut self, net: &Net, fields: &Fields, out: &mut String) -> Result<(), NoMemory>
        requires { network net.now ≡ N.net }
        ensures { OnOk result (Grows (compact_text (fields_data term_data N.net (fields_seen fields.now)))
            (string_bytes out.old) (string_bytes out.new)) }
    {
        lists_are_joined();
        self.tags.follow(self.alloc, net, &fields.tags)?;
        put(out, "{\"heads\":[")?;
        put_heads(self.alloc, net, &mut self.heads, &fields.heads, out)?;
        put(out, "],\"metas\":[")?;
        put_metas(self.alloc, net, &mut self.metas, &fields.metas, out)?;
        put(out, "],\"tags\":[")?;
        put(out, self.tags.text())?;
        put(out, "]}")?;
        Ok(())
    }

    fn put_path(
        &mut self,
        net: &Net,
        decisions: &[Decision],
        places: &[Place],
        end: &End,
        fields: &Fields,
        verdict: &Verdict,
        out: &mut String,
    ) -> Result<(), NoMemory>
        requires { network net.now ≡ N.net }
        ensures { OnOk result (Grows (compact_text
            (path_data N.net decisions.now places.now end.now (fields_seen fields.now) verdict.now))
            (string_bytes out.old) (string_bytes out.new)) }
    {
        lists_are_joined();
        self.decisions.follow(self.alloc, net, decisions)?;
        put(out, "{\"decisions\":[")?;
        put(out, self.decisions.text())?;
        put(out, "],\"end\":")?;
        let text = end_text(self.alloc, end)?;
        put(out, &text)?;
        put(out, ",\"fields\":")?;
        self.put_fields(net, fields, out)?;
        self.places.follow(self.alloc, net, places)?;
        put(out, ",\"kind\":\"path\",\"places\":[")?;
        put(out, self.places.text())?;
        put(out, "],\"verdict\":")?;
        let text = verdict_text(self.alloc, verdict)?;
        put(out, &text)?;
        put(out, "}")?;
        Ok(())
    }

    fn put_pruned(
        &mut self,
        net: &Net,
        before: &Option<Verdict>,
        decisions: &[Decision],
        steps: &[Refute],
        out: &mut String,
    ) -> Result<(), NoMemory>
        requires { network net.now ≡ N.net }
        ensures { OnOk result (Grows (compact_text (pruned_data before.now decisions.now steps.now))
            (string_bytes out.old) (string_bytes out.new)) }
    {
        lists_are_joined();
        self.decisions.follow(self.alloc, net, decisions)?;
        put(out, "{\"before\":")?;
        let text = before_text(self.alloc, before)?;
        put(out, &text)?;
        put(out, ",\"decisions\":[")?;
        put(out, self.decisions.text())?;
        put(out, "],\"kind\":\"pruned\",\"refutation\":")?;
        let text = refutation_text(self.alloc, steps)?;
        put(out, &text)?;
        put(out, "}")?;
        Ok(())
    }

    fn put_unexplored(
        &mut self,
        net: &Net,
        decisions: &[Decision],
        out: &mut String,
    ) -> Result<(), NoMemory>
        requires { network net.now ≡ N.net }
        ensures { OnOk result (Grows (compact_text (unexplored_data decisions.now)) (string_bytes out.old)
            (string_bytes out.new)) }
    {
        lists_are_joined();
        self.decisions.follow(self.alloc, net, decisions)?;
        put(out, "{\"decisions\":[")?;
        put(out, self.decisions.text())?;
        put(out, "],\"kind\":\"unexplored\"}")?;
        Ok(())
    }

    fn put_record(&mut self, net: &Net, item: &Record, out: &mut String) -> Result<(), NoMemory>
        requires { network net.now ≡ N.net }
        ensures { OnOk result (Grows (compact_text (record_data N.net item.now)) (string_bytes out.old)
            (string_bytes out.new)) }
    {
        match item {
            Record::Path {
                decisions,
                places,
                end,
                fields,
                verdict,
            } => self.put_path(net, decisions, places, end, fields, verdict, out),
            Record::Pruned {
                decisions,
                before,
                refutation,
            } => self.put_pruned(net, before, decisions, refutation.as_slice(), out),
            Record::Unexplored { decisions } => self.put_unexplored(net, decisions, out),
        }
    }
}

impl<'a, N: OfNet> Pieces<'a, N> {
    /// No piece yet.
    pub fn new(alloc: Global, net: &'a Net) -> Pieces<'a, N>
        requires { network net.now ≡ N.net }
    {
        Pieces {
            net,
            texts: KeptTexts::new(alloc),
            piece: String::new(alloc),
        }
    }

    /// Writes the piece of a record: its text, behind a comma where another one was put before it.
    pub fn write(&mut self, later: bool, item: &Record) -> Result<(), NoMemory>
        ensures { OnOk result (self.new ≡ piece later (record_data N.net item.now)) }
    {
        self.piece.clear();
        put_comma(&mut self.piece, later)?;
        self.texts.put_record(self.net, item, &mut self.piece)?;
        Ok(())
    }

    /// The last piece.
    pub fn text(&self) -> &str
        ensures { result.now ≡ self.now }
    {
        self.piece.as_str()
    }
}
