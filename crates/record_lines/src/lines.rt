//! Records that are put as they are found.

ghost use Rattle.std.specs.Prelude.{◌≡◌, ◌+◌, IfSome, IsTrue};
ghost use Rattle.path_exec.specs.Handing.{IsListed, handed};
ghost use Rattle.report_forms.specs.Ranges.{RecordInRange};
ghost use Rattle.record_lines.specs.Lines.{IsFoundObligation, IsRecordObligation, IsSideObligation, SideInRange, is_only_counted, refuted_by};

use crate::ends::put_piece;
use kept_texts::{OfNet, Pieces};
use path_exec::{Observer, Took};
use path_records::{Record, RefutedSides};
use report_forms::{numbers_are_in_range, steps_fit, verdict_fits};
use sefl_meaning::Decision;
use sn_edge::{Put, Sink};
use std::alloc::Global;
use std::marker::{Brand, PhantomData};
use symbolic_engine::Found;

/// Which records are written, and the state of a sink before the first of them.
pub trait Mark<K> {
    ghost use Rattle.path_records.specs.declared.sides.RefutedSides.{RefutedSides as Sides};

    ghost sides: { Sides };

    ghost is_first: { K → Type 0 };
}

impl<K> Mark<K> for Brand {
    ghost use Rattle.path_records.specs.declared.sides.RefutedSides.TheVariants.{Written};

    ghost sides = { Written };

    ghost is_first = { λ _. ⊥ };
}

/// Puts a record of all that is found in a net and that is written into a sink, behind a comma where another one was put before it. It
/// keeps none of them, and makes none of a refuted side that is only counted.
#[derive(Drop)]
pub struct Lines<'a, 'p, 'n, N: OfNet, M: Mark<K>, K: Sink> {
    pub alloc: Global,
    pub pieces: &'p mut Pieces<'n, N>,
    pub out: &'a mut K,
    pub sides: RefutedSides,
    /// Whether there was no memory for a piece. Then nothing more is put.
    pub over: bool,
    /// Whether a record was put.
    pub some: bool,
    /// How many refuted sides were taken.
    pub refuted: u64,
    pub of: PhantomData<M>,
}

/// The number of refuted sides with this record; None where it cannot rise any more.
fn refuted_with(refuted: u64, item: &Record) -> Option<u64>
    ensures { IfSome result (λ count. count ≡ refuted + refuted_by item.now) }
{
    match item {
        Record::Pruned { .. } => refuted.checked_add(1),
        Record::Path { .. } | Record::Unexplored { .. } => Some(refuted),
    }
}

/// Whether the numbers of a record are known to be of their types, as those of each record are; false where they cannot be
/// counted.
fn is_in_range(item: &Record) -> bool
    ensures { IsTrue result → RecordInRange item.now }
{
    match numbers_are_in_range(item) {
        Ok(()) => true,
        Err(_) => false,
    }
}

/// What is to be done with what was found.
#[derive(Drop)]
enum Obligation {
    /// Its piece, which was written, is put; with it there are `refuted` refuted sides.
    Write { refuted: u64 },
    /// It is only counted.
    Count { refuted: u64 },
    NoMemory,
}

/// What is to be done with a record that is written, where one was put before it or not, and `refuted` refuted sides were taken. Its piece
/// is written.
fn record_obligation<N: OfNet>(
    pieces: &mut Pieces<'_, N>,
    later: bool,
    refuted: u64,
    item: &Record,
) -> Obligation
    ensures { IsRecordObligation N.net later refuted item.now pieces.new result }
{
    let Some(refuted) = refuted_with(refuted, item) else {
        return Obligation::NoMemory;
    };
    if !is_in_range(item) {
        return Obligation::NoMemory;
    }
    match pieces.write(later, item) {
        Ok(()) => Obligation::Write { refuted },
        Err(_) => Obligation::NoMemory,
    }
}

/// The same of a record that is not kept.
fn last_record_obligation<N: OfNet>(
    pieces: &mut Pieces<'_, N>,
    later: bool,
    refuted: u64,
    item: Record,
) -> Obligation
    ensures { IsRecordObligation N.net later refuted item pieces.new result }
{
    record_obligation(pieces, later, refuted, &item)
}

/// Whether it is a refuted side that is only counted.
fn is_only_counted(sides: RefutedSides, found: &Found) -> bool
    ensures { result ≡ is_only_counted sides found.now }
{
    match sides {
        RefutedSides::Written => false,
        RefutedSides::Counted => match found {
            Found::Pruned { .. } => true,
            Found::Path { .. } | Found::Unexplored => false,
        },
    }
}

/// Says that the numbers of a refuted side are of their types. It does nothing.
fn side_fits(side: &Found)
    ensures { SideInRange side.now }
{
    if let Found::Pruned { before, refutation } = side {
        if let Some(before) = before {
            verdict_fits(&before.verdict);
        }
        steps_fit(refutation.as_slice());
    }
}

/// What is to be done with a refuted side that is only counted.
fn side_obligation(refuted: u64, side: &Found) -> Obligation
    ensures { IsSideObligation refuted side.now result }
{
    side_fits(side);
    match refuted.checked_add(1) {
        Some(refuted) => Obligation::Count { refuted },
        None => Obligation::NoMemory,
    }
}

/// What is to be done with what was found behind these decisions.
fn found_obligation<N: OfNet>(
    alloc: Global,
    pieces: &mut Pieces<'_, N>,
    sides: RefutedSides,
    later: bool,
    refuted: u64,
    found: Found,
    decisions: &[Decision],
) -> Obligation
    requires { IsListed decisions.now }
    ensures { IsFoundObligation N.net sides later refuted (handed decisions.now found) pieces.new result }
{
    if is_only_counted(sides, &found) {
        return side_obligation(refuted, &found);
    }
    match found.into_record(alloc, decisions) {
        Ok(made) => last_record_obligation(pieces, later, refuted, made),
        Err(_) => Obligation::NoMemory,
    }
}

impl<N: OfNet, M: Mark<K>, K: Sink> Observer for Lines<'_, '_, '_, N, M, K> {
    type Found = Found;

    ghost use Rattle.record_lines.specs.Lines.{by_records, lines_seen};

    ghost seen = { λ lines. by_records
        (lines_seen K.told K.put_gives N.net M.sides M.is_first lines.out.now lines.sides lines.over lines.some lines.refuted)
        lines.out.ghost_name };

    fn see(&mut self, found: Found, decisions: &[Decision]) -> Took {
        if self.over {
            return Took::NoMemory;
        }
        match found_obligation(
            self.alloc,
            self.pieces,
            self.sides,
            self.some,
            self.refuted,
            found,
            decisions,
        ) {
            Obligation::Write { refuted } => match put_piece(self.pieces.text(), self.out) {
                Put::All => {
                    self.some = true;
                    self.refuted = refuted;
                    Took::More
                }
                Put::Failed => Took::Stop,
                Put::NoMemory => {
                    self.over = true;
                    Took::NoMemory
                }
            },
            Obligation::Count { refuted } => {
                self.refuted = refuted;
                Took::More
            }
            Obligation::NoMemory => Took::NoMemory,
        }
    }
}
