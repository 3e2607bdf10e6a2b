//! What was read of the last record. Most lists begin as those of the record before: where the same text comes next, it is not
//! read anew, and no name in it is looked up.

ghost use Rattle.std.specs.Prelude.{◌≡◌, IfOk, IfSome};
ghost use Rattle.std.specs.List.{AllByRecursion};
ghost use Rattle.net_check.specs.Network.{network};

use crate::scanned::Direct;
use crate::scanner::{Miss, Scanner};
use kept_texts::OfNet;
use sefl_meaning::{Decision, Place};
use sn_width::{NameId, NoMemory, NodeId, TagId};
use std::alloc::Global;
use std::marker::{Model, PhantomData};

/// What is the same in many records.
pub(crate) trait Member: Copy {
    ghost use Rattle.net_check.specs.Network.{Network};

    ghost Fits: { Network → Self → Type 0 };

    /// What comes next.
    fn scan(direct: &Direct<'_>, text: &mut Scanner<'_>) -> Result<Self, Miss>
        ensures { IfOk result (Fits (network direct.now.net.now)) };
}

/// How many bytes are compared at once.
const CHUNK: usize = 32;

/// How many whole chunks both texts begin with, in bytes.
fn common_chunks(first: &[u8], second: &[u8]) -> usize {
    let mut count: usize = 0;
    for (one, other) in first.chunks(CHUNK).zip(second.chunks(CHUNK)) {
        if one != other {
            return count;
        }
        count = count.saturating_add(one.len());
    }
    count
}

/// How many bytes both texts begin with.
fn common_bytes(first: &[u8], second: &[u8]) -> usize {
    let mut count: usize = 0;
    for (one, other) in first.iter().zip(second) {
        if *one != *other {
            return count;
        }
        count = count.saturating_add(1);
    }
    count
}

/// What is behind that many bytes.
fn behind(text: &[u8], count: usize) -> &[u8] {
    match text.split_at_checked(count) {
        Some((_, rest)) => rest,
        None => &[],
    }
}

/// How many bytes both texts begin with: chunks first, and then the bytes behind them.
fn common(first: &[u8], second: &[u8]) -> usize {
    let chunks = common_chunks(first, second);
    chunks.saturating_add(common_bytes(behind(first, chunks), behind(second, chunks)))
}

/// The list that was read last, with its text.
#[derive(Drop)]
pub(crate) struct LastList<'b, N: OfNet, T: Member> {
    members: Vec<T>,
    /// The text from the first member on.
    text: &'b [u8],
    /// Where the text of each member ends.
    ends: Vec<usize>,
    of: PhantomData<N>,
}

impl<'b, N: OfNet, T: Member> Model for LastList<'b, N, T> {
    ghost use Rattle.std.specs.Prelude.{List};
    ghost use Rattle.std.specs.List.{AllByRecursion};

    ghost Value = { List T };

    ghost view = { λ last. last.members.items };

    ghost invariant = { λ last. AllByRecursion (T.Fits N.net) last.members.items };
}

impl<'b, N: OfNet, T: Member> LastList<'b, N, T> {
    fn new(alloc: Global) -> LastList<'b, N, T> {
        LastList {
            members: Vec::new(alloc),
            text: &[],
            ends: Vec::new(alloc),
            of: PhantomData,
        }
    }

    /// How many members this text begins with, each with what stands behind a member.
    fn shared(&self, text: &[u8]) -> usize {
        let Some(most) = self.ends.last() else {
            return 0;
        };
        let Some((own, _)) = self.text.split_at_checked(*most) else {
            return 0;
        };
        let bytes = common(own, text);
        let count = self.ends.partition_point(|end| *end <= bytes);
        let Some(last) = count.checked_sub(1) else {
            return 0;
        };
        let end = self.ends.get(last).copied().unwrap_or(0);
        match text.get(end) {
            Some(b',' | b']') => count,
            _ => last,
        }
    }

    /// Where the text of the last member ends.
    fn end(&self) -> usize {
        self.ends.last().copied().unwrap_or(0)
    }

    /// Keeps what the text that comes next begins with, and passes it.
    fn begin(&mut self, text: &mut Scanner<'b>) {
        let left = text.left();
        let count = self.shared(left);
        self.members.truncate(count);
        self.ends.truncate(count);
        self.text = left;
        text.skip(self.end());
    }

    /// One member more, whose text ends there.
    fn put(&mut self, member: T, end: usize) -> Result<(), Miss>
        requires { T.Fits N.net member }
    {
        self.members.push(member)?;
        self.ends.push(end)?;
        Ok(())
    }

    /// Reads the member that comes next.
    fn read(&mut self, direct: &Direct<'_>, text: &mut Scanner<'b>) -> Result<(), Miss>
        requires { network direct.now.net.now ≡ N.net }
    {
        let member = T::scan(direct, text)?;
        let end = text.passed(self.text);
        self.put(member, end)
    }

    /// Makes it the list whose first member comes next: what both lists begin with is kept.
    pub(crate) fn follow(&mut self, direct: &Direct<'_>, text: &mut Scanner<'b>) -> Result<(), Miss>
        requires { network direct.now.net.now ≡ N.net }
    {
        self.begin(text);
        if !self.ends.is_empty() && text.closes()? {
            return Ok(());
        }
        for _ in 0..text.room() {
            self.read(direct, text)?;
            if text.closes()? {
                return Ok(());
            }
        }
        Err(Miss::Form)
    }

    /// A copy of the members.
    pub(crate) fn copied(&self, alloc: Global) -> Result<Vec<T>, NoMemory>
        ensures { IfOk result (λ found. AllByRecursion (T.Fits N.net) found.items) }
    {
        Ok(Vec::from_slice(alloc, &self.members)?)
    }
}

/// An item with its text.
#[derive(Clone, Copy)]
struct Read<'b, T: Copy> {
    text: &'b [u8],
    item: T,
}

/// What was read last at each place of a list, with its text.
#[derive(Drop)]
pub(crate) struct LastItems<'b, N: OfNet, T: Member> {
    items: Vec<Read<'b, T>>,
    of: PhantomData<N>,
}

impl<'b, N: OfNet, T: Member> Model for LastItems<'b, N, T> {
    ghost use Rattle.std.specs.Prelude.{List, map};
    ghost use Rattle.std.specs.List.{AllByRecursion};

    ghost Value = { List T };

    ghost view = { λ last. map (λ read. read.item) last.items.items };

    ghost invariant = { λ last. AllByRecursion (λ read. T.Fits N.net read.item) last.items.items };
}

impl<'b, N: OfNet, T: Member> LastItems<'b, N, T> {
    fn new(alloc: Global) -> LastItems<'b, N, T> {
        LastItems {
            items: Vec::new(alloc),
            of: PhantomData,
        }
    }

    /// How many items there are.
    pub(crate) fn room(&self) -> usize {
        self.items.len()
    }

    /// The item that was read last at the place, where its text comes next.
    fn repeated(&self, text: &mut Scanner<'b>, place: usize) -> Option<T>
        ensures { IfSome result (T.Fits N.net) }
    {
        let read = self.items.get(place)?;
        if text.passes(read.text) {
            Some(read.item)
        } else {
            None
        }
    }

    /// Keeps the items before the place, and behind them this one.
    fn put(&mut self, place: usize, text: &'b [u8], item: T) -> Result<(), Miss>
        requires { T.Fits N.net item }
    {
        self.items.truncate(place);
        self.items.push(Read { text, item })?;
        Ok(())
    }

    /// The item at the place, which comes next.
    pub(crate) fn item(
        &mut self,
        direct: &Direct<'_>,
        text: &mut Scanner<'b>,
        place: usize,
    ) -> Result<T, Miss>
        requires { network direct.now.net.now ≡ N.net }
        ensures { IfOk result (T.Fits N.net) }
    {
        if let Some(item) = self.repeated(text, place) {
            return Ok(item);
        }
        let before = text.left();
        let item = T::scan(direct, text)?;
        match before.split_at_checked(text.passed(before)) {
            Some((own, _)) => self.put(place, own, item)?,
            None => return Err(Miss::Form),
        }
        Ok(item)
    }
}

/// The lists of the last record.
#[derive(Drop)]
pub(crate) struct LastRecord<'b, N: OfNet> {
    pub(crate) decisions: LastList<'b, N, Decision>,
    pub(crate) places: LastList<'b, N, Place>,
    pub(crate) tags: LastList<'b, N, (TagId, i32)>,
    pub(crate) metas: LastItems<'b, N, (Option<NodeId>, NameId)>,
}

impl<'b, N: OfNet> LastRecord<'b, N> {
    /// No record was read.
    pub(crate) fn new(alloc: Global) -> LastRecord<'b, N> {
        LastRecord {
            decisions: LastList::new(alloc),
            places: LastList::new(alloc),
            tags: LastList::new(alloc),
            metas: LastItems::new(alloc),
        }
    }
}
