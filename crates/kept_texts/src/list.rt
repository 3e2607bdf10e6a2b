//! A list with the texts of its members.

ghost use Rattle.std.specs.Prelude.{◌≡◌, ◌≤◌, ◌++◌, ◌∷◌, [], false, length, map, slice_get, string_bytes, take, OnOk};
ghost use Rattle.net_check.specs.Network.{network};
ghost use Rattle.record_text.specs.Reports.{record_pieces};
ghost use Rattle.kept_texts.specs.Kept.{Grows, has_some, piece};

use crate::bytes::{put, put_comma};
use crate::members::{Member, OfNet, member_text};
use net_check::Net;
use sn_width::NoMemory;
use std::alloc::Global;
use std::marker::{Model, PhantomData};

/// A list with the texts of its members, joined by commas. Contracts see the list.
#[derive(Drop)]
pub(crate) struct KeptList<N: OfNet, T: Member> {
    members: Vec<T>,
    /// Where the text of each begins, with its comma.
    starts: Vec<usize>,
    text: String,
    of: PhantomData<N>,
}

impl<N: OfNet, T: Member> Model for KeptList<N, T> {
    ghost use Rattle.std.specs.Prelude.{List, map, string_bytes};
    ghost use Rattle.kept_texts.specs.Kept.{AreKept};

    ghost Value = { List T };

    ghost view = { λ list. list.members.items };

    ghost invariant = { λ list. AreKept (map (T.shown N.net) list.members.items) list.starts.items (string_bytes list.text) };
}

/// Whether there is a member.
fn has_some<T>(members: &[T]) -> bool
    ensures { result ≡ has_some members.now }
{
    match members {
        [] => false,
        _ => true,
    }
}

/// The start at this place, if there is one.
fn start_at(starts: &[usize], place: usize) -> Option<usize>
    ensures { result ≡ slice_get starts.now place }
{
    starts.get(place).copied()
}

/// How many members at the beginning of both lists are the same.
fn shared<T: Member>(kept: &[T], list: &[T]) -> usize
    ensures within { result ≤ length list.now }
    ensures same { take result kept.now ≡ take result list.now }
{
    let least = kept.len().min(list.len());
    for index in 0..least {
        if !kept[index].is(list[index]) {
            return index;
        }
    }
    least
}

/// Puts a member behind the others. Where there is no memory, a part of it may be put.
fn push_member<T: Member>(
    alloc: Global,
    net: &Net,
    members: &mut Vec<T>,
    starts: &mut Vec<usize>,
    text: &mut String,
    member: T,
) -> Result<(), NoMemory>
    ensures members { OnOk result (members.new.items ≡ members.old.items ++ member ∷ []) }
    ensures starts { OnOk result (starts.new.items ≡ starts.old.items ++ length (string_bytes text.old) ∷ []) }
    ensures text { OnOk result (Grows (piece (has_some members.old.items) (T.shown (network net.now) member))
        (string_bytes text.old) (string_bytes text.new)) }
{
    let own = member_text(alloc, net, member)?;
    starts.push(text.len())?;
    put_comma(text, has_some(members))?;
    put(text, &own)?;
    members.push(member)?;
    Ok(())
}

impl<N: OfNet, T: Member> KeptList<N, T> {
    pub(crate) fn new(alloc: Global) -> KeptList<N, T>
        ensures { result ≡ [] }
    {
        KeptList {
            members: Vec::new(alloc),
            starts: Vec::new(alloc),
            text: String::new(alloc),
            of: PhantomData,
        }
    }

    /// Keeps at most `count` members.
    fn cut(&mut self, count: usize)
        ensures { self.new ≡ take count self.old }
    {
        let Some(start) = start_at(&self.starts, count) else {
            return;
        };
        self.members.truncate(count);
        self.starts.truncate(count);
        self.text.truncate(start);
    }

    /// One member more; where there is no memory, none is left.
    fn add(&mut self, alloc: Global, net: &Net, member: T) -> Result<(), NoMemory>
        requires { network net.now ≡ N.net }
        ensures { OnOk result (self.new ≡ self.old ++ member ∷ []) }
    {
        match push_member(
            alloc,
            net,
            &mut self.members,
            &mut self.starts,
            &mut self.text,
            member,
        ) {
            Ok(()) => Ok(()),
            Err(failed) => {
                self.members.clear();
                self.starts.clear();
                self.text.clear();
                Err(failed)
            }
        }
    }

    /// Makes it this list: what both begin with is kept.
    pub(crate) fn follow(&mut self, alloc: Global, net: &Net, list: &[T]) -> Result<(), NoMemory>
        requires { network net.now ≡ N.net }
        ensures { OnOk result (self.new ≡ list.now) }
    {
        let count = shared(&self.members, list);
        self.cut(count);
        let (_, rest) = list.split_at(count);
        for member in rest {
            self.add(alloc, net, *member)?;
        }
        Ok(())
    }

    /// The texts of the members, joined by commas.
    pub(crate) fn text(&self) -> &str
        ensures { result.now ≡ record_pieces false (map (T.shown N.net) self.now) }
    {
        self.text.as_str()
    }
}
