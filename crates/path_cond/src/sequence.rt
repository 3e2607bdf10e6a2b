//! A list whose copies share their members.

ghost use Rattle.std.specs.Prelude.{◌≡◌, ◌<◌, [], ◌∷◌, ◌++◌, length, slice_get, IfOk, option_copied};
ghost use Rattle.path_cond.specs.Linked.{IsBeginningOf};

use sn_width::NoMemory;
use std::alloc::Global;
use std::marker::Model;
use std::rc::Rc;

/// A list of fewer than 2^32 members, each under its place from 0. A longer list shares the members
/// of the list that it was made of, and leaves that as it was. The jumps are placed as in a skew list,
/// so that a member of n is found in some log n steps.
#[cycle(sequence)]
pub(crate) struct Sequence<V: Drop> {
    last: Option<Rc<Member<V>>>,
}

/// The last member of a list.
#[cycle(sequence)]
#[derive(Drop)]
struct Member<V: Drop> {
    /// The number of members up to this one.
    len: u32,
    value: V,
    /// The members before this one.
    before: Sequence<V>,
    /// A beginning of `before`, at which a search may go on.
    jump: Sequence<V>,
}

impl<V: Drop> Model for Sequence<V> {
    ghost use Rattle.std.specs.Prelude.{List, length};

    ghost Value = { List V };

    ghost use Rattle.path_cond.specs.Linked.{values, IsLinked};

    ghost view = { λ s. values s.last };

    ghost invariant = { λ s. IsLinked s.last };

    ghost size = { length };

    ghost use Rattle.std.proofs.Common.{arith, length-append};

    ghost size_decreases = { λ s h. Prim.grind (arith, length-append) };
}

impl<V: Drop> Sequence<V> {
    pub fn empty() -> Sequence<V>
        ensures { result ≡ [] }
    {
        Sequence { last: None }
    }

    /// The list of these members.
    pub fn from_vec(alloc: Global, values: &Vec<V>) -> Result<Sequence<V>, NoMemory>
    where
        V: Copy,
        ensures { IfOk result (λ list. list ≡ values.now.items) }
    {
        let mut list = Sequence::empty();
        for value in values {
            list = list.push(alloc, *value)?;
        }
        Ok(list)
    }

    /// The members in their order.
    pub fn to_vec(&self, alloc: Global) -> Result<Vec<V>, NoMemory>
    where
        V: Copy,
        ensures { IfOk result (λ list. list.items ≡ self.now) }
    {
        let mut list = Vec::with_capacity(alloc, self.len() as usize)?;
        let mut rest = self;
        while let Some(member) = &rest.last {
            list.push(member.value)?;
            rest = &member.before;
        }
        list.reverse();
        Ok(list)
    }

    /// The same list. Takes no memory; an `Err` says that the count of owners is full.
    pub fn fork(&self) -> Result<Sequence<V>, NoMemory>
        ensures { IfOk result (λ copy. copy ≡ self.now) }
    {
        match &self.last {
            None => Ok(Sequence::empty()),
            Some(member) => {
                let member = member.clone()?;
                Ok(Sequence { last: Some(member) })
            }
        }
    }

    pub fn len(&self) -> u32
        ensures { result ≡ length self.now }
    {
        match &self.last {
            None => 0,
            Some(member) => member.len,
        }
    }

    /// The member at a place; `None` past the last one.
    #[tactic(auto, using(crate::proofs::Jumps::slice_get_before, crate::proofs::Jumps::slice_get_last, crate::proofs::Jumps::slice_get_beginning))]
    pub fn get(&self, place: u32) -> Option<&V>
        ensures { option_copied result ≡ slice_get self.now place }
    {
        if place >= self.len() {
            return None;
        }
        let mut list = self;
        loop {
            let Some(member) = &list.last else {
                return None;
            };
            let member: &Member<V> = member;
            if place == member.len - 1 {
                return Some(&member.value);
            }
            list = if place < member.jump.len() {
                &member.jump
            } else {
                &member.before
            };
        }
    }

    /// The list with one member more at its end.
    pub fn push(&self, alloc: Global, value: V) -> Result<Sequence<V>, NoMemory>
        ensures { IfOk result (λ longer. longer ≡ self.now ++ value ∷ []) }
    {
        let Some(len) = self.len().checked_add(1) else {
            return Err(NoMemory);
        };
        let jump = self.next_jump()?;
        let before = self.fork()?;
        let member = Rc::new(
            alloc,
            Member {
                len,
                value,
                before,
                jump,
            },
        )?;
        Ok(Sequence { last: Some(member) })
    }

    /// The jump of the next member. Where the last two jumps pass as many members each, it leads to
    /// where they lead together, else to this list.
    #[tactic(auto, using(crate::proofs::Jumps::two_jumps, crate::proofs::Jumps::begins_itself))]
    fn next_jump(&self) -> Result<Sequence<V>, NoMemory>
        ensures { IfOk result (IsBeginningOf self.now) }
    {
        let Some(member) = &self.last else {
            return Ok(Sequence::empty());
        };
        let Some(next) = &member.jump.last else {
            return self.fork();
        };
        if member.len - next.len == next.len - next.jump.len() {
            return next.jump.fork();
        }
        self.fork()
    }
}

// A loop, so that a long list needs no deep machine stack. The jump is dropped first, while the list
// before still owns the member that it leads to.
impl<V: Drop> Drop for Sequence<V> {
    fn drop(mut self) {
        loop {
            let Sequence { last } = self;
            let Some(member) = last else { return };
            let Some(member) = Rc::into_inner(member) else {
                return;
            };
            let Member {
                len: _,
                value,
                before,
                jump,
            } = member;
            drop(jump);
            drop(value);
            self = before;
        }
    }
}
