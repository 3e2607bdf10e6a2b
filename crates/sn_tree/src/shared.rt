//! A stack whose copies share their members.
ghost use Rattle.std.specs.Prelude.{◌≡◌, [], ◌∷◌, IfOk, IsTrue, ◌↔◌, option_copied};
ghost use Rattle.sn_tree.specs.Ends.{first, others};
ghost use Rattle.std.specs.Iterator.{YieldsFirstRef, item_count};

use sn_width::NoMemory;
use std::alloc::Global;
use std::marker::Model;
use std::rc::Rc;

/// A stack, seen as the list of its members, the newest first. A change makes a new stack that
/// shares the older members, and leaves the old one as it was.
#[cycle(shared)]
pub struct Shared<T: Drop> {
    top: Option<Rc<Member<T>>>,
}

#[cycle(shared)]
#[derive(Drop)]
struct Member<T: Drop> {
    value: T,
    below: Shared<T>,
}

impl<T: Drop> Model for Shared<T> {
    ghost use Rattle.std.specs.Prelude.{List, length};

    ghost Value = { List T };

    ghost use Rattle.sn_tree.specs.Members.{members};

    ghost view = { λ s. members s.top };

    ghost size = { length };

    ghost use Rattle.std.proofs.Common.{arith, length-append};

    ghost size_decreases = { λ s h. Prim.grind (arith, length-append) };
}

impl<T: Drop> Shared<T> {
    /// The stack with no member.
    pub fn empty() -> Shared<T>
        ensures { result ≡ [] }
    {
        Shared { top: None }
    }

    /// Whether the stack has no member.
    pub fn is_empty(&self) -> bool
        ensures { IsTrue result ↔ (self.now ≡ []) }
    {
        self.top.is_none()
    }

    /// The same stack. Takes no memory; an `Err` says that the count of owners is full.
    pub fn fork(&self) -> Result<Shared<T>, NoMemory>
        ensures same { IfOk result (λ copy. copy ≡ self.now) }
    {
        match &self.top {
            None => Ok(Shared::empty()),
            Some(member) => {
                let member = member.clone()?;
                Ok(Shared { top: Some(member) })
            }
        }
    }

    /// The stack with one more member on top of this one.
    pub fn push(&self, alloc: Global, value: T) -> Result<Shared<T>, NoMemory>
        ensures on_top { IfOk result (λ stack. stack ≡ value ∷ self.now) }
    {
        let below = self.fork()?;
        let member = Rc::new(alloc, Member { value, below })?;
        Ok(Shared { top: Some(member) })
    }

    /// The newest member; `None` exactly where the stack is empty.
    pub fn top(&self) -> Option<&T>
        ensures { option_copied result ≡ first self.now }
    {
        match &self.top {
            None => None,
            Some(member) => Some(&member.value),
        }
    }

    /// The stack below the newest member; `None` exactly where the stack is empty.
    pub fn below(&self) -> Option<&Shared<T>>
        ensures { option_copied result ≡ others self.now }
    {
        match &self.top {
            None => None,
            Some(member) => Some(&member.below),
        }
    }

    /// The members, from the newest down.
    pub fn iter(&self) -> Members<'_, T>
        ensures { result ≡ self.now }
    {
        Members { rest: self }
    }
}

// A loop, so that a long stack needs no deep machine stack. It goes on as long as it is the last
// owner of the next member.
impl<T: Drop> Drop for Shared<T> {
    fn drop(mut self) {
        loop {
            let Shared { top } = self;
            let Some(member) = top else { return };
            let Some(member) = Rc::into_inner(member) else {
                return;
            };
            let Member { value, below } = member;
            drop(value);
            self = below;
        }
    }
}

/// The members of a stack, from the newest down, seen as the list of those still to come.
#[derive(Drop)]
pub struct Members<'a, T: Drop> {
    rest: &'a Shared<T>,
}

impl<'a, T: Drop> Model for Members<'a, T> {
    ghost use Rattle.std.specs.Prelude.{List};

    ghost Value = { List T };

    ghost view = { λ m. m.rest.now };
}

impl<'a, T: Drop> Iterator for Members<'a, T> {
    type Item = &'a T;

    ghost next_gives = { YieldsFirstRef (λ members. members) };

    ghost remaining = { item_count (λ members. members) };

    fn next(&mut self) -> Option<&'a T> {
        let stack = self.rest;
        match &stack.top {
            None => None,
            Some(member) => {
                let member: &Member<T> = member;
                self.rest = &member.below;
                Some(&member.value)
            }
        }
    }
}
