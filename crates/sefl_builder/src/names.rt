//! Names that were read, so that equal words share one text.

ghost use Rattle.std.specs.Prelude.{◌≡◌, ◌↔◌, ◌<◌, false, IsNone, IfSome, IfOk};
ghost use Rattle.sefl_syntax.specs.Name.{is_name};

use sefl_syntax::Name;
use sn_width::NoMemory;
use std::alloc::Global;

/// How many names are kept.
const SLOTS: u32 = 1024;

/// The name that was read last, for each place that words fall to. So a text with any names costs no more than it would
/// without.
#[derive(Drop)]
pub(crate) struct Names {
    slots: Vec<Option<Name>>,
}

/// The place that a word falls to.
fn slot_of(word: &str) -> usize {
    let mut sum: u32 = 0;
    for byte in word.as_bytes() {
        sum = sum.wrapping_mul(31).wrapping_add(u32::from(*byte));
    }
    (sum % SLOTS) as usize
}

impl Names {
    /// No names.
    pub(crate) fn new(alloc: Global) -> Result<Names, NoMemory> {
        let mut slots = Vec::with_capacity(alloc, SLOTS as usize)?;
        for _ in 0..SLOTS {
            slots.push(None)?;
        }
        Ok(Names { slots })
    }

    /// The name that is kept at the place, if the word is that name.
    fn kept(&self, slot: usize, word: &str) -> Result<Option<Name>, NoMemory>
        ensures { IfOk result (λ found. IfSome found (λ name. name ≡ word.now)) }
    {
        let Some(Some(name)) = self.slots.get(slot) else {
            return Ok(None);
        };
        if name.text() != word {
            return Ok(None);
        }
        Ok(Some(name.clone()?))
    }

    /// Keeps a name at the place.
    fn keep(&mut self, slot: usize, name: Name) {
        if slot < self.slots.len() {
            self.slots[slot] = Some(name);
        }
    }

    /// The name that the word is; None exactly where it is none.
    pub(crate) fn named(&mut self, alloc: Global, word: &str) -> Result<Option<Name>, NoMemory>
        ensures none { IfOk result (λ found. IsNone found ↔ (is_name word.now ≡ false)) }
        ensures some { IfOk result (λ found. IfSome found (λ name. name ≡ word.now)) }
    {
        let slot = slot_of(word);
        if let Some(name) = self.kept(slot, word)? {
            return Ok(Some(name));
        }
        let Some(name) = Name::of(alloc, word)? else {
            return Ok(None);
        };
        self.keep(slot, name.clone()?);
        Ok(Some(name))
    }
}
