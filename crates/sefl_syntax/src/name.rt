//! Names of nodes, tags, metadata and variables.

ghost use Rattle.std.specs.Prelude.{◌≡◌, ◌↔◌, false, bytes_eq, refl, IsTrue, Some, IsNone, IfSome, IfOk};
ghost use Rattle.std.proofs.Common.{rules};
ghost use Rattle.std.specs.Cmp.Rules.{hashing};
ghost use Rattle.std.specs.Cmp.Lexicographic.{nat_list_cmp_total, nat_list_eq_equiv, slice_cmp, texts_po, texts_ties};
ghost use Rattle.std.specs.Cmp.{partial_equiv_from_equiv};
ghost use Rattle.std.specs.Hash as fed;
ghost use Rattle.std.specs.Ordering.{nat_cmp};
ghost use Rattle.std.specs.List.{list_all};
ghost use Rattle.sefl_lex.specs.Bytes.{begins, is_name_byte, is_name_start};
ghost use Rattle.sefl_syntax.specs.Name.{is_name};

use sefl_lex::{is_name_byte, is_name_start};
use sn_width::NoMemory;
use std::alloc::{AllocError, Global};
use std::cmp::Ordering;
use std::fmt;
use std::hash::{Hash, Hasher};
use std::marker::Model;
use std::rc::RcStr;

/// The most bytes that a name has.
const MOST_BYTES: usize = 64;

/// A name of 1 to 64 bytes: a letter or `_`, then letters, digits and `_`, all of them ASCII.
/// Contracts see the list of its bytes. Copies share the text, and each takes eight bytes.
#[derive(Drop)]
pub struct Name {
    text: RcStr,
}

impl Model for Name {
    ghost use Rattle.std.specs.Prelude.{ℕ, List, IsTrue};
    ghost use Rattle.std.specs.Rc.{rc_str_bytes};
    ghost use Rattle.sefl_syntax.specs.Name.{is_name};

    ghost Value = { List ℕ };

    ghost view = { λ name. rc_str_bytes name.text };

    ghost invariant = { λ name. IsTrue (is_name (rc_str_bytes name.text)) };
}

impl Name {
    /// The name that the text is; None exactly where it is none.
    pub fn of(alloc: Global, text: &str) -> Result<Option<Name>, NoMemory>
        ensures none { IfOk result (λ found. IsNone found ↔ (is_name text.now ≡ false)) }
        ensures some { IfOk result (λ found. IfSome found (λ name. name ≡ text.now)) }
    {
        if !is_name(text.as_bytes()) {
            return Ok(None);
        }
        let text = RcStr::from_str(alloc, text)?;
        Ok(Some(Name { text }))
    }

    /// The name's text.
    pub fn text(&self) -> &str
        ensures value { result.now ≡ self.now }
        ensures name { IsTrue (is_name self.now) }
    {
        self.text.as_str()
    }
}

impl PartialEq for Name {
    ghost eq = { bytes_eq };

    ghost laws = { partial_equiv_from_equiv nat_list_eq_equiv };

    fn eq(&self, other: &Name) -> bool {
        self.text() == other.text()
    }
}

impl Eq for Name {
    ghost laws = { nat_list_eq_equiv };
}

impl PartialOrd for Name {
    ghost partial_cmp = { λ a b. Some (slice_cmp nat_cmp a b) };

    ghost laws = { texts_po };

    fn partial_cmp(&self, other: &Name) -> Option<Ordering> {
        Some(self.cmp(other))
    }
}

/// Ordered by bytes.
impl Ord for Name {
    ghost cmp = { slice_cmp nat_cmp };

    ghost total = { nat_list_cmp_total };

    ghost matches_partial_cmp = { λ a b. refl };

    ghost matches_eq = { texts_ties };

    fn cmp(&self, other: &Name) -> Ordering {
        self.text().cmp(other.text())
    }
}

impl Hash for Name {
    ghost hash_input = { λ name. fed.str name };

    ghost respects_eq = { Prim.search (hashing, rules) };

    fn hash<H: Hasher>(&self, state: &mut H) {
        self.text().hash(state);
    }
}

impl Clone for Name {
    ghost is_clone = { λ name copy. copy ≡ name };

    fn clone(&self) -> Result<Name, AllocError> {
        let text = self.text.clone()?;
        Ok(Name { text })
    }
}

impl fmt::Display for Name {
    ghost output = { λ name. Some name };

    fn fmt<W: fmt::Write>(&self, f: &mut fmt::Formatter<W>) -> fmt::Result {
        f.write_str(self.text())
    }
}

fn starts_name(bytes: &[u8]) -> bool
    ensures { result ≡ begins is_name_start bytes.now }
{
    match bytes {
        [] => false,
        [first, ..] => is_name_start(*first),
    }
}

fn has_name_bytes(bytes: &[u8]) -> bool
    ensures { result ≡ list_all is_name_byte bytes.now }
{
    bytes.iter().all(|byte| is_name_byte(*byte))
}

fn is_name(bytes: &[u8]) -> bool
    ensures { result ≡ is_name bytes.now }
{
    starts_name(bytes) && has_name_bytes(bytes) && bytes.len() <= MOST_BYTES
}
