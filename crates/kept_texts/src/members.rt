//! The members of lists whose texts are kept.

ghost use Rattle.std.specs.Prelude.{◌≡◌, string_bytes, IfOk, IsTrue};
ghost use Rattle.net_check.specs.Network.{Network, network};
ghost use Rattle.serde_json.specs.Data.{Data};
ghost use Rattle.serde_json.specs.Written.{compact_text};
ghost use Rattle.run_text.specs.Tokens.{Gains};
ghost use Rattle.run_text.specs.Forms.{decision_data, place_data, tag_data};

use net_check::Net;
use run_text::{JsonText, write_decision, write_place, write_tag};
use sefl_meaning::{Decision, Place};
use sn_width::{NoMemory, TagId};
use std::alloc::Global;
use std::marker::Brand;

/// The room that the text of a member has at the start, in bytes.
const ROOM: usize = 64;

/// The net of the records.
pub trait OfNet {
    ghost use Rattle.net_check.specs.Network.{Network};

    ghost net: { Network };
}

impl OfNet for Brand {
    ghost use Rattle.kept_texts.specs.Kept.{no_net};

    ghost net = { no_net };
}

/// A member of a list.
pub(crate) trait Member: Copy {
    ghost shown: { Network → Self → Data };

    /// Writes the member.
    fn write(self, alloc: Global, net: &Net, out: &mut JsonText) -> Result<(), NoMemory>
        ensures { Gains (shown (network net.now) self) result out.old out.new };

    /// Whether it is the other one.
    fn is(self, other: Self) -> bool
        ensures { IsTrue result → self ≡ other };
}

impl Member for Decision {
    ghost shown = { λ net decision. decision_data decision };

    fn write(self, _alloc: Global, _net: &Net, out: &mut JsonText) -> Result<(), NoMemory> {
        write_decision(out, self)
    }

    fn is(self, other: Decision) -> bool {
        self == other
    }
}

impl Member for Place {
    ghost shown = { place_data };

    fn write(self, alloc: Global, net: &Net, out: &mut JsonText) -> Result<(), NoMemory> {
        write_place(alloc, out, net, self)
    }

    fn is(self, other: Place) -> bool {
        self == other
    }
}

impl Member for (TagId, i32) {
    ghost shown = { tag_data };

    fn write(self, _alloc: Global, net: &Net, out: &mut JsonText) -> Result<(), NoMemory> {
        write_tag(out, net, self.0, self.1)
    }

    fn is(self, other: (TagId, i32)) -> bool {
        self == other
    }
}

/// The text of a member.
pub(crate) fn member_text<T: Member>(
    alloc: Global,
    net: &Net,
    member: T,
) -> Result<String, NoMemory>
    ensures { IfOk result (λ text. string_bytes text ≡ compact_text (T.shown (network net.now) member)) }
{
    let mut out = JsonText::with_capacity(alloc, ROOM)?;
    member.write(alloc, net, &mut out)?;
    Ok(out.into_text())
}
