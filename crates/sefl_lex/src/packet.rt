//! The numbers of a packet's file.

ghost use Rattle.std.specs.Prelude.{◌≡◌, Some, None, IfOk, IfErr};
ghost use Rattle.sefl_lex.specs.Packets.{packet_of};
ghost use Rattle.sefl_lex.specs.declared.packet_fault.PacketFault.TheVariants.{NotNumbers};

use crate::packet_fault::PacketFault;
use crate::packet_number::number_of;
use crate::packet_words::next_word;
use sn_width::Num;
use std::alloc::Global;

/// The numbers that the bytes spell: each word between blanks is a number of the language, from 0 to
/// `2^128 - 1`. There are no comments. A file of blanks alone, or of nothing, spells the empty list.
pub fn read_packet(alloc: Global, bytes: &[u8]) -> Result<Vec<Num>, PacketFault>
    ensures values { IfOk result (λ values. packet_of bytes.now ≡ Some values.items) }
    ensures not_numbers { IfErr result (λ fault. fault ≡ NotNumbers → packet_of bytes.now ≡ None) }
{
    let mut values = Vec::new(alloc);
    let mut rest = bytes;
    while let Some((word, behind)) = next_word(rest) {
        values.push(number_of(alloc, word)?)?;
        rest = behind;
    }
    Ok(values)
}
