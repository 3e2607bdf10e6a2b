//! Where the program writes.
ghost use Rattle.std.specs.Prelude.{◌≡◌, ℕ, List, Option, None, IsTrue};
ghost use Rattle.std.specs.Io.KnownBytes.{append_known};
ghost use Rattle.sn_edge.specs.Pieces.{IsPrefix};
ghost use Rattle.sn_edge.specs.Output.{HasWritten};

use std::io::{self, Write};

/// What takes bytes some at a time. It tells what it holds from the beginning, or never.
pub trait Output {
    /// The bytes that it holds, where it tells them.
    ghost contents: { Self → Option (List ℕ) };

    /// Takes some first bytes, and answers how many; None where the outside failed, and then it took nothing.
    fn write_some(&mut self, bytes: &[u8]) -> Option<usize>
        ensures { HasWritten (contents self.old) (contents self.new) bytes.now result };
}

/// What a runtime prints. It tells nothing of what it holds.
#[derive(Drop)]
pub struct Printed<'a, R> {
    rt: &'a R,
}

impl<'a, R> Printed<'a, R> {
    /// The output of `rt`.
    pub fn new(rt: &'a R) -> Printed<'a, R> {
        Printed { rt }
    }
}

impl<R: Print> Output for Printed<'_, R> {
    ghost contents = { λ _. None };

    fn write_some(&mut self, bytes: &[u8]) -> Option<usize> {
        io::writer(self.rt).write(bytes).ok()
    }
}

// Writes the piece, and answers whether all of it was taken. A write that takes nothing has failed.
pub(crate) fn write_whole<W: Output>(output: &mut W, piece: &[u8]) -> bool
    ensures all { IsTrue result → W.contents output.new ≡ append_known (W.contents output.old) piece.now }
    ensures part { (part : List ℕ) × IsPrefix part piece.now
        × (W.contents output.new ≡ append_known (W.contents output.old) part) }
{
    let mut rest = piece;
    while !rest.is_empty() {
        match output.write_some(rest) {
            Some(0) | None => return false,
            Some(count) => rest = &rest[count..],
        }
    }
    true
}
