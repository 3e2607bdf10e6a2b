//! Commands whose text is one piece.

ghost use Rattle.std.specs.Prelude.{◌≡◌, List, IfOk, IfErr, string_bytes};
ghost use Rattle.command_edge.specs.Puts.{Outcome, text};
ghost use Rattle.command_runs.specs.Inputs.{Given as GivenOf};
ghost use Rattle.command_runs.specs.Runs.{IsRefusal, one_piece};

use crate::source::Source;
use crate::work::Work;
use command_edge::{Ending, OwnFault, Stop, put_text};
use sn_edge::Sink;
use std::alloc::{AllocError, Global};

/// A command whose text is one piece, which is made before it is put.
pub trait OnePiece {
    type From: Source;

    /// What it reads.
    ghost source: { Self → Self.From };

    fn source(&self) -> &Self::From
        ensures { result.now ≡ source self.now };

    /// What its work comes to, on what its inputs gave.
    ghost comes: { Self → List GivenOf → Outcome → Type 0 };

    /// The text with its ending, or why there is none.
    fn text(
        &self,
        alloc: Global,
        given: <Self::From as Source>::Given,
    ) -> Result<(Ending, String), OwnFault>
        requires { Self.From.keeps given }
        ensures text { IfOk result (λ t. comes self.now (Self.From.givens given) (text t.0 (string_bytes t.1))) }
        ensures refused { IfErr result (IsRefusal (comes self.now (Self.From.givens given))) };
}

/// The work of a command whose text is one piece.
pub struct Piece<C>(pub C);

// Not derived, which would clone the command.
impl<C: Copy> Clone for Piece<C> {
    fn clone(&self) -> Result<Piece<C>, AllocError> {
        Ok(*self)
    }
}

impl<C: Copy> Copy for Piece<C> {}

impl<C: OnePiece> Work for Piece<C> {
    type From = C::From;

    ghost source = { λ p. C.source p.0 };

    ghost work = { λ p. one_piece (C.comes p.0) };

    fn source(&self) -> &C::From {
        self.0.source()
    }

    fn perform<K: Sink>(
        &self,
        alloc: Global,
        given: <C::From as Source>::Given,
        out: &mut K,
    ) -> Result<Ending, Stop> {
        put_text(self.0.text(alloc, given), out)
    }
}
