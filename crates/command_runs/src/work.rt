//! Commands, and how they are run.

ghost use Rattle.std.specs.Prelude.{◌≡◌};
ghost use Rattle.sn_edge.specs.Told.{FolderKept, PatternsKept, SinkKept};
ghost use Rattle.command_runs.specs.Outside.{outside};
ghost use Rattle.command_edge.specs.Puts.{WriteShows};
ghost use Rattle.command_runs.specs.Runs.{OwnWork, Performs, Runs, Shows};

use crate::source::Source;
use command_edge::{Ending, Stop};
use sn_edge::{Folder, Patterns, Sink};
use std::alloc::Global;

/// A command: what it reads, and its own work on that.
pub trait Work {
    type From: Source;

    /// What it reads.
    ghost source: { Self → Self.From };

    fn source(&self) -> &Self::From
        ensures { result.now ≡ source self.now };

    ghost work: { Self → OwnWork };

    /// Does the work on what the source gave. After a put that does not answer All nothing more is put.
    fn perform<K: Sink>(
        &self,
        alloc: Global,
        given: <Self::From as Source>::Given,
        out: &mut K,
    ) -> Result<Ending, Stop>
        requires { Self.From.keeps given }
        ensures out_kept { SinkKept (K.told out.old) (K.told out.new) }
        ensures performs { Performs K.told K.put_gives out.old out.new (work self.now) (Self.From.givens given) result }
        ensures shows { WriteShows (K.told out.old) (K.told out.new) result };
}

/// Opens what the command reads, and does its work on that.
pub fn run<W: Work, F: Folder, P: Patterns, K: Sink>(
    alloc: Global,
    work: &W,
    folder: &mut F,
    patterns: &mut P,
    out: &mut K,
) -> Result<Ending, Stop>
    ensures folder_kept { FolderKept (F.told folder.old) (F.told folder.new) }
    ensures patterns_kept { PatternsKept (P.told patterns.old) (P.told patterns.new) }
    ensures out_kept { SinkKept (K.told out.old) (K.told out.new) }
    ensures ran { Runs K.told K.put_gives out.old out.new (outside F.told F.load_gives P.told P.find_gives)
        (folder.old, patterns.old) (folder.new, patterns.new) (W.From.inputs (W.source work.now)) (W.work work.now)
        result }
    ensures shows { Shows (F.told folder.old) (F.told folder.new) (P.told patterns.old) (P.told patterns.new)
        (K.told out.old) (K.told out.new) result }
{
    let given = work.source().open(alloc, folder, patterns)?;
    work.perform(alloc, given, out)
}
