//! The text of a command, put in one piece.

ghost use Rattle.sn_edge.specs.Told.{SinkKept};
ghost use Rattle.command_edge.specs.Puts.{Puts, PutsWhole, WriteShows};

use crate::ending::{Ending, Stop};
use crate::fault::OwnFault;
use sn_edge::{Put, Sink};

/// Puts the bytes of a whole text in one piece.
fn put_whole<K: Sink>(whole: &[u8], ending: Ending, out: &mut K) -> Result<Ending, Stop>
    ensures out_kept { SinkKept (K.told out.old) (K.told out.new) }
    ensures puts { PutsWhole K.told K.put_gives out.old out.new whole.now ending result }
    ensures shows { WriteShows (K.told out.old) (K.told out.new) result }
{
    match out.put(whole) {
        Put::All => Ok(ending),
        Put::Failed => Err(Stop::Write),
        Put::NoMemory => Err(Stop::NoMemory),
    }
}

/// Puts the text of a command in one piece, where there is one.
pub fn put_text<K: Sink>(
    answer: Result<(Ending, String), OwnFault>,
    out: &mut K,
) -> Result<Ending, Stop>
    ensures out_kept { SinkKept (K.told out.old) (K.told out.new) }
    ensures puts { Puts K.told K.put_gives out.old out.new answer result }
    ensures shows { WriteShows (K.told out.old) (K.told out.new) result }
{
    match answer {
        Ok((ending, text)) => put_whole(text.as_bytes(), ending, out),
        Err(fault) => Err(Stop::Own(fault)),
    }
}
