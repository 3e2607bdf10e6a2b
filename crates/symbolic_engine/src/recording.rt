//! An observer that makes records.

ghost use Rattle.symbolic_engine.specs.Recorded.{recording_of};

use crate::found::Found;
use path_exec::{Observer, Receiver, Took};
use path_records::Record;
use sefl_meaning::Decision;
use std::alloc::Global;
use std::marker::{Brand, PhantomData};

/// What a receiver of records puts them into.
pub trait Mark {
    ghost use Rattle.std.specs.Prelude.{ℕ};

    ghost target: { ℕ };
}

impl Mark for Brand {
    ghost target = { 0 };
}

/// Makes a record of all that is found, for a receiver of records.
#[derive(Drop)]
pub(crate) struct Recording<'a, M: Mark, K: Receiver<Item = Record>> {
    pub(crate) alloc: Global,
    pub(crate) out: &'a mut K,
    pub(crate) of: PhantomData<M>,
}

impl<M: Mark, K: Receiver<Item = Record>> Observer for Recording<'_, M, K> {
    type Found = Found;

    ghost seen = { λ recording. recording_of (K.seen recording.out.now) M.target recording.out.ghost_name };

    fn see(&mut self, found: Found, decisions: &[Decision]) -> Took {
        match found.into_record(self.alloc, decisions) {
            Ok(made) => self.out.take(made),
            Err(_) => Took::NoMemory,
        }
    }
}
