//! The loop over a reader.
ghost use Rattle.std.specs.Prelude.{◌≡◌, ◌<◌, ◌≤◌, ◌+◌, ℕ, List, length};
ghost use Rattle.std.specs.Io.KnownBytes.{Consumes, IsAtEnd};
ghost use Rattle.sn_edge.specs.Loaded.{IfBytes, OnAbsent, OnTooBig};

use crate::Loaded;
use std::alloc::Global;
use std::io::Read;

// How many bytes a read asks for at most. Its buffer stands on the stack, which may be small.
const CHUNK: usize = 8192;

// All the bytes that a reader has left. It ends after `limit + 1` bytes.
pub(crate) fn read_whole<R: Read>(alloc: Global, reader: &mut R, limit: u64) -> Loaded
    ensures within { IfBytes result (λ bytes. length bytes ≤ limit) }
    ensures bytes { IfBytes result (λ bytes. Consumes (R.remaining reader.old) (R.remaining reader.new) bytes
        × IsAtEnd (R.remaining reader.new)) }
    ensures too_big { OnTooBig result ((bytes : List ℕ) × (length bytes ≡ limit + 1)
        × Consumes (R.remaining reader.old) (R.remaining reader.new) bytes) }
    ensures present { OnAbsent result ⊥ }
{
    let mut bytes = Vec::new(alloc);
    let mut chunk = [0u8; CHUNK];
    loop {
        let room = limit - bytes.len() as u64;
        let asked = room.min(CHUNK as u64 - 1) as usize + 1;
        let part = &mut chunk[..asked];
        let count = match reader.read(part) {
            Ok(0) => return Loaded::Bytes(bytes),
            Ok(count) => count,
            Err(_) => return Loaded::Failed,
        };
        if count as u64 > room {
            return Loaded::TooBig;
        }
        if bytes.extend_from_slice(&part[..count]).is_err() {
            return Loaded::NoMemory;
        }
    }
}
