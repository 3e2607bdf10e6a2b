//! Bytes that are put into the room of a caller.

ghost use Rattle.std.specs.Prelude.{◌≡◌, ◌++◌, length, take, drop};

/// Puts as many of the first bytes as the room has place for at its beginning, and answers how many bytes there are.
pub fn put(bytes: &[u8], room: &mut [u8]) -> usize
    ensures wanted { result ≡ length bytes.now }
    ensures put { room.new ≡ take (length room.old) bytes.now ++ drop (length bytes.now) room.old }
{
    let count = bytes.len().min(room.len());
    room[..count].copy_from_slice(&bytes[..count]);
    bytes.len()
}
