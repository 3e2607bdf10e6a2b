//! Whether two lists permit the same packets.

use crate::joint::JointCover;
use crate::side::Side;

/// Whether two lists permit the same packets.
#[derive(Drop)]
pub enum Verdict {
    /// They do, as these covers show.
    Same {
        joints: Vec<JointCover>,
    },
    /// One permits this packet, and the other denies it.
    Other {
        values: [u32; 5],
        left: Side,
        right: Side,
    },
}
