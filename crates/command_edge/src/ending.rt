//! How a command ends.

use crate::fault::{InputFault, OwnFault};

/// How a text ends that was written whole.
#[derive(Clone, Copy)]
pub enum Ending {
    /// It says all that there is to say.
    Done,
    /// Some of it was left out, and it says so.
    Partial,
}

/// Why a command did not write its text whole.
#[derive(Drop)]
pub enum Stop {
    /// An input is refused.
    Input(InputFault),
    /// The inputs are good, and the command's own work gives no text.
    Own(OwnFault),
    /// The sink failed.
    Write,
    /// There was no memory to write.
    NoMemory,
}

impl From<InputFault> for Stop {
    ghost use Rattle.std.specs.Prelude.{◌≡◌};
    ghost use Rattle.command_edge.specs.declared.ending.Stop.TheVariants.{Input};

    ghost from_gives = { λ fault stop. stop ≡ Input fault };

    fn from(fault: InputFault) -> Stop {
        Stop::Input(fault)
    }
}
