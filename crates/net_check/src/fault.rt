//! Why a job is not accepted.

ghost use Rattle.std.specs.Prelude.{◌≡◌};

use job_items::Rule;
use sn_width::{NoMemory, Site};

/// Why a job is not accepted.
#[derive(Clone, Copy, PartialEq, Eq)]
pub enum AcceptFault {
    /// The item at the site is the first in the text that breaks a rule, and this is the first rule that it breaks. A
    /// bad pattern is told where no other rule is broken, at the first For that has the first such pattern.
    Refused { site: Site, rule: Rule },
    NoMemory,
}

impl From<NoMemory> for AcceptFault {
    ghost use Rattle.std.specs.Prelude.{◌≡◌};
    ghost use Rattle.net_check.specs.declared.fault.AcceptFault.TheVariants.{NoMemory as OutOfMemory};

    ghost from_gives = { λ _ fault. fault ≡ OutOfMemory };

    fn from(_error: NoMemory) -> AcceptFault {
        AcceptFault::NoMemory
    }
}
