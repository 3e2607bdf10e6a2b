//! Where choices of one case come from.

ghost use Rattle.std.specs.Prelude.{◌≡◌};
ghost use Rattle.path_solver.specs.Origins.{refute_of};

use refutation_check::{Listed, Refute};
use sn_width::SymId;
use std::alloc::Global;

/// Where a choice of cases comes from.
#[derive(Clone, Copy)]
pub enum Origin {
    /// The ranges of the symbol's domain.
    Ranges { symbol: SymId },
    /// The cases of the formula of the pick.
    Cases { pick: u32 },
}

/// The step that splits it.
pub(crate) fn refute_of(alloc: Global, origin: Origin) -> Refute
    ensures { result ≡ refute_of origin }
{
    match origin {
        Origin::Ranges { symbol } => Refute::Domain { symbol },
        Origin::Cases { pick } => Refute::Split {
            pick,
            way: Listed::from_vec(Vec::new(alloc)),
        },
    }
}
