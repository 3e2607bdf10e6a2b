//! Laws of comparisons. Each is the contract of a function that does nothing.

ghost use Rattle.std.specs.Prelude.{◌≡◌, Bool, ℕ};
ghost use Rattle.net_check.specs.Network.{Entry, Network};
ghost use Rattle.command_edge.specs.Puts.{Outcome};
ghost use Rattle.compare_command.specs.Beyond.{UncutComparisonsGoBeyond};
ghost use Rattle.compare_command.specs.Compares.{ComparesTo};

use compare_meaning::laws::{paths_have_one_comparison, paths_have_one_first_clash};
use explore_command::laws::explorations_have_one_ending;
use hop_bounds::laws::uncut_records_go_beyond;
use one_list::laws::exact_records_are_one;

/// What `compare` comes to of two jobs is one thing: an answer, that something is left out, or one refusal.
pub fn comparisons_have_one_outcome()
    ensures { (hops limit : ℕ) (ln : Network) (li : Entry) (rn : Network) (ri : Entry) (counts : Bool)
        (a b : Outcome)
        → ComparesTo hops limit ln li rn ri counts a → ComparesTo hops limit ln li rn ri counts b → a ≡ b }
{
    explorations_have_one_ending();
    exact_records_are_one();
    paths_have_one_comparison();
    paths_have_one_first_clash();
}

/// Where no path of either exploration is cut at the bound of hops, and none is left out, an answer that is true is so of walks with
/// every larger bound: where it is Same, of walks of any length.
pub fn comparisons_without_cuts_go_beyond()
    ensures { (hops limit : ℕ) (ln : Network) (li : Entry) (rn : Network) (ri : Entry)
        → UncutComparisonsGoBeyond hops limit ln li rn ri }
{
    uncut_records_go_beyond();
}
