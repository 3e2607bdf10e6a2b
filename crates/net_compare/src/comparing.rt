//! The comparison of the delivered paths of two nets, from what their miss conditions say.

ghost use Rattle.std.specs.Prelude.{◌++◌, IfOk, map};
ghost use Rattle.std.specs.List.{AllByRecursion};
ghost use Rattle.compare_meaning.specs.Clashes.{NoneClash};
ghost use Rattle.compare_meaning.specs.Comparing.{IsKnown};
ghost use Rattle.net_compare.specs.Facings.{AllFit, FitTogether, IsSound};
ghost use Rattle.net_compare.specs.Saying.{Tells, compared_seen, seen_path};

use crate::delivery::Delivery;
use crate::judged::Judged;
use crate::missing::miss;
use compare_typing::laws::paths_that_do_not_clash_agree;
use refutation_check::Listed;
use sn_width::{NoMemory, Num};
use std::alloc::Global;

/// What a comparison says.
#[derive(Drop)]
pub enum Compared {
    Same,
    /// The path of this number, of the left net or of the right one, delivers what the other net does not, with these values.
    Other {
        left: bool,
        number: u64,
        values: Listed<Num>,
    },
    /// It is not known for these paths.
    Unknown {
        left: Vec<u64>,
        right: Vec<u64>,
    },
}

/// What the miss conditions of the paths of one net say: the first that is met, or the numbers of those that are undecided.
#[derive(Drop)]
enum Told {
    Met { number: u64, values: Listed<Num> },
    Open { numbers: Vec<u64> },
}

/// What the miss conditions of these paths say.
fn tell(alloc: Global, own: &[Delivery<'_>], others: &[Delivery<'_>]) -> Result<Told, NoMemory>
    requires sound { AllByRecursion IsSound own.now }
    requires others_sound { AllByRecursion IsSound others.now }
    requires fit { AllFit (map seen_path others.now) (map seen_path own.now) }
    requires together { FitTogether (map seen_path others.now) }
    ensures { IfOk result (Tells (map seen_path others.now) (map seen_path own.now)) }
{
    let mut numbers = Vec::new(alloc);
    for path in own {
        match miss(alloc, path, others)? {
            Judged::Met { values } => {
                return Ok(Told::Met {
                    number: path.number,
                    values,
                });
            }
            Judged::Open => numbers.push(path.number)?,
            Judged::Out => {}
        }
    }
    Ok(Told::Open { numbers })
}

/// The comparison of the paths of both nets.
pub(crate) fn compare_paths(
    alloc: Global,
    lefts: &[Delivery<'_>],
    rights: &[Delivery<'_>],
) -> Result<Compared, NoMemory>
    requires lefts { AllByRecursion IsSound lefts.now }
    requires rights { AllByRecursion IsSound rights.now }
    requires none { NoneClash (map seen_path lefts.now ++ map seen_path rights.now) }
    ensures { IfOk result (λ c. IsKnown (map seen_path lefts.now) (map seen_path rights.now) (compared_seen c)) }
{
    paths_that_do_not_clash_agree();
    let left = match tell(alloc, lefts, rights)? {
        Told::Met { number, values } => {
            return Ok(Compared::Other {
                left: true,
                number,
                values,
            });
        }
        Told::Open { numbers } => numbers,
    };
    let right = match tell(alloc, rights, lefts)? {
        Told::Met { number, values } => {
            return Ok(Compared::Other {
                left: false,
                number,
                values,
            });
        }
        Told::Open { numbers } => numbers,
    };
    if left.is_empty() && right.is_empty() {
        return Ok(Compared::Same);
    }
    Ok(Compared::Unknown { left, right })
}
