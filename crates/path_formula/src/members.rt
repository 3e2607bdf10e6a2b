//! The members of a formula: formulas inside it that all have their truth where it has the truth that it must have.

ghost use Rattle.std.specs.Prelude.{◌≡◌};
ghost use Rattle.std.specs.Option.{option_map};
ghost use Rattle.path_formula.specs.Members.{member_among, member_of};
ghost use Rattle.path_formula.specs.View.{view, views};

use crate::Formula;

/// The member of the formula with the truth `holds` to which the way leads, and the truth that the member must have. The empty way
/// leads to the formula itself. On a way each number is that of a part, from 0, of a conjunction: an `And` that must be true, or an
/// `Or` that must be false. `None` where the way leads nowhere.
#[cycle(member)]
pub fn member_at<'a>(formula: &'a Formula, holds: bool, way: &[u32]) -> Option<(&'a Formula, bool)>
    ensures { option_map (λ m. (view m.0.now, m.1)) result ≡ member_of (view formula.now) holds way.now }
{
    let Some((number, rest)) = way.split_first() else {
        return Some((formula, holds));
    };
    match formula {
        Formula::Truth(_) => None,
        Formula::Compare { .. } => None,
        Formula::Member { .. } => None,
        Formula::And(parts) => {
            if holds {
                part_at(parts, true, *number, rest)
            } else {
                None
            }
        }
        Formula::Or(parts) => {
            if holds {
                None
            } else {
                part_at(parts, false, *number, rest)
            }
        }
        Formula::Not(part) => member_at(part, !holds, way),
    }
}

/// The member to which the way leads in the part of this number.
#[cycle(member)]
fn part_at<'a>(
    parts: &'a Vec<Formula>,
    holds: bool,
    number: u32,
    way: &[u32],
) -> Option<(&'a Formula, bool)>
    ensures { option_map (λ m. (view m.0.now, m.1)) result
        ≡ member_among (views parts.now.items) holds number way.now }
{
    match parts.get(number as usize) {
        None => None,
        Some(part) => member_at(part, holds, way),
    }
}
