//! What a list does with a packet.

ghost use Rattle.std.specs.Prelude.{◌<◌, ◌^◌, length};
ghost use Rattle.acl_rules.specs.Comparing.{IsSide};

use crate::packets::is_in;
use crate::rule::Rule;

/// What a list does with a packet.
#[derive(Clone, Copy)]
pub struct Side {
    pub permits: bool,
    /// The number of the rule that decides the packet; it is denied where none does.
    pub rule: Option<u32>,
}

/// What the list does with the packet.
pub(crate) fn side_of(rules: &[Rule], values: &[u32; 5]) -> Side
    requires { length rules.now < 2 ^ 32 }
    ensures { IsSide rules.now values.now result }
{
    for number in 0..rules.len() as u32 {
        let rule = &rules[number as usize];
        if is_in(&rule.ranges, values) {
            return Side {
                permits: rule.permits,
                rule: Some(number),
            };
        }
    }
    Side {
        permits: false,
        rule: None,
    }
}
