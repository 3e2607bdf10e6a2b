//! Members and items of values that have their form.

ghost use Rattle.std.specs.Prelude.{◌≡◌, IsSome, Some, option_map};
ghost use Rattle.serde_json.specs.Find.{get_member, at};
ghost use Rattle.serde_json.specs.View.{view, members_view};

use net_check::Net;
use serde_json::{Map, Value};

/// Reads values that have their form, by the names of a net.
#[derive(Drop)]
pub(crate) struct Decoder<'n> {
    pub(crate) net: &'n Net,
}

/// The member of the key.
pub(crate) fn member<'v>(members: &'v Map<String, Value>, key: &str) -> Option<&'v Value>
    ensures { option_map (λ v. view v.now) result ≡ get_member key.now (members_view members.now.entries) }
{
    members.get(key)
}

/// The member of the key, which is there.
pub(crate) fn field<'v>(members: &'v Map<String, Value>, key: &str) -> &'v Value
    requires { IsSome (get_member key.now (members_view members.now.entries)) }
    ensures { Some (view result.now) ≡ get_member key.now (members_view members.now.entries) }
{
    match member(members, key) {
        Some(value) => value,
        None => unreachable!(),
    }
}

/// The item of the list at the place, which is there.
pub(crate) fn item(list: &Value, index: usize) -> &Value
    requires { IsSome (at index (view list.now)) }
    ensures { Some (view result.now) ≡ at index (view list.now) }
{
    match list.get(index) {
        Some(value) => value,
        None => unreachable!(),
    }
}
