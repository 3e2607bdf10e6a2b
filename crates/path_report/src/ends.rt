//! Ends.

ghost use Rattle.std.specs.Prelude.{◌≡◌, ◌≤◌, IfOk, Some, ℕ, codes};
ghost use Rattle.serde_json.specs.Data.{object};
ghost use Rattle.serde_json.specs.Find.{get_member};
ghost use Rattle.serde_json.specs.View.{view, members_view};
ghost use Rattle.sn_width.specs.Faults.{fault_number};
ghost use Rattle.net_check.specs.Network.{network};
ghost use Rattle.report_shape.specs.declared.part.Part.TheVariants as part;
ghost use Rattle.report_shape.specs.Shape.{fault_fields, message_fields};
ghost use Rattle.run_text.specs.Forms.{count, fault_data, failure_data, end_data};
ghost use Rattle.report_forms.specs.Fits.{EndFits};
ghost use Rattle.path_report.specs.Having.{HasForm, Holds};

use crate::decoder::{Decoder, field};
use sefl_meaning::{End, Failure};
use sefl_syntax::Text;
use serde_json::{Map, Value};
use sn_width::{LayoutFault, NoMemory, Site};
use std::alloc::Global;

fn layout_fault(number: u64) -> LayoutFault
    requires least { 1 ≤ number }
    requires most { number ≤ 7 }
    ensures { fault_number result ≡ number }
{
    match number {
        1 => LayoutFault::NoTag,
        2 => LayoutFault::AddressRange,
        3 => LayoutFault::NoField,
        4 => LayoutFault::WidthDiffers,
        5 => LayoutFault::Overlap,
        6 => LayoutFault::Unset,
        _ => LayoutFault::NoMeta,
    }
}

/// The failure of a number from 1 to 8.
pub(crate) fn failure_of(number: u64) -> Failure
    requires least { 1 ≤ number }
    requires most { number ≤ 8 }
    ensures { (site : ℕ) → failure_data result site ≡ fault_data number site }
{
    if number == 8 {
        Failure::Constraint
    } else {
        Failure::Layout(layout_fault(number))
    }
}

impl Decoder<'_> {
    #[tactic(auto, unfolding(run_text::specs::Forms::end_data))]
    fn fault_end(&self, members: &Map<String, Value>, number: u64) -> End
        requires form { Holds (network self.now.net.now) fault_fields (members_view members.now.entries) }
        requires number { get_member (codes "fault") (members_view members.now.entries) ≡ Some (count number) }
        requires least { 1 ≤ number }
        requires most { number ≤ 8 }
        ensures shown { end_data result ≡ object (members_view members.now.entries) }
        ensures fits { EndFits result }
    {
        let site = Site(self.id(field(members, "site")));
        End::Failed {
            failure: failure_of(number),
            site,
        }
    }

    #[tactic(auto, unfolding(run_text::specs::Forms::end_data))]
    fn message_end(&self, alloc: Global, members: &Map<String, Value>) -> Result<End, NoMemory>
        requires form { Holds (network self.now.net.now) message_fields (members_view members.now.entries) }
        requires number { get_member (codes "fault") (members_view members.now.entries) ≡ Some (count 9) }
        ensures shown { IfOk result (λ end. end_data end ≡ object (members_view members.now.entries)) }
        ensures fits { IfOk result (λ end. EndFits end) }
    {
        let site = Site(self.id(field(members, "site")));
        let text = self.text(alloc, field(members, "text"))?;
        Ok(End::Failed {
            failure: Failure::Message { text },
            site,
        })
    }

    fn failed_end(&self, alloc: Global, members: &Map<String, Value>) -> Result<End, NoMemory>
        requires { HasForm (network self.now.net.now) part.End (object (members_view members.now.entries)) }
        ensures shown { IfOk result (λ end. end_data end ≡ object (members_view members.now.entries)) }
        ensures fits { IfOk result (λ end. EndFits end) }
    {
        match field(members, "fault").as_u64() {
            Some(number) => {
                if number == 9 {
                    self.message_end(alloc, members)
                } else {
                    Ok(self.fault_end(members, number))
                }
            }
            None => unreachable!(),
        }
    }

    #[tactic(auto, unfolding(run_text::specs::Forms::end_data))]
    pub(crate) fn end(&self, alloc: Global, value: &Value) -> Result<End, NoMemory>
        requires { HasForm (network self.now.net.now) part.End (view value.now) }
        ensures shown { IfOk result (λ end. end_data end ≡ view value.now) }
        ensures fits { IfOk result (λ end. EndFits end) }
    {
        match value {
            Value::String(text) => match text.as_str() {
                "stopped" => Ok(End::Stopped),
                "delivered" => Ok(End::Delivered),
                "cut" => Ok(End::Cut),
                _ => unreachable!(),
            },
            Value::Object(members) => self.failed_end(alloc, members),
            _ => unreachable!(),
        }
    }
}
