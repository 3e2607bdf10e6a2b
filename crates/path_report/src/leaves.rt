//! Numbers, names and words.

ghost use Rattle.std.specs.Prelude.{◌≡◌, ◌≤◌, IfOk};
ghost use Rattle.serde_json.specs.Data.{string};
ghost use Rattle.serde_json.specs.View.{view};
ghost use Rattle.net_check.specs.Network.{network};
ghost use Rattle.report_shape.specs.declared.part.Part.TheVariants as part;
ghost use Rattle.run_text.specs.Names.{meta_name, tag_name};
ghost use Rattle.run_text.specs.Forms.{count, address_data, value_data, decision_data, place_data, owner_data};
ghost use Rattle.record_text.specs.Reports.{state_text};
ghost use Rattle.report_names.specs.Own.{IsOwnName, IsOwnTag, IsOwnPlace};
ghost use Rattle.report_forms.specs.Fits.{AddressFits, DecisionFits, OwnerFits};
ghost use Rattle.path_report.specs.Having.{HasForm};

use crate::decoder::Decoder;
use report_names::{known_meta, known_node, known_place, known_tag};
use report_shape::large_of;
use report_shape::laws::large_numbers_have_digits;
use sefl_meaning::{Decision, Place};
use sefl_syntax::Text;
use serde_json::Value;
use sn_width::{NameId, NoMemory, NodeId, Num, TagId, Width};
use std::alloc::Global;

impl Decoder<'_> {
    pub(crate) fn count(&self, value: &Value) -> u64
        requires { HasForm (network self.now.net.now) part.Count (view value.now) }
        ensures { count result ≡ view value.now }
    {
        match value.as_u64() {
            Some(count) => count,
            None => unreachable!(),
        }
    }

    pub(crate) fn id(&self, value: &Value) -> u32
        requires { HasForm (network self.now.net.now) part.Id (view value.now) }
        ensures { count result ≡ view value.now }
    {
        match value.as_u64() {
            Some(id) => id as u32,
            None => unreachable!(),
        }
    }

    pub(crate) fn hops(&self, value: &Value) -> u32
        requires { HasForm (network self.now.net.now) part.Hops (view value.now) }
        ensures shown { count result ≡ view value.now }
        ensures least { 1 ≤ result }
        ensures most { result ≤ 256 }
    {
        match value.as_u64() {
            Some(hops) => hops as u32,
            None => unreachable!(),
        }
    }

    pub(crate) fn limit(&self, value: &Value) -> u32
        requires { HasForm (network self.now.net.now) part.Limit (view value.now) }
        ensures shown { count result ≡ view value.now }
        ensures least { 1 ≤ result }
        ensures most { result ≤ 100000 }
    {
        match value.as_u64() {
            Some(limit) => limit as u32,
            None => unreachable!(),
        }
    }

    pub(crate) fn width(&self, value: &Value) -> Width
        requires { HasForm (network self.now.net.now) part.Width (view value.now) }
        ensures shown { count result ≡ view value.now }
        ensures least { 1 ≤ result }
        ensures most { result ≤ 128 }
    {
        let Some(bits) = value.as_u64() else {
            unreachable!();
        };
        match Width::new(bits as u8) {
            Some(width) => width,
            None => unreachable!(),
        }
    }

    pub(crate) fn address(&self, value: &Value) -> i32
        requires { HasForm (network self.now.net.now) part.Address (view value.now) }
        ensures shown { address_data result ≡ view value.now }
        ensures fits { AddressFits result }
    {
        match value.as_i64() {
            Some(address) => address as i32,
            None => unreachable!(),
        }
    }

    pub(crate) fn value(&self, alloc: Global, value: &Value) -> Result<Num, NoMemory>
        requires { HasForm (network self.now.net.now) part.Value (view value.now) }
        ensures { IfOk result (λ n. value_data n ≡ view value.now) }
    {
        large_numbers_have_digits();
        match value {
            Value::Number(number) => match number.as_u64() {
                Some(small) => Ok(Num::from(small)),
                None => unreachable!(),
            },
            Value::String(text) => match large_of(alloc, text)? {
                Some(large) => Ok(large),
                None => unreachable!(),
            },
            _ => unreachable!(),
        }
    }

    pub(crate) fn decision(&self, value: &Value) -> Decision
        requires { HasForm (network self.now.net.now) part.Decision (view value.now) }
        ensures shown { decision_data result ≡ view value.now }
        ensures fits { DecisionFits result }
    {
        match value {
            Value::Number(number) => match number.as_u64() {
                Some(index) => Decision::Copy(index as u32),
                None => unreachable!(),
            },
            Value::String(text) => match text.as_str() {
                "then" => Decision::Then,
                "else" => Decision::Else,
                "pass" => Decision::Pass,
                "broken" => Decision::Broken,
                _ => unreachable!(),
            },
            _ => unreachable!(),
        }
    }

    /// Whether nothing is left unexplored.
    pub(crate) fn complete(&self, value: &Value) -> bool
        requires { HasForm (network self.now.net.now) part.State (view value.now) }
        ensures { string (state_text result) ≡ view value.now }
    {
        match value.as_str() {
            Some("done") => true,
            Some("partial") => false,
            _ => unreachable!(),
        }
    }

    pub(crate) fn text(&self, alloc: Global, value: &Value) -> Result<Text, NoMemory>
        requires { HasForm (network self.now.net.now) part.Text (view value.now) }
        ensures { IfOk result (λ text. string text ≡ view value.now) }
    {
        match value.as_str() {
            Some(text) => Text::of(alloc, text),
            None => unreachable!(),
        }
    }

    pub(crate) fn place(&self, alloc: Global, value: &Value) -> Result<Place, NoMemory>
        requires { HasForm (network self.now.net.now) part.Place (view value.now) }
        ensures shown { IfOk result (λ place. place_data (network self.now.net.now) place ≡ view value.now) }
        ensures fits { IfOk result (λ place. IsOwnPlace (network self.now.net.now) place) }
    {
        match value.as_str() {
            Some(text) => known_place(alloc, self.net, text),
            None => unreachable!(),
        }
    }

    pub(crate) fn owner(&self, alloc: Global, value: &Value) -> Result<Option<NodeId>, NoMemory>
        requires { HasForm (network self.now.net.now) part.Owner (view value.now) }
        ensures shown { IfOk result (λ owner. owner_data (network self.now.net.now) owner ≡ view value.now) }
        ensures fits { IfOk result (λ owner. OwnerFits (network self.now.net.now) owner) }
    {
        match value.as_str() {
            Some(text) => Ok(Some(known_node(alloc, self.net, text)?)),
            None => Ok(None),
        }
    }

    pub(crate) fn meta_name(&self, alloc: Global, value: &Value) -> Result<NameId, NoMemory>
        requires { HasForm (network self.now.net.now) part.MetaName (view value.now) }
        ensures shown { IfOk result (λ name. string (meta_name (network self.now.net.now) name) ≡ view value.now) }
        ensures fits { IfOk result (λ name. IsOwnName (network self.now.net.now) name) }
    {
        match value.as_str() {
            Some(text) => known_meta(alloc, self.net, text),
            None => unreachable!(),
        }
    }

    pub(crate) fn tag_name(&self, alloc: Global, value: &Value) -> Result<TagId, NoMemory>
        requires { HasForm (network self.now.net.now) part.TagName (view value.now) }
        ensures shown { IfOk result (λ tag. string (tag_name (network self.now.net.now) tag) ≡ view value.now) }
        ensures fits { IfOk result (λ tag. IsOwnTag (network self.now.net.now) tag) }
    {
        match value.as_str() {
            Some(text) => known_tag(alloc, self.net, text),
            None => unreachable!(),
        }
    }
}
