//! Lists of numbers, decisions and places.

ghost use Rattle.std.specs.Prelude.{◌≡◌, IfOk};
ghost use Rattle.serde_json.specs.View.{view};
ghost use Rattle.net_check.specs.Network.{network};
ghost use Rattle.report_shape.specs.declared.part.Part.TheVariants as part;
ghost use Rattle.run_text.specs.Forms.{values_data, decisions_data, places_data};
ghost use Rattle.record_text.specs.Records.{ids_data};
ghost use Rattle.std.specs.List.{AllByRecursion};
ghost use Rattle.report_names.specs.Own.{IsOwnPlace};
ghost use Rattle.report_forms.specs.Fits.{Fit32, Fit128, DecisionFits};
ghost use Rattle.path_report.specs.Having.{HasForm};

use crate::decoder::Decoder;
use sefl_meaning::{Decision, Place};
use serde_json::Value;
use sn_width::{NoMemory, Num};
use std::alloc::Global;

impl Decoder<'_> {
    #[tactic(auto, unfolding(record_text::specs::Records::ids_data))]
    pub(crate) fn ids(&self, alloc: Global, value: &Value) -> Result<Vec<u32>, NoMemory>
        requires { HasForm (network self.now.net.now) part.Ids (view value.now) }
        ensures shown { IfOk result (λ found. ids_data found.items ≡ view value.now) }
        ensures fits { IfOk result (λ found. Fit32 found.items) }
    {
        let Value::Array(items) = value else {
            unreachable!();
        };
        let mut found = Vec::new(alloc);
        for item in items {
            found.push(self.id(item))?;
        }
        Ok(found)
    }

    #[tactic(auto, unfolding(run_text::specs::Forms::values_data))]
    pub(crate) fn values(&self, alloc: Global, value: &Value) -> Result<Vec<Num>, NoMemory>
        requires { HasForm (network self.now.net.now) part.Values (view value.now) }
        ensures shown { IfOk result (λ found. values_data found.items ≡ view value.now) }
        ensures fits { IfOk result (λ found. Fit128 found.items) }
    {
        let Value::Array(items) = value else {
            unreachable!();
        };
        let mut found = Vec::new(alloc);
        for item in items {
            found.push(self.value(alloc, item)?)?;
        }
        Ok(found)
    }

    #[tactic(auto, unfolding(run_text::specs::Forms::decisions_data))]
    pub(crate) fn decisions(&self, alloc: Global, value: &Value) -> Result<Vec<Decision>, NoMemory>
        requires { HasForm (network self.now.net.now) part.Decisions (view value.now) }
        ensures shown { IfOk result (λ found. decisions_data found.items ≡ view value.now) }
        ensures fits { IfOk result (λ found. AllByRecursion DecisionFits found.items) }
    {
        let Value::Array(items) = value else {
            unreachable!();
        };
        let mut found = Vec::new(alloc);
        for item in items {
            found.push(self.decision(item))?;
        }
        Ok(found)
    }

    #[tactic(auto, unfolding(run_text::specs::Forms::places_data))]
    pub(crate) fn places(&self, alloc: Global, value: &Value) -> Result<Vec<Place>, NoMemory>
        requires { HasForm (network self.now.net.now) part.Places (view value.now) }
        ensures shown { IfOk result (λ found. places_data (network self.now.net.now) found.items ≡ view value.now) }
        ensures fits { IfOk result (λ found. AllByRecursion (IsOwnPlace (network self.now.net.now)) found.items) }
    {
        let Value::Array(items) = value else {
            unreachable!();
        };
        let mut found = Vec::new(alloc);
        for item in items {
            found.push(self.place(alloc, item)?)?;
        }
        Ok(found)
    }
}
