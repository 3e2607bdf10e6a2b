//! Verdicts and causes.

ghost use Rattle.std.specs.Prelude.{◌≡◌, IfOk, Some, codes};
ghost use Rattle.serde_json.specs.Data.{string, object};
ghost use Rattle.serde_json.specs.Find.{get_member};
ghost use Rattle.serde_json.specs.View.{view, members_view};
ghost use Rattle.net_check.specs.Network.{network};
ghost use Rattle.report_shape.specs.declared.part.Part.TheVariants as part;
ghost use Rattle.report_shape.specs.Shape.{counted_fields, outside_fields, sat_fields, undecided_fields};
ghost use Rattle.record_text.specs.Records.{counted_data, cause_data, verdict_data, before_data};
ghost use Rattle.report_forms.specs.Fits.{CauseFits, VerdictFits, BeforeFits};
ghost use Rattle.path_report.specs.Having.{HasForm, Holds};

use crate::decoder::{Decoder, field, member};
use refutation_check::{Cause, Listed, Verdict};
use serde_json::{Map, Value};
use sn_width::NoMemory;
use std::alloc::Global;

impl Decoder<'_> {
    fn outside(&self, alloc: Global, members: &Map<String, Value>) -> Result<Cause, NoMemory>
        requires form { Holds (network self.now.net.now) outside_fields (members_view members.now.entries) }
        requires word { get_member (codes "cause") (members_view members.now.entries)
            ≡ Some (string (codes "outside")) }
        ensures shown { IfOk result (λ cause. cause_data cause ≡ object (members_view members.now.entries)) }
        ensures fits { IfOk result (λ cause. CauseFits cause) }
    {
        let pick = self.id(field(members, "pick"));
        let values = self.values(alloc, field(members, "values"))?;
        Ok(Cause::Outside {
            pick,
            values: Listed::from_vec(values),
        })
    }

    fn counted(&self, members: &Map<String, Value>, word: &str) -> u64
        requires form { Holds (network self.now.net.now) counted_fields (members_view members.now.entries) }
        requires word { get_member (codes "cause") (members_view members.now.entries) ≡ Some (string word.now) }
        ensures { counted_data word.now result ≡ object (members_view members.now.entries) }
    {
        self.count(field(members, "count"))
    }

    fn cause(&self, alloc: Global, value: &Value) -> Result<Cause, NoMemory>
        requires { HasForm (network self.now.net.now) part.Cause (view value.now) }
        ensures shown { IfOk result (λ cause. cause_data cause ≡ view value.now) }
        ensures fits { IfOk result (λ cause. CauseFits cause) }
    {
        let Value::Object(members) = value else {
            unreachable!();
        };
        match field(members, "cause").as_str() {
            Some("outside") => self.outside(alloc, members),
            Some("cases") => {
                let count = self.counted(members, "cases");
                Ok(Cause::Cases { count })
            }
            Some("coupled") => {
                let count = self.counted(members, "coupled");
                Ok(Cause::Coupled { count })
            }
            _ => unreachable!(),
        }
    }

    #[tactic(auto, unfolding(record_text::specs::Records::verdict_data))]
    fn sat(&self, alloc: Global, members: &Map<String, Value>) -> Result<Verdict, NoMemory>
        requires { Holds (network self.now.net.now) sat_fields (members_view members.now.entries) }
        ensures shown { IfOk result (λ verdict. verdict_data verdict ≡ object (members_view members.now.entries)) }
        ensures fits { IfOk result (λ verdict. VerdictFits verdict) }
    {
        let values = self.values(alloc, field(members, "sat"))?;
        Ok(Verdict::Sat {
            values: Listed::from_vec(values),
        })
    }

    #[tactic(auto, unfolding(record_text::specs::Records::verdict_data))]
    fn undecided(&self, alloc: Global, members: &Map<String, Value>) -> Result<Verdict, NoMemory>
        requires { Holds (network self.now.net.now) undecided_fields (members_view members.now.entries) }
        ensures shown { IfOk result (λ verdict. verdict_data verdict ≡ object (members_view members.now.entries)) }
        ensures fits { IfOk result (λ verdict. VerdictFits verdict) }
    {
        let cause = self.cause(alloc, field(members, "undecided"))?;
        Ok(Verdict::Undecided { cause })
    }

    fn verdict_of(&self, alloc: Global, members: &Map<String, Value>) -> Result<Verdict, NoMemory>
        requires { HasForm (network self.now.net.now) part.Verdict (object (members_view members.now.entries)) }
        ensures shown { IfOk result (λ verdict. verdict_data verdict ≡ object (members_view members.now.entries)) }
        ensures fits { IfOk result (λ verdict. VerdictFits verdict) }
    {
        match member(members, "sat") {
            Some(_) => self.sat(alloc, members),
            None => self.undecided(alloc, members),
        }
    }

    pub(crate) fn verdict(&self, alloc: Global, value: &Value) -> Result<Verdict, NoMemory>
        requires { HasForm (network self.now.net.now) part.Verdict (view value.now) }
        ensures shown { IfOk result (λ verdict. verdict_data verdict ≡ view value.now) }
        ensures fits { IfOk result (λ verdict. VerdictFits verdict) }
    {
        let Value::Object(members) = value else {
            unreachable!();
        };
        self.verdict_of(alloc, members)
    }

    #[tactic(auto, unfolding(record_text::specs::Records::before_data))]
    pub(crate) fn before(&self, alloc: Global, value: &Value) -> Result<Option<Verdict>, NoMemory>
        requires { HasForm (network self.now.net.now) part.Before (view value.now) }
        ensures shown { IfOk result (λ before. before_data before ≡ view value.now) }
        ensures fits { IfOk result (λ before. BeforeFits before) }
    {
        match value {
            Value::Null => Ok(None),
            Value::Object(members) => Ok(Some(self.verdict_of(alloc, members)?)),
            _ => unreachable!(),
        }
    }
}
