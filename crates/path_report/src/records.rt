//! Records.

ghost use Rattle.std.specs.Prelude.{◌≡◌, IfOk, Some, codes};
ghost use Rattle.serde_json.specs.Data.{string, object};
ghost use Rattle.serde_json.specs.Find.{get_member};
ghost use Rattle.serde_json.specs.View.{view, members_view};
ghost use Rattle.net_check.specs.Network.{network};
ghost use Rattle.report_shape.specs.declared.part.Part.TheVariants as part;
ghost use Rattle.report_shape.specs.Shape.{path_fields, pruned_fields, unexplored_fields};
ghost use Rattle.record_text.specs.Records.{record_data, records_data};
ghost use Rattle.std.specs.List.{AllByRecursion};
ghost use Rattle.report_forms.specs.Fits.{RecordFits};
ghost use Rattle.path_report.specs.Having.{HasForm, Holds};

use crate::decoder::{Decoder, field};
use path_records::Record;
use serde_json::{Map, Value};
use sn_width::NoMemory;
use std::alloc::Global;

impl Decoder<'_> {
    #[tactic(auto, unfolding(record_text::specs::Records::path_data))]
    fn path(&self, alloc: Global, members: &Map<String, Value>) -> Result<Record, NoMemory>
        requires form { Holds (network self.now.net.now) path_fields (members_view members.now.entries) }
        requires word { get_member (codes "kind") (members_view members.now.entries) ≡ Some (string (codes "path")) }
        ensures shown { IfOk result (λ record'. record_data (network self.now.net.now) record'
            ≡ object (members_view members.now.entries)) }
        ensures fits { IfOk result (λ record'. RecordFits (network self.now.net.now) record') }
    {
        let decisions = self.decisions(alloc, field(members, "decisions"))?;
        let end = self.end(alloc, field(members, "end"))?;
        let fields = self.fields(alloc, field(members, "fields"))?;
        let places = self.places(alloc, field(members, "places"))?;
        let verdict = self.verdict(alloc, field(members, "verdict"))?;
        Ok(Record::Path {
            decisions,
            places,
            end,
            fields,
            verdict,
        })
    }

    #[tactic(auto, unfolding(record_text::specs::Records::pruned_data))]
    fn pruned(&self, alloc: Global, members: &Map<String, Value>) -> Result<Record, NoMemory>
        requires form { Holds (network self.now.net.now) pruned_fields (members_view members.now.entries) }
        requires word { get_member (codes "kind") (members_view members.now.entries) ≡ Some (string (codes "pruned")) }
        ensures shown { IfOk result (λ record'. record_data (network self.now.net.now) record'
            ≡ object (members_view members.now.entries)) }
        ensures fits { IfOk result (λ record'. RecordFits (network self.now.net.now) record') }
    {
        let before = self.before(alloc, field(members, "before"))?;
        let decisions = self.decisions(alloc, field(members, "decisions"))?;
        let refutation = self.refutation(alloc, field(members, "refutation"))?;
        Ok(Record::Pruned {
            decisions,
            before,
            refutation,
        })
    }

    #[tactic(auto, unfolding(record_text::specs::Records::unexplored_data))]
    fn unexplored(&self, alloc: Global, members: &Map<String, Value>) -> Result<Record, NoMemory>
        requires form { Holds (network self.now.net.now) unexplored_fields (members_view members.now.entries) }
        requires word { get_member (codes "kind") (members_view members.now.entries)
            ≡ Some (string (codes "unexplored")) }
        ensures shown { IfOk result (λ record'. record_data (network self.now.net.now) record'
            ≡ object (members_view members.now.entries)) }
        ensures fits { IfOk result (λ record'. RecordFits (network self.now.net.now) record') }
    {
        let decisions = self.decisions(alloc, field(members, "decisions"))?;
        Ok(Record::Unexplored { decisions })
    }

    pub(crate) fn record(&self, alloc: Global, value: &Value) -> Result<Record, NoMemory>
        requires { HasForm (network self.now.net.now) part.Record (view value.now) }
        ensures shown { IfOk result (λ record'. record_data (network self.now.net.now) record' ≡ view value.now) }
        ensures fits { IfOk result (λ record'. RecordFits (network self.now.net.now) record') }
    {
        let Value::Object(members) = value else {
            unreachable!();
        };
        match field(members, "kind").as_str() {
            Some("path") => self.path(alloc, members),
            Some("pruned") => self.pruned(alloc, members),
            Some("unexplored") => self.unexplored(alloc, members),
            _ => unreachable!(),
        }
    }

    #[tactic(auto, unfolding(record_text::specs::Records::records_data))]
    pub(crate) fn records(&self, alloc: Global, value: &Value) -> Result<Vec<Record>, NoMemory>
        requires { HasForm (network self.now.net.now) part.Records (view value.now) }
        ensures shown { IfOk result (λ found. records_data (network self.now.net.now) found.items ≡ view value.now) }
        ensures fits { IfOk result (λ found. AllByRecursion (RecordFits (network self.now.net.now)) found.items) }
    {
        let Value::Array(items) = value else {
            unreachable!();
        };
        let mut found = Vec::new(alloc);
        for item in items {
            found.push(self.record(alloc, item)?)?;
        }
        Ok(found)
    }
}
