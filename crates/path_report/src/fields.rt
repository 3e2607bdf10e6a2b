//! What a packet carries.

ghost use Rattle.std.specs.Prelude.{◌≡◌, ◌∷◌, [], map, IfOk};
ghost use Rattle.serde_json.specs.Data.{object};
ghost use Rattle.serde_json.specs.View.{view, members_view};
ghost use Rattle.net_check.specs.Network.{network};
ghost use Rattle.path_records.specs.Shown.{fields_seen};
ghost use Rattle.report_shape.specs.declared.part.Part.TheVariants as part;
ghost use Rattle.run_text.specs.Held.{held_head, held_meta};
ghost use Rattle.run_text.specs.Forms.{head_data, heads_data, meta_data, metas_data, tag_data, tags_data, term_data, fields_data};
ghost use Rattle.std.specs.List.{AllByRecursion};
ghost use Rattle.report_forms.specs.Fits.{HeadFits, MetaFits, TagFits, FieldsFit};
ghost use Rattle.path_report.specs.Having.{HasForm, IsRow, Holds};
ghost use Rattle.report_shape.specs.Shape.{carried_fields};

use crate::decoder::{Decoder, field, item};
use cell_stacks::Cell;
use lin_term::Term;
use path_records::Fields;
use serde_json::{Map, Value};
use sn_width::{NameId, NoMemory, NodeId, TagId};
use std::alloc::Global;

/// An address with its cells.
type Head = (i32, Vec<Cell<Term>>);

/// An owner, none for a global, and a name with their cells.
type Meta = (Option<NodeId>, NameId, Vec<Cell<Term>>);

impl Decoder<'_> {
    #[tactic(auto, unfolding(run_text::specs::Forms::head_data))]
    fn head(&self, alloc: Global, value: &Value) -> Result<Head, NoMemory>
        requires { IsRow (network self.now.net.now) (part.Address ∷ part.Cells ∷ []) (view value.now) }
        ensures shown { IfOk result (λ head. head_data term_data head.0 head.1.items ≡ view value.now) }
        ensures fits { IfOk result (λ head. HeadFits (held_head head)) }
    {
        let address = self.address(item(value, 0));
        let cells = self.cells(alloc, item(value, 1))?;
        Ok((address, cells))
    }

    #[tactic(auto, unfolding(run_text::specs::Forms::heads_data))]
    fn heads(&self, alloc: Global, value: &Value) -> Result<Vec<Head>, NoMemory>
        requires { HasForm (network self.now.net.now) part.Heads (view value.now) }
        ensures shown { IfOk result (λ found. heads_data term_data (map held_head found.items) ≡ view value.now) }
        ensures fits { IfOk result (λ found. AllByRecursion HeadFits (map held_head found.items)) }
    {
        let Value::Array(items) = value else {
            unreachable!();
        };
        let mut found = Vec::new(alloc);
        for item in items {
            found.push(self.head(alloc, item)?)?;
        }
        Ok(found)
    }

    #[tactic(auto, unfolding(run_text::specs::Forms::meta_data))]
    fn meta(&self, alloc: Global, value: &Value) -> Result<Meta, NoMemory>
        requires { IsRow (network self.now.net.now) (part.Owner ∷ part.MetaName ∷ part.Cells ∷ []) (view value.now) }
        ensures shown { IfOk result (λ meta. meta_data term_data (network self.now.net.now) meta.0 meta.1 meta.2.items
            ≡ view value.now) }
        ensures fits { IfOk result (λ meta. MetaFits (network self.now.net.now) (held_meta meta)) }
    {
        let owner = self.owner(alloc, item(value, 0))?;
        let name = self.meta_name(alloc, item(value, 1))?;
        let cells = self.cells(alloc, item(value, 2))?;
        Ok((owner, name, cells))
    }

    #[tactic(auto, unfolding(run_text::specs::Forms::metas_data))]
    fn metas(&self, alloc: Global, value: &Value) -> Result<Vec<Meta>, NoMemory>
        requires { HasForm (network self.now.net.now) part.Metas (view value.now) }
        ensures shown { IfOk result (λ found. metas_data term_data (network self.now.net.now)
            (map held_meta found.items) ≡ view value.now) }
        ensures fits { IfOk result (λ found. AllByRecursion (MetaFits (network self.now.net.now))
            (map held_meta found.items)) }
    {
        let Value::Array(items) = value else {
            unreachable!();
        };
        let mut found = Vec::new(alloc);
        for item in items {
            found.push(self.meta(alloc, item)?)?;
        }
        Ok(found)
    }

    fn tag(&self, alloc: Global, value: &Value) -> Result<(TagId, i32), NoMemory>
        requires { IsRow (network self.now.net.now) (part.TagName ∷ part.Address ∷ []) (view value.now) }
        ensures shown { IfOk result (λ tag. tag_data (network self.now.net.now) tag ≡ view value.now) }
        ensures fits { IfOk result (λ tag. TagFits (network self.now.net.now) tag) }
    {
        let tag = self.tag_name(alloc, item(value, 0))?;
        let address = self.address(item(value, 1));
        Ok((tag, address))
    }

    #[tactic(auto, unfolding(run_text::specs::Forms::tags_data))]
    fn tags(&self, alloc: Global, value: &Value) -> Result<Vec<(TagId, i32)>, NoMemory>
        requires { HasForm (network self.now.net.now) part.Tags (view value.now) }
        ensures shown { IfOk result (λ found. tags_data (network self.now.net.now) found.items ≡ view value.now) }
        ensures fits { IfOk result (λ found. AllByRecursion (TagFits (network self.now.net.now)) found.items) }
    {
        let Value::Array(items) = value else {
            unreachable!();
        };
        let mut found = Vec::new(alloc);
        for item in items {
            found.push(self.tag(alloc, item)?)?;
        }
        Ok(found)
    }

    #[tactic(auto, unfolding(run_text::specs::Forms::fields_data))]
    fn fields_of(&self, alloc: Global, members: &Map<String, Value>) -> Result<Fields, NoMemory>
        requires { Holds (network self.now.net.now) carried_fields (members_view members.now.entries) }
        ensures shown { IfOk result (λ fields. fields_data term_data (network self.now.net.now) (fields_seen fields)
            ≡ object (members_view members.now.entries)) }
        ensures fits { IfOk result (λ fields. FieldsFit (network self.now.net.now) (fields_seen fields)) }
    {
        let heads = self.heads(alloc, field(members, "heads"))?;
        let metas = self.metas(alloc, field(members, "metas"))?;
        let tags = self.tags(alloc, field(members, "tags"))?;
        Ok(Fields { tags, heads, metas })
    }

    pub(crate) fn fields(&self, alloc: Global, value: &Value) -> Result<Fields, NoMemory>
        requires { HasForm (network self.now.net.now) part.Fields (view value.now) }
        ensures shown { IfOk result (λ fields. fields_data term_data (network self.now.net.now) (fields_seen fields)
            ≡ view value.now) }
        ensures fits { IfOk result (λ fields. FieldsFit (network self.now.net.now) (fields_seen fields)) }
    {
        let Value::Object(members) = value else {
            unreachable!();
        };
        self.fields_of(alloc, members)
    }
}
