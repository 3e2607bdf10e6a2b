//! Records from texts in their printed form. Of what is read, only its ranges are claimed: what is read is printed again.

ghost use Rattle.std.specs.Prelude.{◌≡◌, true, IfOk};
ghost use Rattle.std.specs.List.{AllByRecursion};
ghost use Rattle.net_check.specs.Network.{network};
ghost use Rattle.path_records.specs.Shown.{fields_seen};
ghost use Rattle.run_text.specs.Held.{held_meta};
ghost use Rattle.report_names.specs.Names.{knows};
ghost use Rattle.report_names.specs.Own.{IsOwnName, IsOwnPlace, IsOwnTag};
ghost use Rattle.report_forms.specs.Fits.{BeforeFits, CauseFits, CellFits, DecisionFits, EndFits, FieldsFit, Fit32, MetaFits, OwnerFits, RecordFits, StepFits, VerdictFits};

use crate::ends::failure_of;
use crate::lasting::{LastItems, LastList, LastRecord, Member};
use crate::scanner::{Miss, Scanner};
use cell_stacks::Cell;
use kept_texts::OfNet;
use lin_term::Term;
use net_check::Net;
use path_records::{Fields, Record};
use refutation_check::{Cause, Listed, Refute, Verdict};
use report_names::{NetNames, known_meta, known_node, known_place, known_tag};
use report_shape::{Names, Part};
use sefl_meaning::{Decision, End, Failure, Place};
use sefl_syntax::Text;
use sn_width::{NameId, NodeId, Num, Site, SymId, TagId, Width};
use std::alloc::Global;

/// Reads texts in their printed form by the names of a net.
#[derive(Drop)]
pub(crate) struct Direct<'n> {
    pub(crate) alloc: Global,
    pub(crate) net: &'n Net,
}

/// An item of a list.
trait Item: Drop {
    ghost use Rattle.net_check.specs.Network.{Network};

    ghost Fits: { Network → Self → Type 0 };

    /// The item that comes next.
    fn scan(direct: &Direct<'_>, text: &mut Scanner<'_>) -> Result<Self, Miss>
        ensures { IfOk result (Fits (network direct.now.net.now)) };
}

impl Item for u32 {
    ghost use Rattle.std.specs.Prelude.{◌<◌, ◌^◌};

    ghost Fits = { λ net id. id < 2 ^ 32 };

    fn scan(_direct: &Direct<'_>, text: &mut Scanner<'_>) -> Result<u32, Miss> {
        text.id()
    }
}

impl Item for Num {
    ghost use Rattle.std.specs.Prelude.{◌<◌, ◌^◌};

    ghost Fits = { λ net value. value < 2 ^ 128 };

    fn scan(_direct: &Direct<'_>, text: &mut Scanner<'_>) -> Result<Num, Miss> {
        text.large()
    }
}

impl Member for Decision {
    ghost use Rattle.report_forms.specs.Fits.{DecisionFits};

    ghost Fits = { λ net decision. DecisionFits decision };

    fn scan(_direct: &Direct<'_>, text: &mut Scanner<'_>) -> Result<Decision, Miss> {
        if text.passes(b"\"then\"") {
            Ok(Decision::Then)
        } else if text.passes(b"\"else\"") {
            Ok(Decision::Else)
        } else if text.passes(b"\"pass\"") {
            Ok(Decision::Pass)
        } else if text.passes(b"\"broken\"") {
            Ok(Decision::Broken)
        } else {
            Ok(Decision::Copy(text.id()?))
        }
    }
}

impl Member for Place {
    ghost use Rattle.report_names.specs.Names.{knows};
    ghost use Rattle.report_names.specs.Own.{IsOwnPlace};

    ghost Fits = { IsOwnPlace };

    fn scan(direct: &Direct<'_>, text: &mut Scanner<'_>) -> Result<Place, Miss> {
        direct.place(text)
    }
}

impl Member for (TagId, i32) {
    ghost use Rattle.report_forms.specs.Fits.{TagFits};

    ghost Fits = { TagFits };

    fn scan(direct: &Direct<'_>, text: &mut Scanner<'_>) -> Result<(TagId, i32), Miss> {
        text.pass_byte(b'[')?;
        let tag = direct.tag_name(text)?;
        text.pass_byte(b',')?;
        let address = text.integer()?;
        text.pass_byte(b']')?;
        Ok((tag, address))
    }
}

impl Item for (SymId, Num) {
    ghost use Rattle.report_forms.specs.Fits.{PartFits};

    ghost Fits = { λ net part. PartFits part };

    fn scan(_direct: &Direct<'_>, text: &mut Scanner<'_>) -> Result<(SymId, Num), Miss> {
        text.pass_byte(b'[')?;
        let symbol = text.count()?;
        text.pass_byte(b',')?;
        let coefficient = text.large()?;
        text.pass_byte(b']')?;
        Ok((SymId(symbol), coefficient))
    }
}

impl Item for Cell<Term> {
    ghost use Rattle.report_forms.specs.Fits.{CellFits};

    ghost Fits = { λ net cell. CellFits cell };

    fn scan(direct: &Direct<'_>, text: &mut Scanner<'_>) -> Result<Cell<Term>, Miss> {
        text.pass_byte(b'[')?;
        let width = width(text)?;
        if text.passes_byte(b']') {
            return Ok(Cell { width, value: None });
        }
        direct.set_cell(text, width)
    }
}

impl Item for (i32, Vec<Cell<Term>>) {
    ghost use Rattle.run_text.specs.Held.{held_head};
    ghost use Rattle.report_forms.specs.Fits.{HeadFits};

    ghost Fits = { λ net head. HeadFits (held_head head) };

    fn scan(direct: &Direct<'_>, text: &mut Scanner<'_>) -> Result<(i32, Vec<Cell<Term>>), Miss> {
        text.pass_byte(b'[')?;
        let address = text.integer()?;
        text.pass_byte(b',')?;
        let cells = direct.list::<Cell<Term>>(text)?;
        text.pass_byte(b']')?;
        Ok((address, cells))
    }
}

/// The owner of metadata, `None` for a global, and its name.
impl Member for (Option<NodeId>, NameId) {
    ghost use Rattle.path_report.specs.Lasting.{KeyFits};

    ghost Fits = { KeyFits };

    fn scan(direct: &Direct<'_>, text: &mut Scanner<'_>) -> Result<(Option<NodeId>, NameId), Miss> {
        let owner = direct.owner(text)?;
        text.pass_byte(b',')?;
        let name = direct.meta_name(text)?;
        Ok((owner, name))
    }
}

impl Item for Refute {
    ghost use Rattle.report_forms.specs.Fits.{StepFits};

    ghost Fits = { λ net step. StepFits step };

    fn scan(direct: &Direct<'_>, text: &mut Scanner<'_>) -> Result<Refute, Miss> {
        let step = direct.step(text)?;
        text.pass_byte(b']')?;
        Ok(step)
    }
}

/// A width from 1 to 128.
fn width(text: &mut Scanner<'_>) -> Result<Width, Miss> {
    let Ok(bits) = u8::try_from(text.id()?) else {
        return Err(Miss::Form);
    };
    match Width::new(bits) {
        Some(width) => Ok(width),
        None => Err(Miss::Form),
    }
}

/// The end of a walk.
fn end(alloc: Global, text: &mut Scanner<'_>) -> Result<End, Miss>
    ensures { IfOk result EndFits }
{
    if text.passes(b"\"stopped\"") {
        return Ok(End::Stopped);
    }
    if text.passes(b"\"delivered\"") {
        return Ok(End::Delivered);
    }
    if text.passes(b"\"cut\"") {
        return Ok(End::Cut);
    }
    text.pass(b"{\"fault\":")?;
    let number = text.count()?;
    text.pass(b",\"site\":")?;
    let site = Site(text.id()?);
    let failure = failure(alloc, text, number)?;
    text.pass_byte(b'}')?;
    Ok(End::Failed { failure, site })
}

/// The failure of a number.
fn failure(alloc: Global, text: &mut Scanner<'_>, number: u64) -> Result<Failure, Miss> {
    if number == 9 {
        text.pass(b",\"text\":")?;
        let text = Text::of(alloc, text.text()?)?;
        return Ok(Failure::Message { text });
    }
    if 1 <= number && number <= 8 {
        Ok(failure_of(number))
    } else {
        Err(Miss::Form)
    }
}

impl Direct<'_> {
    /// Whether the net knows the text for the part.
    fn name<'b>(&self, part: Part, text: &mut Scanner<'b>) -> Result<&'b str, Miss>
        ensures { IfOk result (λ name. knows (network self.now.net.now) part name.now ≡ true) }
    {
        let name = text.text()?;
        let names = NetNames { net: self.net };
        if names.is_known(self.alloc, part, name)? {
            Ok(name)
        } else {
            Err(Miss::Form)
        }
    }

    fn place(&self, text: &mut Scanner<'_>) -> Result<Place, Miss>
        ensures { IfOk result (IsOwnPlace (network self.now.net.now)) }
    {
        let name = self.name(Part::Place, text)?;
        Ok(known_place(self.alloc, self.net, name)?)
    }

    fn tag_name(&self, text: &mut Scanner<'_>) -> Result<TagId, Miss>
        ensures { IfOk result (IsOwnTag (network self.now.net.now)) }
    {
        let name = self.name(Part::TagName, text)?;
        Ok(known_tag(self.alloc, self.net, name)?)
    }

    fn meta_name(&self, text: &mut Scanner<'_>) -> Result<NameId, Miss>
        ensures { IfOk result (IsOwnName (network self.now.net.now)) }
    {
        let name = self.name(Part::MetaName, text)?;
        Ok(known_meta(self.alloc, self.net, name)?)
    }

    fn owner(&self, text: &mut Scanner<'_>) -> Result<Option<NodeId>, Miss>
        ensures { IfOk result (OwnerFits (network self.now.net.now)) }
    {
        if text.passes(b"null") {
            return Ok(None);
        }
        let name = self.name(Part::Owner, text)?;
        Ok(Some(known_node(self.alloc, self.net, name)?))
    }

    /// The items of a list, without spare room: most lists are short, and all records are kept.
    #[tactic(auto, using(crate::proofs::PrintedLemmas::pushed))]
    fn list<T: Item>(&self, text: &mut Scanner<'_>) -> Result<Vec<T>, Miss>
        ensures { IfOk result (λ found. AllByRecursion (T.Fits (network self.now.net.now)) found.items) }
    {
        if text.opens()? {
            return Ok(Vec::new(self.alloc));
        }
        let mut found = Vec::with_capacity(self.alloc, 1)?;
        for _ in 0..text.room() {
            found.push(T::scan(self, text)?)?;
            if text.closes()? {
                found.shrink_to_fit();
                return Ok(found);
            }
        }
        Err(Miss::Form)
    }

    /// The same, where what the last list begins with is not read anew.
    fn list_after<'b, N: OfNet, T: Member>(
        &self,
        text: &mut Scanner<'b>,
        last: &mut LastList<'b, N, T>,
    ) -> Result<Vec<T>, Miss>
        requires { network self.now.net.now ≡ N.net }
        ensures { IfOk result (λ found. AllByRecursion (T.Fits N.net) found.items) }
    {
        if text.opens()? {
            return Ok(Vec::new(self.alloc));
        }
        last.follow(self, text)?;
        Ok(last.copied(self.alloc)?)
    }

    /// The same of metadata, whose keys are not read anew.
    #[tactic(auto, using(crate::proofs::PrintedLemmas::pushed))]
    fn metas_after<'b, N: OfNet>(
        &self,
        text: &mut Scanner<'b>,
        last: &mut LastItems<'b, N, (Option<NodeId>, NameId)>,
    ) -> Result<Vec<(Option<NodeId>, NameId, Vec<Cell<Term>>)>, Miss>
        requires { network self.now.net.now ≡ N.net }
        ensures { IfOk result (λ found. AllByRecursion (λ meta. MetaFits N.net (held_meta meta)) found.items) }
    {
        if text.opens()? {
            return Ok(Vec::new(self.alloc));
        }
        let mut found = Vec::with_capacity(self.alloc, last.room())?;
        for place in 0..text.room() {
            found.push(self.meta_after(text, last, place)?)?;
            if text.closes()? {
                found.shrink_to_fit();
                return Ok(found);
            }
        }
        Err(Miss::Form)
    }

    fn meta_after<'b, N: OfNet>(
        &self,
        text: &mut Scanner<'b>,
        last: &mut LastItems<'b, N, (Option<NodeId>, NameId)>,
        place: usize,
    ) -> Result<(Option<NodeId>, NameId, Vec<Cell<Term>>), Miss>
        requires { network self.now.net.now ≡ N.net }
        ensures { IfOk result (λ meta. MetaFits N.net (held_meta meta)) }
    {
        text.pass_byte(b'[')?;
        let (owner, name) = last.item(self, text, place)?;
        text.pass_byte(b',')?;
        let cells = self.list::<Cell<Term>>(text)?;
        text.pass_byte(b']')?;
        Ok((owner, name, cells))
    }

    /// What stands behind the width of a cell that is set.
    fn set_cell(&self, text: &mut Scanner<'_>, width: Width) -> Result<Cell<Term>, Miss>
        ensures { IfOk result CellFits }
    {
        text.pass_byte(b',')?;
        let constant = text.large()?;
        text.pass_byte(b',')?;
        let parts = self.list::<(SymId, Num)>(text)?;
        text.pass_byte(b']')?;
        match Term::of_parts(width, constant, parts) {
            Some(term) => Ok(Cell {
                width,
                value: Some(term),
            }),
            None => Err(Miss::Form),
        }
    }

    #[tactic(auto, using(crate::proofs::PrintedLemmas::mapped))]
    fn fields<'b, N: OfNet>(
        &self,
        text: &mut Scanner<'b>,
        last: &mut LastRecord<'b, N>,
    ) -> Result<Fields, Miss>
        requires { network self.now.net.now ≡ N.net }
        ensures { IfOk result (λ fields. FieldsFit N.net (fields_seen fields)) }
    {
        text.pass(b"{\"heads\":")?;
        let heads = self.list::<(i32, Vec<Cell<Term>>)>(text)?;
        text.pass(b",\"metas\":")?;
        let metas = self.metas_after(text, &mut last.metas)?;
        text.pass(b",\"tags\":")?;
        let tags = self.list_after(text, &mut last.tags)?;
        text.pass_byte(b'}')?;
        Ok(Fields { tags, heads, metas })
    }

    fn cause(&self, text: &mut Scanner<'_>) -> Result<Cause, Miss>
        ensures { IfOk result CauseFits }
    {
        if text.passes(b"\"outside\",\"pick\":") {
            let pick = text.id()?;
            text.pass(b",\"values\":")?;
            let values = Listed::from_vec(self.list::<Num>(text)?);
            return Ok(Cause::Outside { pick, values });
        }
        if text.passes(b"\"cases\",\"count\":") {
            let count = text.count()?;
            return Ok(Cause::Cases { count });
        }
        text.pass(b"\"coupled\",\"count\":")?;
        let count = text.count()?;
        Ok(Cause::Coupled { count })
    }

    fn verdict(&self, text: &mut Scanner<'_>) -> Result<Verdict, Miss>
        ensures { IfOk result VerdictFits }
    {
        if text.passes(b"{\"sat\":") {
            let values = Listed::from_vec(self.list::<Num>(text)?);
            text.pass_byte(b'}')?;
            return Ok(Verdict::Sat { values });
        }
        text.pass(b"{\"undecided\":{\"cause\":")?;
        let cause = self.cause(text)?;
        text.pass(b"}}")?;
        Ok(Verdict::Undecided { cause })
    }

    fn before(&self, text: &mut Scanner<'_>) -> Result<Option<Verdict>, Miss>
        ensures { IfOk result BeforeFits }
    {
        if text.passes(b"null") {
            return Ok(None);
        }
        Ok(Some(self.verdict(text)?))
    }

    /// The way to a member of a formula, which is left out where it leads to the formula itself.
    fn way(&self, text: &mut Scanner<'_>) -> Result<Listed<u32>, Miss>
        ensures { IfOk result Fit32 }
    {
        if text.passes_byte(b',') {
            Ok(Listed::from_vec(self.list::<u32>(text)?))
        } else {
            Ok(Listed::from_vec(Vec::new(self.alloc)))
        }
    }

    /// A step of a refutation up to its closing bracket.
    fn step(&self, text: &mut Scanner<'_>) -> Result<Refute, Miss>
        ensures { IfOk result StepFits }
    {
        if text.passes(b"[\"empty\",") {
            let symbol = SymId(text.count()?);
            text.pass_byte(b',')?;
            let picks = Listed::from_vec(self.list::<u32>(text)?);
            return Ok(Refute::Empty { symbol, picks });
        }
        if text.passes(b"[\"domain\",") {
            let symbol = SymId(text.count()?);
            return Ok(Refute::Domain { symbol });
        }
        if text.passes(b"[\"split\",") {
            let pick = text.id()?;
            let way = self.way(text)?;
            return Ok(Refute::Split { pick, way });
        }
        text.pass(b"[\"cycle\",")?;
        let bounds = Listed::from_vec(self.list::<u32>(text)?);
        Ok(Refute::Cycle { bounds })
    }

    fn path<'b, N: OfNet>(
        &self,
        text: &mut Scanner<'b>,
        last: &mut LastRecord<'b, N>,
        decisions: Vec<Decision>,
    ) -> Result<Record, Miss>
        requires net { network self.now.net.now ≡ N.net }
        requires decisions { AllByRecursion DecisionFits decisions.items }
        ensures { IfOk result (RecordFits N.net) }
    {
        text.pass(b",\"end\":")?;
        let end = end(self.alloc, text)?;
        text.pass(b",\"fields\":")?;
        let fields = self.fields(text, last)?;
        text.pass(b",\"kind\":\"path\",\"places\":")?;
        let places = self.list_after(text, &mut last.places)?;
        text.pass(b",\"verdict\":")?;
        let verdict = self.verdict(text)?;
        Ok(Record::Path {
            decisions,
            places,
            end,
            fields,
            verdict,
        })
    }

    fn pruned<'b, N: OfNet>(
        &self,
        text: &mut Scanner<'b>,
        last: &mut LastRecord<'b, N>,
    ) -> Result<Record, Miss>
        requires { network self.now.net.now ≡ N.net }
        ensures { IfOk result (RecordFits N.net) }
    {
        let before = self.before(text)?;
        text.pass(b",\"decisions\":")?;
        let decisions = self.list_after(text, &mut last.decisions)?;
        text.pass(b",\"kind\":\"pruned\",\"refutation\":")?;
        let refutation = Listed::from_vec(self.list::<Refute>(text)?);
        Ok(Record::Pruned {
            decisions,
            before,
            refutation,
        })
    }

    /// The record of a text. Nothing is claimed of what stands behind it.
    pub(crate) fn record<'b, N: OfNet>(
        &self,
        text: &mut Scanner<'b>,
        last: &mut LastRecord<'b, N>,
    ) -> Result<Record, Miss>
        requires { network self.now.net.now ≡ N.net }
        ensures { IfOk result (RecordFits N.net) }
    {
        if text.passes(b"{\"before\":") {
            return self.pruned(text, last);
        }
        text.pass(b"{\"decisions\":")?;
        let decisions = self.list_after(text, &mut last.decisions)?;
        if text.passes(b",\"kind\":\"unexplored\"}") {
            return Ok(Record::Unexplored { decisions });
        }
        self.path(text, last, decisions)
    }
}
