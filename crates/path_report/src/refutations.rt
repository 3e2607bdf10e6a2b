//! Refutations.

ghost use Rattle.std.specs.Prelude.{◌≡◌, ◌∷◌, [], IfOk, Some, codes};
ghost use Rattle.serde_json.specs.Data.{string};
ghost use Rattle.serde_json.specs.Find.{at};
ghost use Rattle.serde_json.specs.View.{view};
ghost use Rattle.net_check.specs.Network.{network};
ghost use Rattle.report_shape.specs.declared.part.Part.TheVariants as part;
ghost use Rattle.record_text.specs.Records.{step_data, refutation_data};
ghost use Rattle.std.specs.List.{AllByRecursion};
ghost use Rattle.report_forms.specs.Fits.{StepFits};
ghost use Rattle.path_report.specs.Having.{HasForm, IsRow};

use crate::decoder::{Decoder, item};
use refutation_check::{Listed, Refutation, Refute};
use serde_json::Value;
use sn_width::{NoMemory, SymId};
use std::alloc::Global;

impl Decoder<'_> {
    fn empty(&self, alloc: Global, value: &Value) -> Result<Refute, NoMemory>
        requires form { IsRow (network self.now.net.now) (part.Word ∷ part.Count ∷ part.Ids ∷ []) (view value.now) }
        requires word { at 0 (view value.now) ≡ Some (string (codes "empty")) }
        ensures shown { IfOk result (λ step. step_data step ≡ view value.now) }
        ensures fits { IfOk result (λ step. StepFits step) }
    {
        let symbol = SymId(self.count(item(value, 1)));
        let picks = self.ids(alloc, item(value, 2))?;
        Ok(Refute::Empty {
            symbol,
            picks: Listed::from_vec(picks),
        })
    }

    fn domain(&self, value: &Value) -> Refute
        requires form { IsRow (network self.now.net.now) (part.Word ∷ part.Count ∷ []) (view value.now) }
        requires word { at 0 (view value.now) ≡ Some (string (codes "domain")) }
        ensures shown { step_data result ≡ view value.now }
        ensures fits { StepFits result }
    {
        let symbol = SymId(self.count(item(value, 1)));
        Refute::Domain { symbol }
    }

    /// A split of a formula.
    fn formula_split(&self, alloc: Global, value: &Value) -> Refute
        requires form { IsRow (network self.now.net.now) (part.Word ∷ part.Id ∷ []) (view value.now) }
        requires word { at 0 (view value.now) ≡ Some (string (codes "split")) }
        ensures shown { step_data result ≡ view value.now }
        ensures fits { StepFits result }
    {
        let pick = self.id(item(value, 1));
        let way = Listed::from_vec(Vec::new(alloc));
        Refute::Split { pick, way }
    }

    /// A split of a member of a formula.
    fn member_split(&self, alloc: Global, value: &Value) -> Result<Refute, NoMemory>
        requires form { IsRow (network self.now.net.now) (part.Word ∷ part.Id ∷ part.Way ∷ []) (view value.now) }
        requires word { at 0 (view value.now) ≡ Some (string (codes "split")) }
        ensures shown { IfOk result (λ step. step_data step ≡ view value.now) }
        ensures fits { IfOk result (λ step. StepFits step) }
    {
        let pick = self.id(item(value, 1));
        let way = self.ids(alloc, item(value, 2))?;
        Ok(Refute::Split {
            pick,
            way: Listed::from_vec(way),
        })
    }

    fn split(&self, alloc: Global, value: &Value) -> Result<Refute, NoMemory>
        requires form { HasForm (network self.now.net.now) part.Step (view value.now) }
        requires word { at 0 (view value.now) ≡ Some (string (codes "split")) }
        ensures shown { IfOk result (λ step. step_data step ≡ view value.now) }
        ensures fits { IfOk result (λ step. StepFits step) }
    {
        match value.get(2) {
            Some(_) => self.member_split(alloc, value),
            None => Ok(self.formula_split(alloc, value)),
        }
    }

    fn circle(&self, alloc: Global, value: &Value) -> Result<Refute, NoMemory>
        requires form { IsRow (network self.now.net.now) (part.Word ∷ part.Ids ∷ []) (view value.now) }
        requires word { at 0 (view value.now) ≡ Some (string (codes "cycle")) }
        ensures shown { IfOk result (λ step. step_data step ≡ view value.now) }
        ensures fits { IfOk result (λ step. StepFits step) }
    {
        let bounds = self.ids(alloc, item(value, 1))?;
        Ok(Refute::Cycle {
            bounds: Listed::from_vec(bounds),
        })
    }

    fn step(&self, alloc: Global, value: &Value) -> Result<Refute, NoMemory>
        requires { HasForm (network self.now.net.now) part.Step (view value.now) }
        ensures shown { IfOk result (λ step. step_data step ≡ view value.now) }
        ensures fits { IfOk result (λ step. StepFits step) }
    {
        let Some(word) = item(value, 0).as_str() else {
            unreachable!();
        };
        match word {
            "empty" => self.empty(alloc, value),
            "domain" => Ok(self.domain(value)),
            "split" => self.split(alloc, value),
            "cycle" => self.circle(alloc, value),
            _ => unreachable!(),
        }
    }

    #[tactic(auto, unfolding(record_text::specs::Records::refutation_data))]
    fn steps(&self, alloc: Global, value: &Value) -> Result<Vec<Refute>, NoMemory>
        requires { HasForm (network self.now.net.now) part.Refutation (view value.now) }
        ensures shown { IfOk result (λ found. refutation_data found.items ≡ view value.now) }
        ensures fits { IfOk result (λ found. AllByRecursion StepFits found.items) }
    {
        let Value::Array(items) = value else {
            unreachable!();
        };
        let mut found = Vec::new(alloc);
        for item in items {
            found.push(self.step(alloc, item)?)?;
        }
        Ok(found)
    }

    pub(crate) fn refutation(&self, alloc: Global, value: &Value) -> Result<Refutation, NoMemory>
        requires { HasForm (network self.now.net.now) part.Refutation (view value.now) }
        ensures shown { IfOk result (λ found. refutation_data found ≡ view value.now) }
        ensures fits { IfOk result (λ found. AllByRecursion StepFits found) }
    {
        Ok(Listed::from_vec(self.steps(alloc, value)?))
    }
}
