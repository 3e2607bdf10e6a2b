//! The parts of a record, tried in their order.

ghost use Rattle.std.specs.Prelude.{◌≡◌, ◌↔◌, ◌++◌, ◌∷◌, [], List, IsTrue, IfOk};
ghost use Rattle.sefl_meaning.specs.declared.walk.Decision.{Decision as DecisionOf};
ghost use Rattle.path_records.specs.Shown.{fields_seen};
ghost use Rattle.exact_records.specs.Records.{IsPruned, IsPrunedSide, IsRefutedBy, first_condition};
ghost use Rattle.exact_records.specs.View.{record_tree};
ghost use Rattle.record_checks.specs.Checks.{IsOver, IsShownBy, MayStayOpen, broken_unless, path_of};
ghost use Rattle.record_checks.specs.Parts.{AreTakenBy, IsJudged};
ghost use Rattle.record_checks.specs.Stops.{LeadsTo, trees_of};
ghost use Rattle.record_checks.specs.Trails.{IsTrail};

use crate::fields::{are_fields_of, are_same_places, is_same_end};
use crate::guide::Guide;
use crate::part::Part;
use crate::trail::{Trail, lead, top};
use crate::values::fit_symbols;
use crate::verdicts::{is_licensed, is_refuted, make_true, may_precede};
use path_cond::PathCond;
use path_records::{Fields, Record};
use refutation_check::{Refutation, Verdict};
use sefl_meaning::{Decision, End, Place};
use sn_width::NoMemory;
use std::alloc::Global;
use sym_state::SymState;

/// A path by its parts.
#[derive(Clone, Copy)]
pub(crate) struct PathParts<'a> {
    pub decisions: &'a [Decision],
    pub places: &'a [Place],
    pub how: &'a End,
    pub fields: &'a Fields,
    pub verdict: &'a Verdict,
}

/// Whether the values of the path's verdict, where it has some, are those of a packet that takes its decisions, which lead to
/// this stop: each fits its unknown field, and they make true the condition there.
fn are_taken_by<G: Guide>(guide: &G, stop: &G::Stop, path: &PathParts<'_>) -> bool
    requires leads { LeadsTo G.start path.now.decisions.now (G.seen stop.now) }
    requires over { IsOver (G.seen stop.now) }
    ensures { IsTrue result ↔ AreTakenBy G.start path.now.decisions.now path.now.verdict.now }
{
    match path.verdict {
        Verdict::Sat { values } => {
            fit_symbols(guide.injected(), values.as_slice())
                && make_true(values.as_slice(), guide.state(stop).condition())
        }
        Verdict::Undecided { .. } => true,
    }
}

/// Whether a run that is over so, in this state, is shown by the path.
fn is_shown_by(
    alloc: Global,
    state: &SymState,
    how: &End,
    path: &PathParts<'_>,
) -> Result<bool, NoMemory>
    ensures { IfOk result (λ yes. IsTrue yes ↔ IsShownBy state.now how.now path.now.places.now path.now.how.now
        (fields_seen path.now.fields.now)) }
{
    if !is_same_end(how, path.how) {
        return Ok(false);
    }
    let places = state.places(alloc)?;
    if !are_same_places(&places, path.places) {
        return Ok(false);
    }
    are_fields_of(alloc, state, path.fields)
}

/// Whether the cause of the verdict, where it has one, may be given for the condition.
fn may_stay_open(alloc: Global, verdict: &Verdict, cond: &PathCond) -> Result<bool, NoMemory>
    ensures { IfOk result (λ yes. IsTrue yes ↔ MayStayOpen (trees_of cond.now) verdict.now) }
{
    match verdict {
        Verdict::Sat { .. } => Ok(true),
        Verdict::Undecided { cause } => is_licensed(alloc, cause, cond),
    }
}

/// The first broken part of a path whose decisions lead to this stop.
fn broken_at<G: Guide>(
    alloc: Global,
    guide: &G,
    stop: &G::Stop,
    path: &PathParts<'_>,
) -> Result<Option<Part>, NoMemory>
    requires leads { LeadsTo G.start path.now.decisions.now (G.seen stop.now) }
    ensures { IfOk result (IsJudged G.start (path_of path.now)) }
{
    let Some(how) = guide.end(stop) else {
        return Ok(Some(Part::NotTaken));
    };
    if !are_taken_by(guide, stop, path) {
        return Ok(Some(Part::NotTaken));
    }
    let state = guide.state(stop);
    if !is_shown_by(alloc, state, how, path)? {
        return Ok(Some(Part::OtherEnd));
    }
    if !may_stay_open(alloc, path.verdict, state.condition())? {
        return Ok(Some(Part::NotUndecided));
    }
    Ok(None)
}

/// The first broken part of a path.
fn broken_in_path<G: Guide>(
    alloc: Global,
    guide: &G,
    trail: &mut Trail<G::Stop>,
    path: &PathParts<'_>,
) -> Result<Option<Part>, NoMemory>
    requires trail { IsTrail G.start G.seen trail.old }
    ensures trail { IsTrail G.start G.seen trail.new }
    ensures judged { IfOk result (IsJudged G.start (path_of path.now)) }
{
    if !lead(alloc, guide, trail, path.decisions)? {
        return Ok(Some(Part::NotTaken));
    }
    broken_at(alloc, guide, top(trail), path)
}

/// Whether no decision was taken, and the refutation is accepted of the condition of the injection.
fn is_first_refuted<G: Guide>(
    alloc: Global,
    guide: &G,
    decisions: &[Decision],
    refutation: &Refutation,
) -> Result<bool, NoMemory>
    ensures { IfOk result (λ yes. IsTrue yes ↔ ((decisions.now ≡ [])
        × IsRefutedBy (first_condition G.start) refutation.now)) }
{
    if !decisions.is_empty() {
        return Ok(false);
    }
    is_refuted(alloc, refutation, guide.injected())
}

/// Whether the decisions end at a test whose side is refuted, and what was said before may be.
fn is_side_refuted<G: Guide>(
    alloc: Global,
    guide: &G,
    trail: &mut Trail<G::Stop>,
    decisions: &[Decision],
    before: &Verdict,
    refutation: &Refutation,
) -> Result<bool, NoMemory>
    requires { IsTrail G.start G.seen trail.old }
    ensures trail { IsTrail G.start G.seen trail.new }
    ensures refuted { IfOk result (λ yes. IsTrue yes ↔ IsPrunedSide G.start decisions.now before.now refutation.now) }
{
    let Some((last, parent)) = decisions.split_last() else {
        return Ok(false);
    };
    if !lead(alloc, guide, trail, parent)? {
        return Ok(false);
    }
    is_refuted_behind(alloc, guide, top(trail), *last, before, refutation)
}

/// The same of the last decision, at the stop before it.
fn is_refuted_behind<G: Guide>(
    alloc: Global,
    guide: &G,
    stop: &G::Stop,
    last: Decision,
    before: &Verdict,
    refutation: &Refutation,
) -> Result<bool, NoMemory>
    ensures { IfOk result (λ yes. (parent : List DecisionOf) → LeadsTo G.start parent (G.seen stop.now)
        → (IsTrue yes ↔ IsPrunedSide G.start (parent ++ last ∷ []) before.now refutation.now)) }
{
    let Some(side) = guide.side(alloc, stop, last)? else {
        return Ok(false);
    };
    if !is_refuted(alloc, refutation, &side)? {
        return Ok(false);
    }
    may_precede(alloc, before, guide.state(stop).condition())
}

/// Whether the refuted side has its meaning.
fn is_pruned<G: Guide>(
    alloc: Global,
    guide: &G,
    trail: &mut Trail<G::Stop>,
    decisions: &[Decision],
    before: &Option<Verdict>,
    refutation: &Refutation,
) -> Result<bool, NoMemory>
    requires { IsTrail G.start G.seen trail.old }
    ensures trail { IsTrail G.start G.seen trail.new }
    ensures pruned { IfOk result (λ yes. IsTrue yes ↔ IsPruned G.start decisions.now before.now refutation.now) }
{
    match before {
        None => is_first_refuted(alloc, guide, decisions, refutation),
        Some(verdict) => is_side_refuted(alloc, guide, trail, decisions, verdict, refutation),
    }
}

/// The part, where it does not hold.
fn broken_unless(holds: bool, part: Part) -> Option<Part>
    ensures { result ≡ broken_unless holds part }
{
    if holds { None } else { Some(part) }
}

/// The first broken part of a record; None exactly where it has its own meaning. The trail is led along the record's
/// decisions.
pub(crate) fn broken_in<G: Guide>(
    alloc: Global,
    guide: &G,
    trail: &mut Trail<G::Stop>,
    found: &Record,
) -> Result<Option<Part>, NoMemory>
    requires trail { IsTrail G.start G.seen trail.old }
    ensures trail { IsTrail G.start G.seen trail.new }
    ensures judged { IfOk result (IsJudged G.start (record_tree found.now)) }
{
    match found {
        Record::Path {
            decisions,
            places,
            end,
            fields,
            verdict,
        } => {
            let path = PathParts {
                decisions,
                places,
                how: end,
                fields,
                verdict,
            };
            broken_in_path(alloc, guide, trail, &path)
        }
        Record::Pruned {
            decisions,
            before,
            refutation,
        } => {
            let holds = is_pruned(alloc, guide, trail, decisions, before, refutation)?;
            Ok(broken_unless(holds, Part::NotRefuted))
        }
        Record::Unexplored { decisions } => {
            let open = lead(alloc, guide, trail, decisions)?;
            Ok(broken_unless(open, Part::NotTaken))
        }
    }
}
