//! Laws of the meaning. Each is the contract of a function that does nothing.

ghost use Rattle.std.specs.Prelude.{◌≡◌, ◌+◌, ◌++◌, ◌∷◌, ◌⊎◌, ◌↔◌, [], ℕ, Bool, List, IfOk, Ok, None, Some, map, option_map};
ghost use Rattle.sn_width.specs.declared.ids.NodeId.{NodeId};
ghost use Rattle.sefl_syntax.specs.Trees.{CodeTree, CondTree, ExprTree, InjectionTree};
ghost use Rattle.cell_stacks.specs.Outcome as outcome;
ghost use Rattle.job_items.specs.Atoms.{expr_reads, cond_atoms};
ghost use Rattle.sefl_meaning.specs.Values.{Values, numbers, number_fits};
ghost use Rattle.sefl_meaning.specs.Faults.{fault_of, reads_fault, atoms_fault};
ghost use Rattle.sefl_meaning.specs.Order.{Ascend, BeginsWith, Has, Parts, Precedes, WalksAscend};
ghost use Rattle.std.specs.List.{AllByRecursion};
ghost use Rattle.net_check.specs.Keeping.{HasWidth};
ghost use Rattle.net_check.specs.Sound.{AreOfOneJob, IsAcceptedNet};
ghost use Rattle.sefl_meaning.specs.Network.{Network, Entry};
ghost use Rattle.sefl_meaning.specs.Carried.{Carried, Scene, carried_valued, scene_at};
ghost use Rattle.sefl_meaning.specs.Terms.{value_in, truth_in};
ghost use Rattle.sefl_meaning.specs.Steps.{allocated, deallocated, assigned, evaluated, tag_created, tag_set, tag_destroyed};
ghost use Rattle.sefl_syntax.specs.declared.reference.Target.{Target};
ghost use Rattle.sefl_syntax.specs.declared.reference.Addr.{Addr};
ghost use Rattle.job_items.specs.AtomRules.{width_of};
ghost use Rattle.sefl_meaning.specs.Runs.{Ran, run_code, then_run};
ghost use Rattle.sefl_meaning.specs.Walks as walks;
ghost use Rattle.sefl_meaning.specs.Injected.{injected, unknown_widths};
ghost use Rattle.sefl_meaning.specs.Courses.{Progress, Course, after, course_code};
ghost use Rattle.sefl_meaning.specs.Trees as trees;
ghost use Rattle.sefl_meaning.specs.Trees.{Tree};
ghost use Rattle.sefl_meaning.specs.Walks.{Passage, Trail, shown};
ghost use Rattle.sefl_meaning.specs.declared.walk.Decision.{Decision};
ghost use Rattle.sefl_meaning.specs.Routes.{IsFirstClosed, IsOpen, IsWay, Route, Splits, behind, offers, route, route_valued};
ghost use Rattle.sefl_meaning.specs.Laws.{StackLaws, StateLaws};
ghost use Rattle.sefl_meaning.specs.Taken.{taken, walks_of};
ghost use Rattle.sefl_meaning.specs.Valued.{Fits, CarriedFits, CourseFits, CourseTyped, HasSomeWidth, IsGood, Keeps, KeepsSums, KeepsSymbols, KeepsTests, Respects, TreeTyped, course_valued, progress_valued, tree_valued};

use cell_stacks::Cell;
use cell_stacks::laws::change_of_a_stack;
use header_layers::laws::valuing_commutes as headers_commute;
use metadata_scopes::laws::valuing_commutes as metadata_commute;
use net_check::laws::{accepted_parts_keep_the_rules, atoms_keep_their_widths, names_are_known};
use sn_width::{NameId, NodeId as NodeNumber, Num};

/// What truths are seen as.
pub trait Truths {
    ghost Truth: { Type 0 };
}

impl Truths for bool {
    ghost use Rattle.std.specs.Prelude.{Bool};

    ghost Truth = { Bool };
}

/// The run of one packet is the way through the course that goes by the truths of its tests, and its
/// walks are the ways through the tree.
pub fn runs_are_ways()
    ensures code { (v : List ℕ) (unknowns site : ℕ) (at : Scene) (code : CodeTree) (p : Progress ℕ)
        → taken (course_code (numbers v unknowns) at site code p) ≡ run_code v unknowns at site code p }
    ensures walks { (net : Network) (v : List ℕ) (unknowns hops port : ℕ) (node : NodeId) (p : Progress ℕ)
        → walks_of (trees.enter (numbers v unknowns) net hops node port p)
        ≡ walks.enter net v unknowns hops node port p }
{}

/// Functions that respect the operations commute with the values of expressions, the truths of
/// conditions, the state of an injection, the courses of code and the trees of whole runs.
pub fn valuing_commutes<V: Drop, F: Truths, W: Drop, G: Truths>()
    ensures values { (fits : ℕ → V → Bool) (o : Values V F.Truth) (p : Values W G.Truth) (f : V → W)
        (g : F.Truth → G.Truth) → Respects fits o p f g
        → (at : Scene) (width : ℕ) (e : ExprTree) (s : Carried V) → CarriedFits fits s
        → value_in p at width e (carried_valued f s) ≡ outcome.on_ok f (value_in o at width e s) }
    ensures truths { (fits : ℕ → V → Bool) (o : Values V F.Truth) (p : Values W G.Truth) (f : V → W)
        (g : F.Truth → G.Truth) → Respects fits o p f g
        → (at : Scene) (test : CondTree) (s : Carried V) → CarriedFits fits s
        → truth_in p at test (carried_valued f s) ≡ outcome.on_ok g (truth_in o at test s) }
    ensures evaluated { (fits : ℕ → V → Bool) (o : Values V F.Truth) (p : Values W G.Truth) (f : V → W)
        (g : F.Truth → G.Truth) → Respects fits o p f g
        → (at : Scene) (target : Target) (e : ExprTree) (s : Carried V) → CarriedFits fits s
        → evaluated p at target e (carried_valued f s) ≡ outcome.on_ok (carried_valued f) (evaluated o at target e s) }
    ensures injection { (fits : ℕ → V → Bool) (o : Values V F.Truth) (p : Values W G.Truth) (f : V → W)
        (g : F.Truth → G.Truth) → Respects fits o p f g
        → (at : Scene) (i : InjectionTree)
        → injected p at i ≡ outcome.on_ok (carried_valued f) (injected o at i) }
    ensures courses { (fits : ℕ → V → Bool) (o : Values V F.Truth) (p : Values W G.Truth) (f : V → W)
        (g : F.Truth → G.Truth) → Respects fits o p f g
        → (at : Scene) (site : ℕ) (code : CodeTree) (from : Progress V) → CarriedFits fits from.state
        → course_code p at site code (progress_valued f from) ≡ course_valued f g (course_code o at site code from) }
    ensures trees { (fits : ℕ → V → Bool) (o : Values V F.Truth) (p : Values W G.Truth) (f : V → W)
        (g : F.Truth → G.Truth) → Respects fits o p f g
        → (net : Network) (hops port : ℕ) (node : NodeId) (from : Progress V) → CarriedFits fits from.state
        → trees.enter p net hops node port (progress_valued f from)
        ≡ tree_valued f g (trees.enter o net hops node port from) }
{
    state_laws::<V, W>();
}

// What the steps of header cells and of metadata make of a function of values.
fn state_laws<V: Drop, W: Drop>()
    ensures { (f : V → W) → StateLaws f }
{
    headers_commute::<V, W>();
    metadata_commute::<V, W>();
}

/// Where the operations give values that fit their widths, so do expressions, injections and code.
pub fn widths_are_kept<V: Drop, F: Truths>()
    ensures values { (fits : ℕ → V → Bool) (o : Values V F.Truth) → Keeps fits o
        → (at : Scene) (width : ℕ) (e : ExprTree) (s : Carried V) → CarriedFits fits s
        → IfOk (value_in o at width e s) (Fits fits width) }
    ensures injection { (fits : ℕ → V → Bool) (o : Values V F.Truth) → Keeps fits o
        → (at : Scene) (i : InjectionTree) → IfOk (injected o at i) (CarriedFits fits) }
    ensures courses { (fits : ℕ → V → Bool) (o : Values V F.Truth) → Keeps fits o
        → (at : Scene) (site : ℕ) (code : CodeTree) (from : Progress V) → CarriedFits fits from.state
        → CourseFits fits (course_code o at site code from) }
{
    state_laws::<V, V>();
}

/// Where the operations keep what holds of values and tests, so do expressions and conditions.
pub fn expressions_keep<V: Drop, F: Truths>()
    ensures values { (fits : ℕ → V → Bool) (o : Values V F.Truth) → KeepsSums fits o
        → (at : Scene) (width : ℕ) (e : ExprTree) (s : Carried V) → CarriedFits fits s
        → IfOk (value_in o at width e s) (Fits fits width) }
    ensures truths { (fits : ℕ → V → Bool) (good : F.Truth → Bool) (o : Values V F.Truth) → KeepsTests fits good o
        → (at : Scene) (test : CondTree) (s : Carried V) → AllByRecursion HasSomeWidth (cond_atoms test)
        → CarriedFits fits s
        → IfOk (truth_in o at test s) (IsGood good) }
{
    state_laws::<V, V>();
}

/// The steps that only touch what is carried keep what holds of its values.
pub fn steps_keep<V: Drop>()
    ensures weaker { (closer fits : ℕ → V → Bool) (s : Carried V)
        → ((width : ℕ) (value : V) → Fits closer width value → Fits fits width value)
        → CarriedFits closer s → CarriedFits fits s }
    ensures allocated { (fits : ℕ → V → Bool) (at : Scene) (target : Target) (s : Carried V) → CarriedFits fits s
        → IfOk (allocated at target s) (CarriedFits fits) }
    ensures deallocated { (fits : ℕ → V → Bool) (at : Scene) (target : Target) (s : Carried V) → CarriedFits fits s
        → IfOk (deallocated at target s) (CarriedFits fits) }
    ensures assigned { (fits : ℕ → V → Bool) (at : Scene) (target : Target) (value : V) (s : Carried V)
        → CarriedFits fits s
        → Fits fits (width_of target) value → IfOk (assigned at target value s) (CarriedFits fits) }
    ensures created { (fits : ℕ → V → Bool) (at : Scene) (name : List ℕ) (addr : Addr) (s : Carried V)
        → CarriedFits fits s
        → IfOk (tag_created at name addr s) (CarriedFits fits) }
    ensures set { (fits : ℕ → V → Bool) (at : Scene) (name : List ℕ) (addr : Addr) (s : Carried V) → CarriedFits fits s
        → IfOk (tag_set at name addr s) (CarriedFits fits) }
    ensures destroyed { (fits : ℕ → V → Bool) (at : Scene) (name : List ℕ) (s : Carried V) → CarriedFits fits s
        → IfOk (tag_destroyed at name s) (CarriedFits fits) }
{
    state_laws::<V, V>();
}

/// A function of values commutes with the steps that only touch what is carried.
pub fn steps_commute<V: Drop, W: Drop>()
    ensures allocated { (fits : ℕ → V → Bool) (f : V → W) (at : Scene) (target : Target) (s : Carried V)
        → CarriedFits fits s
        → allocated at target (carried_valued f s) ≡ outcome.on_ok (carried_valued f) (allocated at target s) }
    ensures deallocated { (fits : ℕ → V → Bool) (f : V → W) (at : Scene) (target : Target) (s : Carried V)
        → CarriedFits fits s
        → deallocated at target (carried_valued f s) ≡ outcome.on_ok (carried_valued f) (deallocated at target s) }
    ensures assigned { (fits : ℕ → V → Bool) (f : V → W) (at : Scene) (target : Target) (value : V) (s : Carried V)
        → CarriedFits fits s
        → Fits fits (width_of target) value
        → assigned at target (f value) (carried_valued f s)
        ≡ outcome.on_ok (carried_valued f) (assigned at target value s) }
    ensures created { (fits : ℕ → V → Bool) (f : V → W) (at : Scene) (name : List ℕ) (addr : Addr) (s : Carried V)
        → CarriedFits fits s
        → tag_created at name addr (carried_valued f s)
        ≡ outcome.on_ok (carried_valued f) (tag_created at name addr s) }
    ensures set { (fits : ℕ → V → Bool) (f : V → W) (at : Scene) (name : List ℕ) (addr : Addr) (s : Carried V)
        → CarriedFits fits s
        → tag_set at name addr (carried_valued f s) ≡ outcome.on_ok (carried_valued f) (tag_set at name addr s) }
    ensures destroyed { (fits : ℕ → V → Bool) (f : V → W) (at : Scene) (name : List ℕ) (s : Carried V)
        → CarriedFits fits s
        → tag_destroyed at name (carried_valued f s) ≡ outcome.on_ok (carried_valued f) (tag_destroyed at name s) }
{
    state_laws::<V, W>();
}

/// Symbols are typed along the way: each unknown field and each choice has the width that it is made
/// at, in the injection, in courses and in whole trees.
pub fn symbols_are_typed<V: Drop, F: Truths>()
    ensures injection { (fits : List ℕ → ℕ → V → Bool) (o : Values V F.Truth) (i : InjectionTree)
        → KeepsSymbols fits (unknown_widths i.fields) o
        → (at : Scene) → IfOk (injected o at i) (CarriedFits (fits (unknown_widths i.fields))) }
    ensures courses { (fits : List ℕ → ℕ → V → Bool) (unknowns : List ℕ) (o : Values V F.Truth)
        → KeepsSymbols fits unknowns o
        → (at : Scene) (site : ℕ) (code : CodeTree) (p : Progress V)
        → CarriedFits (fits (unknowns ++ p.choices)) p.state
        → CourseTyped fits unknowns (course_code o at site code p) }
    ensures trees { (fits : List ℕ → ℕ → V → Bool) (unknowns : List ℕ) (o : Values V F.Truth)
        → KeepsSymbols fits unknowns o
        → (net : Network) (hops port : ℕ) (node : NodeId) (p : Progress V)
        → CarriedFits (fits (unknowns ++ p.choices)) p.state
        → TreeTyped fits unknowns (trees.enter o net hops node port p) }
{
    state_laws::<V, V>();
}

/// The faults of expressions and conditions are those of reading their references, the first in the
/// order of the text: no atom is left out, whatever the truth of those before it.
pub fn faults_are_in_text_order<V: Drop, F: Truths>()
    ensures values { (o : Values V F.Truth) (at : Scene) (width : ℕ) (e : ExprTree) (s : Carried V)
        → fault_of (value_in o at width e s) ≡ reads_fault at width (expr_reads e) s }
    ensures conditions { (o : Values V F.Truth) (at : Scene) (test : CondTree) (s : Carried V)
        → fault_of (truth_in o at test s) ≡ atoms_fault at (cond_atoms test) s }
{}

/// The numbers of a packet fit the widths that they are taken at, and its choices stand behind its
/// unknown fields. Runs and walks keep this of what is carried.
pub fn numbers_fit()
    ensures operations { (v : List ℕ) (unknowns : ℕ) → Keeps number_fits (numbers v unknowns) }
    ensures choices { (v : List ℕ) (unknowns width number : ℕ)
        → (numbers v unknowns).choice width number ≡ (numbers v unknowns).unknown width (unknowns + number) }
    ensures runs { (v : List ℕ) (unknowns site : ℕ) (at : Scene) (code : CodeTree) (p : Progress ℕ)
        → CarriedFits number_fits p.state
        → CarriedFits number_fits (run_code v unknowns at site code p).progress.state }
    ensures walks { (net : Network) (v : List ℕ) (unknowns hops port : ℕ) (node : NodeId) (p : Progress ℕ)
        → CarriedFits number_fits p.state
        → AllByRecursion (λ t. CarriedFits number_fits t.progress.state) (walks.enter net v unknowns hops node port p) }
{
    widths_are_kept::<Num, bool>();
}

/// The walks of a packet ascend by their decisions, and none has decisions that another one's begin with.
pub fn walks_ascend()
    ensures { (net : Network) (v : List ℕ) (unknowns hops port : ℕ) (node : NodeId) (p : Progress ℕ)
        → WalksAscend (map shown (walks.enter net v unknowns hops node port p)) }
{}

/// Decisions are ordered as words, a list before all that begin with it: of two lists one comes first,
/// or they are the same. Lists part where neither begins with the other.
pub fn decisions_are_ordered()
    ensures irreflexive { (ds : List Decision) → Precedes ds ds → ⊥ }
    ensures transitive { (cs ds es : List Decision) → Precedes cs ds → Precedes ds es → Precedes cs es }
    ensures total { (cs ds : List Decision) → Precedes cs ds ⊎ ((cs ≡ ds) ⊎ Precedes ds cs) }
    ensures prefix { (ds es : List Decision) → BeginsWith ds es → Precedes ds es ⊎ (ds ≡ es) }
    ensures parts { (cs ds : List Decision) → Parts cs ds ↔ Precedes cs ds × (BeginsWith cs ds → ⊥) }
{}

/// Of three runs or courses one after another the first two or the last two may be taken together.
pub fn sequences_associate<V: Drop, F: Truths>()
    ensures runs { (r : Ran) (first second : Progress ℕ → Ran)
        → then_run (then_run r first) second ≡ then_run r (λ p. then_run (first p) second) }
    ensures courses { (c : Course V F.Truth) (first second : Progress V → Course V F.Truth)
        → after (after c first) second ≡ after c (λ p. after (first p) second) }
{}

/// The walks of a packet are the ways through its tree at which each test has the truth that is taken,
/// from the start to an end, and no more. What is shown is shown of one of them.
pub fn walks_are_routes()
    ensures ways { (t : Tree ℕ Bool) → AllByRecursion (IsWay (route t)) (walks_of t) }
    ensures walks { (t : Tree ℕ Bool) (w : Passage) → IsWay (route t) w → Has (walks_of t) w }
    ensures shown { (ws : List Passage) (t : Trail)
        → (Has (map shown ws) t ↔ (w : Passage) × Has ws w × (shown w ≡ t)) }
{}

/// Functions of values and truths commute with routes.
pub fn routes_commute<V: Drop, F: Truths, W: Drop, G: Truths>()
    ensures { (f : V → W) (g : F.Truth → G.Truth) (t : Tree V F.Truth) (decisions : List Decision)
        → route (tree_valued f g t) decisions ≡ option_map (route_valued f g) (route t decisions) }
{}

/// Routes compose: that of decisions and more is the first, and then that of what is left.
pub fn routes_compose<V: Drop, F: Truths>()
    ensures composed { (t : Tree V F.Truth) (ds es : List Decision) (r : Route V F.Truth) → route t ds ≡ Some r
        → route t (ds ++ es) ≡ option_map (behind r.arrivals r.tests) (route r.left es) }
    ensures prefix { (t : Tree V F.Truth) (ds es : List Decision) → IsOpen t (ds ++ es) → IsOpen t ds }
    ensures more { (t : Tree V F.Truth) (ds : List Decision) (d : Decision) (r : Route V F.Truth) → route t ds ≡ Some r
        → (IsOpen t (ds ++ d ∷ []) ↔ Has (offers r.left) d) }
{}

/// A node offers exactly the decisions that go on from it, in their order.
pub fn offers_go_on<V: Drop, F: Truths>()
    ensures exact { (t : Tree V F.Truth) (d : Decision) → (IsOpen t (d ∷ []) ↔ Has (offers t) d) }
    ensures ascend { (t : Tree V F.Truth) → Ascend (λ d. d ∷ []) (offers t) }
{}

/// Decisions lead along a route, or one of them is the first that is not offered.
pub fn the_first_closed_decision_is_one<V: Drop, F: Truths>()
    ensures found { (t : Tree V F.Truth) (ds : List Decision) → route t ds ≡ None
        → (index : ℕ) × IsFirstClosed t ds index }
    ensures closed { (t : Tree V F.Truth) (ds : List Decision) (index : ℕ) → IsFirstClosed t ds index
        → route t ds ≡ None }
    ensures one { (t : Tree V F.Truth) (ds : List Decision) (first second : ℕ)
        → IsFirstClosed t ds first → IsFirstClosed t ds second → first ≡ second }
{}

/// In the tree of an accepted net each split has a copy.
pub fn accepted_forks_have_copies<V: Drop, F: Truths>()
    ensures { (o : Values V F.Truth) (net : Network) (hops port : ℕ) (node : NodeId) (p : Progress V)
        → IsAcceptedNet net
        → Splits (trees.enter o net hops node port p) }
{
    accepted_parts_keep_the_rules();
}

/// The injection of a job that breaks no rule puts what it says into the packet, whatever the values
/// are, and each of its tests is true or false.
pub fn accepted_injections_go<V: Drop, F: Truths>()
    ensures carries { (o : Values V F.Truth) (net : Network) (i : Entry) → AreOfOneJob net i
        → AllByRecursion HasWidth i.own.fields
        → (s : Carried V) × (injected o (scene_at net i.node) i.own ≡ Ok s) }
    ensures tests { (o : Values V F.Truth) (net : Network) (i : Entry) → AreOfOneJob net i
        → AllByRecursion HasWidth i.own.fields
        → (s : Carried V) → injected o (scene_at net i.node) i.own ≡ Ok s
        → AllByRecursion (λ test. (truth : F.Truth) × (truth_in o (scene_at net i.node) test s ≡ Ok truth))
        i.own.tests }
{
    stack_laws::<V>();
    accepted_parts_keep_the_rules();
    atoms_keep_their_widths();
    names_are_known();
}

// What a change of one stack of addresses, header cells or metadata leaves of the others.
fn stack_laws<V: Drop>()
    ensures { StackLaws V }
{
    change_of_a_stack::<u32, i32>();
    change_of_a_stack::<i32, Cell<V>>();
    change_of_a_stack::<(Option<NodeNumber>, NameId), Cell<V>>();
}
