//! Laws of the definitions of metadata. Each is the contract of a function that does nothing but name
//! the laws of stacks that it follows from.

ghost use Rattle.std.specs.Prelude.{◌≡◌, ℕ, List, Option, Some, None, Ok};
ghost use Rattle.sn_width.specs.declared.ids.NodeId.{NodeId};
ghost use Rattle.sn_width.specs.declared.ids.NameId.{NameId};
ghost use Rattle.cell_stacks.specs.Cells.{AreStacks};
ghost use Rattle.cell_stacks.specs.Outcome.{on_ok};
ghost use Rattle.cell_stacks.specs.Valued.{valued};
ghost use Rattle.metadata_scopes.specs.Scopes.{Metadata, name_cmp, key_cmp, allocated, deallocated, assigned, value_of};
ghost use Rattle.metadata_scopes.specs.Snapshot.{Ascends, snapshot};

use cell_stacks::laws;
use sn_width::{NameId, NodeId};

/// A step or a read after a function of all values is that function of the step or the read, and the
/// snapshot does not depend on values.
pub fn valuing_commutes<V: Drop, W: Drop>()
    ensures allocate { (f : V → W) (owner : Option NodeId) (name : NameId) (width : ℕ) (scopes : Metadata V)
        → allocated owner name width (valued f scopes) ≡ on_ok (valued f) (allocated owner name width scopes) }
    ensures deallocate { (f : V → W) (owner : Option NodeId) (name : NameId) (width : ℕ) (scopes : Metadata V)
        → deallocated owner name width (valued f scopes) ≡ on_ok (valued f) (deallocated owner name width scopes) }
    ensures assign { (f : V → W) (owner : Option NodeId) (name : NameId) (width : ℕ) (value : V) (scopes : Metadata V)
        → assigned owner name width (f value) (valued f scopes)
        ≡ on_ok (valued f) (assigned owner name width value scopes) }
    ensures read { (f : V → W) (owner : Option NodeId) (name : NameId) (width : ℕ) (scopes : Metadata V)
        → value_of owner name width (valued f scopes) ≡ on_ok f (value_of owner name width scopes) }
    ensures present { (f : V → W) (node : NodeId) (names : List NameId) (scopes : Metadata V)
        → snapshot node names (valued f scopes) ≡ snapshot node names scopes }
{
    laws::valuing_commutes::<(Option<NodeId>, NameId), V, W>();
}

/// The value that was assigned is read there, and all else reads as before: every other owner or
/// name, among them the same local name of another box, and the global of that name.
pub fn assign_then_read<V: Drop>()
    ensures there { (owner : Option NodeId) (name : NameId) (width : ℕ) (value : V) (scopes next : Metadata V)
        → assigned owner name width value scopes ≡ Ok next
        → value_of owner name width next ≡ Ok value }
    ensures elsewhere { (owner other_owner : Option NodeId) (name other_name : NameId) (width size : ℕ) (value : V)
        (scopes next : Metadata V)
        → ((other_owner ≡ owner) × (other_name ≡ name) → ⊥)
        → assigned owner name width value scopes ≡ Ok next
        → value_of other_owner other_name size next ≡ value_of other_owner other_name size scopes }
    ensures other_box { (node other : NodeId) (name : NameId) (width size : ℕ) (value : V) (scopes next : Metadata V)
        → (other ≡ node → ⊥)
        → assigned (Some node) name width value scopes ≡ Ok next
        → value_of (Some other) name size next ≡ value_of (Some other) name size scopes }
    ensures global { (node : NodeId) (name : NameId) (width size : ℕ) (value : V) (scopes next : Metadata V)
        → assigned (Some node) name width value scopes ≡ Ok next
        → value_of None name size next ≡ value_of None name size scopes }
{
    laws::set_then_read::<(Option<NodeId>, NameId), V>();
}

/// A cell that is allocated and deallocated leaves the metadata as they were.
pub fn allocate_then_deallocate<V: Drop>()
    ensures { (owner : Option NodeId) (name : NameId) (width : ℕ) (scopes next : Metadata V)
        → AreStacks key_cmp scopes
        → allocated owner name width scopes ≡ Ok next
        → deallocated owner name width next ≡ Ok scopes }
{
    laws::push_then_pop::<(Option<NodeId>, NameId), V>();
}

/// The snapshot of names that ascend ascends: the globals, and then the locals, each by name.
pub fn snapshot_ascends<V: Drop>()
    ensures { (node : NodeId) (names : List NameId) (scopes : Metadata V)
        → Ascends name_cmp names → Ascends key_cmp (snapshot node names scopes) }
{}
