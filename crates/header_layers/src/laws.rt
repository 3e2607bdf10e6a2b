//! Laws of the definitions of header cells and tags. Each is the contract of a function that does
//! nothing.

ghost use Rattle.std.specs.Prelude.{◌≡◌, ℕ, ℤ, Option, Ok, IfOk};
ghost use Rattle.std.specs.Ordering.{int_cmp};
ghost use Rattle.sn_width.specs.declared.ids.TagId.{TagId};
ghost use Rattle.cell_stacks.specs.Outcome.{on_ok};
ghost use Rattle.cell_stacks.specs.Cells.{AreStacks};
ghost use Rattle.header_layers.specs.Layout.{Layout, HaveOneAddress, address_of, allocated, deallocated, assigned, value_of, tag_created, tag_set, tag_destroyed};
ghost use Rattle.header_layers.specs.Valued.{layout_valued};

use crate::layers::Layers;
use sn_width::TagId;

/// What a call leaves or reads after a function of all values is that function of what it leaves or
/// reads.
pub fn valuing_commutes<V: Drop, W: Drop>()
    ensures allocate { (f : V → W) (tag : Option TagId) (offset : ℤ) (width : ℕ) (s : Layout V)
        → allocated tag offset width (layout_valued f s) ≡ on_ok (layout_valued f) (allocated tag offset width s) }
    ensures deallocate { (f : V → W) (tag : Option TagId) (offset : ℤ) (width : ℕ) (s : Layout V)
        → deallocated tag offset width (layout_valued f s) ≡ on_ok (layout_valued f) (deallocated tag offset width s) }
    ensures assign { (f : V → W) (tag : Option TagId) (offset : ℤ) (width : ℕ) (value : V) (s : Layout V)
        → assigned tag offset width (f value) (layout_valued f s)
        ≡ on_ok (layout_valued f) (assigned tag offset width value s) }
    ensures read { (f : V → W) (tag : Option TagId) (offset : ℤ) (width : ℕ) (s : Layout V)
        → value_of tag offset width (layout_valued f s) ≡ on_ok f (value_of tag offset width s) }
    ensures create_tag { (f : V → W) (name : TagId) (base : Option TagId) (offset : ℤ) (s : Layout V)
        → tag_created name base offset (layout_valued f s) ≡ on_ok (layout_valued f) (tag_created name base offset s) }
    ensures set_tag { (f : V → W) (name : TagId) (base : Option TagId) (offset : ℤ) (s : Layout V)
        → tag_set name base offset (layout_valued f s) ≡ on_ok (layout_valued f) (tag_set name base offset s) }
    ensures destroy_tag { (f : V → W) (name : TagId) (s : Layout V)
        → tag_destroyed name (layout_valued f s) ≡ on_ok (layout_valued f) (tag_destroyed name s) }
{}

/// The value that was assigned is read by the same reference, and references to other addresses read
/// as before.
pub fn assign_then_read<V: Drop>()
    ensures there { (tag : Option TagId) (offset : ℤ) (width : ℕ) (value : V) (s next : Layout V)
        → assigned tag offset width value s ≡ Ok next → value_of tag offset width next ≡ Ok value }
    ensures elsewhere { (tag other : Option TagId) (offset distance : ℤ) (width size : ℕ) (value : V)
        (s next : Layout V)
        → (address_of other distance s.tags ≡ address_of tag offset s.tags → ⊥)
        → assigned tag offset width value s ≡ Ok next
        → value_of other distance size next ≡ value_of other distance size s }
{}

/// A cell that is allocated and deallocated leaves all as it was.
pub fn allocate_then_deallocate<V: Drop>()
    ensures { (tag : Option TagId) (offset : ℤ) (width : ℕ) (s next : Layout V)
        → AreStacks int_cmp s.heads
        → allocated tag offset width s ≡ Ok next → deallocated tag offset width next ≡ Ok s }
{}

/// Where no tag has more than one address, none has after a tag is set or destroyed.
pub fn one_address<V: Drop>(layers: &Layers<V>, name: TagId, base: Option<TagId>, offset: i32)
    requires { HaveOneAddress layers.now.tags }
    ensures set { IfOk (tag_set name base offset layers.now) (λ next. HaveOneAddress next.tags) }
    ensures destroyed { IfOk (tag_destroyed name layers.now) (λ next. HaveOneAddress next.tags) }
{}
