//! Tags and header cells.

ghost use Rattle.std.specs.Prelude.{◌≡◌, [], IfOk, ◌+ℤ◌, pos, map};
ghost use Rattle.std.specs.List.{flat_map};
ghost use Rattle.std.specs.Ordering.{nat_cmp, int_cmp};
ghost use Rattle.sn_tree.specs.Pairs.{IsAscending};
ghost use Rattle.cell_stacks.specs.Outcome.{lent, Meets};
ghost use Rattle.cell_stacks.specs.Stacks.{NoneEmpty};
ghost use Rattle.cell_stacks.specs.Cells.{AreStacks, bottom_up, lent_stack, key_and_width};
ghost use Rattle.header_layers.specs.Spaced.{EndInOrder, overlaps, begins_before, ends_after};
ghost use Rattle.header_layers.specs.Layout.{in_range, base_of, address_of, allocated, deallocated, assigned, value_of, tag_created, tag_set, tag_destroyed, tag_pairs};

use cell_stacks::{Cell, StackMap, Stacks};
use sn_tree::Shared;
use sn_width::{LayoutFault, NoMemory, StepFault, TagId, Width};
use std::alloc::Global;
use std::marker::Model;

/// The tags and the header cells of a packet, seen as the list of each tag's addresses and the list
/// of each address's cells, the top ones first, ascending. No list is empty, the cells at one
/// address have one width, and top cells share no bit. Copies share what they have in common.
pub struct Layers<V: Drop> {
    tags: StackMap<u32, i32>,
    heads: Stacks<i32, V>,
}

// Written out, and not derived, so that the proof of a function that lets one go sees a call.
impl<V: Drop> Drop for Layers<V> {
    fn drop(self) {
        let Layers { tags, heads } = self;
        drop(tags);
        drop(heads);
    }
}

impl<V: Drop> Model for Layers<V> {
    ghost use Rattle.std.specs.Prelude.{map};
    ghost use Rattle.cell_stacks.specs.Cells.{key_and_width};
    ghost use Rattle.header_layers.specs.Spaced.{EndInOrder};
    ghost use Rattle.header_layers.specs.Layout.{Layout};

    ghost Value = { Layout V };

    ghost view = { λ layers. record { tags = layers.tags; heads = layers.heads } };

    ghost invariant = { λ layers. EndInOrder (map key_and_width layers.heads) };
}

/// The least address, in bits.
const LEAST_ADDRESS: i32 = -1_048_576;

/// The greatest address, in bits.
const GREATEST_ADDRESS: i32 = 1_048_575;

impl<V: Drop> Layers<V> {
    /// No tags and no cells.
    pub fn new() -> Layers<V>
        ensures { result ≡ record { tags = []; heads = [] } }
    {
        Layers {
            tags: StackMap::new(),
            heads: Stacks::empty(),
        }
    }

    /// The same tags and cells. Takes no memory; an `Err` says that a count of owners is full.
    pub fn fork(&self) -> Result<Layers<V>, NoMemory>
        ensures same { IfOk result (λ copy. copy ≡ self.now) }
    {
        let tags = self.tags.fork()?;
        let heads = self.heads.fork()?;
        Ok(Layers { tags, heads })
    }

    /// Puts an unset cell on top of those at an address, which is counted from the tag's, or from 0.
    /// The faults, in this order: NoTag, AddressRange, WidthDiffers, Overlap.
    pub fn allocate(
        &mut self,
        alloc: Global,
        tag: Option<TagId>,
        offset: i32,
        width: Width,
    ) -> Result<(), StepFault>
        ensures { Meets (allocated tag offset width self.old) result self.old self.new }
    {
        let address = self.address(tag, offset)?;
        if !self.heads.accepts(&address, width) {
            return Err(StepFault::Layout(LayoutFault::WidthDiffers));
        }
        if self.overlaps(address, width) {
            return Err(StepFault::Layout(LayoutFault::Overlap));
        }
        self.heads.push(alloc, address, width)
    }

    /// Removes the top cell at an address. The faults, in this order: NoTag, AddressRange, NoField,
    /// WidthDiffers.
    pub fn deallocate(
        &mut self,
        alloc: Global,
        tag: Option<TagId>,
        offset: i32,
        width: Width,
    ) -> Result<(), StepFault>
        ensures { Meets (deallocated tag offset width self.old) result self.old self.new }
    {
        let address = self.address(tag, offset)?;
        self.heads.pop(alloc, address, width, LayoutFault::NoField)
    }

    /// Sets the value of the top cell at an address. The faults, in this order: NoTag, AddressRange,
    /// NoField, WidthDiffers.
    pub fn assign(
        &mut self,
        alloc: Global,
        tag: Option<TagId>,
        offset: i32,
        width: Width,
        value: V,
    ) -> Result<(), StepFault>
        ensures { Meets (assigned tag offset width value self.old) result self.old self.new }
    {
        let address = self.address(tag, offset)?;
        self.heads
            .set(alloc, address, width, value, LayoutFault::NoField)
    }

    /// The value of the top cell at an address. The faults, in this order: NoTag, AddressRange,
    /// NoField, WidthDiffers, Unset.
    pub fn read(&self, tag: Option<TagId>, offset: i32, width: Width) -> Result<&V, LayoutFault>
        ensures { lent result ≡ value_of tag offset width self.now }
    {
        let address = self.address(tag, offset)?;
        self.heads.top(&address, width, LayoutFault::NoField)
    }

    /// Puts an address on top of those of the tag. The faults, in this order: NoTag where the base is
    /// absent, AddressRange.
    pub fn create_tag(
        &mut self,
        alloc: Global,
        name: TagId,
        base: Option<TagId>,
        offset: i32,
    ) -> Result<(), StepFault>
        ensures { Meets (tag_created name base offset self.old) result self.old self.new }
    {
        let address = self.address(base, offset)?;
        self.tags.push(alloc, name.0, address)?;
        Ok(())
    }

    /// Puts an address in place of the tag's top one, or alone where the tag is absent. The faults,
    /// in this order: NoTag where the base is absent, AddressRange.
    pub fn set_tag(
        &mut self,
        alloc: Global,
        name: TagId,
        base: Option<TagId>,
        offset: i32,
    ) -> Result<(), StepFault>
        ensures { Meets (tag_set name base offset self.old) result self.old self.new }
    {
        let address = self.address(base, offset)?;
        self.tags.replace_top(alloc, name.0, address)?;
        Ok(())
    }

    /// Removes the tag's top address. NoTag where the tag is absent.
    pub fn destroy_tag(&mut self, alloc: Global, name: TagId) -> Result<(), StepFault>
        ensures { Meets (tag_destroyed name self.old) result self.old self.new }
    {
        self.base(Some(name))?;
        self.tags.pop(alloc, name.0)?;
        Ok(())
    }

    /// All tags with their addresses, ascending by tag, a pair for each address, a tag's addresses
    /// from bottom to top.
    pub fn tags(&self, alloc: Global) -> Result<Vec<(TagId, i32)>, NoMemory>
        ensures all { IfOk result (λ listed. listed.items ≡ flat_map tag_pairs self.now.tags) }
        ensures none_empty { NoneEmpty self.now.tags }
        ensures ascending { IsAscending nat_cmp self.now.tags }
    {
        let mut listed = Vec::new(alloc);
        for (tag, addresses) in self.tags.pairs(alloc)? {
            let entries = tag_entries(alloc, *tag, addresses)?;
            listed.extend_from_slice(&entries)?;
        }
        Ok(listed)
    }

    /// All addresses with their cells, ascending, the cells from bottom to top, the values lent.
    pub fn heads(&self, alloc: Global) -> Result<Vec<(i32, Vec<Cell<&V>>)>, NoMemory>
        ensures all { IfOk result (λ listed. map lent_stack listed.items ≡ map bottom_up self.now.heads) }
        ensures stacks { AreStacks int_cmp self.now.heads }
        ensures apart { EndInOrder (map key_and_width self.now.heads) }
    {
        self.heads.all(alloc)
    }

    /// Whether as many bits from the address share one with the top cell of another address.
    fn overlaps(&self, address: i32, width: Width) -> bool
        requires { IsAscending int_cmp self.now.heads }
        ensures { result ≡ overlaps address width self.now.heads }
    {
        let above = self.heads.above(&address);
        let below = self.heads.below(&address);
        begins_before(above, address, width) || ends_after(below, address)
    }

    /// Where offsets are counted from: 0, or the top address of the tag.
    fn base(&self, tag: Option<TagId>) -> Result<i32, LayoutFault>
        ensures { result ≡ base_of tag self.now.tags }
    {
        let Some(tag) = tag else {
            return Ok(0);
        };
        let Some(address) = self.tags.top(&tag.0) else {
            return Err(LayoutFault::NoTag);
        };
        Ok(*address)
    }

    /// The address that a reference names.
    fn address(&self, tag: Option<TagId>, offset: i32) -> Result<i32, LayoutFault>
        ensures { result ≡ address_of tag offset self.now.tags }
    {
        let base = self.base(tag)?;
        moved(base, offset)
    }
}

/// The address at this distance from another one.
fn moved(base: i32, offset: i32) -> Result<i32, LayoutFault>
    ensures { result ≡ in_range (base +ℤ offset) }
{
    let Some(address) = base.checked_add(offset) else {
        return Err(LayoutFault::AddressRange);
    };
    if address < LEAST_ADDRESS || address > GREATEST_ADDRESS {
        return Err(LayoutFault::AddressRange);
    }
    Ok(address)
}

/// Whether the cell begins before the last of as many bits from the address.
fn begins_before(cell: Option<(i32, Width)>, address: i32, width: Width) -> bool
    ensures { result ≡ begins_before cell (address +ℤ pos width) }
{
    match cell {
        None => false,
        Some((start, _)) => i64::from(start) < i64::from(address) + i64::from(width.bits()),
    }
}

/// Whether the cell ends after the address.
fn ends_after(cell: Option<(i32, Width)>, address: i32) -> bool
    ensures { result ≡ ends_after cell address }
{
    match cell {
        None => false,
        Some((start, size)) => i64::from(address) < i64::from(start) + i64::from(size.bits()),
    }
}

/// The pairs of a tag and its addresses, from bottom to top.
fn tag_entries(
    alloc: Global,
    tag: u32,
    addresses: &Shared<i32>,
) -> Result<Vec<(TagId, i32)>, NoMemory>
    ensures { IfOk result (λ entries. entries.items ≡ tag_pairs (tag, addresses.now)) }
{
    let mut entries = Vec::new(alloc);
    for address in addresses.iter() {
        entries.push((TagId(tag), *address))?;
    }
    entries.reverse();
    Ok(entries)
}
