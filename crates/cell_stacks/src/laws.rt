//! Laws of the definitions of stacks. Each is the contract of a function that does nothing.

ghost use Rattle.std.specs.Prelude.{◌≡◌, ℕ, List, Ok};
ghost use Rattle.std.specs.declared.cmp.Ordering.TheVariants.{Equal};
ghost use Rattle.sn_tree.specs.Pairs.{IsAscending};
ghost use Rattle.sn_width.specs.declared.faults.LayoutFault.{LayoutFault};
ghost use Rattle.cell_stacks.specs.declared.cell.Cell.{Cell};
ghost use Rattle.cell_stacks.specs.Outcome.{on_ok};
ghost use Rattle.cell_stacks.specs.Stacks.{NoneEmpty, stack_at, with_stack};
ghost use Rattle.cell_stacks.specs.Cells.{pushed, popped, with_top, top_value};
ghost use Rattle.cell_stacks.specs.Valued.{valued};

/// After a change at a key the new stack stands there, and every other stack is as it was.
pub fn change_of_a_stack<K: Ord, X: Drop>()
    ensures there { (key : K) (members : List X) (stacks : List (K × List X))
        → stack_at K.cmp key (with_stack K.cmp key members stacks) ≡ members }
    ensures elsewhere { (key other : K) (members : List X) (stacks : List (K × List X))
        → (K.cmp other key ≡ Equal → ⊥)
        → stack_at K.cmp other (with_stack K.cmp key members stacks) ≡ stack_at K.cmp other stacks }
{}

/// A step or a read after a function of all values is that function of the step or the read.
pub fn valuing_commutes<K: Ord, V: Drop, W: Drop>()
    ensures push { (f : V → W) (key : K) (width : ℕ) (stacks : List (K × List (Cell V)))
        → pushed K.cmp key width (valued f stacks) ≡ on_ok (valued f) (pushed K.cmp key width stacks) }
    ensures pop { (f : V → W) (absent : LayoutFault) (key : K) (width : ℕ) (stacks : List (K × List (Cell V)))
        → popped K.cmp absent key width (valued f stacks) ≡ on_ok (valued f) (popped K.cmp absent key width stacks) }
    ensures set { (f : V → W) (absent : LayoutFault) (key : K) (width : ℕ) (value : V)
        (stacks : List (K × List (Cell V)))
        → with_top K.cmp absent key width (f value) (valued f stacks)
        ≡ on_ok (valued f) (with_top K.cmp absent key width value stacks) }
    ensures top { (f : V → W) (absent : LayoutFault) (key : K) (width : ℕ) (stacks : List (K × List (Cell V)))
        → top_value K.cmp absent key width (valued f stacks) ≡ on_ok f (top_value K.cmp absent key width stacks) }
{}

/// The value that was set at a key is read there, and every other key reads as before.
pub fn set_then_read<K: Ord, V: Drop>()
    ensures there { (absent other : LayoutFault) (key : K) (width : ℕ) (value : V)
        (stacks next : List (K × List (Cell V)))
        → with_top K.cmp absent key width value stacks ≡ Ok next
        → top_value K.cmp other key width next ≡ Ok value }
    ensures elsewhere { (absent other : LayoutFault) (key elsewhere : K) (width size : ℕ) (value : V)
        (stacks next : List (K × List (Cell V)))
        → (K.cmp elsewhere key ≡ Equal → ⊥)
        → with_top K.cmp absent key width value stacks ≡ Ok next
        → top_value K.cmp other elsewhere size next ≡ top_value K.cmp other elsewhere size stacks }
{}

/// A cell that is put on and removed leaves the stacks as they were, where keys that compare as
/// equal are the same.
pub fn push_then_pop<K: Ord, V: Drop>()
    ensures { (absent : LayoutFault) (key : K) (width : ℕ) (stacks next : List (K × List (Cell V)))
        → ((a b : K) → K.cmp a b ≡ Equal → a ≡ b)
        → IsAscending K.cmp stacks → NoneEmpty stacks
        → pushed K.cmp key width stacks ≡ Ok next
        → popped K.cmp absent key width next ≡ Ok stacks }
{}
