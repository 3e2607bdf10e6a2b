//! Worked examples of the meaning. Each is the contract of a function that does nothing.

ghost use Rattle.std.specs.Prelude.{◌≡◌, ℕ, [], ◌∷◌, suc, codes};
ghost use Rattle.sn_width.specs.declared.faults.LayoutFault.TheVariants.{NoMeta};
ghost use Rattle.sefl_syntax.specs.declared.net.Side.TheVariants.{Inward, Outward};
ghost use Rattle.sefl_meaning.specs.declared.walk.Decision.TheVariants.{Then, Else, Pass, Copy};
ghost use Rattle.sefl_meaning.specs.declared.walk.End.TheVariants.{Stopped, Delivered, Failed, Cut};
ghost use Rattle.sefl_meaning.specs.declared.walk.Failure.TheVariants.{Layout, Message};
ghost use Rattle.sefl_meaning.specs.Carried.{nothing};
ghost use Rattle.sefl_meaning.specs.Injected.{Starts, passages_from, walks_from};
ghost use Rattle.sefl_meaning.specs.Examples as examples;

/// A box that drops what has a time to live of 1 or less, and forwards all else.
pub fn ttl_forwards_or_dies()
    ensures starts { Starts examples.ttl_net examples.ttl_injection (1 ∷ []) (examples.ttl_of 1) }
    ensures dies { (hops : ℕ)
        → walks_from examples.ttl_net examples.ttl_injection (1 ∷ []) (suc hops) (examples.ttl_of 1)
        ≡ examples.walk (Then ∷ []) (examples.place 0 Inward 0 ∷ [])
        (Failed (Message (codes "dead")) (record { 0 = 3 })) (examples.ttl_of 1) ∷ [] }
    ensures forwards { (hops : ℕ)
        → walks_from examples.ttl_net examples.ttl_injection (2 ∷ []) (suc hops) (examples.ttl_of 2)
        ≡ examples.walk (Else ∷ []) (examples.place 0 Inward 0 ∷ examples.place 0 Outward 0 ∷ [])
        Delivered (examples.ttl_of 2) ∷ [] }
{}

/// A Fork with one port twice; one of its ports has no link, and the other leads to a box without code.
pub fn fork_has_a_copy_for_each_place()
    ensures { (hops : ℕ)
        → walks_from examples.fork_net (examples.injection (codes "a") []) [] (suc (suc hops)) nothing
        ≡ examples.walk (Copy 0 ∷ []) (examples.place 0 Inward 0 ∷ examples.place 0 Outward 0 ∷ []) Delivered nothing
        ∷ examples.fork_walk 1 ∷ examples.fork_walk 2 ∷ [] }
{}

/// Two boxes in a ring: hops count the input ports that are entered.
pub fn ring_is_cut()
    ensures three { walks_from examples.ring_net (examples.injection (codes "a") []) [] 3 nothing
        ≡ examples.walk [] (examples.place 0 Inward 0 ∷ examples.place 0 Outward 0 ∷ examples.place 1 Inward 0
        ∷ examples.place 1 Outward 0 ∷ examples.place 0 Inward 0 ∷ examples.place 0 Outward 0
        ∷ examples.place 1 Inward 0 ∷ []) Cut nothing ∷ [] }
    ensures one { walks_from examples.ring_net (examples.injection (codes "a") []) [] 1 nothing
        ≡ examples.walk [] (examples.place 0 Inward 0 ∷ examples.place 0 Outward 0 ∷ examples.place 1 Inward 0 ∷ [])
        Cut nothing ∷ [] }
{}

/// A For whose body removes the metadata of its second iteration: that iteration comes none the less, and fails.
pub fn for_goes_over_its_snapshot()
    ensures starts { Starts examples.for_net examples.for_injection []
        (examples.metadata (examples.globals (1 ∷ 2 ∷ 3 ∷ []))) }
    ensures walk { (hops : ℕ)
        → walks_from examples.for_net examples.for_injection [] (suc hops)
        (examples.metadata (examples.globals (1 ∷ 2 ∷ 3 ∷ [])))
        ≡ examples.walk [] (examples.place 0 Inward 0 ∷ []) (Failed (Layout NoMeta) (record { 0 = 3 }))
        (examples.metadata (examples.global 0 1 ∷ examples.global 2 3 ∷ [])) ∷ [] }
{}

/// A local of one box is there when the packet comes back, and is not read by another box.
pub fn locals_belong_to_their_box()
    ensures comes_back { (hops : ℕ)
        → walks_from (examples.local_net examples.onward_code) (examples.injection (codes "a") []) []
        (suc (suc (suc hops))) nothing
        ≡ examples.walk (Pass ∷ []) (examples.place 0 Inward 0 ∷ examples.place 0 Outward 0 ∷ examples.place 1 Inward 0
        ∷ examples.place 1 Outward 0 ∷ examples.place 0 Inward 1 ∷ []) Stopped examples.local_of_a ∷ [] }
    ensures elsewhere { (hops : ℕ)
        → walks_from (examples.local_net examples.local_test) (examples.injection (codes "a") []) []
        (suc (suc (suc hops))) nothing
        ≡ examples.walk [] (examples.place 0 Inward 0 ∷ examples.place 0 Outward 0 ∷ examples.place 1 Inward 0 ∷ [])
        (Failed (Layout NoMeta) (record { 0 = 9 })) examples.local_of_a ∷ [] }
{}

/// Choices stand after the unknown fields; they are taken modulo their width, and are 0 past the end.
pub fn choices_are_read_in_order()
    ensures starts { Starts examples.any_net examples.any_injection (7 ∷ 300 ∷ [])
        (examples.metadata (examples.global 0 7 ∷ examples.global 2 9 ∷ [])) }
    ensures walk { (hops : ℕ)
        → walks_from examples.any_net examples.any_injection (7 ∷ 300 ∷ []) (suc hops)
        (examples.metadata (examples.global 0 7 ∷ examples.global 2 9 ∷ []))
        ≡ examples.walk [] (examples.place 0 Inward 0 ∷ []) Stopped
        (examples.metadata (examples.global 0 44 ∷ examples.global 1 0 ∷ examples.global 2 9 ∷ [])) ∷ [] }
    ensures counted { (hops : ℕ)
        → passages_from examples.any_net examples.any_injection (7 ∷ 300 ∷ []) (suc hops) examples.any_start
        ≡ examples.any_passage ∷ [] }
{}
