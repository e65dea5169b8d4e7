//! What functions hold, on the two sides of a map.
ghost use Rattle.std.specs.Prelude.{List};
ghost use Rattle.lua_heap.specs.Heap.{Ref};
ghost use Rattle.lua_heap.specs.Related.{Map};

/// What a function holds in one heap, where what one holds in another heap, of the type `Y`, can stand for it.
///
/// The laws of heaps hold for every choice of the two members. Those that need more of them say so.
pub trait Content<Y> {
    /// When the second content stands for the first, under a map of names.
    ghost stands_for: { Map → Self → Y → Type 0 };

    /// The objects that a content of the second heap names.
    ghost names: { Y → List Ref };
}
