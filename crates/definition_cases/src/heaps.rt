//! Laws of heaps and of the library, where a function holds one cell.
ghost use Rattle.std.specs.Prelude.{◌≡◌, Some, [], ◌∷◌};
ghost use Rattle.lua_heap.specs.Heap.{cel};

use lua_heap::Content;
use std::test::Fail;

/// What a function holds: the number of one object.
struct OneObject(u64);

impl Content<OneObject> for OneObject {
    ghost stands_for = { λ m a b. m.to (cel a.0) ≡ Some (cel b.0) };

    ghost names = { λ x. cel x.0 ∷ [] };
}

#[test]
fn laws_of_lua_walk(_rt: HostRuntime) -> Result<(), Fail> {
    lua_walk::laws::reached_is_all::<OneObject>();
    lua_walk::laws::more_find_nothing::<OneObject>();
    lua_walk::laws::taken_is_graph::<OneObject>();
    lua_walk::laws::taken_is_reached::<OneObject>();
    lua_walk::laws::copy_changes_nothing::<OneObject>();
    lua_walk::laws::taken_is_same::<OneObject, OneObject>();
    lua_walk::laws::copy_costs_the_same::<OneObject, OneObject>();
    lua_walk::laws::copy_moves::<OneObject, OneObject>();
    lua_walk::examples::data_is_taken();
    lua_walk::examples::first_fault_is_met();
    lua_walk::examples::copy_is_made();
    lua_walk::examples::copy_is_paid();
    Ok(())
}

#[test]
fn laws_of_lua_library_agree(_rt: HostRuntime) -> Result<(), Fail> {
    lua_library_agree::laws::library_agrees::<OneObject, OneObject>();
    lua_library_agree::laws::handlers_agree::<OneObject, OneObject>();
    lua_library_agree::laws::made_frames_agree::<OneObject, OneObject>();
    lua_library_agree::laws::homes_agree::<OneObject, OneObject>();
    lua_library_agree::laws::strict_agrees::<OneObject, OneObject>();
    lua_library_agree::laws::gsub_agrees::<OneObject, OneObject>();
    lua_library_agree::laws::graphs_join::<OneObject, OneObject>();
    Ok(())
}
