//! Flat code: its worked examples, and the laws that tie it to the machine over trees.
use std::test::Fail;

#[test]
fn examples_of_flat_code(_rt: HostRuntime) -> Result<(), Fail> {
    lua_flat::examples::code();
    lua_flat::examples::calls();
    lua_flat::examples::levels();
    lua_flat::examples::flat_code();
    lua_flat::examples::flat_calls();
    lua_flat::examples::flat_levels();
    lua_flat_cases::examples::loops();
    lua_flat_cases::examples::flat_loops();
    lua_flat_cases::examples::lists();
    lua_flat_cases::examples::flat_lists();
    lua_flat_cases::examples::tests();
    lua_flat_cases::examples::flat_tests();
    lua_flat_cases::examples::cells();
    lua_flat_cases::examples::flat_cells();
    lua_flat_cases::examples::texts();
    lua_flat_cases::examples::flat_texts();
    Ok(())
}

#[test]
fn laws_of_flat_code(_rt: HostRuntime) -> Result<(), Fail> {
    lua_flat_laws::laws::what_follows_comes();
    lua_flat_laws::laws::expressions_are_moves();
    lua_flat_laws::laws::outcomes_come_back();
    lua_flat_laws::laws::library_is_moves();
    lua_flat_laws::laws::entering_is_moves();
    lua_flat_laws::laws::runs_are_moves();
    lua_flat_laws::laws::tests_are_moves();
    lua_flat_laws::laws::turns_are_moves();
    lua_flat_laws::laws::blocks_are_moves();
    lua_flat_laws::laws::returns_are_moves();
    lua_flat_laws::laws::operations_are_moves();
    lua_flat_laws::laws::operations_come();
    lua_flat_laws::laws::questions_are_asked();
    lua_flat_laws::laws::ends_are_ends();
    Ok(())
}
