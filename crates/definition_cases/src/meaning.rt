//! Laws and worked examples of what Lua means, by names and by slots.
use std::test::Fail;

#[test]
fn laws_of_lua_meaning(_rt: HostRuntime) -> Result<(), Fail> {
    lua_meaning::laws::things_unfold();
    lua_meaning::laws::nodes_are_counted();
    lua_meaning::laws::target_names_are_none();
    lua_meaning::laws::turns_and_entries_are_counted();
    lua_meaning::laws::calls_are_given_back();
    lua_meaning::laws::more_changes_nothing();
    lua_meaning::laws::waits_are_named();
    lua_meaning::laws::tables_are_joined();
    lua_meaning::laws::frames_are_needed();
    lua_meaning::laws::ends_are_told();
    lua_meaning::laws::roots_are_found();
    lua_meaning::laws::filled_is_replaced();
    lua_meaning::laws::matches_go_on();
    lua_meaning::examples::charges();
    lua_meaning::examples::costs();
    lua_meaning::examples::values();
    lua_meaning::examples::statements();
    lua_meaning::examples::functions();
    lua_meaning::examples::handlers();
    lua_meaning::examples::frames();
    lua_meaning::examples::modules();
    lua_meaning::examples::libraries();
    lua_meaning::examples::replacements();
    lua_meaning::examples::replacing();
    lua_meaning::examples::objects();
    lua_meaning::examples::markup();
    Ok(())
}

#[test]
fn laws_of_lua_meaning_laws(_rt: HostRuntime) -> Result<(), Fail> {
    lua_meaning_laws::laws::data_runs_ask_for_data();
    Ok(())
}

#[test]
fn laws_of_lua_uses(_rt: HostRuntime) -> Result<(), Fail> {
    lua_uses::rows_hold();
    lua_lint_laws::none_is_missed();
    Ok(())
}

#[test]
fn laws_of_lua_slots(_rt: HostRuntime) -> Result<(), Fail> {
    lua_slots::laws::code_stays();
    lua_slots::laws::marks_are_paid();
    lua_slots::laws::charges_come_first();
    lua_slots::laws::charges_are_exact();
    lua_slots::examples::code();
    lua_slots::examples::calls();
    Ok(())
}

#[test]
fn laws_of_lua_slots_cases(_rt: HostRuntime) -> Result<(), Fail> {
    lua_slots_cases::examples::closures();
    lua_slots_cases::examples::loads();
    Ok(())
}

#[test]
fn laws_of_lua_in_place(_rt: HostRuntime) -> Result<(), Fail> {
    lua_in_place::laws::read_in_place();
    lua_in_place::laws::list_read_in_place();
    lua_in_place::laws::nodes_are_some();
    lua_in_place::laws::examples();
    Ok(())
}

#[test]
fn laws_of_lua_goes(_rt: HostRuntime) -> Result<(), Fail> {
    lua_goes::laws::free_moves_fall();
    lua_goes::laws::steps_or_weight_fall();
    lua_goes::laws::comes_to_an_event();
    lua_goes::laws::nodes_are_paid();
    lua_goes::laws::calls_are_back();
    Ok(())
}

#[test]
fn laws_of_lua_asks(_rt: HostRuntime) -> Result<(), Fail> {
    lua_asks::laws::loaded_is_not_asked();
    lua_asks::laws::told_is_loaded();
    Ok(())
}
