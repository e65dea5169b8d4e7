//! Laws of a machine that follows the meaning.
use std::test::Fail;

#[test]
fn laws_of_lua_agree(_rt: HostRuntime) -> Result<(), Fail> {
    lua_agree::laws::goes_on();
    lua_agree::laws::next_is_met();
    Ok(())
}

#[test]
fn laws_of_lua_points(_rt: HostRuntime) -> Result<(), Fail> {
    lua_points::laws::there_is_a_home();
    lua_points::laws::start_is_at();
    lua_points::laws::call_is_met();
    lua_points::laws::question_is_asked();
    lua_points::laws::end_is_met();
    lua_points::laws::answer_is_at();
    lua_points::laws::spent_answer_is_met();
    lua_points::laws::point_is_cut();
    lua_points::laws::point_has_image();
    lua_points::laws::point_looks_at_set();
    lua_points::laws::point_looks_at_own();
    lua_points::laws::point_looks_at_owned();
    lua_points::laws::others_stay();
    lua_points::laws::unowned_stays();
    lua_points::laws::reach_stays();
    lua_points::laws::start_owns_new();
    lua_points::laws::answer_owns_nothing();
    lua_points::laws::neighbour_waits();
    lua_points::laws::neighbours_stay_apart();
    lua_points::laws::set_stays_there();
    lua_points::laws::answers_are_there();
    lua_points::laws::answers_stay_apart();
    lua_points::laws::load_is_answer();
    lua_points::laws::answers_wait();
    lua_points::laws::tally_is_carried();
    lua_points::laws::nothing_told();
    lua_points::laws::other_allowances_stay();
    lua_points::laws::clause_of_start();
    lua_points::laws::clause_of_answer();
    lua_points::laws::clauses_of_go();
    lua_points::laws::go_can_be();
    lua_points::laws::one_more();
    lua_points::laws::one_goes();
    lua_points::laws::one_is_answered();
    lua_points::laws::data_is_put();
    lua_points::laws::order_is_free();
    Ok(())
}

#[test]
fn laws_of_lua_home_laws(_rt: HostRuntime) -> Result<(), Fail> {
    lua_home_laws::laws::fresh_is_home();
    lua_home_laws::laws::made_is_home();
    lua_home_laws::laws::made_is_open();
    lua_home_laws::laws::made_starts();
    Ok(())
}

#[test]
fn laws_of_lua_home(_rt: HostRuntime) -> Result<(), Fail> {
    lua_home::made::home_is_home();
    Ok(())
}
