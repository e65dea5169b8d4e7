//! Laws of runs, scenes, expansions and of pages with modules.
use mw_frame::{Arg, Bytes};
use page_run::Which;
use std::test::Fail;

#[test]
fn laws_of_page_run(_rt: HostRuntime) -> Result<(), Fail> {
    page_run::events::ends::<(), u64, u8, u8, u8, u64>();
    page_run::events::takes::<(), u64, u8, u8, u8, u64>();
    page_run::events::counts::<(), u64, u8, u8, u8, u64>();
    page_run::events::notes::<(), u64, u8, u8, u8, u64>();
    page_run::events::traces::<(), u64, u8, u8, u8, u64>();
    page_run::events::sees::<(), u64, u8, u8, u8, u64>();
    page_run::events::changes::<(), u64, u8, u8, u8, u64>();
    page_run::events::calls::<(), u64, u8, u8, u8, u64>();
    page_run::events::leaves::<(), u64, u8, u8, u8, u64>();
    page_run::events::uses_bytes::<(), u64, u8, u8, u8, u64>();
    page_run::events::uses_depth::<(), u64, u8, u8, u8, u64>();
    page_run::events::uses_templates::<(), u64, u8, u8, u8, u64>();
    page_run::events::begins::<(), u64, u8, u8, u8, u64>();
    page_run::events::opens::<(), u64, u8, u8, u8, u64>();
    page_run::events::asks::<(), u64, u8, u8, u8, u64>();
    page_run::replies::waiting_is_asking::<(), u64, u8, u8, u8, u64>();
    page_run::replies::end_stands::<(), u64, u8, u8, u8, u64>();
    page_run::replies::spent_stands::<(), u64, u8, u8, u8, u64>();
    page_run::replies::computed_is_given::<(), u64, u8, u8, u8, u64>();
    page_run::replies::unanswered_waits::<(), u64, u8, u8, u8, u64>();
    page_run::replies::agreeing_is_enough::<(), u64, u8, u8, u8, u64>();
    page_run::charges::nothing_rises::<(), u64, u8, u8, u8, u64>();
    page_run::charges::calls_come_back::<(), u64, u8, u8, u8, u64>();
    page_run::charges::end_fits::<(), u64, u8, u8, u8, u64>();
    page_run::charges::more_is_as_good::<(), u64, u8, u8, u8, u64>();
    page_run::charges::one_charge::<(), u64, u8, u8, u8, u64>();
    page_run::loads::tells_none::<(), u64, u8, u8, u8, u64>();
    page_run::loads::tells_reply::<(), u64, u8, u8, u8, u64>();
    page_run::loads::repeat_is_kept();
    page_run::loads::other_is_fresh();
    page_run::loads::walk_of_joined();
    Ok(())
}

#[test]
fn examples_of_page_run(_rt: HostRuntime) -> Result<(), Fail> {
    page_run::examples::charges_are_taken();
    page_run::examples::endless_loop_is_spent();
    page_run::examples::uses_are_answered();
    page_run::examples::nesting_ends_with_nodes();
    page_run::examples::questions_are_answered();
    page_run::examples::notes_are_collected();
    page_run::examples::jumps_are_caught();
    Ok(())
}

#[test]
fn allowances_are_told_apart(rt: HostRuntime) -> Result<(), Fail> {
    assert!(rt; Which::Steps != Which::Calls);
    let copy = Which::Calls;
    assert!(rt; copy == Which::Calls);
    Ok(())
}

#[test]
fn an_argument_is_copied(rt: HostRuntime) -> Result<(), Fail> {
    let alloc = rt.alloc();
    let arg = Arg {
        name: Bytes::of(alloc, b"1")?,
        value: Bytes::of(alloc, b" p ")?,
    };
    let copy = arg.copy()?;
    assert!(rt; copy.name == arg.name);
    assert!(rt; copy.value == arg.value);
    Ok(())
}

#[test]
fn laws_of_expand_meaning(_rt: HostRuntime) -> Result<(), Fail> {
    expand_meaning::laws::trees_read_back();
    expand_meaning::examples::parameters();
    expand_meaning::examples::arguments();
    expand_meaning::examples::loops();
    expand_meaning::examples::functions();
    expand_meaning::examples::words();
    expand_meaning::examples::invocations();
    expand_meaning::examples::limits();
    Ok(())
}

#[test]
fn laws_of_page_meaning(_rt: HostRuntime) -> Result<(), Fail> {
    page_meaning::drive::drive_is_one_run();
    page_meaning::drive::replies_only_take();
    page_meaning::drive::replies_give_calls_back();
    page_meaning::drive::runs_come_to_an_end();
    page_meaning::drive::expansions_come_to_texts();
    page_meaning::drive::outcomes_are_told();
    page_meaning::drive::runs_go_on();
    page_meaning::drive::expansions_go_on();
    page_meaning::kept_loads::loads_are_covered();
    page_meaning::kept_loads::kept_is_fresh();
    page_meaning::kept_loads::short_is_spent();
    page_meaning::kept_loads::kept_serves();
    page_meaning::kept_loads::kept_is_paid();
    page_meaning::tasks::tasks_go_on();
    page_meaning::tasks::tasks_tell_loads();
    page_meaning::tasks::pages_are_tasks();
    page_meaning::examples::globals_are_fresh();
    page_meaning::examples::failures_are_shown();
    page_meaning::examples::given_stands();
    page_meaning::examples::spent_pages_go_on();
    page_meaning::examples::texts_are_expanded();
    page_meaning::examples::templates_are_expanded();
    page_meaning::examples::loads_are_kept();
    page_meaning::examples::short_loads_are_fresh();
    page_meaning::examples::inner_loads_are_kept();
    page_meaning::examples::loads_fail();
    page_meaning::examples::twice_is_twice();
    Ok(())
}

#[test]
fn laws_of_page_points(_rt: HostRuntime) -> Result<(), Fail> {
    page_points::stack::page_begins();
    page_points::stack::one_begins();
    page_points::stack::one_is_told();
    page_points::stack::one_ends();
    page_points::stack::page_ends();
    page_points::stack::root_is_seen();
    page_points::stack::answer_is_load();
    page_points::stack::kept_is_served();
    page_points::stack::load_is_kept();
    Ok(())
}
