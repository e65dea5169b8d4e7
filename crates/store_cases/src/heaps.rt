//! Each law is called once, at a concrete type: a function that holds one cell, by its number.
ghost use Rattle.std.specs.Prelude.{◌≡◌, Some, [], ◌∷◌};
ghost use Rattle.lua_heap.specs.Heap.{cel};

use crate::start::holds;
use lua_heap::{
    Content, Library, closed, closed_sets, equality, examples, framing, graphs, moves, objects,
    reach, standing,
};

/// What a function holds here: one cell, by its number.
struct OneCell {
    cell: u64,
}

impl Content<OneCell> for OneCell {
    ghost stands_for = { λ m a b. m.to (cel a.cell) ≡ Some (cel b.cell) };

    ghost names = { λ c. cel c.cell ∷ [] };
}

fn laws_of_equality() {
    equality::same_decides();
    equality::same_is_an_equivalence();
    equality::nil_decides();
    equality::border_is_least();
    equality::border_is_only();
}

fn laws_of_objects() {
    objects::fresh_is_free::<OneCell>();
    objects::added_is_there::<OneCell>();
    objects::old_stays::<OneCell>();
    objects::only_added::<OneCell>();
    objects::put_is_there::<OneCell>();
    objects::others_stay::<OneCell>();
    objects::kinds_fit::<OneCell>();
}

fn laws_of_standing() {
    standing::table_stands::<OneCell, OneCell>();
    standing::cell_stands::<OneCell, OneCell>();
    standing::closure_stands::<OneCell, OneCell>();
    standing::markup_stands::<OneCell, OneCell>();
    standing::stands_one_to_one::<OneCell, OneCell>();
    standing::objects_grow::<OneCell, OneCell>();
    standing::same_is_same();
    standing::get_stands();
    standing::has_stands();
    standing::set_stands();
    standing::next_stands();
    standing::border_stands();
}

fn laws_of_moves() {
    moves::nothing_moves::<OneCell, OneCell>();
    moves::then_moves::<OneCell, OneCell>();
    moves::put_moves::<OneCell, OneCell>();
    moves::add_moves::<OneCell, OneCell>();
    moves::add_first_moves::<OneCell, OneCell>();
    moves::put_first_stands::<OneCell, OneCell>();
    moves::set_moves::<OneCell, OneCell>();
    moves::set_meta_moves::<OneCell, OneCell>();
    moves::set_cell_moves::<OneCell, OneCell>();
    moves::set_markup_moves::<OneCell, OneCell>();
    moves::new_table_moves::<OneCell, OneCell>();
    moves::new_cell_moves::<OneCell, OneCell>();
    moves::new_closure_moves::<OneCell, OneCell>();
    moves::new_markup_moves::<OneCell, OneCell>();
}

fn laws_of_closed_sets() {
    closed_sets::image_is_closed::<OneCell, OneCell>();
    closed_sets::cut_stands::<OneCell, OneCell>();
    closed_sets::stands_in_frame::<OneCell, OneCell>();
    closed_sets::closed_stands::<OneCell>();
    closed_sets::values_name_the_image();
    closed_sets::values_are_cut();
}

fn laws_of_reach() {
    reach::led_is_reached::<OneCell>();
    reach::reached_is_led::<OneCell>();
    reach::own_led_is_owned::<OneCell>();
    reach::owned_is_led::<OneCell>();
    reach::own_is_a_set::<OneCell>();
    reach::owned_is_reached::<OneCell>();
    reach::owned_is_not_shared::<OneCell>();
    reach::reached_is_owned::<OneCell>();
    reach::own_sets_close::<OneCell>();
    reach::closed_sets_own::<OneCell>();
    reach::unowned_stays::<OneCell>();
}

fn laws_of_closed() {
    closed::empty_is_closed::<OneCell>();
    closed::add_keeps_closed::<OneCell>();
    closed::put_keeps_closed::<OneCell>();
    closed::set_keeps_closed::<OneCell>();
    closed::set_meta_keeps_closed::<OneCell>();
    closed::freeze_keeps_closed::<OneCell>();
    closed::set_cell_keeps_closed::<OneCell>();
}

fn laws_of_framing() {
    framing::later_is_frame::<OneCell, OneCell>();
    framing::later_stays_inside::<OneCell, OneCell>();
    framing::new_is_added::<OneCell>();
    framing::frames_compose::<OneCell>();
    framing::wider_frames::<OneCell>();
    framing::frame_of_own::<OneCell>();
    framing::neighbour_stays::<OneCell>();
    framing::neighbour_is_closed::<OneCell>();
    framing::neighbours_stay_apart::<OneCell>();
    framing::shared_tables_stay::<OneCell>();
    framing::deep_stays::<OneCell>();
}

fn laws_of_graphs() {
    graphs::graph_is_put::<OneCell>();
    graphs::put_is_kept::<OneCell>();
    graphs::kept_stays::<OneCell>();
    graphs::kept_stays_apart::<OneCell>();
    graphs::put_keeps_deep::<OneCell>();
    graphs::kept_joins::<OneCell, OneCell>();
}

fn laws_of_examples() {
    examples::values_differ();
    examples::keys_keep_their_place();
    examples::next_passes_cleared();
    examples::borders_are_least();
    examples::itself_in_itself();
    examples::cell_is_shared();
    examples::reached_but_not_owned();
    examples::markup_is_named();
    examples::ring_is_shifted();
    examples::stands_crossed();
    examples::cells_are_contents();
}

// Calls in a test itself are proved twice, with the test and with what runs it.
#[test]
fn laws_are_called(_rt: HostRuntime) {
    laws_of_equality();
    laws_of_objects();
    laws_of_standing();
    laws_of_moves();
    laws_of_closed_sets();
    laws_of_reach();
    laws_of_closed();
    laws_of_framing();
    laws_of_graphs();
    laws_of_examples();
}

#[test]
fn functions_of_the_library_differ(rt: HostRuntime) {
    holds(&rt, Library::BasicAssert == Library::BasicAssert, "same");
    holds(&rt, Library::BasicAssert != Library::GsplitStep, "another");
}
