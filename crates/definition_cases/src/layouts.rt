//! Laws of the lexis and the grammar on which the layout of a text stands, and its worked rows.
use std::test::Fail;

#[test]
fn laws_of_layouts(_rt: HostRuntime) -> Result<(), Fail> {
    lua_token_laws::pieces_fit();
    lua_token_laws::pieces_stay();
    lua_token_laws::closed_pieces_stay();
    lua_token_laws::neighbours_fit();
    lua_token_laws::twins_spell();
    lua_print::rows_hold();
    Ok(())
}
