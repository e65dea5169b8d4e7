//! What a machine holds beside the store.
use crate::codes::Codes;
use crate::progress::Progress;
use lua_arms::{Activations, Environment, Frames, LuaStackSlot as Slot, Stack};
use lua_titled::ByTitle;
use mw_frames::{Scenes, Value};

/// What a machine of Lua holds beside the store and what it does next.
#[derive(Drop)]
pub struct State<'m> {
    /// What waits for an outcome.
    pub frames: Frames<'m>,
    /// Local variables.
    pub regs: Stack<Slot>,
    /// The functions of Lua in progress.
    pub functions: Activations,
    pub env: Environment,
    /// The modules that were required in this run.
    pub modules: ByTitle<Progress>,
    /// The tables of the data modules that were loaded in this run.
    pub loaded: ByTitle<Value>,
    /// The frames of this run (Scribunto, "Frame object").
    pub scenes: Scenes,
    /// The modules, with the code of those that have run.
    pub codes: Codes<'m>,
    /// How many calls are in progress, of functions of Lua and of the library.
    pub calls: u64,
    /// The most that were in progress at one time.
    pub height: u64,
}
