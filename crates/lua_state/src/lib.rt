//! What a machine of Lua holds, together; and how a move ends.
//!
//! - `codes`: the modules of a run, and their code
//! - `held`: constants that were found as texts
//! - `constants`: those of the running function's module
//! - `outcome`: what reaches a frame
//! - `progress`: modules that were required
//! - `state`: what a machine holds beside the store
//! - `turn`: what a move comes to
//! - `charges`: steps that are taken, calls that are entered and left
//! - `ending`: the end of a move, with the message of what failed
//! - `messages`: the texts of what failed
//! - `laws`: what a machine holds stays while its store grows
//!
//! Begin with `specs/Makes.antt`: that code makes a move of `lua_slots`. `specs/Seen.antt` says what a machine is seen as, and
//! `proofs/Making.antt` how a move is made of parts.
#![tactic(auto)]

pub mod charges;
pub mod codes;
pub mod constants;
pub mod ending;
mod held;
pub mod laws;
mod messages;
pub mod outcome;
pub mod progress;
pub mod state;
pub mod turn;

pub use charges::{enter_call, leave_call, pay, pay_node};
pub use codes::{Codes, World};
pub use constants::{constant, constant_at_hand, running_source};
pub use ending::{fail, fail_quoting, finish, finish_paid};
pub use lua_arms::calls::call;
pub use lua_arms::index::{index_link, index_table, two};
pub use lua_arms::loops::{
    count_next, counting, each_from, each_next, repeat_next, step_next, while_next,
};
pub use lua_arms::setting::{set_index, set_link};
pub use lua_arms::statements::{branches, within};
pub use lua_arms::tables::{common_handler, handler};
pub use lua_arms::{
    Activations, Asked, Callee, ClosureId, ClosureKind, ENTRY_CHARGE, EachLoop, Ending,
    Environment, Finding, Focus, Found, Frame, Frames, Given, InAssignment, InExpression, InLoop,
    InRun, InStatement, Jump, Level, LuaStackRegisterSlot as Slot, Pending, Raising, Setting,
    Stack, Step, Thing, Values, Work, boxed, captures, is_function, is_nil, is_true, open,
    open_all, raise_text, read, write,
};
pub use lua_titled::{ByTitle, Steps};
pub use mw_frames::merging::merge_args;
pub use mw_frames::paying::pay_args;
pub use mw_frames::reading::ArgText;
pub use mw_frames::{
    CLOSURE_CHARGE, Field, Item, Left, Library, Parent, ProtoId, SceneFrame, Scenes, Store,
    TABLE_CHARGE, TableId, TextId, TextIn, Value, bad_argument, expected, fill, make_frame,
    text_in,
};
pub use outcome::Outcome;
pub use progress::Progress;
pub use state::State;
pub use turn::Turn;
