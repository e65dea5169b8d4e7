//! What a run of Lua asks from outside.
use crate::scene::{Arg, Scene};
use wk_base::{Bytes, List, Title};

/// A question of a run of Lua to the page around it. A run of data asks for data alone.
#[derive(Drop, Debug)]
pub enum Ask {
    /// The text of a template with these arguments, asked in a scene (Scribunto, `frame:expandTemplate`).
    Template(Scene, Title, List<Arg>),
    /// A text, expanded in a scene (Scribunto, `frame:preprocess`).
    Preprocess(Scene, Bytes),
    /// The tables of a data module (Scribunto, `mw.loadData`).
    Data(Title),
}
