//! Renderings hang on what is reached, and not on the numbers by which objects go.
ghost use Rattle.mw_html.specs.Laws.{RenumberedIsRendered, StandsIsRendered};

use lua_heap::Content;

/// Objects that are the same under other numbers are rendered alike.
#[tactic(auto, using(crate::proofs::Renumbered::renumbered_is_rendered))]
pub fn renumbered_is_rendered()
    ensures { RenumberedIsRendered }
{}

/// An object of a heap, and what stands for it in another one, are rendered alike.
pub fn stands_is_rendered<X: Content<Y>, Y>()
    ensures { StandsIsRendered X.stands_for }
{}
