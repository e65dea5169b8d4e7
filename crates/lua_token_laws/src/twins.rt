//! What tokens spell that differ in places and lines alone.
ghost use Rattle.lua_token_laws.specs.Twins.{TwinsSpell};

/// Twins of the tokens of a chunk spell that chunk with other lines.
pub fn twins_spell()
    ensures { TwinsSpell }
{}
