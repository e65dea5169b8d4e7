//! What is spelled is spelled once, whatever reads it.
ghost use Rattle.std.specs.Prelude.{◌≡◌, ℕ, List};
ghost use Rattle.lua_reading.specs.LuaLexerDeclaredTokenToken.{Token};
ghost use Rattle.lua_reading.specs.LuaLexerLexis.{Lexes};
ghost use Rattle.lua_reading.specs.LuaSyntaxTree.{Block};
ghost use Rattle.lua_reading.specs.LuaGrammarGrammar.{IsChunk};

/// A list of tokens spells one chunk at most (manual 8).
#[tactic(auto, using(crate::proofs::Once::spelled_once))]
pub fn spelled_once()
    ensures { (tokens : List Token) (b c : Block) → IsChunk tokens b → IsChunk tokens c → b ≡ c }
{}

/// A text spells one chunk at most.
pub fn text_spelled_once()
    ensures { (text : List ℕ) (tokens others : List Token) (b c : Block) → Lexes text tokens → Lexes text others → IsChunk tokens b → IsChunk others c → b ≡ c }
{}
