//! Where a piece of a text ends.
ghost use Rattle.lua_token_laws.specs.Pieces.{PiecesFit, PiecesStay, NamesStay, StringsStay, LongCommentsStay};

/// A piece has a byte at least, and no more than the text.
pub fn pieces_fit()
    ensures { PiecesFit }
{}

/// A piece that isn't white space is the same in front of a byte that goes on with none.
pub fn pieces_stay()
    ensures { PiecesStay }
{}

/// A name is the same in front of a byte that is none of a name, a string and a long comment in front of any.
pub fn closed_pieces_stay()
    ensures names { NamesStay }
    ensures strings { StringsStay }
    ensures comments { LongCommentsStay }
{}
