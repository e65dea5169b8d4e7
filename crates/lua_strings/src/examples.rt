//! Worked examples: calls, with what they give or raise and what they cost. Where Lua 5.1 has the same numbers, the results are its own.
ghost use Rattle.lua_strings.specs.Examples.{Parts, Made, Searched, LaidOut, Calculated};

/// Texts and their parts.
pub fn parts()
    ensures { Parts }
{}

/// Texts that are made.
pub fn made()
    ensures { Made }
{}

/// Searches.
pub fn searched()
    ensures { Searched }
{}

/// Formats.
pub fn laid_out()
    ensures { LaidOut }
{}

/// Numbers.
pub fn calculated()
    ensures { Calculated }
{}
