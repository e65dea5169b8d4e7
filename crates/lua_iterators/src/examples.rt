//! Worked examples: iterators that are made and stepped, with what each call gives or raises and costs.
ghost use Rattle.lua_iterators.specs.Examples.{Empties, Captured, Patterns, Points, CodePoints, Parts, Refused};

/// Empty matches of `string.gmatch`.
pub fn empties()
    ensures { Empties }
{}

/// Captures of `string.gmatch`.
pub fn captured()
    ensures { Captured }
{}

/// Patterns of `string.gmatch`.
pub fn patterns()
    ensures { Patterns }
{}

/// Matches over code points.
pub fn points()
    ensures { Points }
{}

/// Code points.
pub fn code_points()
    ensures { CodePoints }
{}

/// Parts.
pub fn parts()
    ensures { Parts }
{}

/// Arguments that are none.
pub fn refused()
    ensures { Refused }
{}
