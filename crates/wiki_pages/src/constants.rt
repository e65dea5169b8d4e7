//! Parts whose names hold no construct and no parameter.
ghost use Rattle.std.specs.Prelude.{IfOk};
ghost use Rattle.wiki_markup.specs.Trees.{text as text_tree};
ghost use Rattle.expand_texts.specs.Ropes.{bytes_of};
ghost use Rattle.wiki_pages.specs.Forests.{trees_in};
ghost use Rattle.wiki_pages.specs.Constants.{Reads, Within};

use crate::forest::{Forest, Split};
use expand_texts::rope::Piece;
use wiki_markup::NoMemory;

/// What a part says of its name, which is as it is written.
#[derive(Drop)]
pub enum Constant<'w> {
    /// The name holds a construct or a parameter.
    Varied,
    /// A name, and no value.
    Valueless(Piece<'w>),
    /// A name, and what stands behind the `=`.
    Valued(Piece<'w>, Forest<'w>),
}

/// The name of a part, if it holds no construct and no parameter, and its value.
pub fn read_constant<'w>(part: &Forest<'w>) -> Result<Constant<'w>, NoMemory>
    ensures reads { IfOk result (λ c. Reads c (trees_in part.now)) }
    ensures within { IfOk result (λ c. Within c part.now) }
{
    match part.split()? {
        Split::Nothing => Ok(Constant::Valueless(Piece::Borrowed(b""))),
        Split::Equals(value) => Ok(Constant::Valued(Piece::Borrowed(b""), value)),
        Split::Text(name, rest) => read_behind(name, &rest),
        Split::Construct(_, _) => Ok(Constant::Varied),
        Split::Parameter(_, _) => Ok(Constant::Varied),
        Split::Part(_, _) => Ok(Constant::Varied),
    }
}

/// The same of a part that begins with a text.
fn read_behind<'w>(name: Piece<'w>, rest: &Forest<'w>) -> Result<Constant<'w>, NoMemory>
    ensures reads { IfOk result (λ c. Reads c (text_tree (bytes_of name.entry) (trees_in rest.now))) }
    ensures within { IfOk result (λ c. Within c rest.now) }
{
    match rest.split()? {
        Split::Nothing => Ok(Constant::Valueless(name)),
        Split::Equals(value) => Ok(Constant::Valued(name, value)),
        Split::Text(_, _) => Ok(Constant::Varied),
        Split::Construct(_, _) => Ok(Constant::Varied),
        Split::Parameter(_, _) => Ok(Constant::Varied),
        Split::Part(_, _) => Ok(Constant::Varied),
    }
}
