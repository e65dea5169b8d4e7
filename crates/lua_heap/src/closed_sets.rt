//! Closed sets and what stands: the image of a map, a set as a heap that stands in itself, a map that is cut down.
ghost use Rattle.lua_heap.specs.SetLaws.{ImageIsClosed, CutStands, StandsInFrame, ClosedStands, ValuesNameTheImage, ValuesAreCut};

use crate::content::Content;

/// The objects that stand for something are a closed set.
#[tactic(auto, using(crate::proofs::SetLaws::image_is_closed))]
pub fn image_is_closed<X: Content<Y>, Y>()
    ensures { ImageIsClosed X.stands_for X.names }
{}

/// A map may be cut down to a closed set.
#[tactic(auto, using(crate::proofs::SetLaws::cut_stands))]
pub fn cut_stands<X: Content<Y>, Y>()
    ensures { CutStands X.stands_for X.names }
{}

/// What stands looks at the image alone.
pub fn stands_in_frame<X: Content<Y>, Y>()
    ensures { StandsInFrame X.stands_for X.names }
{}

/// A closed set is a heap that stands in itself.
#[tactic(auto, using(crate::proofs::SetLaws::closed_stands))]
pub fn closed_stands<X: Content<X>>()
    ensures { ClosedStands X.stands_for X.names }
{}

/// Values that stand for others name what stands for something.
pub fn values_name_the_image()
    ensures { ValuesNameTheImage }
{}

/// Values stand under a map that is cut to what they name.
#[tactic(auto, using(crate::proofs::SetLaws::values_are_cut))]
pub fn values_are_cut()
    ensures { ValuesAreCut }
{}
