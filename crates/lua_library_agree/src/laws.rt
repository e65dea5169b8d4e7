//! The library does the same to two heaps (`specs/Laws.antt`).
ghost use Rattle.lua_library_agree.specs.Laws.{LibraryAgrees, FieldsAgree, MetatablesAgree, HandlersAgree, EitherHandlersAgree, CommonHandlersAgree, MadeFramesAgree, HomesAgree, StrictAgrees, GraphsJoin};
ghost use Rattle.lua_library_agree.specs.SameGsub.{GsubAgrees, SearchesAgree};

use lua_heap::Content;

/// Each function of the library, by its line in the table of the meaning, does the same to two heaps (manual 5; Scribunto, Frame object).
pub fn library_agrees<X: Content<Y>, Y>()
    ensures { LibraryAgrees X.stands_for }
{}

/// Metatables, their fields and handlers are the same (manual 2.8).
pub fn handlers_agree<X: Content<Y>, Y>()
    ensures fields { FieldsAgree X.stands_for }
    ensures metatables { MetatablesAgree X.stands_for }
    ensures handlers { HandlersAgree X.stands_for }
    ensures either { EitherHandlersAgree X.stands_for }
    ensures common { CommonHandlersAgree X.stands_for }
{}

/// The tables of a frame are made in both heaps (Scribunto, Frame object).
pub fn made_frames_agree<X: Content<Y>, Y>()
    ensures { MadeFramesAgree X.stands_for }
{}

/// A fresh environment stands for a fresh environment (manual 5).
pub fn homes_agree<X: Content<Y>, Y>()
    ensures { HomesAgree X.stands_for }
{}

/// `require('strict')` changes both heaps alike (Scribunto, strict).
pub fn strict_agrees<X: Content<Y>, Y>()
    ensures { StrictAgrees X.stands_for }
{}

/// `gsub` answers alike in two heaps, or asks alike behind the same charge (manual 5.4).
pub fn gsub_agrees<X: Content<Y>, Y>()
    ensures forms { GsubAgrees X.stands_for }
    ensures searches { SearchesAgree }
{}

/// The tables of a data module are put into both heaps (Scribunto, mw.loadData).
pub fn graphs_join<X: Content<Y>, Y>()
    ensures { GraphsJoin X.stands_for }
{}
