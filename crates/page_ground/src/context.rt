//! What nothing on a page changes.
use lua_state::World;
use std::alloc::Global;
use std::hash::RandomState;
use wiki_pages::PageMap;

/// What nothing on a page changes.
#[derive(Drop)]
pub struct Context<'w> {
    pub alloc: Global,
    pub seed: RandomState,
    pub pages: &'w PageMap,
    pub world: World<'w>,
}
