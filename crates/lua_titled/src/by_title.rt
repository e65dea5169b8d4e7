//! Items by title.
ghost use Rattle.std.specs.Prelude.{◌≡◌, [], option_map, IfOk, OnOk, OnErr};
ghost use Rattle.lua_meaning.specs.Titled.{item_of, with_item, without_item};
ghost use Rattle.std.specs.Map.{lookup};
ghost use Rattle.std.specs.Option.{option_copied};
ghost use Rattle.wk_base.specs.contracts.bytes.BytesPartialEq.TheImpl as bytes;
ghost use Rattle.lua_titled.specs.Held.{items_in, title_kept, AreNamed};
ghost use Rattle.lua_titled.specs.Seen.{titled};

use indexmap::IndexMap;
use std::alloc::Global;
use std::hash::RandomState;
use std::marker::Model;
use wk_base::{Bytes, NoMemory, Title};

/// Items by title, at most one for each, in the order in which their titles came.
#[derive(Drop)]
pub struct ByTitle<X> {
    /// By the text of the title, since two titles are one where their texts are.
    items: IndexMap<Bytes, (Title, X), RandomState>,
}

impl<X> Model for ByTitle<X> {
    ghost use Rattle.std.specs.Prelude.{List};
    ghost use Rattle.std.specs.Coded.{coded_list, coded×};
    ghost use Rattle.wk_base.specs.declared.title.Title.{Title as TitleValue};
    ghost use Rattle.wk_base.specs.contracts.title.Title as title;
    ghost use Rattle.lua_titled.specs.Held.{items_in, AreNamed};

    ghost Value = { List (TitleValue × X) };

    ghost coded = { coded_list (coded× title.the_row.coded X.code) };

    ghost view = { λ b. items_in b.items.entries };

    ghost invariant = { λ b. AreNamed b.items.entries };
}

/// What is held under a text.
fn find<'a, X: Copy>(
    items: &'a IndexMap<Bytes, (Title, X), RandomState>,
    text: &Bytes,
) -> Option<&'a X>
    ensures { option_copied result
        ≡ option_map (λ x. x.1) (lookup (bytes.ghosts.eq text.now) items.now.entries) }
{
    match items.get(text) {
        Some(held) => Some(&held.1),
        None => None,
    }
}

/// The item of a title.
fn item<X: Copy>(
    items: &IndexMap<Bytes, (Title, X), RandomState>,
    title: &Title,
) -> Result<Option<X>, NoMemory>
    requires { AreNamed items.now.entries }
    ensures { IfOk result (λ found.
        found ≡ item_of (titled (items_in items.now.entries)) title.now) }
{
    let text = title.text()?;
    let found = find(items, &text);
    Ok(found.copied())
}

/// The title under which an item for this title is held: that of the item which it replaces, where there is one.
fn kept_title<X: Copy>(
    items: &IndexMap<Bytes, (Title, X), RandomState>,
    text: &Bytes,
    title: Title,
) -> Result<Title, NoMemory>
    ensures { IfOk result (λ kept.
        kept ≡ title_kept (lookup (bytes.ghosts.eq text.now) items.now.entries) title) }
{
    match items.get(text) {
        Some(held) => held.0.copy(),
        None => Ok(title),
    }
}

/// With this item for the title.
fn insert<X: Copy>(
    items: &mut IndexMap<Bytes, (Title, X), RandomState>,
    title: Title,
    item: X,
) -> Result<(), NoMemory>
    requires { AreNamed items.old.entries }
    ensures ok { OnOk result (titled (items_in items.new.entries)
        ≡ with_item (titled (items_in items.old.entries)) title item) }
    ensures named { AreNamed items.new.entries }
    ensures err { OnErr result (items.new.entries ≡ items.old.entries) }
{
    let text = title.text()?;
    let kept = kept_title(items, &text, title)?;
    match items.insert(text, (kept, item)) {
        Ok(_) => Ok(()),
        Err(_) => Err(NoMemory),
    }
}

/// With no item for the title.
fn take_out<X: Copy>(
    items: &mut IndexMap<Bytes, (Title, X), RandomState>,
    title: &Title,
) -> Result<(), NoMemory>
    requires { AreNamed items.old.entries }
    ensures ok { OnOk result (titled (items_in items.new.entries)
        ≡ without_item (titled (items_in items.old.entries)) title.now) }
    ensures named { AreNamed items.new.entries }
    ensures err { OnErr result (items.new.entries ≡ items.old.entries) }
{
    let text = title.text()?;
    items.shift_remove(&text);
    Ok(())
}

impl<X: Copy> ByTitle<X> {
    /// No item. Titles are hashed from the seed, so that none can be chosen to collide with others.
    pub fn new(alloc: Global, seed: RandomState) -> ByTitle<X>
        ensures { result ≡ [] }
    {
        ByTitle {
            items: IndexMap::with_hasher(alloc, seed),
        }
    }

    /// The item of a title.
    pub fn get(&self, title: &Title) -> Result<Option<X>, NoMemory>
        ensures { IfOk result (λ found. found ≡ item_of (titled self.now) title.now) }
    {
        item(&self.items, title)
    }

    /// The items with this one for the title. Where memory runs out, they are as they were.
    pub fn put(&mut self, title: Title, item: X) -> Result<(), NoMemory>
        ensures ok { OnOk result (titled self.new ≡ with_item (titled self.old) title item) }
        ensures err { OnErr result (self.new ≡ self.old) }
    {
        insert(&mut self.items, title, item)
    }

    /// The items with none for the title.
    pub fn remove(&mut self, title: &Title) -> Result<(), NoMemory>
        ensures ok { OnOk result (titled self.new ≡ without_item (titled self.old) title.now) }
        ensures err { OnErr result (self.new ≡ self.old) }
    {
        take_out(&mut self.items, title)
    }
}
