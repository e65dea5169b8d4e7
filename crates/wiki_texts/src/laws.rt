//! What the texts of a wiki mean is settled by the texts.
ghost use Rattle.std.specs.Prelude.{◌≡◌, List};
ghost use Rattle.wiki_pages.specs.WkBaseDeclaredTitleTitle.{Title};
ghost use Rattle.lua_code.specs.LuaMeaningWorld.{Modules};
ghost use Rattle.wiki_texts.specs.declared.raw.RawPage.{RawPage};
ghost use Rattle.wiki_texts.specs.Modules.{AreMeantBy};

/// The texts of a wiki mean one module of each title at most.
pub fn meant_once()
    ensures { (pages : List RawPage) (some other : Modules) → AreMeantBy pages some
        → AreMeantBy pages other → (title : Title) → some title ≡ other title }
{}
