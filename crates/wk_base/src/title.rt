//! Namespaces and titles of pages (MediaWiki, Help:Namespaces and Manual:Page title).
ghost use Rattle.std.specs.Prelude.{◌≡◌, ◌∷◌, ◌++◌, IfOk};
ghost use Rattle.wk_base.specs.Titles.{is_module, prefix_of, title_text};

use crate::{Bytes, NoMemory};
use std::alloc::AllocError;

/// The namespace of a page. `Main` has no prefix, each other one is written before the name and a colon.
#[derive(Clone, Copy, Debug, PartialEq, Eq, Hash, PartialOrd, Ord)]
pub enum Namespace {
    Main,
    Talk,
    User,
    UserTalk,
    Project,
    ProjectTalk,
    File,
    FileTalk,
    MediaWiki,
    MediaWikiTalk,
    Template,
    TemplateTalk,
    Help,
    HelpTalk,
    Category,
    CategoryTalk,
    Module,
    ModuleTalk,
}

impl Namespace {
    /// What stands before the colon in the titles of this namespace; empty for the main one.
    #[tactic(auto, unfolding(crate::specs::Titles::prefix_of))]
    pub fn prefix(self) -> &'static str
        ensures { result.now ≡ prefix_of self }
    {
        match self {
            Namespace::Main => "",
            Namespace::Talk => "Talk",
            Namespace::User => "User",
            Namespace::UserTalk => "User talk",
            Namespace::Project => "Project",
            Namespace::ProjectTalk => "Project talk",
            Namespace::File => "File",
            Namespace::FileTalk => "File talk",
            Namespace::MediaWiki => "MediaWiki",
            Namespace::MediaWikiTalk => "MediaWiki talk",
            Namespace::Template => "Template",
            Namespace::TemplateTalk => "Template talk",
            Namespace::Help => "Help",
            Namespace::HelpTalk => "Help talk",
            Namespace::Category => "Category",
            Namespace::CategoryTalk => "Category talk",
            Namespace::Module => "Module",
            Namespace::ModuleTalk => "Module talk",
        }
    }

    /// Whether the pages of this namespace are modules of Lua, which `#invoke` calls (Extension:Scribunto).
    pub fn is_module(self) -> bool
        ensures { result ≡ is_module self }
    {
        matches!(self, Namespace::Module)
    }
}

/// The title of a page: its namespace, and its name in UTF-8 without the prefix.
#[derive(Drop, Debug, PartialEq, Eq, Hash)]
pub struct Title {
    pub ns: Namespace,
    pub name: Bytes,
}

impl Title {
    /// An equal title.
    pub fn copy(&self) -> Result<Title, NoMemory>
        ensures { IfOk result (λ made. made ≡ self.now) }
    {
        let name = self.name.copy()?;
        Ok(Title { ns: self.ns, name })
    }

    /// The title as it is written: the prefix, a colon and the name, or in the main namespace the name alone.
    pub fn text(&self) -> Result<Bytes, NoMemory>
        ensures { IfOk result (λ text. text ≡ title_text self.now) }
    {
        let name = self.name.copy()?;
        let prefix = self.ns.prefix().as_bytes();
        if prefix.is_empty() {
            return Ok(name);
        }
        let text = behind_colon(prefix, name.into_vec())?;
        Ok(Bytes::of_vec(text))
    }
}

/// The name behind a prefix and a colon, in the room of the name.
fn behind_colon(prefix: &[u8], mut name: Vec<u8>) -> Result<Vec<u8>, AllocError>
    ensures { IfOk result (λ text. text.items ≡ prefix.now ++ (58 ∷ name.items)) }
{
    name.extend_from_slice(prefix)?;
    name.extend_from_slice(b":")?;
    name.rotate_right(prefix.len() + 1);
    Ok(name)
}
