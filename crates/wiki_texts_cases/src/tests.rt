//! A small wiki: which of its pages are there, and what became of the text of each module. Faults by Lua's manual, section 8.
use lua_code::{Bytes, List, Modules, Namespace, NoMemory, Title};
use std::alloc::Global;
use std::hash::RandomState;
use std::io;
use std::random::RandomSource;
use std::test::Fail;
use wiki_texts::{RawPage, by_title, meant_once, prepare_all};

/// What is found of a title among the modules.
#[derive(Clone, Copy, Debug, PartialEq, Eq)]
enum Found {
    Nothing,
    /// Code of a text of so many bytes.
    Code(u64),
    /// A text of so many bytes, with a fault of this number on this line.
    Fault(u64, u8, u32),
}

/// A page, and what is found of its title.
struct Row {
    ns: Namespace,
    name: &'static str,
    text: &'static str,
    found: Found,
}

const ROWS: [Row; 7] = [
    Row {
        ns: Namespace::Main,
        name: "A",
        text: "return {}",
        found: Found::Nothing,
    },
    Row {
        ns: Namespace::Module,
        name: "A",
        text: "return {}",
        found: Found::Code(9),
    },
    // an empty text is a chunk
    Row {
        ns: Namespace::Module,
        name: "Empty",
        text: "",
        found: Found::Code(0),
    },
    // wikitext in the namespace: `{` begins no statement
    Row {
        ns: Namespace::Module,
        name: "A/doc",
        text: "\n{{T}}",
        found: Found::Fault(6, 5, 2),
    },
    Row {
        ns: Namespace::Module,
        name: "Open",
        text: "return \"",
        found: Found::Fault(8, 1, 1),
    },
    Row {
        ns: Namespace::ModuleTalk,
        name: "A",
        text: "return {}",
        found: Found::Nothing,
    },
    Row {
        ns: Namespace::Template,
        name: "A",
        text: "{{#invoke:A|f}}",
        found: Found::Nothing,
    },
];

/// A source whose bytes are all 5, so that each run of the tests is the same.
struct Fives;

impl RandomSource for Fives {
    fn fill_bytes(&self, bytes: &mut [u8]) -> io::Result<()> {
        bytes.fill(5);
        Ok(())
    }
}

fn title(alloc: Global, row: &Row) -> Result<Title, NoMemory> {
    Ok(Title {
        ns: row.ns,
        name: Bytes::of(alloc, row.name.as_bytes())?,
    })
}

/// The pages of the rows, and once more that of the second row, with another text.
fn pages(alloc: Global) -> Result<List<RawPage>, NoMemory> {
    let mut pages = List::new(alloc);
    for row in &ROWS {
        pages.push(RawPage {
            title: title(alloc, row)?,
            bytes: Bytes::of(alloc, row.text.as_bytes())?,
        })?;
    }
    pages.push(RawPage {
        title: title(alloc, &ROWS[1])?,
        bytes: Bytes::of(alloc, b"return")?,
    })?;
    Ok(pages)
}

fn found_of(modules: &Modules, title: &Title) -> Found {
    let Some(module) = modules.get(title) else {
        return Found::Nothing;
    };
    match module.code {
        Ok(_) => Found::Code(module.size),
        Err(fault) => Found::Fault(module.size, fault.kind, fault.line),
    }
}

#[test]
fn each_page_is_there_and_each_module_has_its_code_or_its_fault(
    rt: HostRuntime,
) -> Result<(), Fail> {
    meant_once();
    let seed = RandomState::new(&Fives)?;
    let pages = pages(rt.alloc())?;
    let prepared = prepare_all(rt.alloc(), seed, pages.as_slice())?;
    let (map, modules) = by_title(rt.alloc(), seed, pages.as_slice(), prepared)?;
    for row in &ROWS {
        let title = title(rt.alloc(), row)?;
        assert!(rt; map.holds(&title), "{}", row.name);
        assert_eq!(rt; found_of(&modules, &title), row.found, "{}", row.name);
    }
    Ok(())
}
