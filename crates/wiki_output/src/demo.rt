//! A wiki that the program makes itself, so that its work can be tried at any size.
ghost use Rattle.std.specs.Prelude.{◌≡◌, IfOk};
ghost use Rattle.wiki_output.specs.Demo.{demo_text, demo_page, first_pages, demo_pages};

use crate::putting::put_number;
use std::alloc::Global;
use wk_tool::{Bytes, FolderPage, List, Namespace, NoMemory, Title, put_bytes};

fn page(alloc: Global, ns: Namespace, name: &[u8], text: &[u8]) -> Result<FolderPage, NoMemory>
    ensures { IfOk result (λ page.
        page ≡ record { title = record { ns = ns; name = name.now }; bytes = text.now }) }
{
    let name = Bytes::of(alloc, name)?;
    let bytes = Bytes::of(alloc, text)?;
    Ok(FolderPage {
        title: Title { ns, name },
        bytes,
    })
}

/// The text of the page with a number.
fn demo_text(alloc: Global, number: u64) -> Result<Vec<u8>, NoMemory>
    ensures { IfOk result (λ text. text.items ≡ demo_text number) }
{
    let mut text = Vec::new(alloc);
    put_bytes(&mut text, b"{{Row|")?;
    put_number(&mut text, number)?;
    put_bytes(&mut text, b"|n={{#invoke:Sum|add|")?;
    put_number(&mut text, number)?;
    put_bytes(&mut text, b"|7}}}}")?;
    Ok(text)
}

/// The page with a number.
fn demo_page(alloc: Global, number: u64) -> Result<FolderPage, NoMemory>
    ensures { IfOk result (λ page. page ≡ demo_page number) }
{
    let mut name = Vec::new(alloc);
    put_bytes(&mut name, b"Page ")?;
    put_number(&mut name, number)?;
    let text = demo_text(alloc, number)?;
    Ok(FolderPage {
        title: Title {
            ns: Namespace::Main,
            name: Bytes::of_vec(name),
        },
        bytes: Bytes::of_vec(text),
    })
}

fn first_pages(alloc: Global, count: u64) -> Result<List<FolderPage>, NoMemory>
    ensures { IfOk result (λ pages. pages ≡ first_pages count) }
{
    let mut pages = List::new(alloc);
    for before in 0..count {
        let page = demo_page(alloc, before + 1)?;
        pages.push(page)?;
    }
    Ok(pages)
}

/// So many pages, and the template and the module that they call.
pub fn demo_pages(alloc: Global, count: u64) -> Result<List<FolderPage>, NoMemory>
    ensures { IfOk result (λ pages. pages ≡ demo_pages count) }
{
    let mut pages = first_pages(alloc, count)?;
    let row = page(alloc, Namespace::Template, b"Row", b"* {{{1}}}: {{{n}}}")?;
    pages.push(row)?;
    let sum = page(
        alloc,
        Namespace::Module,
        b"Sum",
        b"return {add=function(frame) return frame.args[1]+frame.args[2] end}",
    )?;
    pages.push(sum)?;
    Ok(pages)
}
