//! What is written of pages that were expanded.
ghost use Rattle.std.specs.Prelude.{◌≡◌, ◌++◌, IfOk, OnOk};
ghost use Rattle.wiki_output.specs.Output.{alone, block, blocks, total, summary, text_in, used_text, stats_line, stats_if};

use crate::made::{Form, Made, Used};
use crate::putting::{put_number, put_title};
use std::alloc::Global;
use wk_tool::{Bytes, NoMemory, put_bytes};

/// The text of the first page.
fn alone(alloc: Global, pages: &[Made]) -> Result<Bytes, NoMemory>
    ensures { IfOk result (λ text. text ≡ alone pages.now) }
{
    match pages {
        [page, ..] => page.text.copy(),
        [] => Ok(Bytes::of_vec(Vec::new(alloc))),
    }
}

/// Adds a page among others.
fn put_block(made: &mut Vec<u8>, page: &Made) -> Result<(), NoMemory>
    ensures { OnOk result (made.new.items ≡ made.old.items ++ block page.now) }
{
    let text = page.text.as_slice();
    put_bytes(made, b"page ")?;
    put_title(made, &page.title)?;
    put_bytes(made, b" ")?;
    put_number(made, text.len() as u64)?;
    put_bytes(made, b"\n")?;
    put_bytes(made, text)?;
    put_bytes(made, b"\n")
}

fn blocks(alloc: Global, pages: &[Made]) -> Result<Bytes, NoMemory>
    ensures { IfOk result (λ text. text ≡ blocks pages.now) }
{
    let mut made = Vec::new(alloc);
    for page in pages {
        put_block(&mut made, page)?;
    }
    Ok(Bytes::of_vec(made))
}

/// The length of all texts together. No memory holds so much that it doesn't fit 64 bits.
fn total(pages: &[Made]) -> Result<u64, NoMemory>
    ensures { IfOk result (λ n. n ≡ total pages.now) }
{
    let mut all = 0u64;
    for page in pages {
        let Some(more) = all.checked_add(page.text.as_slice().len() as u64) else {
            return Err(NoMemory);
        };
        all = more;
    }
    Ok(all)
}

fn summary(alloc: Global, pages: &[Made]) -> Result<Bytes, NoMemory>
    ensures { IfOk result (λ text. text ≡ summary pages.now) }
{
    let bytes = total(pages)?;
    let mut made = Vec::new(alloc);
    put_bytes(&mut made, b"pages ")?;
    put_number(&mut made, pages.len() as u64)?;
    put_bytes(&mut made, b" bytes ")?;
    put_number(&mut made, bytes)?;
    put_bytes(&mut made, b"\n")?;
    Ok(Bytes::of_vec(made))
}

/// What standard output gets.
pub fn text_in(alloc: Global, form: Form, pages: &[Made]) -> Result<Bytes, NoMemory>
    ensures { IfOk result (λ text. text ≡ text_in form pages.now) }
{
    match form {
        Form::Alone => alone(alloc, pages),
        Form::Blocks => blocks(alloc, pages),
        Form::Summary => summary(alloc, pages),
    }
}

/// Adds what a page used.
fn put_used(made: &mut Vec<u8>, used: &Used) -> Result<(), NoMemory>
    ensures { OnOk result (made.new.items ≡ made.old.items ++ used_text used.now) }
{
    put_bytes(made, b" steps ")?;
    put_number(made, used.steps)?;
    put_bytes(made, b" nodes ")?;
    put_number(made, used.nodes)?;
    put_bytes(made, b" bytes ")?;
    put_number(made, used.bytes)?;
    put_bytes(made, b"\n")
}

fn put_stats(made: &mut Vec<u8>, page: &Made) -> Result<(), NoMemory>
    ensures { OnOk result (made.new.items ≡ made.old.items ++ stats_line page.now) }
{
    put_title(made, &page.title)?;
    put_used(made, &page.used)
}

/// What standard error gets of the pages: a line for each, where these are asked for.
pub fn stats_if(alloc: Global, stats: bool, pages: &[Made]) -> Result<Bytes, NoMemory>
    ensures { IfOk result (λ text. text ≡ stats_if stats pages.now) }
{
    let mut made = Vec::new(alloc);
    if !stats {
        return Ok(Bytes::of_vec(made));
    }
    for page in pages {
        put_stats(&mut made, page)?;
    }
    Ok(Bytes::of_vec(made))
}
