//! `listToText` and `truncate` (Scribunto manual, mw.text.listToText, mw.text.truncate).
ghost use Rattle.std.specs.Prelude.{◌≡◌, ◌++◌, chars, encode_utf8_all, unsigned_abs, IsUtf8, IfOk, OnOk};
ghost use Rattle.mw_text.specs.Joined.{glue, joined, room as room_lem, truncated};

use mw_ustring::{Bytes, NoMemory, count_points, first_points, points_behind, push_all};
use std::alloc::Global;

/// What stands behind an item with these items behind it.
fn glue_of<'g>(sep: &'g [u8], conj: &'g [u8], behind: &[Bytes]) -> &'g [u8]
    ensures { result.now ≡ glue sep.now conj.now behind.now }
{
    match behind {
        [] => &[],
        [_] => conj,
        _ => sep,
    }
}

/// `mw.text.listToText(items, sep, conj)`: the items with `conj` before the last one and `sep` between the others.
pub fn list_to_text(
    alloc: Global,
    items: &[Bytes],
    sep: &[u8],
    conj: &[u8],
) -> Result<Vec<u8>, NoMemory>
    ensures { IfOk result (λ made. made.items ≡ joined sep.now conj.now items.now) }
{
    let mut made = Vec::new(alloc);
    let mut rest = items;
    'items: while let [item, behind @ ..] = rest {
        push_all(&mut made, item.as_slice())?;
        push_all(&mut made, glue_of(sep, conj, behind))?;
        rest = behind;
    }
    Ok(made)
}

/// How many code points of a text are kept where at most so many are wanted: those of the ellipsis are among them, if `adjust` says so.
pub fn room(adjust: bool, most: usize, ellipsis: &[u8]) -> usize
    requires text { IsUtf8 ellipsis.now }
    ensures value { result ≡ room_lem adjust most (chars ellipsis.now) }
{
    if adjust {
        return most.saturating_sub(count_points(ellipsis));
    }
    most
}

/// A text as it is.
#[tactic(auto, using(crate::proofs::Pieces::copy_is))]
fn copy(alloc: Global, s: &[u8]) -> Result<Vec<u8>, NoMemory>
    requires text { IsUtf8 s.now }
    ensures { IfOk result (λ made. made.items ≡ encode_utf8_all (chars s.now)) }
{
    let mut made = Vec::new(alloc);
    push_all(&mut made, s)?;
    Ok(made)
}

/// Two texts, one behind the other.
fn both(alloc: Global, first: &[u8], second: &[u8]) -> Result<Vec<u8>, NoMemory>
    requires first { IsUtf8 first.now }
    requires second { IsUtf8 second.now }
    ensures { IfOk result (λ made. made.items ≡ encode_utf8_all (chars first.now ++ chars second.now)) }
{
    let mut made = Vec::new(alloc);
    push_all(&mut made, first)?;
    push_all(&mut made, second)?;
    Ok(made)
}

/// `mw.text.truncate(s, n, ellipsis, adjust)`: a text of at most `|n|` code points as it is; else its first `n` with the
/// ellipsis behind them, or for `n` below 0 its last `-n` with the ellipsis before them. With `adjust` the ellipsis is
/// counted in `|n|`, and the part that is kept is empty where it alone is longer.
pub fn truncate(
    alloc: Global,
    s: &[u8],
    n: i64,
    ellipsis: &[u8],
    adjust: bool,
) -> Result<Vec<u8>, NoMemory>
    requires text { IsUtf8 s.now }
    requires ellipsis { IsUtf8 ellipsis.now }
    ensures { IfOk result (λ made. made.items ≡ encode_utf8_all (truncated (chars s.now) n (chars ellipsis.now) adjust)) }
{
    let count = count_points(s);
    if count as u64 <= n.unsigned_abs() {
        return copy(alloc, s);
    }
    let kept = room(adjust, n.unsigned_abs() as usize, ellipsis);
    if n < 0 {
        return both(
            alloc,
            ellipsis,
            points_behind(s, count.saturating_sub(kept)),
        );
    }
    both(alloc, first_points(s, kept), ellipsis)
}
