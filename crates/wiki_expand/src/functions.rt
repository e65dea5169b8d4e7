//! The parser functions `#if`, `#ifeq` and `#switch`, and constructs that stand as they are written.
ghost use Rattle.std.specs.Prelude.{◌≡◌, ◌+◌, ◌*◌, ◌≤◌, ◌∷◌, ◌++◌, false, cond, codes, IfOk, OnOk};
ghost use Rattle.wiki_markup.specs.WkBaseSpace.{trim};
ghost use Rattle.expand_texts.specs.ExpandMeaningTexts.{are_equal as are_equal_to};
ghost use Rattle.expand_texts.specs.ExpandMeaningExpand.{expand, trimmed, either as either_of, is_text as is_text_of, if_equal as if_equal_of, is_default as is_default_of, by_name, after_turn, valueless as valueless_of, switch as switch_of, nothing_seen, all_parts};
ghost use Rattle.wiki_pages.specs.ExpandMeaningPlaces.{no_part};
ghost use Rattle.expand_texts.specs.Ropes.{bytes_of};
ghost use Rattle.wiki_pages.specs.Forests.{trees_in, parts, size, option_size};
ghost use Rattle.wiki_pages.specs.Furthers.{default_or, LeadsTo};
ghost use Rattle.wiki_expand.specs.Points.{seen_in};
ghost use Rattle.wiki_expand.specs.Weights.{weights};
ghost use Rattle.wiki_expand.specs.Skips.{SkipsTo};
ghost use Rattle.wiki_expand.specs.Steps.{Puts};

use crate::frame::{Focus, Frame, Seen, Switch, Walk};
use crate::walk::{fixed, walk, walk_name};
use expand_texts::equality::are_equal;
use expand_texts::rope::{Piece, Rope};
use expand_texts::space::trimmed;
use expand_texts::stack::Stack;
use expand_texts::trim;
use std::alloc::Global;
use wiki_markup::NoMemory;
use wiki_pages::{Forest, Further, go_further, is_default};

/// A part whose ends are trimmed.
fn trimmed_part<'w>(
    alloc: Global,
    stack: &mut Stack<Frame<'w>>,
    part: Forest<'w>,
) -> Result<Focus<'w>, NoMemory>
    ensures { IfOk result (λ f. Puts (λ w sc k. trimmed (expand (trees_in part.entry) sc) k) 0 (8 * size part.entry + 6 + weights stack.old) stack.old f stack.new) }
{
    stack.push(Frame::Trim)?;
    Ok(Focus::Walk(walk(alloc, part)))
}

/// The first branch, or the second.
pub fn either<'w>(
    alloc: Global,
    stack: &mut Stack<Frame<'w>>,
    first: bool,
    branches: Forest<'w>,
) -> Result<Focus<'w>, NoMemory>
    ensures { IfOk result (λ f. Puts (λ w sc k. either_of first (parts branches.entry) sc k) 0 (8 * size branches.entry + 6 + weights stack.old) stack.old f stack.new) }
{
    let chosen = branches.either(first)?;
    let (part, _) = chosen.head()?;
    trimmed_part(alloc, stack, part)
}

/// Whether a text isn't empty.
pub fn is_text(text: &[u8]) -> bool
    ensures { result ≡ is_text_of text.now }
{
    match text {
        [] => false,
        _ => true,
    }
}

/// `#ifeq` expands its right side first.
pub fn if_equal<'w>(
    alloc: Global,
    stack: &mut Stack<Frame<'w>>,
    left: Vec<u8>,
    rest: Forest<'w>,
) -> Result<Focus<'w>, NoMemory>
    ensures { IfOk result (λ f. Puts (λ w sc k. if_equal_of left.items (parts rest.entry) sc k) 0 (16 * size rest.entry + 13 + weights stack.old) stack.old f stack.new) }
{
    let (right, branches) = rest.head()?;
    stack.push(Frame::Compare(left, branches))?;
    Ok(Focus::Walk(walk(alloc, right)))
}

/// The right side of `#ifeq` is there.
pub fn compare<'w>(
    alloc: Global,
    stack: &mut Stack<Frame<'w>>,
    left: &[u8],
    branches: Forest<'w>,
    text: Rope<'w>,
) -> Result<Focus<'w>, NoMemory>
    ensures { IfOk result (λ f. Puts (λ w sc k. either_of (are_equal_to left.now (trim text.entry)) (parts branches.entry) sc k) 0 (8 * size branches.entry + 6 + weights stack.old) stack.old f stack.new) }
{
    let right = text.into_piece(alloc)?;
    let first = are_equal(left, trim(right.as_slice()));
    either(alloc, stack, first, branches)
}

/// A default that was set on the way takes the place of the one before.
fn set_default<'w>(held: &mut Forest<'w>, default: Option<Forest<'w>>)
    ensures trees { trees_in held.new ≡ default_or default.entry (trees_in held.old) }
    ensures size { size held.new ≤ option_size default.entry + size held.old }
{
    match default {
        Some(default) => {
            *held = default;
        }
        None => {}
    }
}

/// A `#switch` goes on there.
fn skip_to<'w>(state: &mut Switch<'w>, further: Further<'w>)
    requires unmet { state.old.seen.met ≡ false }
    requires calm { state.old.seen.waits ≡ false }
    requires leads { LeadsTo state.old.value.items state.old.rest further }
    ensures { SkipsTo state.old state.new }
{
    let Further {
        rest,
        met,
        waits,
        default,
    } = further;
    state.rest = rest;
    state.seen.met = met;
    state.seen.waits = waits;
    set_default(&mut state.seen.default, default);
}

/// A `#switch` goes on behind the parts that cannot decide, where it is known which these are.
fn skip(state: &mut Switch<'_>) -> Result<(), NoMemory>
    ensures { OnOk result (SkipsTo state.old state.new) }
{
    if state.seen.met || state.seen.waits {
        return Ok(());
    }
    match go_further(&state.rest, &state.value)? {
        Some(further) => {
            skip_to(state, further);
            Ok(())
        }
        None => Ok(()),
    }
}

/// A `#switch` goes on with the parts to come.
pub fn switch<'w>(
    alloc: Global,
    stack: &mut Stack<Frame<'w>>,
    state: Switch<'w>,
) -> Result<Focus<'w>, NoMemory>
    ensures { IfOk result (λ f. Puts (λ w sc k. switch_of state.entry.value.items (parts state.entry.rest) sc (seen_in state.entry.seen) k) 0 (16 * size state.entry.rest + 8 * size state.entry.seen.default + 16 + weights stack.old) stack.old f stack.new) }
{
    let mut state = state;
    skip(&mut state)?;
    next_part(alloc, stack, state)
}

/// A `#switch` looks at its next part.
fn next_part<'w>(
    alloc: Global,
    stack: &mut Stack<Frame<'w>>,
    state: Switch<'w>,
) -> Result<Focus<'w>, NoMemory>
    ensures { IfOk result (λ f. Puts (λ w sc k. switch_of state.entry.value.items (parts state.entry.rest) sc (seen_in state.entry.seen) k) 0 (16 * size state.entry.rest + 8 * size state.entry.seen.default + 16 + weights stack.old) stack.old f stack.new) }
{
    let Switch { value, rest, seen } = state;
    match rest.take_part()? {
        None => {
            let Seen { default, .. } = seen;
            trimmed_part(alloc, stack, default)
        }
        Some((part, rest)) => { look_at(alloc, stack, Switch { value, rest, seen }, part) }
    }
}

/// A `#switch` looks at a part.
fn look_at<'w>(
    alloc: Global,
    stack: &mut Stack<Frame<'w>>,
    state: Switch<'w>,
    part: Forest<'w>,
) -> Result<Focus<'w>, NoMemory>
    ensures { IfOk result (λ f. Puts (λ w sc k. switch_of state.entry.value.items (trees_in part.entry ∷ parts state.entry.rest) sc (seen_in state.entry.seen) k) 0 (16 * size state.entry.rest + 16 * size part.entry + 8 * size state.entry.seen.default + 21 + weights stack.old) stack.old f stack.new) }
{
    match part.value()? {
        None => {
            stack.push(Frame::Valueless(state))?;
            Ok(Focus::Walk(walk(alloc, part)))
        }
        Some(value) => {
            if state.seen.met {
                return trimmed_part(alloc, stack, value);
            }
            stack.push(Frame::Case(state, value))?;
            Ok(Focus::Walk(walk_name(alloc, part)))
        }
    }
}

/// A `#switch` goes on, with a default that may be new.
fn next_case<'w>(state: Switch<'w>, value: Forest<'w>, set: bool) -> Switch<'w>
    ensures value { result.value.items ≡ state.entry.value.items }
    ensures rest { parts result.rest ≡ parts state.entry.rest }
    ensures size { size result.rest ≡ size state.entry.rest }
    ensures seen { seen_in result.seen ≡ record { met = false; waits = false; default = cond set (trees_in value.entry) (trees_in state.entry.seen.default) } }
    ensures default { size result.seen.default ≤ size value.entry + size state.entry.seen.default }
{
    let Switch {
        value: text,
        rest,
        seen,
    } = state;
    let Seen { default, .. } = seen;
    if set {
        return Switch {
            value: text,
            rest,
            seen: Seen {
                met: false,
                waits: false,
                default: value,
            },
        };
    }
    Switch {
        value: text,
        rest,
        seen: Seen {
            met: false,
            waits: false,
            default,
        },
    }
}

/// The name of a valued part is there.
pub fn case<'w>(
    alloc: Global,
    stack: &mut Stack<Frame<'w>>,
    state: Switch<'w>,
    value: Forest<'w>,
    text: Rope<'w>,
) -> Result<Focus<'w>, NoMemory>
    ensures { IfOk result (λ f. Puts (λ w sc k. by_name state.entry.value.items (trim text.entry) (trees_in value.entry) sc (seen_in state.entry.seen) (λ t. after_turn t (switch_of state.entry.value.items (parts state.entry.rest) sc) k)) 0 (16 * size state.entry.rest + 8 * size value.entry + 8 * size state.entry.seen.default + 16 + weights stack.old) stack.old f stack.new) }
{
    let text = text.into_piece(alloc)?;
    let name = trim(text.as_slice());
    if are_equal(&state.value, name) {
        return trimmed_part(alloc, stack, value);
    }
    let set = state.seen.waits || is_default(name);
    let state = next_case(state, value, set);
    switch(alloc, stack, state)
}

/// The text of a valueless part is there.
pub fn valueless<'w>(
    alloc: Global,
    stack: &mut Stack<Frame<'w>>,
    state: Switch<'w>,
    text: Rope<'w>,
) -> Result<Focus<'w>, NoMemory>
    ensures { IfOk result (λ f. Puts (λ w sc k. after_turn (valueless_of state.entry.value.items (trim text.entry) (no_part (parts state.entry.rest)) (seen_in state.entry.seen)) (switch_of state.entry.value.items (parts state.entry.rest) sc) k) 0 (16 * size state.entry.rest + 8 * size state.entry.seen.default + 16 + weights stack.old) stack.old f stack.new) }
{
    let text = text.trimmed(alloc)?;
    let waits = state.seen.waits || text.is(b"#default");
    let Switch { value, rest, seen } = state;
    if rest.is_over()? {
        if waits {
            return switch(alloc, stack, Switch { value, rest, seen });
        }
        return Ok(Focus::Text(text));
    }
    let name = text.into_piece(alloc)?;
    let met = seen.met || are_equal(&value, name.as_slice());
    let Seen { default, .. } = seen;
    let seen = Seen {
        met,
        waits,
        default,
    };
    switch(alloc, stack, Switch { value, rest, seen })
}

/// The next part of a construct that stands as it is written.
pub fn written<'w>(
    stack: &mut Stack<Frame<'w>>,
    rest: Forest<'w>,
    out: Rope<'w>,
) -> Result<Focus<'w>, NoMemory>
    ensures { IfOk result (λ f. Puts (λ w sc k. all_parts (parts rest.entry) sc out.entry (λ text. k (text ++ codes "}}"))) 0 (16 * size rest.entry + 8 + weights stack.old) stack.old f stack.new) }
{
    let mut out = out;
    match rest.take_part()? {
        None => {
            out.push(Piece::Borrowed(b"}}"))?;
            Ok(Focus::Text(out))
        }
        Some((part, rest)) => {
            out.push(Piece::Borrowed(b"|"))?;
            stack.push(Frame::Written(rest))?;
            Ok(Focus::Walk(Walk {
                rest: part,
                named: false,
                out,
            }))
        }
    }
}

/// A construct that stands as it is written, behind its first part.
pub fn begin_written<'w>(
    alloc: Global,
    stack: &mut Stack<Frame<'w>>,
    rest: Forest<'w>,
    first: Piece<'w>,
) -> Result<Focus<'w>, NoMemory>
    ensures { IfOk result (λ f. Puts (λ w sc k. all_parts (parts rest.entry) sc (codes "{{" ++ bytes_of first.entry) (λ out. k (out ++ codes "}}"))) 0 (16 * size rest.entry + 8 + weights stack.old) stack.old f stack.new) }
{
    let mut out = fixed(alloc, b"{{")?;
    out.push(first)?;
    written(stack, rest, out)
}

/// A `#switch` begins.
pub fn begin_switch<'w>(
    alloc: Global,
    stack: &mut Stack<Frame<'w>>,
    rest: Forest<'w>,
    text: &[u8],
) -> Result<Focus<'w>, NoMemory>
    ensures { IfOk result (λ f. Puts (λ w sc k. switch_of (trim text.now) (parts rest.entry) sc nothing_seen k) 0 (16 * size rest.entry + 16 + weights stack.old) stack.old f stack.new) }
{
    let value = trimmed(alloc, text)?;
    let default = rest.none()?;
    let seen = Seen {
        met: false,
        waits: false,
        default,
    };
    switch(alloc, stack, Switch { value, rest, seen })
}
