//! What waits for a text goes on with it.
ghost use Rattle.std.specs.Prelude.{◌≡◌, ◌+◌, ◌*◌, ◌<◌, ◌^◌, ◌∷◌, ◌++◌, codes, ℕ, List, IfOk, OnOk};
ghost use Rattle.expand_texts.specs.ExpandMeaningExpand.{Setting, Page, by_kind as kind_part};
ghost use Rattle.expand_texts.specs.Kinds.{kind_in};
ghost use Rattle.expand_texts.specs.Ropes.{bytes_of};
ghost use Rattle.wiki_pages.specs.Forests.{parts, size};
ghost use Rattle.wiki_expand.specs.Points.{wiki_setting, scene_in, behind_first, leaving, waiting, resumed, Leads};
ghost use Rattle.wiki_expand.specs.Weights.{level, body_count, chance, chances, allowed, weight, weights};
ghost use Rattle.wiki_expand.specs.declared.frame.Frame.{Frame as Waiting};
ghost use Rattle.wiki_expand.specs.Steps.{StepIs};

use crate::calls::{invoke, made, name};
use crate::frame::{Focus, Frame, Inner, Machine, Progress, Wiki};
use crate::functions::{
    begin_switch, begin_written, case, compare, either, if_equal, is_text, valueless, written,
};
use crate::walk::{fixed, sized, walk};
use expand_texts::arguments::Arguments;
use expand_texts::kind::{Kind, kind_of};
use expand_texts::rope::{Piece, Rope};
use expand_texts::space::trimmed;
use expand_texts::trim;
use mw_frame::{Bytes, Left, Title};
use std::alloc::Global;
use wiki_markup::NoMemory;
use wiki_pages::Forest;

/// A construct or a parameter ends: its level is given back, and its bytes are taken.
fn leave<'w>(alloc: Global, left: &mut Left, text: Rope<'w>) -> Result<Rope<'w>, NoMemory>
    requires { left.old.depth + 1 < 2 ^ 64 }
    ensures leads { IfOk result (λ made. (w : Setting) (k : List ℕ → Page) → Leads w (leaving k text.entry) left.old (k made) left.new) }
    ensures same { OnOk result (left.new ≡ record left.old { depth = left.old.depth + 1; bytes = left.new.bytes }) }
{
    left.leave_expansion();
    let made = sized(alloc, left, text)?;
    Ok(made)
}

/// A parameter ends with the value of an argument, which is copied only where its bytes are there.
fn leave_with<'w>(alloc: Global, left: &mut Left, value: &[u8]) -> Result<Rope<'w>, NoMemory>
    requires { left.old.depth + 1 < 2 ^ 64 }
    ensures leads { IfOk result (λ made. (w : Setting) (k : List ℕ → Page) → Leads w (leaving k value.now) left.old (k made) left.new) }
    ensures same { OnOk result (left.new ≡ record left.old { depth = left.old.depth + 1; bytes = left.new.bytes }) }
{
    let text = Rope::of(alloc, Piece::Borrowed(value))?;
    let text = leave(alloc, left, text)?;
    let bytes = text.into_vec(alloc)?;
    let made = Rope::of(alloc, Piece::Owned(bytes))?;
    Ok(made)
}

/// A parameter that has no argument and no default stands as it is written.
fn unset<'w>(alloc: Global, name: Piece<'w>) -> Result<Rope<'w>, NoMemory>
    ensures { IfOk result (λ text. text ≡ codes "{{{" ++ bytes_of name.entry ++ codes "}}}") }
{
    let mut text = fixed(alloc, b"{{{")?;
    text.push(name)?;
    text.push(Piece::Borrowed(b"}}}"))?;
    Ok(text)
}

/// The body of a page ends: the caller's frame is back.
fn leave_body(left: &mut Left, scene: &mut Inner, title: Title, args: Arguments)
    requires { left.old.templates + 1 < 2 ^ 64 }
    ensures left { left.new ≡ record left.old { templates = left.old.templates + 1 } }
    ensures scene { scene_in scene.new ≡ record { title = title; args = args; chain = behind_first (scene_in scene.old).chain } }
{
    left.leave_template();
    scene.title = title;
    scene.args = args;
    scene.chain.pop();
}

impl<'w> Machine<'w> {
    /// The name of a parameter is there: its argument, or its default, or what is written.
    fn parameter(
        &mut self,
        wiki: &Wiki<'w>,
        left: &mut Left,
        rest: Forest<'w>,
        text: Rope<'w>,
    ) -> Result<Progress<'w>, NoMemory>
        requires { left.old.depth + 1 < 2 ^ 64 }
        ensures { IfOk result (λ r. StepIs wiki.now (resumed wiki.now self.old (Waiting.Parameter rest.entry) text.entry) left.old (Waiting.Parameter rest.entry ∷ self.old.stack) (16 * size rest.entry + 10 + weights self.old.stack) (allowed left.old self.old.stack) r self.new left.new) }
    {
        let alloc = wiki.alloc;
        let name = text.into_piece(alloc)?;
        let key = Bytes::of_vec(trimmed(alloc, name.as_slice())?);
        if let Some(value) = self.scene.args.find(&key) {
            let text = leave_with(alloc, left, value.as_slice())?;
            return Ok(Progress::On(Focus::Text(text)));
        }
        self.stack.push(Frame::Level)?;
        match rest.first_part()? {
            Some(default) => Ok(Progress::On(Focus::Walk(walk(alloc, default)))),
            None => {
                let text = unset(alloc, name)?;
                Ok(Progress::On(Focus::Text(text)))
            }
        }
    }

    /// A construct whose kind is known, behind its first part.
    fn by_kind(
        &mut self,
        wiki: &Wiki<'w>,
        left: &mut Left,
        kind: Kind<'_>,
        rest: Forest<'w>,
        first: &Piece<'w>,
    ) -> Result<Progress<'w>, NoMemory>
        ensures { IfOk result (λ r. StepIs wiki.now (kind_part (wiki_setting wiki.now) (kind_in kind.entry) (bytes_of first.now) (parts rest.entry) (scene_in self.old.scene) (waiting wiki.now self.old)) left.old self.old.stack (16 * size rest.entry + 17 + weights self.old.stack) (allowed left.old self.old.stack + 1) r self.new left.new) }
    {
        let alloc = wiki.alloc;
        match kind {
            Kind::Include(title) => self.template(wiki, left, title, rest),
            Kind::Word(word) => Ok(Progress::On(Focus::Text(made(alloc, word)?))),
            Kind::Written => {
                let focus = begin_written(alloc, &mut self.stack, rest, first.copy(alloc)?)?;
                Ok(Progress::On(focus))
            }
            Kind::If(test) => {
                let focus = either(alloc, &mut self.stack, is_text(trim(test)), rest)?;
                Ok(Progress::On(focus))
            }
            Kind::IfEq(side) => {
                let side = trimmed(alloc, side)?;
                let focus = if_equal(alloc, &mut self.stack, side, rest)?;
                Ok(Progress::On(focus))
            }
            Kind::Switch(value) => {
                let focus = begin_switch(alloc, &mut self.stack, rest, value)?;
                Ok(Progress::On(focus))
            }
            Kind::Invoke(module) => {
                let module = trimmed(alloc, module)?;
                let focus = invoke(alloc, &mut self.stack, module, rest)?;
                Ok(Progress::On(focus))
            }
        }
    }

    /// The first part of a construct is there.
    fn first_part(
        &mut self,
        wiki: &Wiki<'w>,
        left: &mut Left,
        rest: Forest<'w>,
        text: Rope<'w>,
    ) -> Result<Progress<'w>, NoMemory>
        ensures { IfOk result (λ r. StepIs wiki.now (resumed wiki.now self.old (Waiting.First rest.entry) text.entry) left.old self.old.stack (16 * size rest.entry + 17 + weights self.old.stack) (allowed left.old self.old.stack + 1) r self.new left.new) }
    {
        let alone = rest.is_over()?;
        let first = text.into_piece(wiki.alloc)?;
        let kind = kind_of(wiki.alloc, alone, &wiki.page, trim(first.as_slice()))?;
        self.by_kind(wiki, left, kind, rest, &first)
    }

    /// What waited on top goes on with a text.
    pub fn resume(
        &mut self,
        wiki: &Wiki<'w>,
        left: &mut Left,
        top: Frame<'w>,
        text: Rope<'w>,
    ) -> Result<Progress<'w>, NoMemory>
        requires depth { left.old.depth + level top < 2 ^ 64 }
        requires templates { left.old.templates + body_count top < 2 ^ 64 }
        ensures { IfOk result (λ r. StepIs wiki.now (resumed wiki.now self.old top.entry text.entry) left.old (top.entry ∷ self.old.stack) (2 + (weight top.entry + weights self.old.stack)) (2 * left.old.nodes + (chance top.entry + chances self.old.stack)) r self.new left.new) }
    {
        let alloc = wiki.alloc;
        match top {
            Frame::Walk(walk) => Ok(Progress::On(Focus::Walk(walk.behind(text)?))),
            Frame::Level => Ok(Progress::On(Focus::Text(leave(alloc, left, text)?))),
            Frame::Trim => Ok(Progress::On(Focus::Text(text.trimmed(alloc)?))),
            Frame::Parameter(rest) => self.parameter(wiki, left, rest, text),
            Frame::First(rest) => self.first_part(wiki, left, rest, text),
            Frame::Written(rest) => Ok(Progress::On(written(&mut self.stack, rest, text)?)),
            Frame::Compare(side, rest) => {
                Ok(Progress::On(compare(alloc, &mut self.stack, &side, rest, text)?))
            }
            Frame::Case(state, value) => {
                Ok(Progress::On(case(alloc, &mut self.stack, state, value, text)?))
            }
            Frame::Valueless(state) => Ok(Progress::On(valueless(
                alloc,
                &mut self.stack,
                state,
                text,
            )?)),
            Frame::Function(module, rest) => self.function(wiki, left, module, rest, text),
            Frame::Unnamed(call) => self.unnamed(wiki, left, call, text),
            Frame::Name(call, value) => Ok(Progress::On(name(
                alloc,
                &mut self.stack,
                call,
                value,
                text,
            )?)),
            Frame::Value(call, key) => self.value(wiki, left, call, key, text),
            Frame::Body(title, args) => {
                leave_body(left, &mut self.scene, title, args);
                Ok(Progress::On(Focus::Text(text)))
            }
        }
    }
}
