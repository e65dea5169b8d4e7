//! Arguments, templates and invocations.
ghost use Rattle.std.specs.Prelude.{◌≡◌, ◌+◌, ◌*◌, ◌≤◌, ◌∷◌, [], ℕ, List, decimal, IsSome, IfSome, IfOk, OnOk};
ghost use Rattle.mw_frame.specs.declared.scene.Scene.{Scene as SceneValue};
ghost use Rattle.mw_frame.specs.Scenes.{HaveNames, NamesDiffer};
ghost use Rattle.page_run.specs.WkBaseDeclaredLeftLeft.{Left as LeftOver};
ghost use Rattle.wiki_pages.specs.WkBaseDeclaredTitleTitle.{Title as TitleValue};
ghost use Rattle.wiki_markup.specs.WkBaseSpace.{trim};
ghost use Rattle.expand_texts.specs.ExpandMeaningKind.{title_named as title_at};
ghost use Rattle.expand_texts.specs.ExpandMeaningTexts.{loop_text as text_of_loop, missing_text as text_of_missing, no_function_text as text_of_no_function, no_module_text as text_of_no_module};
ghost use Rattle.expand_texts.specs.ExpandMeaningExpand.{Setting, Page, Given, none_given, put, expand, arguments as arguments_of, invocation as invocation_of, invoke as invoke_of, job_of as job_with, module_titled, template_body as body_of, template as template_of};
ghost use Rattle.wiki_expand.specs.declared.frame.Frame.{Frame as Waiting};
ghost use Rattle.wiki_pages.specs.Forests.{trees_in, parts, size, option_trees};
ghost use Rattle.wiki_pages.specs.Pages.{Pages, find_page, included_in, setting_in};
ghost use Rattle.wiki_expand.specs.Points.{plug, waiting, run_at, scene_in, wiki_setting, finish as finish_of, calling, given_in, unnamed as unnamed_of, with_name, Leads};
ghost use Rattle.wiki_expand.specs.Weights.{allowed, weights, Keeps};
ghost use Rattle.wiki_expand.specs.Steps.{StepIs, Puts};

use crate::allowances::{enter_body, has_template};
use crate::frame::{Call, Focus, Frame, Inner, Machine, Progress, Purpose, Wiki};
use crate::walk::{fixed, walk, walk_name};
use expand_texts::Namespace;
use expand_texts::arguments::Arguments;
use expand_texts::kind::title_named;
use expand_texts::rope::{Piece, Rope};
use expand_texts::space::trimmed;
use expand_texts::stack::Stack;
use expand_texts::texts::{depth_text, loop_text, missing_text, no_function_text, no_module_text};
use itoa::Buffer;
use mw_frame::{Bytes, Job, Left, Scene, Title};
use std::alloc::Global;
use std::mem::replace;
use wiki_markup::NoMemory;
use wiki_pages::{Forest, PageMap};

/// A text that was made here.
pub fn made<'w>(alloc: Global, text: Vec<u8>) -> Result<Rope<'w>, NoMemory>
    ensures { IfOk result (λ rope. rope ≡ text.items) }
{
    Rope::of(alloc, Piece::Owned(text))
}

/// What stands in the place of a template that includes itself.
fn looped<'w>(alloc: Global, title: &Title) -> Result<Rope<'w>, NoMemory>
    ensures { IfOk result (λ rope. rope ≡ text_of_loop title.now) }
{
    let text = loop_text(alloc, title)?;
    made(alloc, text)
}

/// What stands in the place of a template that isn't held.
fn missing<'w>(alloc: Global, title: &Title) -> Result<Rope<'w>, NoMemory>
    ensures { IfOk result (λ rope. rope ≡ text_of_missing title.now) }
{
    let text = missing_text(alloc, title)?;
    made(alloc, text)
}

/// What stands in the place of an invocation whose module isn't held.
fn no_module<'w>(alloc: Global, name: &[u8]) -> Result<Rope<'w>, NoMemory>
    ensures { IfOk result (λ rope. rope ≡ text_of_no_module name.now) }
{
    let text = no_module_text(alloc, name)?;
    made(alloc, text)
}

/// What stands in the place of an invocation without a function.
fn no_function<'w>(alloc: Global) -> Result<Rope<'w>, NoMemory>
    ensures { IfOk result (λ rope. rope ≡ text_of_no_function) }
{
    let text = no_function_text(alloc)?;
    made(alloc, text)
}

/// A text whose ends are trimmed, in bytes of its own.
fn trimmed_bytes(alloc: Global, text: Rope<'_>) -> Result<Bytes, NoMemory>
    ensures { IfOk result (λ bytes. bytes ≡ trim text.entry) }
{
    let text = text.trimmed(alloc)?;
    let bytes = text.into_vec(alloc)?;
    Ok(Bytes::of_vec(bytes))
}

/// Begins an argument: its name, where it has one, and else its value.
fn begin_argument<'w>(
    alloc: Global,
    stack: &mut Stack<Frame<'w>>,
    call: Call<'w>,
    part: Forest<'w>,
) -> Result<Focus<'w>, NoMemory>
    ensures { IfOk result (λ f. Puts (λ w sc k. arguments_of (trees_in part.entry ∷ parts call.entry.rest) sc (given_in call.entry) (finish_of w call.entry.purpose sc k)) 1 (16 * size call.entry.rest + 16 * size part.entry + 29 + weights stack.old) stack.old f stack.new) }
{
    match part.value()? {
        None => {
            stack.push(Frame::Unnamed(call))?;
            Ok(Focus::Walk(walk(alloc, part)))
        }
        Some(value) => {
            stack.push(Frame::Name(call, value))?;
            Ok(Focus::Walk(walk_name(alloc, part)))
        }
    }
}

/// The decimal digits of a number.
fn digits(alloc: Global, number: u64) -> Result<Vec<u8>, NoMemory>
    ensures { IfOk result (λ made. made.items ≡ decimal number) }
{
    let mut buffer = Buffer::new();
    match Vec::from_slice(alloc, buffer.format(number).as_bytes()) {
        Ok(made) => Ok(made),
        Err(_) => Err(NoMemory),
    }
}

/// The next number. No memory holds as many arguments as there are numbers.
fn next_number(number: u64) -> Result<u64, NoMemory>
    ensures { IfOk result (λ next. next ≡ number + 1) }
{
    match number.checked_add(1) {
        Some(next) => Ok(next),
        None => Err(NoMemory),
    }
}

/// A value is put under a number; the next number.
fn put_unnamed(
    alloc: Global,
    args: &mut Arguments,
    number: u64,
    text: Rope<'_>,
) -> Result<u64, NoMemory>
    ensures given { OnOk result (args.new ≡ put (decimal number) text.entry args.old) }
    ensures next { IfOk result (λ next. next ≡ number + 1) }
{
    let name = digits(alloc, number)?;
    let value = text.into_vec(alloc)?;
    args.put(Bytes::of_vec(name), Bytes::of_vec(value))?;
    next_number(number)
}

/// A value whose ends are trimmed is put under a name.
fn put_named(
    alloc: Global,
    args: &mut Arguments,
    name: Bytes,
    text: Rope<'_>,
) -> Result<(), NoMemory>
    ensures { OnOk result (args.new ≡ put name (trim text.entry) args.old) }
{
    let value = trimmed_bytes(alloc, text)?;
    args.put(name, value)?;
    Ok(())
}

/// An argument without a name.
fn add_unnamed<'w>(alloc: Global, call: Call<'w>, text: Rope<'w>) -> Result<Call<'w>, NoMemory>
    ensures given { IfOk result (λ c. given_in c ≡ unnamed_of call.entry text.entry) }
    ensures same { IfOk result (λ c. (w : Setting) (g : Given) (sc : SceneValue) (k : List ℕ → Page) → calling w c g sc k ≡ calling w call.entry g sc k) }
    ensures size { IfOk result (λ c. size c.rest ≡ size call.entry.rest) }
{
    let mut call = call;
    let number = call.number;
    call.number = put_unnamed(alloc, &mut call.args, number, text)?;
    Ok(call)
}

/// An argument with a name.
fn add_named<'w>(
    alloc: Global,
    call: Call<'w>,
    name: Bytes,
    text: Rope<'w>,
) -> Result<Call<'w>, NoMemory>
    ensures given { IfOk result (λ c. given_in c ≡ with_name call.entry name (trim text.entry)) }
    ensures same { IfOk result (λ c. (w : Setting) (g : Given) (sc : SceneValue) (k : List ℕ → Page) → calling w c g sc k ≡ calling w call.entry g sc k) }
    ensures size { IfOk result (λ c. size c.rest ≡ size call.entry.rest) }
{
    let mut call = call;
    put_named(alloc, &mut call.args, name, text)?;
    Ok(call)
}

/// The name of an argument is there.
pub fn name<'w>(
    alloc: Global,
    stack: &mut Stack<Frame<'w>>,
    call: Call<'w>,
    value: Forest<'w>,
    text: Rope<'w>,
) -> Result<Focus<'w>, NoMemory>
    ensures { IfOk result (λ f. Puts (λ w sc k. expand (trees_in value.entry) sc (λ v. calling w call.entry (with_name call.entry (trim text.entry) (trim v)) sc k)) 1 (16 * size call.entry.rest + 8 * size value.entry + 21 + weights stack.old) stack.old f stack.new) }
{
    let name = trimmed_bytes(alloc, text)?;
    stack.push(Frame::Value(call, name))?;
    Ok(Focus::Walk(walk(alloc, value)))
}

/// An `#invoke` expands its function first.
pub fn invoke<'w>(
    alloc: Global,
    stack: &mut Stack<Frame<'w>>,
    name: Vec<u8>,
    rest: Forest<'w>,
) -> Result<Focus<'w>, NoMemory>
    ensures { IfOk result (λ f. Puts (λ w sc k. invoke_of w name.items (parts rest.entry) sc k) 1 (16 * size rest.entry + 17 + weights stack.old) stack.old f stack.new) }
{
    match rest.take_part()? {
        None => {
            let text = no_function(alloc)?;
            Ok(Focus::Text(text))
        }
        Some((function, rest)) => {
            stack.push(Frame::Function(Bytes::of_vec(name), rest))?;
            Ok(Focus::Walk(walk(alloc, function)))
        }
    }
}

/// The held page of namespace Module that a text names.
fn module_named(alloc: Global, pages: &PageMap, name: &[u8]) -> Result<Option<Title>, NoMemory>
    ensures title { IfOk result (λ title. (page : TitleValue) → title ≡ module_titled (setting_in pages.now page) (title_at name.now Namespace.Module)) }
    ensures held_module { IfOk result (λ title. IfSome title (λ t. (t.ns ≡ Namespace.Module) × IsSome (find_page pages.now t))) }
{
    let Some(title) = title_named(alloc, name, Namespace::Module)? else {
        return Ok(None);
    };
    if !title.ns.is_module() {
        return Ok(None);
    }
    if pages.holds(&title) {
        return Ok(Some(title));
    }
    Ok(None)
}

/// A scene, as an invocation is told it.
fn told(
    alloc: Global,
    title: &Title,
    args: &Arguments,
    chain: &Stack<Title>,
) -> Result<Scene, NoMemory>
    ensures scene { IfOk result (λ s. s ≡ record { title = title.now; args = args.now; chain = chain.now }) }
    ensures names { IfOk result (λ s. NamesDiffer s.args) }
{
    let title = title.copy()?;
    let args = args.list(alloc)?;
    let chain = chain.list(alloc)?;
    Ok(Scene { title, args, chain })
}

/// What an invocation is to do.
fn job_of(
    alloc: Global,
    title: Title,
    function: Bytes,
    args: &Arguments,
    scene: &Inner,
) -> Result<Job, NoMemory>
    ensures job { IfOk result (λ job. job ≡ job_with title function args.now (scene_in scene.now)) }
    ensures names { IfOk result (λ job. HaveNames job) }
{
    let own = told(alloc, &title, args, &scene.chain)?;
    let parent = told(alloc, &scene.title, &scene.args, &scene.chain)?;
    Ok(Job {
        module: title,
        function,
        scene: own,
        parent,
    })
}

/// All parts of an `#invoke` are there.
fn invocation<'w>(
    wiki: &Wiki<'w>,
    scene: &Inner,
    name: Bytes,
    function: Bytes,
    args: Arguments,
) -> Result<Progress<'w>, NoMemory>
    ensures { IfOk result (λ r. (stack : List Waiting) (l : LeftOver) → StepIs wiki.now (invocation_of (module_titled (wiki_setting wiki.now) (title_at name Namespace.Module)) name function args (scene_in scene.now) (plug (wiki_setting wiki.now) stack (scene_in scene.now))) l stack (3 + weights stack) (allowed l stack + 1) r (record { scene = scene.now; stack = stack }) l) }
{
    let alloc = wiki.alloc;
    match module_named(alloc, wiki.pages, name.as_slice())? {
        Some(title) => {
            let job = job_of(alloc, title, function, &args, scene)?;
            Ok(Progress::Asks(job))
        }
        None => {
            let text = no_module(alloc, name.as_slice())?;
            Ok(Progress::On(Focus::Text(text)))
        }
    }
}

/// A title is put in front of a chain.
fn chained(chain: &mut Stack<Title>, title: &Title) -> Result<(), NoMemory>
    ensures { OnOk result (chain.new ≡ title.now ∷ chain.old) }
{
    let link = title.copy()?;
    chain.push(link)?;
    Ok(())
}

/// The text of a page as it is included.
fn included<'w>(pages: &'w PageMap, title: &Title) -> Option<Forest<'w>>
    ensures { option_trees result ≡ included_in pages.now title.now }
{
    match pages.get(title) {
        Some(entry) => Some(entry.included()),
        None => None,
    }
}

impl<'w> Machine<'w> {
    /// The text of a page is included, with these arguments.
    pub fn begin_body(
        &mut self,
        wiki: &Wiki<'w>,
        left: &mut Left,
        trees: Forest<'w>,
        title: Title,
        args: Arguments,
    ) -> Result<Focus<'w>, NoMemory>
        ensures leads { IfOk result (λ f. Leads (wiki_setting wiki.now) (body_of (trees_in trees.entry) title args (scene_in self.old.scene) (waiting wiki.now self.old)) left.old (run_at wiki.now self.new f) left.new) }
        ensures keeps { OnOk result (Keeps left.old self.old.stack left.new self.new.stack) }
        ensures falls { OnOk result (allowed left.new self.new.stack ≤ allowed left.old self.old.stack) }
    {
        if self.scene.chain.contains(&title) {
            let text = looped(wiki.alloc, &title)?;
            return Ok(Focus::Text(text));
        }
        if !enter_body(left) {
            let text = fixed(wiki.alloc, depth_text())?;
            return Ok(Focus::Text(text));
        }
        chained(&mut self.scene.chain, &title)?;
        let caller = replace(&mut self.scene.title, title);
        let given = replace(&mut self.scene.args, args);
        self.stack.push(Frame::Body(caller, given))?;
        Ok(Focus::Walk(walk(wiki.alloc, trees)))
    }

    /// All arguments are there.
    fn finish(
        &mut self,
        wiki: &Wiki<'w>,
        left: &mut Left,
        purpose: Purpose<'w>,
        args: Arguments,
    ) -> Result<Progress<'w>, NoMemory>
        ensures { IfOk result (λ r. StepIs wiki.now (finish_of (wiki_setting wiki.now) purpose.entry (scene_in self.old.scene) (waiting wiki.now self.old) args) left.old self.old.stack (3 + weights self.old.stack) (allowed left.old self.old.stack + 1) r self.new left.new) }
    {
        match purpose {
            Purpose::Invoke(name, function) => {
                let progress = invocation(wiki, &self.scene, name, function, args)?;
                Ok(progress)
            }
            Purpose::Template(title, trees) => {
                let focus = self.begin_body(wiki, left, trees, title, args)?;
                Ok(Progress::Deeper(focus))
            }
        }
    }

    /// Looks at the next argument, or hands on what there is.
    fn arguments(
        &mut self,
        wiki: &Wiki<'w>,
        left: &mut Left,
        call: Call<'w>,
    ) -> Result<Progress<'w>, NoMemory>
        ensures { IfOk result (λ r. StepIs wiki.now (calling (wiki_setting wiki.now) call.entry (given_in call.entry) (scene_in self.old.scene) (waiting wiki.now self.old)) left.old self.old.stack (16 * size call.entry.rest + 16 + weights self.old.stack) (allowed left.old self.old.stack + 1) r self.new left.new) }
    {
        let Call {
            purpose,
            args,
            number,
            rest,
        } = call;
        match rest.take_part()? {
            None => self.finish(wiki, left, purpose, args),
            Some((part, rest)) => {
                let call = Call {
                    purpose,
                    args,
                    number,
                    rest,
                };
                let focus = begin_argument(wiki.alloc, &mut self.stack, call, part)?;
                Ok(Progress::On(focus))
            }
        }
    }

    /// The value of an argument without a name is there.
    pub fn unnamed(
        &mut self,
        wiki: &Wiki<'w>,
        left: &mut Left,
        call: Call<'w>,
        text: Rope<'w>,
    ) -> Result<Progress<'w>, NoMemory>
        ensures { IfOk result (λ r. StepIs wiki.now (calling (wiki_setting wiki.now) call.entry (unnamed_of call.entry text.entry) (scene_in self.old.scene) (waiting wiki.now self.old)) left.old self.old.stack (16 * size call.entry.rest + 16 + weights self.old.stack) (allowed left.old self.old.stack + 1) r self.new left.new) }
    {
        let call = add_unnamed(wiki.alloc, call, text)?;
        self.arguments(wiki, left, call)
    }

    /// The value of an argument with a name is there.
    pub fn value(
        &mut self,
        wiki: &Wiki<'w>,
        left: &mut Left,
        call: Call<'w>,
        name: Bytes,
        text: Rope<'w>,
    ) -> Result<Progress<'w>, NoMemory>
        ensures { IfOk result (λ r. StepIs wiki.now (calling (wiki_setting wiki.now) call.entry (with_name call.entry name (trim text.entry)) (scene_in self.old.scene) (waiting wiki.now self.old)) left.old self.old.stack (16 * size call.entry.rest + 16 + weights self.old.stack) (allowed left.old self.old.stack + 1) r self.new left.new) }
    {
        let call = add_named(wiki.alloc, call, name, text)?;
        self.arguments(wiki, left, call)
    }

    /// A template: both tests come before the arguments.
    pub fn template(
        &mut self,
        wiki: &Wiki<'w>,
        left: &mut Left,
        title: Title,
        rest: Forest<'w>,
    ) -> Result<Progress<'w>, NoMemory>
        ensures { IfOk result (λ r. StepIs wiki.now (template_of (included_in wiki.now.pages.now title) title (parts rest.entry) (scene_in self.old.scene) (waiting wiki.now self.old)) left.old self.old.stack (16 * size rest.entry + 16 + weights self.old.stack) (allowed left.old self.old.stack + 1) r self.new left.new) }
    {
        let alloc = wiki.alloc;
        let Some(trees) = included(wiki.pages, &title) else {
            let text = missing(alloc, &title)?;
            return Ok(Progress::On(Focus::Text(text)));
        };
        if self.scene.chain.contains(&title) {
            let text = looped(alloc, &title)?;
            return Ok(Progress::On(Focus::Text(text)));
        }
        if !has_template(left) {
            let text = fixed(alloc, depth_text())?;
            return Ok(Progress::On(Focus::Text(text)));
        }
        let call = Call {
            purpose: Purpose::Template(title, trees),
            args: Arguments::new(alloc, wiki.pages.seed()),
            number: 1,
            rest,
        };
        self.arguments(wiki, left, call)
    }

    /// The function of an `#invoke` is there: its arguments follow.
    pub fn function(
        &mut self,
        wiki: &Wiki<'w>,
        left: &mut Left,
        name: Bytes,
        rest: Forest<'w>,
        text: Rope<'w>,
    ) -> Result<Progress<'w>, NoMemory>
        ensures { IfOk result (λ r. StepIs wiki.now (arguments_of (parts rest.entry) (scene_in self.old.scene) none_given (λ args. invocation_of (module_titled (wiki_setting wiki.now) (title_at name Namespace.Module)) name (trim text.entry) args (scene_in self.old.scene) (waiting wiki.now self.old))) left.old self.old.stack (16 * size rest.entry + 16 + weights self.old.stack) (allowed left.old self.old.stack + 1) r self.new left.new) }
    {
        let function = trimmed_bytes(wiki.alloc, text)?;
        let call = Call {
            purpose: Purpose::Invoke(name, function),
            args: Arguments::new(wiki.alloc, wiki.pages.seed()),
            number: 1,
            rest,
        };
        self.arguments(wiki, left, call)
    }
}
