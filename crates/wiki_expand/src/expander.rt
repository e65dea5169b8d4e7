//! The expander: it goes on up to the text, or up to an invocation.
ghost use Rattle.std.specs.Prelude.{◌≡◌, ◌+◌, ◌*◌, ◌<◌, ◌≤◌, ◌^◌, ◌∷◌, ◌++◌, [], ℕ, List, IsSome, IfSome, Some, IfOk, OnOk};
ghost use Rattle.mw_frame.specs.Scenes.{NamesDiffer};
ghost use Rattle.mw_frame.specs.declared.scene.Scene.{Scene as SceneValue};
ghost use Rattle.wiki_expand.specs.declared.frame.Frame.{Frame as Waiting};
ghost use Rattle.expand_texts.specs.ExpandMeaningExpand.{Setting};
ghost use Rattle.page_run.specs.WkBaseDeclaredLeftLeft.{Left as LeftOver};
ghost use Rattle.page_run.specs.State.{Reply, Gives};
ghost use Rattle.wiki_pages.specs.Pages.{setting_in, direct_in};
ghost use Rattle.wiki_expand.specs.Points.{wiki_setting, plug, run_at, scene_in};
ghost use Rattle.wiki_expand.specs.Weights.{levels, bodies, allowed, Keeps};
ghost use Rattle.expand_texts.specs.ExpandMeaningOutcome.{Work};
ghost use Rattle.wiki_pages.specs.Forests.{trees_in};
ghost use Rattle.wiki_expand.specs.Standing.{ready, LeadsIf, IsDoing, doing_point, work_from, work_page, IsHeldSource, Moves, Pauses, PauseFalls, PauseAsks, At, Waits, IsMove, MoveAsks, MoveFalls, IsReady, IsWaiting, IsAfter, setting_of, work_of, depth_in, templates_in, allowed_in};

use crate::calls::made;
use crate::frame::{Focus, Inner, Machine, Pause, Progress, Wiki};
use crate::walk::walk;
use expand_texts::arguments::Arguments;
use expand_texts::stack::Stack;
use mw_frame::{Arg, Bytes, Job, Left, Scene, Title};
use std::alloc::Global;
use std::hash::RandomState;
use std::mem::replace;
use wiki_markup::{Marked, NoMemory};
use wiki_pages::{Forest, PageMap};

/// What is expanded: the text of a page, the text of a page as it is included, or a text of its own.
#[derive(Drop)]
pub enum Source {
    Page(Title),
    Template(Title),
    Text(Marked),
}

/// What an expander comes to: its text, or an invocation whose text it needs.
#[derive(Drop)]
pub enum Move {
    Text(Bytes),
    Invoke(Job),
}

/// What an expander does.
#[derive(Drop)]
pub enum Doing<'w> {
    /// It goes on here.
    Ready(Focus<'w>),
    /// The body of this page begins, with these arguments.
    Begins(Title, Forest<'w>, Arguments),
    /// It waits for the text of an invocation.
    Waiting,
    /// It has come to its text.
    Over,
}

/// The expansion of a text, which stops at each invocation (MediaWiki, Help:Templates).
#[derive(Drop)]
pub struct Expander<'w> {
    wiki: Wiki<'w>,
    machine: Machine<'w>,
    doing: Doing<'w>,
}

impl<'w> Machine<'w> {
    /// Goes on up to the next pause.
    fn run(
        &mut self,
        wiki: &Wiki<'w>,
        left: &mut Left,
        focus: Focus<'w>,
    ) -> Result<Pause<'w>, NoMemory>
        requires depth { left.old.depth + levels self.old.stack < 2 ^ 64 }
        requires templates { left.old.templates + bodies self.old.stack < 2 ^ 64 }
        ensures goes { IfOk result (λ r. Pauses wiki.now (run_at wiki.now self.old focus.entry) left.old r self.new left.new) }
        ensures keeps { OnOk result (Keeps left.old self.old.stack left.new self.new.stack) }
        ensures falls { IfOk result (λ r. PauseFalls (allowed left.old self.old.stack) r self.new.stack left.new) }
        ensures asks { IfOk result (λ r. PauseAsks wiki.now.pages.now r) }
    {
        let mut focus = focus;
        loop {
            match focus {
                Focus::Walk(walk) => match self.walk_on(wiki, left, walk)? {
                    Progress::On(next) => {
                        focus = next;
                        continue;
                    }
                    Progress::Deeper(next) => return Ok(Pause::Deeper(next)),
                    Progress::Asks(job) => return Ok(Pause::Asks(job)),
                },
                Focus::Text(text) => match self.stack.pop() {
                    None => return Ok(Pause::Ended(text)),
                    Some(top) => match self.resume(wiki, left, top, text)? {
                        Progress::On(next) => {
                            focus = next;
                            continue;
                        }
                        Progress::Deeper(next) => return Ok(Pause::Deeper(next)),
                        Progress::Asks(job) => return Ok(Pause::Asks(job)),
                    },
                },
            }
        }
    }

    /// What ends a run of steps: the text, or an invocation.
    fn next_move(
        &mut self,
        wiki: &Wiki<'w>,
        left: &mut Left,
        focus: Focus<'w>,
    ) -> Result<Move, NoMemory>
        requires depth { left.old.depth + levels self.old.stack < 2 ^ 64 }
        requires templates { left.old.templates + bodies self.old.stack < 2 ^ 64 }
        ensures moves { IfOk result (λ m. Moves wiki.now (run_at wiki.now self.old focus.entry) left.old m self.new left.new) }
        ensures keeps { OnOk result (Keeps left.old self.old.stack left.new self.new.stack) }
        ensures falls { IfOk result (λ m. MoveFalls m (allowed left.old self.old.stack) (allowed left.new self.new.stack)) }
        ensures asks { IfOk result (λ m. MoveAsks wiki.now.pages.now m) }
    {
        let mut focus = focus;
        loop {
            match self.run(wiki, left, focus)? {
                Pause::Deeper(next) => {
                    focus = next;
                    continue;
                }
                Pause::Asks(job) => return Ok(Move::Invoke(job)),
                Pause::Ended(text) => {
                    let bytes = text.into_vec(wiki.alloc)?;
                    return Ok(Move::Text(Bytes::of_vec(bytes)));
                }
            }
        }
    }

    /// Where an expander goes on.
    fn begin_focus(
        &mut self,
        wiki: &Wiki<'w>,
        left: &mut Left,
        doing: Doing<'w>,
    ) -> Result<Focus<'w>, NoMemory>
        requires { ready doing }
        ensures leads { IfOk result (λ f. LeadsIf (wiki_setting wiki.now) (doing_point doing.entry (wiki_setting wiki.now) self.old.stack (scene_in self.old.scene)) left.old (run_at wiki.now self.new f) left.new) }
        ensures keeps { OnOk result (Keeps left.old self.old.stack left.new self.new.stack) }
        ensures falls { OnOk result (allowed left.new self.new.stack ≤ allowed left.old self.old.stack) }
    {
        match doing {
            Doing::Ready(focus) => Ok(focus),
            Doing::Begins(title, trees, args) => { self.begin_body(wiki, left, trees, title, args) }
            Doing::Waiting => unreachable!(),
            Doing::Over => unreachable!(),
        }
    }
}

/// The trees of a source, and the title of a template.
fn read_source<'w>(
    alloc: Global,
    pages: &'w PageMap,
    source: Source,
) -> Result<(Forest<'w>, Option<Title>), NoMemory>
    requires { IsHeldSource pages.now source }
    ensures { IfOk result (λ r. (sc : SceneValue) → work_of pages.now source sc ≡ Some (work_from (trees_in r.0) r.1 sc)) }
{
    match source {
        Source::Page(title) => match pages.get(&title) {
            None => unreachable!(),
            Some(entry) => Ok((entry.direct(), None)),
        },
        Source::Template(title) => match pages.get(&title) {
            None => unreachable!(),
            Some(entry) => Ok((entry.included(), Some(title))),
        },
        Source::Text(text) => {
            let trees = Forest::own(alloc, text)?;
            Ok((trees, None))
        }
    }
}

/// The beginning of a source.
fn begin<'w>(
    alloc: Global,
    seed: RandomState,
    trees: Forest<'w>,
    template: Option<Title>,
    args: &[Arg],
) -> Result<Doing<'w>, NoMemory>
    requires { NamesDiffer args.now }
    ensures ready { IfOk result (λ d. ready d) }
    ensures begins { IfOk result (λ d. (w : Setting) (fs : List Waiting) (sc : SceneValue) → sc.args ≡ args.now → doing_point d w fs sc ≡ Some (work_page (work_from (trees_in trees.entry) template sc) (plug w fs sc))) }
{
    match template {
        None => Ok(Doing::Ready(Focus::Walk(walk(alloc, trees)))),
        Some(title) => {
            let args = Arguments::of_list(alloc, seed, args)?;
            Ok(Doing::Begins(title, trees, args))
        }
    }
}

/// The text in which an expansion begins.
fn inner(alloc: Global, seed: RandomState, scene: Scene) -> Result<Inner, NoMemory>
    requires { NamesDiffer scene.args }
    ensures { IfOk result (λ inner. scene_in inner ≡ scene) }
{
    let Scene { title, args, chain } = scene;
    let args = Arguments::of_list(alloc, seed, args.as_slice())?;
    Ok(Inner {
        title,
        args,
        chain: Stack::of_vec(chain.into_vec()),
    })
}

/// What an expander does after a move.
fn doing_after<'w>(next: &Move) -> Doing<'w>
    ensures { IsDoing next.now result }
{
    match next {
        Move::Text(_) => Doing::Over,
        Move::Invoke(_) => Doing::Waiting,
    }
}

impl<'w> Expander<'w> {
    /// The beginning of an expansion, with nothing in progress.
    ///
    /// `page` is the title of the page that is expanded. A page and a text of its own are expanded in the scene. The body of
    /// a template is expanded in a frame of its own, with the arguments of the scene, whose chain is that of the text that
    /// includes it.
    pub fn start(
        alloc: Global,
        pages: &'w PageMap,
        page: &Title,
        source: Source,
        scene: Scene,
    ) -> Result<Expander<'w>, NoMemory>
        requires names { NamesDiffer scene.args }
        requires held { IsHeldSource pages.now source }
        ensures at { IfOk result (λ e. IfSome (work_of pages.now source scene) (λ work. (l : LeftOver) → At e work l [] l)) }
        ensures setting { IfOk result (λ e. setting_of e ≡ setting_in pages.now page.now) }
        ensures ready { IfOk result (λ e. IsReady e) }
        ensures rests { IfOk result (λ e. (depth_in e ≡ 0) × (templates_in e ≡ 0)) }
    {
        let page = page.copy()?;
        let (trees, template) = read_source(alloc, pages, source)?;
        let doing = begin(alloc, pages.seed(), trees, template, scene.args.as_slice())?;
        let scene = inner(alloc, pages.seed(), scene)?;
        Ok(Expander {
            wiki: Wiki { alloc, pages, page },
            machine: Machine {
                scene,
                stack: Stack::new(alloc),
            },
            doing,
        })
    }

    /// Goes on up to the text, or up to an invocation whose text it needs.
    ///
    /// `left` is what is left of the page's allowances. It may be called after `start` and after `answer`.
    pub fn go(&mut self, left: &mut Left) -> Result<Move, NoMemory>
        requires ready { IsReady self.old }
        requires depth { left.old.depth + depth_in self.old < 2 ^ 64 }
        requires templates { left.old.templates + templates_in self.old < 2 ^ 64 }
        ensures goes { IfOk result (λ m. (work : Work) (first : LeftOver) (given : List (Reply (List ℕ))) → At self.old work first given left.old → IsMove m self.new work first given left.new) }
        ensures asks { IfOk result (λ m. MoveAsks self.old.wiki.pages.now m) }
        ensures setting { OnOk result (setting_of self.new ≡ setting_of self.old) }
        ensures depth { OnOk result (left.new.depth + depth_in self.new ≡ left.old.depth + depth_in self.old) }
        ensures templates { OnOk result (left.new.templates + templates_in self.new ≡ left.old.templates + templates_in self.old) }
        ensures after { IfOk result (λ m. IsAfter m self.new) }
        ensures used { OnOk result ((left.new.steps ≡ left.old.steps) × (left.new.calls ≡ left.old.calls)) }
        ensures falls { IfOk result (λ m. MoveFalls m (allowed_in left.old self.old) (allowed_in left.new self.new)) }
    {
        let doing = replace(&mut self.doing, Doing::Over);
        let focus = self.machine.begin_focus(&self.wiki, left, doing)?;
        let next = self.machine.next_move(&self.wiki, left, focus)?;
        self.doing = doing_after(&next);
        Ok(next)
    }

    /// Goes on with the text of the invocation that it waits for.
    pub fn answer(&mut self, left: &mut Left, text: Bytes) -> Result<(), NoMemory>
        requires waiting { IsWaiting self.old }
        ensures at { OnOk result ((work : Work) (first : LeftOver) (given : List (Reply (List ℕ))) (r : Reply (List ℕ)) → Waits self.old work first given → r.response ≡ Gives text → r.left ≡ left.old → At self.new work first (given ++ r ∷ []) left.new) }
        ensures left { left.new ≡ left.old }
        ensures setting { OnOk result (setting_of self.new ≡ setting_of self.old) }
        ensures ready { OnOk result (IsReady self.new) }
        ensures depth { OnOk result (depth_in self.new ≡ depth_in self.old) }
        ensures templates { OnOk result (templates_in self.new ≡ templates_in self.old) }
        ensures falls { OnOk result (allowed_in left.new self.new ≡ allowed_in left.old self.old) }
    {
        let _ = left;
        let text = made(self.wiki.alloc, text.into_vec())?;
        self.doing = Doing::Ready(Focus::Text(text));
        Ok(())
    }
}
