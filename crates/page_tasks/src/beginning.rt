//! How the tasks of a page begin.
ghost use Rattle.std.specs.Prelude.{◌≡◌, true, IsSome, IfSome, IfOk};
ghost use Rattle.mw_frame.specs.Scenes.{HaveNames, NamesDiffer};
ghost use Rattle.lua_code.specs.WkBaseTitles.{is_module};
ghost use Rattle.wiki_expand.specs.ExpandMeaningOutcome.{Reading};
ghost use Rattle.wiki_expand.specs.WikiPagesPages.{find_page};
ghost use Rattle.wiki_expand.specs.Standing.{IsHeldSource, work_of};
ghost use Rattle.page_ground.specs.LuaMeaningStart.{Invoke, DataOf};
ghost use Rattle.lua_machine.specs.LuaStackOf.{WorkOf};
ghost use Rattle.lua_machine.specs.LuaStackSeen.{work_seen};
ghost use Rattle.page_ground.specs.PageMeaningWiki.{read};
ghost use Rattle.page_ground.specs.PageMeaningTasks.{Running};
ghost use Rattle.page_ground.specs.Ground.{ground_of};
ghost use Rattle.page_tasks.specs.Falling.{chances_of};
ghost use Rattle.page_tasks.specs.Beginning.{MachineBegins, Begins, BeginsWith, BeginsExpanding, BeginsTemplate, BeginsPage, HasPage};

use crate::boxed::Boxed;
use crate::task::{Begun, Task};
use lua_code::NoMemory;
use lua_machine::{Machine, Store, Work};
use mw_frame::{Arg, Bytes, Job, List, Scene, Title};
use page_ground::context::Context;
use page_ground::scenes::{bare_scene, check_names, read_text};
use wiki_expand::{Expander, Source};

/// A run of Lua begins, in a fresh environment of its own.
fn begin_run<'w>(
    around: &Context<'w>,
    store: &mut Store,
    work: Work,
) -> Result<Boxed<Machine<'w>>, NoMemory>
    requires { WorkOf work }
    ensures { IfOk result (λ m.
        MachineBegins (ground_of around.now) (work_seen work) store.old store.new m) }
{
    let started = Machine::start(around.alloc, store, around.seed, around.world, work);
    Boxed::of(around.alloc, started)
}

/// An invocation begins (Extension:Scribunto, `#invoke`).
pub fn begin_invocation<'w>(
    around: &Context<'w>,
    store: &mut Store,
    job: Job,
) -> Result<Task<'w>, NoMemory>
    requires { HaveNames job }
    ensures begins { IfOk result (λ t.
        Begins (ground_of around.now) (Running (Invoke job)) store.old store.new t) }
    ensures chances { IfOk result (λ t. chances_of t ≡ 0) }
{
    let machine = begin_run(around, store, Work::Invoke(job))?;
    Ok(Task::Invocation(machine))
}

/// The load of a data module begins, where so many steps are left (Scribunto, `mw.loadData`).
pub fn begin_load<'w>(
    around: &Context<'w>,
    store: &mut Store,
    title: Title,
    steps: u64,
) -> Result<Task<'w>, NoMemory>
    requires { is_module title.ns ≡ true }
    ensures { IfOk result (λ t.
        BeginsWith (ground_of around.now) (Running (DataOf title)) steps store.old store.new t) }
{
    let module = title.copy()?;
    let machine = begin_run(around, store, Work::Data(title))?;
    let begun = Begun {
        title: module,
        steps,
    };
    Ok(Task::Load(begun, machine))
}

/// An expansion begins in a scene.
fn begin_expansion<'w>(
    around: &Context<'w>,
    source: Source,
    scene: Scene,
) -> Result<Task<'w>, NoMemory>
    requires names { NamesDiffer scene.args }
    requires held { IsHeldSource (ground_of around.now).pages source }
    ensures { IfOk result (λ t.
        IfSome (work_of (ground_of around.now).pages source scene) (λ work.
        BeginsExpanding (ground_of around.now) work t)) }
{
    let started = Expander::start(around.alloc, around.pages, around.world.page, source, scene);
    let expander = Boxed::of(around.alloc, started)?;
    Ok(Task::Expansion(expander))
}

/// The expansion of a text in the scene of a frame begins (Scribunto, `frame:preprocess`).
pub fn begin_text<'w>(
    around: &Context<'w>,
    scene: Scene,
    text: &Bytes,
) -> Result<Task<'w>, NoMemory>
    ensures { IfOk result (λ t.
        BeginsExpanding (ground_of around.now) (Reading (read text.now) scene) t) }
{
    check_names(around, scene.args.as_slice())?;
    let marked = read_text(around.alloc, text)?;
    begin_expansion(around, Source::Text(marked), scene)
}

/// The expansion of a template with these arguments begins, as that of the text of the scene includes it (Scribunto,
/// `frame:expandTemplate`).
pub fn begin_template<'w>(
    around: &Context<'w>,
    scene: Scene,
    title: Title,
    args: List<Arg>,
) -> Result<Task<'w>, NoMemory>
    requires { IsSome (find_page (ground_of around.now).pages title) }
    ensures { IfOk result (λ t.
        BeginsTemplate (ground_of around.now) title (record scene { args = args }) t) }
{
    check_names(around, args.as_slice())?;
    let Scene {
        title: asking,
        args: _,
        chain,
    } = scene;
    let scene = Scene {
        title: asking,
        args,
        chain,
    };
    begin_expansion(around, Source::Template(title), scene)
}

/// The expansion of the page itself begins.
pub fn begin_page<'w>(around: &Context<'w>) -> Result<Task<'w>, NoMemory>
    requires { HasPage (ground_of around.now) }
    ensures { IfOk result (λ t. BeginsPage (ground_of around.now) t) }
{
    let page = around.world.page;
    let title = page.copy()?;
    let scene = bare_scene(around.alloc, page)?;
    begin_expansion(around, Source::Page(title), scene)
}
