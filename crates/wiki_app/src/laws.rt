//! What is written hangs on the folder, the pages and their limits alone.
ghost use Rattle.std.specs.Prelude.{◌≡◌, ℕ, List, Result};
ghost use Rattle.wk_tool.specs.WkShelfDeclaredFolderFolderPage.{FolderPage};
ghost use Rattle.wiki_words.specs.declared.command.Work.{Work};
ghost use Rattle.wiki_words.specs.declared.settings.Settings.{Settings};
ghost use Rattle.wiki_batch.specs.LuaMeaningWorld.{Modules};
ghost use Rattle.wiki_app.specs.Report.{report_of};

/// Two commands that differ in the number of jobs alone give the same.
pub fn jobs_change_nothing()
    ensures { (modules : Modules) (work : Work) (settings : Settings) (jobs : ℕ)
        (wiki : Result (List FolderPage) (List ℕ))
        → report_of modules (record { work = work; settings = record settings { jobs = jobs } })
        wiki
        ≡ report_of modules (record { work = work; settings = settings }) wiki }
{}
