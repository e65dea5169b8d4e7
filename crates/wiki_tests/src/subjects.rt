//! What the lines of a report are about.
ghost use Rattle.std.specs.Prelude.{◌≡◌, ◌++◌, ◌∷◌, [], map, IfOk, OnOk};
ghost use Rattle.wiki_tests.specs.declared.subjects.Subject.TheVariants.{Case, Fault};
ghost use Rattle.wiki_tests.specs.Lines.{subjects_of, subjects};

use crate::tested::TestModule;
use lua_syntax::FaultAt;
use std::alloc::Global;
use wk_base::{Bytes, List, NoMemory, Title};

/// What a line is about.
#[derive(Drop)]
pub enum Subject {
    /// A case of a module, by its name.
    Case(Title, Bytes),
    /// The fault of a module's text.
    Fault(Title, FaultAt),
}

/// Adds the cases of a module.
fn put_cases(all: &mut List<Subject>, title: &Title, names: &[Bytes]) -> Result<(), NoMemory>
    ensures { OnOk result (all.new ≡ all.old ++ map (λ name. Case title.now name) names.now) }
{
    for name in names {
        let title = title.copy()?;
        let name = name.copy()?;
        all.push(Subject::Case(title, name))?;
    }
    Ok(())
}

/// Adds the fault of a module's text.
fn put_fault(all: &mut List<Subject>, title: &Title, fault: &FaultAt) -> Result<(), NoMemory>
    ensures { OnOk result (all.new ≡ all.old ++ Fault title.now fault.now ∷ []) }
{
    let title = title.copy()?;
    all.push(Subject::Fault(title, *fault))
}

/// Adds what the lines of a module are about.
fn put_module(all: &mut List<Subject>, test: &TestModule) -> Result<(), NoMemory>
    ensures { OnOk result (all.new ≡ all.old ++ subjects_of test.now.title test.now.cases) }
{
    match &test.cases {
        Ok(names) => put_cases(all, &test.title, names.as_slice()),
        Err(fault) => put_fault(all, &test.title, fault),
    }
}

/// What the lines of these modules are about, in order.
pub fn subjects(alloc: Global, tests: &[TestModule]) -> Result<List<Subject>, NoMemory>
    ensures { IfOk result (λ all. all ≡ subjects tests.now) }
{
    let mut all = List::new(alloc);
    for test in tests {
        put_module(&mut all, test)?;
    }
    Ok(all)
}
