//! The meaning of Lua: what a reader must believe about the language in this profile (Lua 5.1 with whole numbers of 64
//! bits, as Scribunto runs it on a wiki page).
//!
//! Nothing here is executed. The definitions stand in `specs/`; begin with `Acts`, and go on in this order. Each file names
//! the section of the manual that it follows.
//!
//! - `Acts`: the state of a run, the things that begin in it, and what its parts are written with
//! - `Scope`, `Titled`, `World`, `Questions`, `Values`: names and places of the text, what is kept by title, modules, answers
//! - `Charges`, `Messages`: each number of steps once; errors, their places and their texts
//! - `Metatables`, `Calls`, `Index`, `Operators`: what is done with values
//! - `Parts`, `Expressions`, `Constructors`, `Statements`, `Loops`: what each form of the text does
//! - `Meaning`: one line for each form of the tree
//! - `Arguments`, `Basic`, `Frames`, `Tag`, `FrameMethods`, `Mw`: functions of the library over any heap
//! - `Checks`, `Strings`, `Searches`, `Formats`, `Numbers`, `Iterators`, `TableLibrary`, `TextArguments`, `Ustring`, `Texts`: those of
//!   `string`, `math`, `table`, `mw.ustring` and `mw.text`
//! - `HtmlNodes`, `Html`: objects of `mw.html`
//! - `Waiting`, `CallBacks`, `Gsub`, `Modules`, `Pending`: functions that call, ask or run modules, and the tables of what waits
//! - `Libraries`, `Home`, `Things`: a line for each function of the library, the fresh environment, a line for each thing
//! - `Start`: a whole run from its start to its end
//! - `Laws`, and the worked examples `ExampleCharges`, `ExampleCosts`, `ExampleValues`, `ExampleStatements`,
//!   `ExampleFunctions`, `ExampleHandlers`, `ExampleFrames`, `ExampleModules`, `ExampleLibraries`, `ExampleReplacing`, `ExampleMarkup`, which
//!   are written with `Trial`; `ExampleGsub` and `ExampleHtml`: calls of `gsub`, and of the functions of `mw.html`
//!
//! In a `do` block each line is one step: `x ← part` names the value that a part gives. Where a part jumps (an error, a
//! `return`, a `break`), the lines after it are passed over, up to what catches the jump.
//!
//! Each function has an empty body, and its contract is a law about those definitions:
//!
//! - `laws`: things unfold, what is counted, calls are given back, more allowance changes nothing, what waits is named, and
//!   what a run without frames does not ask
//! - `examples`: what small modules give
#![tactic(auto)]

pub mod examples;
pub mod laws;
