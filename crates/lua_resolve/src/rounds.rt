//! A text is gone over until all that functions capture has cells, and nothing else has.
ghost use Rattle.std.specs.Prelude.{◌≡◌, true, IfOk};
ghost use Rattle.lua_syntax.specs.View.{chunk_view};
ghost use Rattle.lua_code.specs.LuaSlotsIsCode.{IsProtos};
ghost use Rattle.lua_code.specs.Seen.{protos_seen};
ghost use Rattle.lua_cells.specs.Cells.{NoIdleCells};

use crate::functions::{Finished, with_one};
use crate::resolver::Resolver;
use lua_code::{NoMemory, Proto, Protos};
use lua_scopes::{Scopes, Sketch, first_look};
use lua_store::List;
use lua_syntax::Chunk;
use std::alloc::Global;
use std::hash::RandomState;

/// What going over a text once gave: functions, whether only what functions capture has cells, and whether all of it has.
#[derive(Drop)]
struct Gone<'t> {
    protos: Protos,
    tight: bool,
    scopes: Scopes<'t>,
}

/// Code of a text (manual 2.4.1): number 0 of its functions is the text itself. A local variable has a cell exactly where a function
/// inside captures it. Names are hashed by the seed, so that no text can choose names that collide.
///
/// The tree is one that the parser gives: it is gone down by recursion, and its depth is bounded (200 levels).
///
/// Which local variables have cells is known only behind them, where a function captures one. So a first look at the text finds
/// these, and makes no code. Nothing is proved of that look: if it told too few or too many of them, the text would be gone over again,
/// first with what its functions turned out to capture.
pub fn resolve(alloc: Global, seed: RandomState, chunk: &Chunk) -> Result<Protos, NoMemory>
    ensures code { IfOk result (λ ps. IsProtos (protos_seen ps) (chunk_view chunk.now)) }
    ensures cells { IfOk result (λ ps. NoIdleCells (protos_seen ps)) }
{
    let mut sketch = first_look(alloc, seed, chunk)?;
    for _ in 0..usize::MAX {
        let gone = round(alloc, seed, chunk, sketch)?;
        if !gone.scopes.is_clean() {
            sketch = gone.scopes.into_sketch(seed);
            continue;
        }
        if gone.tight {
            return Ok(gone.protos);
        }
        sketch = Sketch::unknown(alloc, seed);
    }
    Err(NoMemory)
}

/// Whether code of a text is made once: the first look at it told what its functions capture. Only tests ask this, since code that is made
/// again is the same.
pub fn is_made_once(alloc: Global, seed: RandomState, chunk: &Chunk) -> Result<bool, NoMemory> {
    let sketch = first_look(alloc, seed, chunk)?;
    let gone = round(alloc, seed, chunk, sketch)?;
    Ok(gone.scopes.is_clean() && gone.tight)
}

/// Goes over the text once.
fn round<'t>(
    alloc: Global,
    seed: RandomState,
    chunk: &'t Chunk,
    sketch: Sketch<'t>,
) -> Result<Gone<'t>, NoMemory>
    ensures code { IfOk result (λ r. r.scopes.clean ≡ true → IsProtos (protos_seen r.protos) (chunk_view chunk.now)) }
    ensures cells { IfOk result (λ r. r.tight ≡ true → NoIdleCells (protos_seen r.protos)) }
{
    let mut resolver = Resolver::new(alloc, seed, sketch);
    let body = resolver.block(&chunk.body)?;
    let Resolver {
        alloc,
        scopes,
        functions,
        constants: met,
    } = resolver;
    let text = Proto {
        flags: List::new(alloc),
        dots: false,
        body,
    };
    let Finished {
        protos: done,
        tight: rest,
    } = functions.into_finished();
    let tight = with_one(alloc, &text, rest)?;
    let constants = met.copied()?;
    let protos = Protos {
        text,
        functions: done,
        constants,
    };
    Ok(Gone {
        protos,
        tight,
        scopes,
    })
}
