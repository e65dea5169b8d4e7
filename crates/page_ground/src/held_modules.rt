//! Whether a module is held.
ghost use Rattle.std.specs.Prelude.{IfSome};
ghost use Rattle.page_ground.specs.Ground.{TellsHeld};

use lua_code::Modules;
use wk_base::Title;

/// Whether the module of this title is held. `None` is for want of memory, and for a title that only looks like a module's: that is never asked
/// for, but no clause of a machine says so.
pub fn is_held(modules: &Modules, title: &Title) -> Option<bool>
    ensures { IfSome result (λ held. TellsHeld modules.now title.now held) }
{
    if title.ns.is_module() {
        let held = modules.get(title).is_some();
        return Some(held);
    }
    match title.text() {
        Ok(text) => {
            if text.as_slice().starts_with(b"Module:") {
                return None;
            }
            Some(false)
        }
        Err(_) => None,
    }
}
