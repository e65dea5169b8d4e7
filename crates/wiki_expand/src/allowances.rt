//! What is taken of the allowances, and given back.
ghost use Rattle.std.specs.Prelude.{◌≡◌, ◌-◌, ◌≤◌, ◌<◌, length};
ghost use Rattle.std.specs.Bool.{OnTrue, OnFalse};

use expand_texts::rope::Rope;
use mw_frame::Left;

/// Takes a node, if one is left.
pub fn take_node(left: &mut Left) -> bool
    ensures enough { OnTrue result (0 < left.old.nodes) }
    ensures taken { OnTrue result (left.new ≡ record left.old { nodes = left.old.nodes - 1 }) }
    ensures none { OnFalse result (left.old.nodes ≡ 0) }
    ensures same { OnFalse result (left.new ≡ left.old) }
{
    if left.nodes == 0 {
        return false;
    }
    left.take_nodes(1);
    true
}

/// Takes the length of a text in bytes. Where fewer are left, none stay.
pub fn take_bytes(left: &mut Left, text: &Rope<'_>) -> bool
    ensures enough { OnTrue result (length text.now ≤ left.old.bytes) }
    ensures short { OnFalse result (left.old.bytes < length text.now) }
    ensures taken { left.new ≡ record left.old { bytes = left.old.bytes - length text.now } }
{
    match text.left_of(left.bytes) {
        Some(rest) => {
            left.bytes = rest;
            true
        }
        None => {
            left.bytes = 0;
            false
        }
    }
}

/// Enters a level, if one is left.
pub fn enter_level(left: &mut Left) -> bool
    ensures enough { OnTrue result (0 < left.old.depth) }
    ensures entered { OnTrue result (left.new ≡ record left.old { depth = left.old.depth - 1 }) }
    ensures none { OnFalse result (left.old.depth ≡ 0) }
    ensures same { OnFalse result (left.new ≡ left.old) }
{
    if left.depth == 0 {
        return false;
    }
    left.enter_expansion();
    true
}

/// Whether the body of a template may be entered.
pub fn has_template(left: &Left) -> bool
    ensures enough { OnTrue result (0 < left.now.templates) }
    ensures none { OnFalse result (left.now.templates ≡ 0) }
{
    left.templates > 0
}

/// Enters the body of a template, if one may be entered.
pub fn enter_body(left: &mut Left) -> bool
    ensures enough { OnTrue result (0 < left.old.templates) }
    ensures entered { OnTrue result (left.new ≡ record left.old { templates = left.old.templates - 1 }) }
    ensures none { OnFalse result (left.old.templates ≡ 0) }
    ensures same { OnFalse result (left.new ≡ left.old) }
{
    if left.templates == 0 {
        return false;
    }
    left.enter_template();
    true
}
