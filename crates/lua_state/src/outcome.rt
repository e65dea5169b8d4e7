//! What a frame is given.
use lua_arms::{Given, Jump};

/// What reaches a frame: values, or a jump.
#[derive(Drop)]
pub enum Outcome {
    Goes(Given),
    Jumps(Jump),
}
