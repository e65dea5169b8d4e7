//! What is told as a page begins.

/// It is called in the worker as a page begins, with the page's place among the titles, from 0. Nothing that is answered hangs on it.
pub trait Gate {
    fn started(&self, page: usize);
}

/// It lets each page begin.
#[derive(Clone, Copy, Debug)]
pub struct OpenGate;

impl Gate for OpenGate {
    fn started(&self, _page: usize) {}
}
