//! The allowances of a page, and what is left of them.
//!
//! Steps, nodes and bytes are used up over a whole page. Calls, depth and templates are levels: they are
//! given back when what took them ends. MediaWiki's parser limits and Scribunto's own limits are of these two kinds
//! (MediaWiki, Manual:Template limits).
ghost use Rattle.std.specs.Prelude.{◌≡◌, ◌+◌, ◌-◌, ◌^◌, ◌<◌, ◌≤◌, ◌↔◌, IsTrue};
ghost use Rattle.wk_base.specs.Allowances.{IsCountable};

/// How much one page may use.
#[derive(Clone, Copy, Debug, PartialEq, Eq)]
pub struct Limits {
    /// Steps of Lua code.
    pub steps: u64,
    /// Constructs `{{..}}` and parameters `{{{..}}}` that are expanded.
    pub nodes: u64,
    /// Bytes of what constructs and parameters give.
    pub bytes: u64,
    /// Functions of Lua in progress at one time.
    pub calls: u64,
    /// Constructs and parameters in progress at one time.
    pub depth: u64,
    /// Template bodies in progress at one time.
    pub templates: u64,
}

/// How much of each of the `Limits` is left.
#[derive(Clone, Copy, Debug, PartialEq, Eq)]
pub struct Left {
    /// Steps of Lua code.
    pub steps: u64,
    /// Constructs and parameters that may still be expanded.
    pub nodes: u64,
    /// Bytes that constructs and parameters may still give.
    pub bytes: u64,
    /// Functions of Lua that may still be entered.
    pub calls: u64,
    /// Levels of constructs and parameters that may still be entered.
    pub depth: u64,
    /// Template bodies that may still be entered.
    pub templates: u64,
}

/// `left` less `wanted`, or 0 where there is less than that.
fn rest_of(left: u64, wanted: u64) -> u64
    ensures { result ≡ left - wanted }
{
    left.saturating_sub(wanted)
}

impl Left {
    /// All of the limits. The numbers of invocations and of data loads of a page, which steps and nodes
    /// bound, are to fit 32 bits: so each of the two is at most 1,000,000,000.
    pub fn full(limits: &Limits) -> Left
        requires { IsCountable limits.now }
        ensures steps { result.steps ≡ limits.now.steps }
        ensures nodes { result.nodes ≡ limits.now.nodes }
        ensures bytes { result.bytes ≡ limits.now.bytes }
        ensures calls { result.calls ≡ limits.now.calls }
        ensures depth { result.depth ≡ limits.now.depth }
        ensures templates { result.templates ≡ limits.now.templates }
    {
        Left {
            steps: limits.steps,
            nodes: limits.nodes,
            bytes: limits.bytes,
            calls: limits.calls,
            depth: limits.depth,
            templates: limits.templates,
        }
    }

    /// Takes `n` steps. Where fewer are left, the answer is false and none stay.
    pub fn take_steps(&mut self, n: u64) -> bool
        ensures covered { IsTrue result ↔ (n ≤ self.old.steps) }
        ensures rest { self.new ≡ record self.old { steps = self.old.steps - n } }
    {
        let covered = n <= self.steps;
        self.steps = rest_of(self.steps, n);
        covered
    }

    /// Takes `n` nodes. Where fewer are left, the answer is false and none stay.
    pub fn take_nodes(&mut self, n: u64) -> bool
        ensures covered { IsTrue result ↔ (n ≤ self.old.nodes) }
        ensures rest { self.new ≡ record self.old { nodes = self.old.nodes - n } }
    {
        let covered = n <= self.nodes;
        self.nodes = rest_of(self.nodes, n);
        covered
    }

    /// Takes `n` bytes. Where fewer are left, the answer is false and none stay.
    pub fn take_bytes(&mut self, n: u64) -> bool
        ensures covered { IsTrue result ↔ (n ≤ self.old.bytes) }
        ensures rest { self.new ≡ record self.old { bytes = self.old.bytes - n } }
    {
        let covered = n <= self.bytes;
        self.bytes = rest_of(self.bytes, n);
        covered
    }

    /// Enters a function. Where none may be entered, the answer is false and nothing changes.
    pub fn enter_call(&mut self) -> bool
        ensures entered { IsTrue result ↔ (0 < self.old.calls) }
        ensures rest { self.new ≡ record self.old { calls = self.old.calls - 1 } }
    {
        let entered = self.calls > 0;
        self.calls = rest_of(self.calls, 1);
        entered
    }

    /// Leaves a function that was entered.
    pub fn leave_call(&mut self)
        requires { self.old.calls + 1 < 2 ^ 64 }
        ensures { self.new ≡ record self.old { calls = self.old.calls + 1 } }
    {
        self.calls += 1;
    }

    /// Enters a construct or a parameter. Where none may be entered, the answer is false and nothing changes.
    pub fn enter_expansion(&mut self) -> bool
        ensures entered { IsTrue result ↔ (0 < self.old.depth) }
        ensures rest { self.new ≡ record self.old { depth = self.old.depth - 1 } }
    {
        let entered = self.depth > 0;
        self.depth = rest_of(self.depth, 1);
        entered
    }

    /// Leaves a construct or a parameter that was entered.
    pub fn leave_expansion(&mut self)
        requires { self.old.depth + 1 < 2 ^ 64 }
        ensures { self.new ≡ record self.old { depth = self.old.depth + 1 } }
    {
        self.depth += 1;
    }

    /// Enters a template's body. Where none may be entered, the answer is false and nothing changes.
    pub fn enter_template(&mut self) -> bool
        ensures entered { IsTrue result ↔ (0 < self.old.templates) }
        ensures rest { self.new ≡ record self.old { templates = self.old.templates - 1 } }
    {
        let entered = self.templates > 0;
        self.templates = rest_of(self.templates, 1);
        entered
    }

    /// Leaves a template's body that was entered.
    pub fn leave_template(&mut self)
        requires { self.old.templates + 1 < 2 ^ 64 }
        ensures { self.new ≡ record self.old { templates = self.old.templates + 1 } }
    {
        self.templates += 1;
    }
}
