//! Code of `if`. One cycle with `statements`.
ghost use Rattle.std.specs.Prelude.{[], None, OnOk};
ghost use Rattle.lua_flat.specs.LuaSlotsCode.{NoArmC, IfC};
ghost use Rattle.lua_code.specs.Seen.{statement_seen, branch_seen, branches_seen};
ghost use Rattle.lua_flat_code.specs.Making.{state_of};
ghost use Rattle.lua_flat_code.specs.Whole.{arms_then, BegunStat, BegunPart, ArmSaid, ArmsSaid, ArmsEndSaid};

use crate::maker::Maker;
use crate::op::{OPEN, Op};
use lua_code::{Branch, List, NoMemory, Statement};

impl Maker {
    /// `if`, its `elseif`s, and its `else`.
    #[cycle(parts)]
    pub(crate) fn choice(&mut self, statement: &Statement, free: u32) -> Result<(), NoMemory>
        ensures { OnOk result (BegunPart free (statement_seen statement.now) (state_of self.old) (state_of self.new) free) }
    {
        match statement {
            Statement::If(branches, other) => match other {
                Some(body) => {
                    let mut ends = List::new(self.alloc);
                    self.arms(branches.as_slice(), &mut ends, free)?;
                    self.block(body.as_slice(), free)?;
                    self.settle()?;
                    self.land(&ends)
                }
                None => self.choice_plain(branches.as_slice(), free),
            },
            _ => Err(NoMemory),
        }
    }

    /// Branches with no `else`, of which the last goes on at the end.
    #[cycle(parts)]
    fn choice_plain(&mut self, branches: &[Branch], free: u32) -> Result<(), NoMemory>
        ensures { OnOk result (BegunStat free (IfC (branches_seen branches.now)) (state_of self.old) (state_of self.new)) }
    {
        let mut ends = List::new(self.alloc);
        let mut left = branches.len();
        for branch in branches {
            left -= 1;
            if left == 0 {
                self.last_arm(branch, free)?;
                return self.land(&ends);
            }
            self.arm(branch, &mut ends, free)?;
        }
        Err(NoMemory)
    }

    /// Branches behind which there are others, or another block.
    #[cycle(parts)]
    fn arms(&mut self, branches: &[Branch], ends: &mut List<u32>, free: u32) -> Result<(), NoMemory>
        ensures { OnOk result (ArmsSaid free (arms_then branches.now) [] ends.old ends.new (state_of self.old) (state_of self.new)) }
    {
        for branch in branches {
            self.arm(branch, ends, free)?;
        }
        Ok(())
    }

    /// A branch behind which there are others, or another block: it jumps to the end, and that jump is put into the list.
    #[cycle(parts)]
    fn arm(&mut self, branch: &Branch, ends: &mut List<u32>, free: u32) -> Result<(), NoMemory>
        ensures { OnOk result (ArmSaid free (branch_seen branch.now) ends.old ends.new (state_of self.old) (state_of self.new)) }
    {
        let mut misses = List::new(self.alloc);
        self.condition(&branch.test, &mut misses, free)?;
        self.block(branch.body.as_slice(), free)?;
        let jump = self.jump_at(Op::Jump { target: OPEN }, 0)?;
        ends.push(jump)?;
        self.land(&misses)
    }

    /// The last branch, which goes on at the end.
    #[cycle(parts)]
    fn last_arm(&mut self, branch: &Branch, free: u32) -> Result<(), NoMemory>
        ensures { OnOk result (ArmsEndSaid free (branch_seen branch.now NoArmC) None (state_of self.old) (state_of self.new)) }
    {
        let mut misses = List::new(self.alloc);
        self.condition(&branch.test, &mut misses, free)?;
        self.block(branch.body.as_slice(), free)?;
        self.settle()?;
        self.land(&misses)
    }
}
