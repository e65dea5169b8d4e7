//! Code of assignments (manual 2.4.3).
ghost use Rattle.std.specs.Prelude.{◌≡◌, ◌+◌, true, [], ◌∷◌, map, IfSome, IfOk, OnOk};
ghost use Rattle.lua_flat.specs.LuaSlotsCode.{Reg, AssignC, EntryC, PlaceC, RefusedC, MoreC, NoC};
ghost use Rattle.lua_flat.specs.IsStatement.{writes_last as last_alone};
ghost use Rattle.lua_code.specs.Seen.{place_seen, target_seen, expression_seen, expressions_seen};
ghost use Rattle.lua_flat_code.specs.Making.{state_of};
ghost use Rattle.lua_flat_code.specs.Whole.{BegunStat};
ghost use Rattle.lua_flat_code.specs.Targets.{VariableSaid, SettingSaid, SetSaid, EntrySaid, TargetSaid, TargetsSaid, SetsSaid};

use crate::maker::{Maker, short};
use crate::op::Op;
use crate::operand::{MOST, Operand};
use lua_code::{Expression, List, NoMemory, Place, Target};

/// A target that is found, as an operation sets it.
#[derive(Clone, Copy)]
pub(crate) enum Found {
    Register(u32),
    Cell(u32),
    Captured(u32),
    Global(u32, u32),
    Entry(Operand, Operand, u32),
}

/// Targets that are found, or not, since one can't be assigned to; the next free register.
#[derive(Drop)]
pub(crate) struct AllFound {
    pub(crate) found: List<Found>,
    pub(crate) free: u32,
    pub(crate) refused: bool,
}

/// Whether its register is written by its last operation alone, and so may be that of a variable that it reads.
fn writes_last(e: &Expression) -> bool
    ensures { result ≡ last_alone (expression_seen e.now) }
{
    match e {
        Expression::Table(_, _) => false,
        Expression::And(_, _) => false,
        Expression::Or(_, _) => false,
        Expression::Paren(_) => false,
        Expression::Dots => true,
        Expression::Call(_, _, _) => true,
        Expression::Method(_, _, _, _) => true,
        Expression::Nil => true,
        Expression::Truth(_) => true,
        Expression::Number(_) => true,
        Expression::Text(_) => true,
        Expression::Function(_, _) => true,
        Expression::Local(_) => true,
        Expression::Global(_, _) => true,
        Expression::Index(_, _, _) => true,
        Expression::Operate(_, _, _, _) => true,
        Expression::Unary(_, _, _) => true,
    }
}

/// Whether it can't be assigned to.
fn is_refused(target: &Target) -> bool
    ensures { result ≡ true → target_seen target.now ≡ RefusedC }
{
    match target {
        Target::Refused => true,
        _ => false,
    }
}

/// One target with one value, if there are no others.
#[tactic(auto, using(crate::proofs::Handed::only_one))]
fn single<'a>(
    targets: &'a [Target],
    values: &'a [Expression],
) -> Option<(&'a Target, &'a Expression)>
    ensures { IfSome result (λ p. (targets.now ≡ p.0.now ∷ []) × (values.now ≡ p.1.now ∷ [])) }
{
    if targets.len() != 1 {
        return None;
    }
    if values.len() != 1 {
        return None;
    }
    Some((&targets[0], &values[0]))
}

impl Maker {
    /// `targets = values`
    pub(crate) fn assign(
        &mut self,
        targets: &[Target],
        values: &[Expression],
        free: u32,
    ) -> Result<(), NoMemory>
        ensures { OnOk result (BegunStat free (AssignC (map target_seen targets.now) (expressions_seen values.now)) (state_of self.old) (state_of self.new)) }
    {
        match single(targets, values) {
            Some((target, e)) => self.assign_one(target, e, free),
            None => self.assign_many(targets, values, free),
        }
    }

    /// `target = e`
    fn assign_one(&mut self, target: &Target, e: &Expression, free: u32) -> Result<(), NoMemory>
        ensures { OnOk result (BegunStat free (AssignC (target_seen target.now ∷ []) (MoreC (expression_seen e.now) NoC)) (state_of self.old) (state_of self.new)) }
    {
        match target {
            Target::At(of, key, line) => self.assign_entry(of, key, *line, e, free),
            Target::Variable(place) => self.assign_place(*place, e, free),
            _ => self.assign_variable(target, e, free),
        }
    }

    /// A local variable.
    fn assign_place(&mut self, place: Place, e: &Expression, free: u32) -> Result<(), NoMemory>
        ensures { OnOk result (BegunStat free (AssignC (PlaceC (place_seen place) ∷ []) (MoreC (expression_seen e.now) NoC)) (state_of self.old) (state_of self.new)) }
    {
        match place {
            Place::Register(at) => self.assign_plain(at, e, free),
            _ => {
                let target = self.place_target(place)?;
                let from = self.operand(e, free)?;
                self.set(target, from.operand)
            }
        }
    }

    /// `of[key] = e`
    fn assign_entry(
        &mut self,
        of: &Expression,
        key: &Expression,
        line: u32,
        e: &Expression,
        free: u32,
    ) -> Result<(), NoMemory>
        ensures { OnOk result (BegunStat free (AssignC (EntryC (expression_seen of.now) (expression_seen key.now) line ∷ []) (MoreC (expression_seen e.now) NoC)) (state_of self.old) (state_of self.new)) }
    {
        self.begin()?;
        let of = self.operand(of, free)?;
        let key = self.operand(key, of.free)?;
        let from = self.operand(e, key.free)?;
        let op = Op::SetIndex {
            of: of.operand,
            key: key.operand,
            from: from.operand,
        };
        self.emit_at(op, line)
    }

    /// A plain local variable, which an expression is made into where its last operation alone writes it.
    fn assign_plain(&mut self, at: usize, e: &Expression, free: u32) -> Result<(), NoMemory>
        ensures { OnOk result (BegunStat free (AssignC (PlaceC (Reg at) ∷ []) (MoreC (expression_seen e.now) NoC)) (state_of self.old) (state_of self.new)) }
    {
        let to = self.plain(at)?;
        if writes_last(e) {
            return self.value(e, to, free);
        }
        let from = self.operand(e, free)?;
        self.set(Found::Register(to), from.operand)
    }

    /// `name = e`
    fn assign_variable(
        &mut self,
        target: &Target,
        e: &Expression,
        free: u32,
    ) -> Result<(), NoMemory>
        ensures { OnOk result (BegunStat free (AssignC (target_seen target.now ∷ []) (MoreC (expression_seen e.now) NoC)) (state_of self.old) (state_of self.new)) }
    {
        let target = self.variable_target(target)?;
        let from = self.operand(e, free)?;
        self.set(target, from.operand)
    }

    /// Several values: they stand in a row, and each target is set from the last to the first.
    fn assign_many(
        &mut self,
        targets: &[Target],
        values: &[Expression],
        free: u32,
    ) -> Result<(), NoMemory>
        ensures { OnOk result (BegunStat free (AssignC (map target_seen targets.now) (expressions_seen values.now)) (state_of self.old) (state_of self.new)) }
    {
        let all = self.targets(targets, free)?;
        if all.refused {
            return self.emit(Op::Refuse);
        }
        let count = short(targets.len())?;
        self.take(all.free, count)?;
        self.exact(values, all.free, count)?;
        self.set_all(all.found.as_slice(), all.free)
    }

    /// Targets are found from left to right, up to one that can't be assigned to.
    fn targets(&mut self, targets: &[Target], free: u32) -> Result<AllFound, NoMemory>
        ensures { IfOk result (λ all. TargetsSaid free (map target_seen targets.now) (state_of self.old) (state_of self.new) all) }
    {
        let mut found = List::new(self.alloc);
        let mut at = free;
        for target in targets {
            if is_refused(target) {
                return Ok(AllFound {
                    found,
                    free: at,
                    refused: true,
                });
            }
            at = self.target(target, &mut found, at)?;
        }
        Ok(AllFound {
            found,
            free: at,
            refused: false,
        })
    }

    /// A target is found, and put behind those before it; the next free register.
    fn target(
        &mut self,
        target: &Target,
        found: &mut List<Found>,
        free: u32,
    ) -> Result<u32, NoMemory>
        ensures { IfOk result (λ next. TargetSaid free (target_seen target.now) found.old found.new (state_of self.old) (state_of self.new) next) }
    {
        match target {
            Target::At(of, key, line) => {
                let next = self.entry_target(of, key, free)?;
                let table = Operand::register(free)?;
                let place = Operand::register(next - 1)?;
                found.push(Found::Entry(table, place, *line))?;
                Ok(next)
            }
            _ => {
                let variable = self.variable_target(target)?;
                found.push(variable)?;
                Ok(free)
            }
        }
    }

    /// A table and a key come to registers of their own; the next register.
    fn entry_target(
        &mut self,
        of: &Expression,
        key: &Expression,
        free: u32,
    ) -> Result<u32, NoMemory>
        ensures { IfOk result (λ next. EntrySaid free (expression_seen of.now) (expression_seen key.now) (state_of self.old) (state_of self.new) next) }
    {
        self.begin()?;
        let end = self.take(free, 2)?;
        self.value(of, free, end - 1)?;
        self.value(key, end - 1, end)?;
        Ok(end)
    }

    /// A target that needs no operation to be found.
    fn variable_target(&self, target: &Target) -> Result<Found, NoMemory>
        ensures { IfOk result (λ t. VariableSaid (state_of self.now) (target_seen target.now) t) }
    {
        match target {
            Target::Variable(place) => {
                let found = self.place_target(*place)?;
                Ok(found)
            }
            Target::Global(name, line) => Ok(Found::Global(*name, *line)),
            _ => Err(NoMemory),
        }
    }

    /// A local variable.
    fn place_target(&self, place: Place) -> Result<Found, NoMemory>
        ensures { IfOk result (λ t. VariableSaid (state_of self.now) (PlaceC (place_seen place)) t) }
    {
        match place {
            Place::Register(at) => {
                let register = self.plain(at)?;
                Ok(Found::Register(register))
            }
            Place::Cell(at) => {
                let register = self.cell(at)?;
                Ok(Found::Cell(register))
            }
            Place::Captured(at) => {
                let number = short(at)?;
                Ok(Found::Captured(number))
            }
        }
    }

    /// Targets get the values from a register on, the last one first.
    fn set_all(&mut self, found: &[Found], first: u32) -> Result<(), NoMemory>
        ensures { OnOk result (SetsSaid found.now first (state_of self.old) (state_of self.new)) }
    {
        let mut left = found;
        'targets: while let Some((target, rest)) = left.split_last() {
            self.set_at(*target, first, rest.len())?;
            left = rest;
        }
        Ok(())
    }

    /// A target gets the value of so many registers behind this one.
    fn set_at(&mut self, target: Found, first: u32, behind: usize) -> Result<(), NoMemory>
        ensures { OnOk result (SetSaid target (first + behind) (state_of self.old) (state_of self.new)) }
    {
        let behind = short(behind)?;
        if first >= MOST || behind >= MOST {
            return Err(NoMemory);
        }
        let from = Operand::register(first + behind)?;
        self.set(target, from)
    }

    /// A target gets a value.
    fn set(&mut self, target: Found, from: Operand) -> Result<(), NoMemory>
        ensures { OnOk result (SettingSaid target from (state_of self.old) (state_of self.new)) }
    {
        match target {
            Found::Register(to) => self.emit(Op::Load { to, from }),
            Found::Cell(cell) => self.emit(Op::SetCell { cell, from }),
            Found::Captured(captured) => self.emit(Op::SetUp { captured, from }),
            Found::Global(name, line) => self.emit_at(Op::SetGlobal { name, from }, line),
            Found::Entry(of, key, line) => self.emit_at(Op::SetIndex { of, key, from }, line),
        }
    }
}
