//! Code of table constructors. One cycle with `values`.
ghost use Rattle.std.specs.Prelude.{◌≡◌, ◌+◌, ℕ, true, false, IfOk, OnOk};
ghost use Rattle.lua_flat.specs.LuaSlotsCode.{TableC, CFields, NoFieldC, ItemC};
ghost use Rattle.lua_flat.specs.IsExpression.{is_last};
ghost use Rattle.lua_code.specs.Seen.{expression_seen, entry_seen, entries_seen};
ghost use Rattle.lua_flat_code.specs.Making.{state_of};
ghost use Rattle.lua_flat_code.specs.Parts.{Fits, ValueSaid, FieldsStep};

use crate::maker::Maker;
use crate::op::Op;
use crate::operand::Wanted;
use crate::values::is_many;
use lua_code::{Entry, Expression, NoMemory};

/// The place behind this one.
fn next_place(place: u32) -> Result<u32, NoMemory>
    ensures { IfOk result (λ next. next ≡ place + 1) }
{
    match place.checked_add(1) {
        Some(next) => Ok(next),
        None => Err(NoMemory),
    }
}

/// Whether an item has one value: it is not the last one, or is no call and no `...`.
fn has_one(e: &Expression, last: bool) -> bool
    ensures one { result ≡ true → Fits last (expression_seen e.now) }
    ensures all { result ≡ false → last ≡ true }
{
    if last {
        return !is_many(e);
    }
    true
}

impl Maker {
    /// A table comes to a register, which no entry may write.
    #[cycle(values)]
    pub(crate) fn table(
        &mut self,
        entries: &[Entry],
        line: u32,
        to: u32,
        free: u32,
    ) -> Result<(), NoMemory>
        ensures { OnOk result (ValueSaid free (TableC (entries_seen entries.now) line) to (state_of self.old) (state_of self.new)) }
    {
        if to >= free {
            return Err(NoMemory);
        }
        if to >= self.registers {
            return Err(NoMemory);
        }
        self.begin()?;
        self.emit(Op::Table { to })?;
        let mut place = 1u32;
        let mut left = entries.len();
        for entry in entries {
            left -= 1;
            let last = left == 0;
            place = self.entry(entry, last, to, place, line, free)?;
        }
        Ok(())
    }

    /// An entry, where the next item has this place; the place of the item behind it.
    #[cycle(values)]
    fn entry(
        &mut self,
        entry: &Entry,
        last: bool,
        table: u32,
        place: u32,
        line: u32,
        free: u32,
    ) -> Result<u32, NoMemory>
        ensures { IfOk result (λ next. (rest : CFields) → last ≡ is_last rest → FieldsStep free table place line (entry_seen entry.now rest) rest (state_of self.old) (state_of self.new) next) }
    {
        match entry {
            Entry::Item(e) => {
                let next = self.entry_item(e, last, table, place, line, free)?;
                Ok(next)
            }
            Entry::Pair(_, _) => {
                self.pair(entry, table, line, free)?;
                Ok(place)
            }
        }
    }

    /// An item, or items if it is the last one and may have several values.
    #[cycle(values)]
    fn entry_item(
        &mut self,
        e: &Expression,
        last: bool,
        table: u32,
        place: u32,
        line: u32,
        free: u32,
    ) -> Result<u32, NoMemory>
        ensures { IfOk result (λ next. (rest : CFields) → last ≡ is_last rest → FieldsStep free table place line (ItemC (expression_seen e.now) rest) rest (state_of self.old) (state_of self.new) next) }
    {
        let next = next_place(place)?;
        if has_one(e, last) {
            self.item(e, table, place, line, free)?;
            return Ok(next);
        }
        self.items(e, table, place, line, free)?;
        Ok(next)
    }

    /// All values of an expression are items from a place on.
    #[cycle(values)]
    fn items(
        &mut self,
        e: &Expression,
        table: u32,
        place: u32,
        line: u32,
        free: u32,
    ) -> Result<(), NoMemory>
        ensures { OnOk result (FieldsStep free table place line (ItemC (expression_seen e.now) NoFieldC) NoFieldC (state_of self.old) (state_of self.new) (place + 1)) }
    {
        let all = Wanted::every();
        self.many(e, free, all, free)?;
        let op = Op::SetItems {
            table,
            place,
            from: free,
        };
        self.emit_at(op, line)
    }

    /// An item.
    #[cycle(values)]
    fn item(
        &mut self,
        e: &Expression,
        table: u32,
        place: u32,
        line: u32,
        free: u32,
    ) -> Result<(), NoMemory>
        ensures { OnOk result ((rest : CFields) → Fits (is_last rest) (expression_seen e.now) → FieldsStep free table place line (ItemC (expression_seen e.now) rest) rest (state_of self.old) (state_of self.new) (place + 1)) }
    {
        let from = self.operand(e, free)?;
        let op = Op::SetItem {
            table,
            place,
            from: from.operand,
        };
        self.emit_at(op, line)
    }

    /// An entry with a key.
    #[cycle(values)]
    fn pair(&mut self, entry: &Entry, table: u32, line: u32, free: u32) -> Result<(), NoMemory>
        ensures { OnOk result ((rest : CFields) (n : ℕ) → FieldsStep free table n line (entry_seen entry.now rest) rest (state_of self.old) (state_of self.new) n) }
    {
        match entry {
            Entry::Pair(key, e) => {
                let key = self.operand(key, free)?;
                let from = self.operand(e, key.free)?;
                let op = Op::SetField {
                    table,
                    key: key.operand,
                    from: from.operand,
                };
                self.emit_at(op, line)
            }
            Entry::Item(_) => Err(NoMemory),
        }
    }
}
