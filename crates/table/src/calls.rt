// The calls of a table.
ghost use Rattle.std.specs.Prelude.{◌≡◌, Ok, slice_get};
ghost use Rattle.std.specs.Option.{ok_or};
ghost use Rattle.fault.specs.Refusals.{bind};
ghost use Rattle.fault.specs.declared.Fault.TheVariants.{Absent};
ghost use Rattle.value.specs.Values.{meaning};
ghost use Rattle.shelf.specs.Calls.{asked};
ghost use Rattle.table.specs.Formed.{rows_formed};
ghost use Rattle.table.specs.Tables.{table_slots};

use crate::record::Record;
use crate::table::Table;
use fault::Fault;
use shelf::{Mark, Shelf};
use text::{Span, copy_in};
use value::{Kind, Value, is_well_formed, lend, store};

impl<'a> Table<'a> {
    // The record of a slot.
    fn record(&self, slot: u32) -> Result<&Record, Fault>
        ensures { bind result (λ r. Ok r.now) ≡ ok_or (slice_get self.now.records.now slot) Absent }
    {
        self.records.get(slot as usize).ok_or(Fault::Absent)
    }

    // The value of a slot, with its text.
    fn value_at(&self, slot: u32) -> Result<Value<&[u8]>, Fault>
        ensures { bind result (λ v. Ok (meaning (λ x. x.now) v)) ≡ asked (λ s. s.holds) (table_slots self.now) slot }
    {
        let value = self.record(slot)?.value;
        let start = slot as usize * self.capacity;
        Ok(lend(value.map(|len| Span { start, len }), self.texts))
    }
}

impl<'a> Shelf for Table<'a> {
    ghost slots = { λ t. table_slots t };

    ghost formed = { λ t. rows_formed t.records.now t.texts.now t.capacity t.whole };

    fn count(&self) -> usize {
        self.records.len()
    }

    fn kind(&self, slot: u32) -> Result<Kind, Fault> {
        self.record(slot).map(|r| r.value.kind())
    }

    fn capacity(&self, slot: u32) -> Result<usize, Fault> {
        self.record(slot)?;
        Ok(self.capacity)
    }

    fn mark(&self, slot: u32) -> Result<Mark, Fault> {
        self.record(slot).map(|_| Mark::Open)
    }

    fn tell(&mut self, slot: u32, buffer: &mut [u8], place: usize) -> Result<Value<Span>, Fault> {
        store(buffer, place, self.value_at(slot)?)
    }

    fn post(&mut self, slot: u32, value: Value<&[u8]>) -> Result<(), Fault> {
        if !is_well_formed(value) {
            return Err(Fault::Malformed);
        }
        self.record(slot)?;
        let text = value.text().unwrap_or(b"");
        if text.len() > self.capacity {
            return Err(Fault::OverCapacity);
        }
        let k = slot as usize;
        // the slot is blank while its bytes change
        self.records[k].value = Value::Unit;
        copy_in(self.texts, k * self.capacity, text);
        self.records[k].value = value.map(|text| text.len());
        Ok(())
    }
}
