// The calls of the lines shelf.
ghost use Rattle.lines.specs.Formed.{slots_formed};
ghost use Rattle.lines.specs.Parts.{OnLine};
ghost use Rattle.lines.specs.Shelved.{lines_slots};
ghost use Rattle.lines.specs.Spelled.{lines};

use crate::cutting::{count_lines, line_at};
use crate::line::{Line, parted};
use crate::lines::Lines;
use fault::Fault;
use shelf::{Mark, Shelf};
use text::Span;
use value::{Kind, Value, is_well_formed};

impl<'a> Lines<'a> {
    // The line of a slot.
    fn line(&self, slot: u32) -> Result<Line<'a>, Fault>
        ensures { OnLine (lines_slots self.now) slot result }
    {
        let line = line_at(self.text, slot as usize).ok_or(Fault::Absent)?;
        // each line spells a value
        Ok(parted(line).unwrap())
    }
}

impl<'a> Shelf for Lines<'a> {
    ghost slots = { λ s. lines_slots s };

    ghost formed = { λ s. slots_formed (lines s.text.now) s.values };

    fn count(&self) -> usize {
        count_lines(self.text)
    }

    fn kind(&self, slot: u32) -> Result<Kind, Fault> {
        Ok(self.line(slot)?.kind)
    }

    fn capacity(&self, slot: u32) -> Result<usize, Fault> {
        Ok(self.line(slot)?.text_len())
    }

    fn mark(&self, slot: u32) -> Result<Mark, Fault> {
        self.line(slot)?;
        Ok(Mark::Sealed)
    }

    fn tell(&mut self, slot: u32, buffer: &mut [u8], place: usize) -> Result<Value<Span>, Fault> {
        self.line(slot)?.tell(buffer, place)
    }

    fn post(&mut self, slot: u32, value: Value<&[u8]>) -> Result<(), Fault> {
        if !is_well_formed(value) {
            return Err(Fault::Malformed);
        }
        self.line(slot)?;
        Err(Fault::Sealed)
    }
}
