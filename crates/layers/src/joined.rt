// Two shelves as one: the slots of the second behind those of the first, and of these the first 65,536.
ghost use Rattle.std.specs.Prelude.{◌≡◌, length};
ghost use Rattle.layers.specs.Layers.{joined};
ghost use Rattle.layers.specs.Formed.{joined_formed};
ghost use Rattle.layers.specs.Sides.{side_of};

use fault::Fault;
use shelf::{Mark, Shelf};
use text::Span;
use value::{Kind, Value, is_well_formed};

// How many slots are shown at most.
const MOST: usize = 65536;

#[derive(Drop)]
pub struct Joined<P: Shelf, Q: Shelf> {
    pub first: P,
    pub second: Q,
}

// Which of the two has a slot, and under which number.
#[derive(Clone, Copy)]
enum Side {
    First(u32),
    Second(u32),
}

impl<P: Shelf, Q: Shelf> Joined<P, Q> {
    pub fn new(first: P, second: Q) -> Self
        ensures { joined (P.Shelf.slots result.first) (Q.Shelf.slots result.second) ≡ joined (P.Shelf.slots first) (Q.Shelf.slots second) }
    {
        Joined { first, second }
    }

    // Where the slot is: the numbers of the second begin where those of the first end.
    fn side(&self, slot: u32) -> Result<Side, Fault>
        ensures { result ≡ side_of (length (P.Shelf.slots self.now.first)) slot }
    {
        if slot as usize >= MOST {
            return Err(Fault::Absent);
        }
        let count = self.first.count();
        if (slot as usize) < count {
            return Ok(Side::First(slot));
        }
        Ok(Side::Second(slot - count as u32))
    }
}

// The questions are alike, and stay: one function of them would take a closure for each of the shelves, and be no plainer.
impl<P: Shelf, Q: Shelf> Shelf for Joined<P, Q> {
    ghost slots = { λ s. joined (P.Shelf.slots s.first) (Q.Shelf.slots s.second) };

    ghost formed = { λ s. joined_formed (P.Shelf.slots s.first) (Q.Shelf.slots s.second) (P.Shelf.formed s.first) (Q.Shelf.formed s.second) };

    fn count(&self) -> usize {
        // each is cut before the sum, which then cannot overflow
        let first = self.first.count().min(MOST);
        let second = self.second.count().min(MOST);
        (first + second).min(MOST)
    }

    fn kind(&self, slot: u32) -> Result<Kind, Fault> {
        match self.side(slot)? {
            Side::First(k) => self.first.kind(k),
            Side::Second(k) => self.second.kind(k),
        }
    }

    fn capacity(&self, slot: u32) -> Result<usize, Fault> {
        match self.side(slot)? {
            Side::First(k) => self.first.capacity(k),
            Side::Second(k) => self.second.capacity(k),
        }
    }

    fn mark(&self, slot: u32) -> Result<Mark, Fault> {
        match self.side(slot)? {
            Side::First(k) => self.first.mark(k),
            Side::Second(k) => self.second.mark(k),
        }
    }

    fn tell(&mut self, slot: u32, buffer: &mut [u8], place: usize) -> Result<Value<Span>, Fault> {
        match self.side(slot)? {
            Side::First(k) => self.first.tell(k, buffer, place),
            Side::Second(k) => self.second.tell(k, buffer, place),
        }
    }

    fn post(&mut self, slot: u32, value: Value<&[u8]>) -> Result<(), Fault> {
        match self.side(slot) {
            Ok(Side::First(k)) => self.first.post(k, value),
            Ok(Side::Second(k)) => self.second.post(k, value),
            // the shelf that has the slot tests the value; here, where none has, it is tested first
            Err(fault) if is_well_formed(value) => Err(fault),
            Err(_) => Err(Fault::Malformed),
        }
    }
}
