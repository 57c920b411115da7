// A shelf with every slot sealed: it tells what the shelf below holds, and takes no posting.
ghost use Rattle.std.specs.Prelude.{◌≡◌};
ghost use Rattle.layers.specs.Layers.{sealed};
ghost use Rattle.layers.specs.Formed.{sealed_formed};

use fault::Fault;
use shelf::{Mark, Shelf};
use text::Span;
use value::{Kind, Value, is_well_formed};

#[derive(Drop)]
pub struct Sealed<S: Shelf> {
    pub below: S,
}

impl<S: Shelf> Sealed<S> {
    pub fn new(below: S) -> Self
        ensures { sealed (S.slots result.below) ≡ sealed (S.slots below) }
    {
        Sealed { below }
    }
}

impl<S: Shelf> Shelf for Sealed<S> {
    ghost slots = { λ s. sealed (S.slots s.below) };

    ghost formed = { λ s. sealed_formed (S.slots s.below) (S.formed s.below) };

    fn count(&self) -> usize {
        self.below.count()
    }

    fn kind(&self, slot: u32) -> Result<Kind, Fault> {
        self.below.kind(slot)
    }

    fn capacity(&self, slot: u32) -> Result<usize, Fault> {
        self.below.capacity(slot)
    }

    fn mark(&self, slot: u32) -> Result<Mark, Fault> {
        self.below.mark(slot)?;
        Ok(Mark::Sealed)
    }

    fn tell(&mut self, slot: u32, buffer: &mut [u8], place: usize) -> Result<Value<Span>, Fault> {
        self.below.tell(slot, buffer, place)
    }

    fn post(&mut self, slot: u32, value: Value<&[u8]>) -> Result<(), Fault> {
        if !is_well_formed(value) {
            return Err(Fault::Malformed);
        }
        self.mark(slot)?;
        Err(Fault::Sealed)
    }
}
