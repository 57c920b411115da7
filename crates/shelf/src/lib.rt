// What every shelf is: a fixed count of slots, each with a value, a capacity and a mark, and six calls on them.
#![tactic(auto)]

ghost use Rattle.std.specs.Prelude.{◌≡◌, true, List, length};
ghost use Rattle.value.specs.Values.{meaning};
ghost use Rattle.shelf.specs.Slots.{Slot, all_formed};
ghost use Rattle.shelf.specs.Calls.{asked_kind, asked_capacity, asked_mark, told, posted};

pub mod mark;

use fault::Fault;
pub use mark::Mark;
use text::Span;
use value::{Kind, Value};

pub trait Shelf {
    // what the shelf means: its slots in their order
    ghost slots: { Self → List Slot };

    // a proof that its values are well formed
    ghost formed: { (x : Self) → all_formed (slots x) ≡ true };

    fn count(&self) -> usize
        ensures { result ≡ length (slots self.now) };

    fn kind(&self, slot: u32) -> Result<Kind, Fault>
        ensures { result ≡ asked_kind (slots self.now) slot };

    fn capacity(&self, slot: u32) -> Result<usize, Fault>
        ensures { result ≡ asked_capacity (slots self.now) slot };

    fn mark(&self, slot: u32) -> Result<Mark, Fault>
        ensures { result ≡ asked_mark (slots self.now) slot };

    // Copies the slot's text into the buffer at the place, and gives the value. The shelf is lent as `&mut`, so that a make may remember
    // what it found; that the slots stay is therefore a clause, here and of each call that lends it on.
    fn tell(&mut self, slot: u32, buffer: &mut [u8], place: usize) -> Result<Value<Span>, Fault>
        ensures answer { result ≡ (told (slots self.old) slot buffer.old place).answer }
        ensures bytes { buffer.new ≡ (told (slots self.old) slot buffer.old place).bytes }
        ensures same { slots self.new ≡ slots self.old };

    // Replaces the slot's value.
    fn post(&mut self, slot: u32, value: Value<&[u8]>) -> Result<(), Fault>
        ensures answer { result ≡ (posted (slots self.old) slot (meaning (λ x. x.now) value.entry)).answer }
        ensures after { slots self.new ≡ (posted (slots self.old) slot (meaning (λ x. x.now) value.entry)).after };
}
