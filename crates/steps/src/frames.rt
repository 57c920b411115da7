// The calls on a frame.
ghost use Rattle.std.specs.Prelude.{◌≡◌, ◌<◌, [], replicate, OnErr};
ghost use Rattle.steps.specs.Walk.{entries, pushed, popped, kept, finish};
ghost use Rattle.steps.specs.Frames.{held, leaving, done};

use crate::frame::Frame;
use fault::{Fault, Refusal};

impl<T: Copy> Frame<T> {
    // An empty stack, and every local the same.
    pub fn new(first: T) -> Self
        ensures { held result ≡ entries [] (replicate 8 first) }
    {
        Frame {
            stack: [first; 16],
            count: 0,
            locals: [first; 8],
        }
    }

    pub fn push(&mut self, x: T) -> Result<(), Fault>
        ensures answer { pushed x (held self.old) ≡ done result (held self.new) }
        ensures left { OnErr result (held self.new ≡ held self.old) }
    {
        if self.count >= 16 {
            return Err(Fault::Stack);
        }
        self.stack[self.count] = x;
        self.count += 1;
        Ok(())
    }

    pub fn pop(&mut self) -> Result<T, Fault>
        ensures answer { popped (held self.old) ≡ leaving result (held self.new) }
        ensures left { OnErr result (held self.new ≡ held self.old) }
    {
        if self.count == 0 {
            return Err(Fault::Stack);
        }
        self.count -= 1;
        Ok(self.stack[self.count])
    }

    // The only entry of the stack, or a refusal at the place.
    pub fn only(&self, place: usize) -> Result<T, Refusal>
        ensures { result ≡ finish place (held self.now).stack }
    {
        if self.count == 1 {
            Ok(self.stack[0])
        } else {
            Err(Refusal {
                fault: Fault::Stack,
                place,
            })
        }
    }
}
