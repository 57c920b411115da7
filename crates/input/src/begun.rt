// The line that has begun and whose end has not come yet.
ghost use Rattle.std.specs.Prelude.{◌≡◌, ℕ, ◌≤◌, [], length, Some};
ghost use Rattle.input.specs.Lines.{begun, longer, Answers};

use crate::reading::Answerer;
use std::io::Write;
use std::{io, mem};

// What has come of it: so many bytes, at the front of the buffer, or None where it is more than the buffer holds. The buffer is
// lent, so that lines take no memory.
#[derive(Drop)]
pub struct Line<'a> {
    pub buffer: &'a mut [u8],
    pub len: Option<usize>,
    pub ghost inside: { (n : ℕ) → len ≡ Some n → n ≤ length buffer.now },
}

impl<'a> Line<'a> {
    // Nothing has come yet. (That the buffer keeps its length is a clause of each call: a `&mut` field may be set to another buffer.)
    pub fn new(buffer: &'a mut [u8]) -> Self
        ensures begun { begun result.buffer.now result.len ≡ Some [] }
        ensures room { length result.buffer.now ≡ length buffer.old }
    {
        Line {
            buffer,
            len: Some(0),
        }
    }

    // One more part, as far as the buffer holds it.
    pub(crate) fn add(&mut self, part: &[u8])
        ensures longer { begun self.new.buffer.now self.new.len ≡ longer (length self.old.buffer.now) (begun self.old.buffer.now self.old.len) part.now }
        ensures room { length self.new.buffer.now ≡ length self.old.buffer.now }
    {
        self.len = match self.len {
            Some(len) if part.len() <= self.buffer.len() - len => {
                let end = len + part.len();
                self.buffer[len..end].copy_from_slice(part);
                Some(end)
            }
            _ => None,
        };
    }

    // Hands the line on, and begins the next.
    pub(crate) fn end<A: Answerer, W: Write>(
        &mut self,
        answerer: &mut A,
        out: &mut W,
    ) -> io::Result<()>
        ensures answers { Answers A.answers answerer.old (begun self.old.buffer.now self.old.len) answerer.new result (W.contents out.old) (W.contents out.new) }
        ensures next { begun self.new.buffer.now self.new.len ≡ Some [] }
        ensures room { length self.new.buffer.now ≡ length self.old.buffer.now }
    {
        match mem::replace(&mut self.len, Some(0)) {
            Some(len) => answerer.answer(&self.buffer[..len], out),
            None => answerer.refuse(out),
        }
    }
}
