// Handing lines on as they come.
ghost use Rattle.std.specs.Prelude.{◌≡◌, List, [], ℕ, ◌<◌, length, OnOk, Some, None, Option};
ghost use Rattle.std.specs.Io.KnownBytes.{Appends, Consumes, IsAtEnd};
ghost use Rattle.format.specs.Fields.{fields};
ghost use Rattle.input.specs.Lines.{begun, longer, Fed, Answers, Answered, lines};

use crate::begun::Line;
use format::cuts::cut_at;
use std::io;
use std::io::{ErrorKind, Read, Write};

// Who answers lines. (Who answers and where it is written stay two parameters: a struct of both would be made for `serve` only, and
// taken apart in each call.)
pub trait Answerer {
    // what answering a line makes of it, and the bytes of the answer; None is a line that is too long to be kept
    ghost answers: { Self → Option (List ℕ) → Self → List ℕ → Type 0 };

    fn answer<W: Write>(&mut self, line: &[u8], out: &mut W) -> io::Result<()>
        ensures { Answers answers self.old (Some line.now) self.new result (W.contents out.old) (W.contents out.new) };

    // Answers a line that is too long to be kept.
    fn refuse<W: Write>(&mut self, out: &mut W) -> io::Result<()>
        ensures { Answers answers self.old None self.new result (W.contents out.old) (W.contents out.new) };
}

impl Line<'_> {
    // Hands on the line that ends with the part; most lines have not begun before, and are not copied.
    fn hand_on<A: Answerer, W: Write>(
        &mut self,
        part: &[u8],
        answerer: &mut A,
        out: &mut W,
    ) -> io::Result<()>
        ensures answers { Answers A.answers answerer.old (longer (length self.old.buffer.now) (begun self.old.buffer.now self.old.len) part.now) answerer.new result (W.contents out.old) (W.contents out.new) }
        ensures next { begun self.new.buffer.now self.new.len ≡ Some [] }
        ensures room { length self.new.buffer.now ≡ length self.old.buffer.now }
    {
        if self.len == Some(0) && part.len() <= self.buffer.len() {
            return answerer.answer(part, out);
        }
        self.add(part);
        self.end(answerer, out)
    }

    // Hands on every line that ends in the chunk, after what has begun before it, and keeps what begins behind the last.
    pub fn feed<A: Answerer, W: Write>(
        &mut self,
        chunk: &[u8],
        answerer: &mut A,
        out: &mut W,
    ) -> io::Result<()>
        ensures fed { OnOk result ((written : List ℕ)
            × Fed A.answers (length self.old.buffer.now) answerer.old (begun self.old.buffer.now self.old.len) chunk.now answerer.new (begun self.new.buffer.now self.new.len) written
            × Appends (W.contents out.old) (W.contents out.new) written) }
        ensures room { length self.new.buffer.now ≡ length self.old.buffer.now }
    {
        let mut cut = cut_at(chunk, b'\n');
        while let Some(rest) = cut.rest {
            self.hand_on(cut.first, answerer, out)?;
            cut = cut_at(rest, b'\n');
        }
        self.add(cut.first);
        Ok(())
    }
}

// Answers every line of the input; the buffer bounds the length of a line. What is answered is written before the next read, so
// that a person sees it at once.
pub fn serve<R: Read, A: Answerer, W: Write>(
    input: &mut R,
    chunk: &mut [u8],
    buffer: &mut [u8],
    answerer: &mut A,
    out: &mut W,
) -> io::Result<()>
    // to the end, where there is room to read into
    ensures end { OnOk result (0 < length chunk.old → IsAtEnd (R.remaining input.new)) }
    ensures served { OnOk result ((read : List ℕ) × (written : List ℕ)
        × Consumes (R.remaining input.old) (R.remaining input.new) read
        × Answered A.answers answerer.old (lines (length buffer.old) (fields 10 read)) answerer.new written
        × Appends (W.contents out.old) (W.contents out.new) written) }
{
    let mut line = Line::new(buffer);
    // a count that no input reaches, since every loop has to have an end
    for _ in 0..u64::MAX {
        let n = input.read(chunk)?;
        if n == 0 {
            if line.len != Some(0) {
                line.end(answerer, out)?;
            }
            return out.flush();
        }
        line.feed(&chunk[..n], answerer, out)?;
        out.flush()?;
    }
    Err(ErrorKind::TimedOut.into())
}
