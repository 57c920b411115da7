// Who answers lines: a desk, with the buffers that a line needs.
ghost use Rattle.std.specs.Prelude.{◌≡◌, []};
ghost use Rattle.desk.specs.Desks.{Reached};
ghost use Rattle.clerk.specs.Clerks.{AnswersLine};

use desk::Desk;
use fault::Fault;
use input::Answerer;
use line::{Scratch, answer_of, serve_line};
use shelf::Shelf;
use show::Answer;
use std::io;
use std::io::Write;

#[derive(Drop)]
pub struct Clerk<S: Shelf> {
    pub desk: Desk<S>,
    // where a posted text is read; both buffers are fixed, so that a line takes no memory
    pub scratch: Scratch,
    // where a run puts texts
    pub work: [u8; 4096],
}

impl<S: Shelf> Clerk<S> {
    pub fn new(shelf: S) -> Self
        ensures { Reached (S.slots shelf) [] (S.slots result.desk.shelf) result.desk.rule }
    {
        Clerk {
            desk: Desk::new(shelf),
            scratch: [0; 2048],
            work: [0; 4096],
        }
    }
}

impl<S: Shelf> Answerer for Clerk<S> {
    ghost answers = { λ c line d bytes. AnswersLine line (S.slots c.desk.shelf) c.desk.rule c.work (S.slots d.desk.shelf) d.desk.rule d.work bytes };

    fn answer<W: Write>(&mut self, line: &[u8], out: &mut W) -> io::Result<()> {
        let reply = serve_line(&mut self.desk, line, &mut self.scratch, &mut self.work);
        writeln!(out, "{}", answer_of(reply, &self.work))
    }

    fn refuse<W: Write>(&mut self, out: &mut W) -> io::Result<()> {
        writeln!(out, "{}", Answer(Err(Fault::BadLine.into())))
    }
}
