// The one call on a desk.
ghost use Rattle.std.specs.Prelude.{◌≡◌, []};
ghost use Rattle.fault.specs.Outcomes.{beside};
ghost use Rattle.desk.specs.Book.{event, feed, answered};
ghost use Rattle.desk.specs.Desks.{Reached, Served, WithinWork, WorkFormed, desk_of, meant_by};

use crate::call::{Call, Reply};
use crate::desk::Desk;
use fault::Refusal;
use rule::Rule;
use shelf::Shelf;

impl<S: Shelf> Desk<S> {
    // A desk with an open, empty rule.
    pub fn new(shelf: S) -> Self
        ensures { Reached (S.slots shelf) [] (S.slots result.shelf) result.rule }
    {
        Desk {
            shelf,
            rule: Rule::new(),
        }
    }

    fn answer(&mut self, call: Call, work: &mut [u8]) -> Result<Reply, Refusal>
        ensures answer { answered (desk_of (S.slots self.old.shelf) self.old.rule) (event call.entry) work.old ≡ beside work.new (meant_by work.new result) }
        ensures after { desk_of (S.slots self.new.shelf) self.new.rule ≡ feed (desk_of (S.slots self.old.shelf) self.old.rule) (event call.entry) }
        ensures within { WithinWork work.new result }
        ensures formed { WorkFormed work.new result }
    {
        match call {
            Call::Post { slot, value } => {
                self.shelf.post(slot, value)?;
                Ok(Reply::Done)
            }
            Call::Tell { slot, place } => {
                let value = self.shelf.tell(slot, work, place)?;
                Ok(Reply::Value(value))
            }
            Call::Count => Ok(Reply::Number(self.shelf.count())),
            Call::Kind(slot) => Ok(Reply::Kind(self.shelf.kind(slot)?)),
            Call::Capacity(slot) => Ok(Reply::Number(self.shelf.capacity(slot)?)),
            Call::Mark(slot) => Ok(Reply::Mark(self.shelf.mark(slot)?)),
            Call::Clear => {
                self.rule.clear();
                Ok(Reply::Done)
            }
            Call::Add(step) => {
                self.rule.add(step)?;
                Ok(Reply::Done)
            }
            Call::Check => Ok(Reply::Kinds(self.rule.check(&self.shelf)?)),
            Call::Run(limits) => Ok(Reply::Value(self.rule.run(&mut self.shelf, limits, work)?)),
        }
    }

    // Serves a call: the main theorem is about this function.
    pub fn serve(&mut self, call: Call, work: &mut [u8]) -> Result<Reply, Refusal>
        ensures served { Served (S.slots self.old.shelf) self.old.rule (event call.entry) work.old result work.new (S.slots self.new.shelf) self.new.rule }
        ensures within { WithinWork work.new result }
        ensures formed { WorkFormed work.new result }
    {
        self.answer(call, work)
    }
}
