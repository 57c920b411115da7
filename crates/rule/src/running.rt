// A run: the walk over values, whose texts are in the work buffer.
ghost use Rattle.std.specs.Prelude.{◌≡◌, ◌≤◌, length};
ghost use Rattle.shelf.specs.Slots.{holding};
ghost use Rattle.routines.specs.Works.{Kept};
ghost use Rattle.operators.specs.Rooms.{room, Gives};
ghost use Rattle.value.specs.Values.{meant};
ghost use Rattle.operators.specs.Applied.{Held};
ghost use Rattle.steps.specs.Machines.{Comes};
ghost use Rattle.steps.specs.Walk.{walk as stepped};
ghost use Rattle.rule.specs.Later.{Later};
ghost use Rattle.rule.specs.Run.{loaded, values, walked, Walks, Ends};

use fault::{Fault, Refusal};
use operators::{FnBuiltin, Work, apply_held, assign_held};
use routines::Limits;
use shelf::Shelf;
use steps::{Machine, Taken, walk};
use text::Span;
use value::{MOST_BYTES, Op, Value};

// The value of a slot, its text behind the others. (That a work buffer is no longer than a text may be is asked here, and is the
// machine's ghost field below: the routines take a buffer of any length. That the slots stay as they were is a clause wherever a shelf
// is lent as `&mut`, which it is so that a make of shelf may remember what it found.)
fn load<S: Shelf>(slot: u32, shelf: &mut S, work: &mut Work) -> Result<Value<Span>, Fault>
    requires { length work.old.bytes.now ≤ 65536 }
    ensures gives { Gives work.old.bytes.now work.old.fill (loaded (holding (S.slots shelf.old) slot) (room work.old.fill work.old.bytes.now)) result work.new.bytes.now work.new.fill }
    ensures kept { Kept work.old work.new }
    ensures same { S.slots shelf.new ≡ S.slots shelf.old }
{
    let value = shelf.tell(slot, work.bytes, work.fill)?;
    if let Some(span) = value.text() {
        work.fill = span.start + span.len;
    }
    Ok(value)
}

// The machine of a run: a slot's text goes to the work buffer, as a new one does.
#[derive(Drop)]
struct Values<'a, 'b, 'c, S> {
    shelf: &'a mut S,
    work: &'b mut Work<'c>,
    ghost short: { length work.now.bytes.now ≤ 65536 },
}

impl<S: Shelf> Machine for Values<'_, '_, '_, S> {
    ghost use Rattle.std.proofs.Common.{refl, ◌∙◌};
    ghost use Rattle.value.specs.Values.{Meaning};
    ghost use Rattle.operators.specs.Rooms.{Room};
    ghost use Rattle.rule.specs.Later.{later_itself, later_on, later_keeps};

    type Entry = Value<Span>;

    ghost World = { Room };

    ghost Meant = { Meaning };

    ghost does = { λ m. values m.work.now.limits (holding (S.slots m.shelf.now)) };

    ghost world = { λ m. room m.work.now.fill m.work.now.bytes.now };

    ghost means = { λ m v. meant m.work.now.bytes.now v };

    ghost holds = { λ m v. Held m.work.now.bytes.now m.work.now.fill v };

    ghost later = { λ a b. (b.shelf.ghost_name ≡ a.shelf.ghost_name) × (b.work.ghost_name ≡ a.work.ghost_name) × Later (S.slots a.shelf.now) a.work.now (S.slots b.shelf.now) b.work.now };

    ghost at_once = { λ a. (refl, refl, later_itself (S.slots a.shelf.now) a.work.now) };

    ghost leads_on = { λ a b c p q. (q.0 ∙ p.0, q.1 ∙ p.1, later_on (S.slots a.shelf.now) a.work.now (S.slots b.shelf.now) b.work.now (S.slots c.shelf.now) c.work.now p.2 q.2) };

    ghost keeps = { λ a b p. later_keeps (S.slots a.shelf.now) a.work.now (S.slots b.shelf.now) b.work.now p.2 };

    fn put(&self, literal: Value<Span>) -> Value<Span> {
        literal
    }

    fn load(&mut self, slot: u32) -> Result<Value<Span>, Fault> {
        load(slot, self.shelf, self.work)
    }

    fn apply(
        &mut self,
        op: Op,
        left: Value<Span>,
        right: Value<Span>,
    ) -> Result<Value<Span>, Fault> {
        apply_held::<FnBuiltin>(op, left, right, self.work)
    }

    fn assign(&mut self, op: Op, local: &mut Value<Span>, right: Value<Span>) -> Result<(), Fault> {
        assign_held(op, local, right, self.work)
    }
}

// The walk behind the texts of the work buffer.
fn walk_behind<S: Shelf>(
    steps: Taken,
    shelf: &mut S,
    work: &mut Work,
) -> Result<Value<Span>, Refusal>
    requires { length work.old.bytes.now ≤ 65536 }
    ensures comes { Comes (meant work.new.bytes.now) (Held work.new.bytes.now work.new.fill) (room work.new.fill work.new.bytes.now) (stepped (values work.old.limits (holding (S.slots shelf.old))) steps.entry.list.now (room work.old.fill work.old.bytes.now)) result }
    ensures later { Later (S.slots shelf.old) work.old (S.slots shelf.new) work.new }
    ensures kept { Kept work.old work.new }
{
    let mut machine = Values { shelf, work };
    walk(steps, &mut machine)
}

// The walk in a work buffer of at most 65,536 bytes.
fn walk_steps<S: Shelf>(
    steps: Taken,
    shelf: &mut S,
    limits: Limits,
    bytes: &mut [u8],
) -> Result<Value<Span>, Refusal>
    requires { length bytes.old ≤ 65536 }
    ensures walks { Walks limits (holding (S.slots shelf.old)) steps.entry.list.now bytes.old result bytes.new }
    ensures same { S.slots shelf.new ≡ S.slots shelf.old }
{
    let mut work = Work {
        limits,
        bytes,
        fill: 0,
    };
    walk_behind(steps, shelf, &mut work)
}

// The walk in the first 65,536 bytes of a work buffer, as many as one text may have.
pub(crate) fn run_steps<S: Shelf>(
    steps: Taken,
    shelf: &mut S,
    limits: Limits,
    work: &mut [u8],
) -> Result<Value<Span>, Refusal>
    ensures ends { Ends (walked limits (holding (S.slots shelf.old)) steps.entry.list.now work.old) result work.new }
    ensures same { S.slots shelf.new ≡ S.slots shelf.old }
{
    let room = work.len().min(MOST_BYTES);
    walk_steps(steps, shelf, limits, &mut work[0..room])
}
