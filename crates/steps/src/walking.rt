// The walk over the steps of a rule, the same for every machine.
ghost use Rattle.std.specs.Prelude.{◌≡◌, Ok};
ghost use Rattle.std.specs.Mem.{FitsInMemory};
ghost use Rattle.steps.specs.contracts.frame.Frame.{the_row};
ghost use Rattle.steps.specs.Steps.{takes};
ghost use Rattle.steps.specs.Walk.{step as stepped, walk as walked};
ghost use Rattle.steps.specs.Frames.{held};
ghost use Rattle.steps.specs.Machines.{meanings, AllHeld, Comes, Advances};

use crate::frame::Frame;
use crate::machine::Machine;
use crate::step::Step;
use crate::taken::Taken;
use fault::{Fault, Refusal, placed};
use value::Value;

fn advance<M: Machine>(
    step: Step,
    frame: &mut Frame<M::Entry>,
    machine: &mut M,
) -> Result<(), Fault>
    requires taken { takes step ≡ Ok tt }
    requires held { AllHeld (M.holds machine.old) (held frame.old) }
    ensures advances { Advances (M.means machine.new) (M.holds machine.new) (M.world machine.new) (stepped (M.does machine.old) step (meanings (M.means machine.old) (held frame.old)) (M.world machine.old)) result (held frame.new) }
    ensures later { M.later machine.old machine.new }
{
    match step {
        Step::Put(literal) => frame.push(machine.put(literal)),
        Step::Slot(slot) => frame.push(machine.load(slot)?),
        Step::Local(local) => {
            let entry = frame.locals[local as usize];
            frame.push(entry)
        }
        Step::Keep(local) => {
            frame.locals[local as usize] = frame.pop()?;
            Ok(())
        }
        Step::Apply(op) => {
            let right = frame.pop()?;
            let left = frame.pop()?;
            frame.push(machine.apply(op, left, right)?)
        }
        Step::Assign { op, local } => {
            let right = frame.pop()?;
            machine.assign(op, &mut frame.locals[local as usize], right)
        }
    }
}

// The one entry that is left at the end, or the first refusal with the place of its step. What it requires holds wherever the size
// of an entry is known.
pub fn walk<M: Machine>(steps: Taken, machine: &mut M) -> Result<M::Entry, Refusal>
    requires { FitsInMemory (the_row M.Entry.row) }
    ensures comes { Comes (M.means machine.new) (M.holds machine.new) (M.world machine.new) (walked (M.does machine.old) steps.entry.list.now (M.world machine.old)) result }
    ensures later { M.later machine.old machine.new }
{
    let mut frame = Frame::new(machine.put(Value::Unit));
    for (place, step) in steps.list.iter().enumerate() {
        placed(advance(*step, &mut frame, machine), place)?;
    }
    frame.only(steps.list.len())
}
