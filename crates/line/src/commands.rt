// Reading a line into a command.
ghost use Rattle.std.specs.Prelude.{◌≡◌, Some};
ghost use Rattle.format.specs.Names.{kind_named, assign_named};
ghost use Rattle.line.specs.Forms.{spelled, line_form};
ghost use Rattle.line.specs.Asked.{AsksPost, AsksPut, AsksSet, Asks};
ghost use Rattle.line.specs.Commands.{asked_by, InsideIfOk};

use crate::command::Command;
use crate::form::{Field, Form};
use crate::forms::read_form;
use fault::Fault;
use format::names::{assign_named, kind_named, op_named};
use format::numbers::{read_local, read_slot};
use format::values::read_value;
use steps::Step;

// As long as half a field, since two digits stand for a byte.
pub type Scratch = [u8; 2048];

fn read_post(slot: &[u8], kind: &[u8], value: Field, buffer: &mut Scratch) -> Result<Command, Fault>
    ensures asks { AsksPost slot.now value.entry.bytes.now (kind_named kind.now) (asked_by buffer.new result) }
    ensures inside { InsideIfOk buffer.new result }
{
    let kind = kind_named(kind).ok_or(Fault::Unknown)?;
    let slot = read_slot(slot).ok_or(Fault::Malformed)?;
    let value = read_value(kind, value.bytes, buffer).ok_or(Fault::Malformed)?;
    Ok(Command::Post { slot, value })
}

fn read_put(kind: &[u8], value: Field, buffer: &mut Scratch) -> Result<Command, Fault>
    ensures asks { AsksPut value.entry.bytes.now (kind_named kind.now) (asked_by buffer.new result) }
    ensures inside { InsideIfOk buffer.new result }
{
    let kind = kind_named(kind).ok_or(Fault::Unknown)?;
    let value = read_value(kind, value.bytes, buffer).ok_or(Fault::Malformed)?;
    let step = Step::Put(value);
    step.test().map_err(|_| Fault::Malformed)?;
    Ok(Command::Add(step))
}

fn read_set(op: &[u8], local: &[u8], buffer: &Scratch) -> Result<Command, Fault>
    ensures asks { AsksSet local.now (assign_named op.now) (asked_by buffer.now result) }
    ensures inside { InsideIfOk buffer.now result }
{
    let op = assign_named(op).ok_or(Fault::Unknown)?;
    let local = read_local(local).ok_or(Fault::Unknown)?;
    Ok(Command::Add(Step::Assign { op, local }))
}

// What a line asks for. A posted text is put into the front of the buffer. (Inlined, for a program with two makes of shelf.)
#[inline(always)]
pub(crate) fn read_line(line: &[u8], buffer: &mut Scratch) -> Result<Command, Fault>
    ensures asks { Asks (line_form line.now) (asked_by buffer.new result) }
    ensures inside { InsideIfOk buffer.new result }
{
    let step = match read_form(line).ok_or(Fault::BadLine)? {
        Form::Post { slot, kind, value } => return read_post(slot, kind, value, buffer),
        Form::Clear => return Ok(Command::Clear),
        Form::Check => return Ok(Command::Check),
        Form::Run => return Ok(Command::Run),
        Form::Put { kind, value } => return read_put(kind, value, buffer),
        Form::Slot(slot) => Step::Slot(read_slot(slot).ok_or(Fault::Malformed)?),
        Form::Local(local) => Step::Local(read_local(local).ok_or(Fault::Unknown)?),
        Form::Keep(local) => Step::Keep(read_local(local).ok_or(Fault::Unknown)?),
        Form::Op(op) => Step::Apply(op_named(op).ok_or(Fault::Unknown)?),
        Form::Set { op, local } => return read_set(op, local, buffer),
    };
    Ok(Command::Add(step))
}
