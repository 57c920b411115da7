// Answering a case.
ghost use Rattle.std.specs.Prelude.{◌≡◌, [], ◌∷◌, ◌++◌, OnOk, Err, option_map};
ghost use Rattle.std.specs.Io.KnownBytes.{Appends};
ghost use Rattle.value.specs.Values.{float, meaning};
ghost use Rattle.cases.specs.Cases.{spelled};
ghost use Rattle.cases.specs.Judged.{plain_named, operator_named, ReadsLimit, ReadsBits, ReadsOperand, operated_by, Judged, shown_case, AnswersCase, shown_meaning};

use crate::case::{Case, Form, read_case};
use fault::Fault;
use format::hexadecimal::read_bits;
use format::names::{assign_named, kind_named, op_named};
use format::numbers::read_int;
use format::values::read_value;
use input::Answerer;
use operators::{FnAssign, FnBuiltin, Selectable, apply};
use routines::{Limits, Made};
use show::Shown;
use std::io;
use std::io::Write;
use value::{Kind, MOST_BYTES, Op, Value, lend};

// Three buffers of fixed size, so that a case takes no memory.
#[derive(Drop)]
pub struct Judge {
    left: [u8; MOST_BYTES],
    right: [u8; MOST_BYTES],
    work: [u8; MOST_BYTES],
}

// An operator that does not assign, one of the last eight.
fn plain_named(name: &[u8]) -> Option<Op>
    ensures { result ≡ plain_named name.now }
{
    op_named(name).filter(|op| u8::from(*op) >= 11)
}

// An operator: one that assigns is written with = behind; one that does not has no row there.
fn read_op(form: Form, name: &[u8]) -> Option<Op>
    ensures { result ≡ operator_named form name.now }
{
    match form {
        Form::Apply => op_named(name),
        Form::Assign => assign_named(name).or_else(|| plain_named(name)),
    }
}

fn read_limit(bytes: &[u8]) -> Option<usize>
    ensures { ReadsLimit bytes.now result }
{
    let n = read_int(bytes)?;
    usize::try_from(n).ok()
}

// A float by its bits; here a NaN is read too.
fn read_any_float(bytes: &[u8]) -> Option<f64>
    ensures { ReadsBits bytes.now (option_map (λ x. float x) result) }
{
    let bits = read_bits(bytes)?;
    if bits % 0x8000_0000_0000_0000 > 0x7ff0_0000_0000_0000 {
        return Some(f64::NAN);
    }
    Some(f64::from_bits(bits))
}

// A value with its text in the buffer.
fn read_operand<'a>(
    kind: Kind,
    bytes: &[u8],
    buffer: &'a mut [u8; MOST_BYTES],
) -> Option<Value<&'a [u8]>>
    ensures { ReadsOperand kind bytes.now (option_map (meaning (λ x. x.now)) result) }
{
    if kind == Kind::Float {
        let x = read_any_float(bytes)?;
        return Some(Value::Float(x));
    }
    let value = read_value(kind, bytes, buffer)?;
    Some(lend(value, buffer))
}

// The operator on two values; a new text goes into the buffer.
fn operate<'a, R: Selectable>(
    op: Op,
    a: Value<&'a [u8]>,
    b: Value<&'a [u8]>,
    limits: Limits,
    work: &'a mut [u8; MOST_BYTES],
) -> Result<Shown<'a>, Fault>
    ensures { shown_meaning result ≡ operated_by R.finds R.does limits op (meaning (λ x. x.now) a.entry) (meaning (λ x. x.now) b.entry) }
{
    match apply::<R>(op, a, b, limits, work)? {
        Made::Left => Ok(Shown(a)),
        Made::Right => Ok(Shown(b)),
        Made::New(value) => Ok(Shown(lend(value, work))),
    }
}

// The value that a case gives, with its text in one of the buffers. (As a method of Judge this gets no proof: its value would
// borrow one part of `self` while another is written.)
fn give<'a>(
    case: Case,
    left: &'a mut [u8; MOST_BYTES],
    right: &'a mut [u8; MOST_BYTES],
    work: &'a mut [u8; MOST_BYTES],
) -> Result<Shown<'a>, Fault>
    ensures { Judged (spelled case.entry) (shown_meaning result) }
{
    let op = read_op(case.form, case.op).ok_or(Fault::Unknown)?;
    let left_kind = kind_named(case.left.kind).ok_or(Fault::Unknown)?;
    let right_kind = kind_named(case.right.kind).ok_or(Fault::Unknown)?;
    let limits = Limits {
        string: read_limit(case.string).ok_or(Fault::Malformed)?,
        blob: read_limit(case.blob).ok_or(Fault::Malformed)?,
    };
    let a = read_operand(left_kind, case.left.value, left).ok_or(Fault::Malformed)?;
    let b = read_operand(right_kind, case.right.value, right).ok_or(Fault::Malformed)?;
    match case.form {
        Form::Apply => operate::<FnBuiltin>(op, a, b, limits, work),
        Form::Assign => operate::<FnAssign>(op, a, b, limits, work),
    }
}

impl Judge {
    pub(crate) fn new() -> Self {
        Judge {
            left: [0; MOST_BYTES],
            right: [0; MOST_BYTES],
            work: [0; MOST_BYTES],
        }
    }
}

fn write_refusal<W: Write>(fault: Fault, out: &mut W) -> io::Result<()>
    ensures { OnOk result (Appends (W.contents out.old) (W.contents out.new) (shown_case (Err fault) ++ (10 ∷ []))) }
{
    writeln!(out, "no\t{}", u8::from(fault))
}

impl Answerer for Judge {
    ghost answers = { λ _ line _ bytes. AnswersCase line bytes };

    fn answer<W: Write>(&mut self, line: &[u8], out: &mut W) -> io::Result<()> {
        let Some(case) = read_case(line) else {
            return self.refuse(out);
        };
        match give(case, &mut self.left, &mut self.right, &mut self.work) {
            Ok(value) => writeln!(out, "{value}"),
            Err(fault) => write_refusal(fault, out),
        }
    }

    fn refuse<W: Write>(&mut self, out: &mut W) -> io::Result<()> {
        write_refusal(Fault::BadLine, out)
    }
}
