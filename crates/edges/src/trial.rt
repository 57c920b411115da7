// What the tests of operators share: one case of APPLY, and the trial of it with every byte of the buffer.
use fault::Fault;
use operators::{Selectable, apply};
use routines::{Limits, Made};
use std::process::Abort;
use text::Span;
use value::{Op, Value};

pub const NONE: Limits = Limits { string: 0, blob: 0 };

pub const AB: Value<&[u8]> = Value::Str(b"ab");

pub const CD: Value<&[u8]> = Value::Str(b"cd");

pub const NO_STR: Value<&[u8]> = Value::Str(b"");

pub const NO_BLOB: Value<&[u8]> = Value::Blob(b"");

// What the buffer's bytes are before.
pub const FILL: u8 = b'.';

// What an operator, a run or a shelf gives, in a form that can be compared.
#[derive(Clone, Copy, PartialEq, Eq, Debug)]
pub enum Given {
    Left,
    Right,
    Unit,
    Bool(bool),
    Int(i64),
    Char(char),
    Str(Span),
    Blob(Span),
    Other,
}

pub(crate) fn as_given(value: Value<Span>) -> Given {
    match value {
        Value::Unit => Given::Unit,
        Value::Bool(answer) => Given::Bool(answer),
        Value::Int(n) => Given::Int(n),
        Value::Char(c) => Given::Char(c),
        Value::Str(span) => Given::Str(span),
        Value::Blob(span) => Given::Blob(span),
        _ => Given::Other,
    }
}

fn made_given(made: Made) -> Given {
    match made {
        Made::Left => Given::Left,
        Made::Right => Given::Right,
        Made::New(value) => as_given(value),
    }
}

// A new text at the front of the buffer.
pub(crate) fn new_str(len: usize) -> Result<Given, Fault> {
    Ok(str_at(0, len))
}

pub(crate) fn new_blob(len: usize) -> Result<Given, Fault> {
    Ok(blob_at(0, len))
}

pub(crate) fn str_at(start: usize, len: usize) -> Given {
    Given::Str(Span { start, len })
}

pub(crate) fn blob_at(start: usize, len: usize) -> Given {
    Given::Blob(Span { start, len })
}

// What an operator gives of two values under the limits, and what it writes at the buffer's front.
#[derive(Clone, Copy)]
pub struct Case<'a> {
    pub op: Op,
    pub left: Value<&'a [u8]>,
    pub right: Value<&'a [u8]>,
    pub limits: Limits,
    pub gives: Result<Given, Fault>,
    pub writes: &'a [u8],
}

// The case of a `+` or a `+=`.
pub(crate) fn plus<'a>(
    left: Value<&'a [u8]>,
    right: Value<&'a [u8]>,
    limits: Limits,
    gives: Result<Given, Fault>,
    writes: &'a [u8],
) -> Case<'a> {
    Case {
        op: Op::Plus,
        left,
        right,
        limits,
        gives,
        writes,
    }
}

// The buffer begins with these bytes, and all others are as they were.
pub(crate) fn begins(rt: &impl Abort, buffer: &[u8], wanted: &[u8], name: usize) {
    for (place, byte) in buffer.iter().enumerate() {
        let wanted = wanted.get(place).copied().unwrap_or(FILL);
        assert_eq!(rt; *byte, wanted, "case {name}, byte {place}");
    }
}

// The case in a buffer, of which no other byte may change.
pub(crate) fn hold_in<R: Selectable>(rt: &impl Abort, case: Case, buffer: &mut [u8], name: usize) {
    buffer.fill(FILL);
    let answer = apply::<R>(case.op, case.left, case.right, case.limits, buffer);
    assert_eq!(rt; answer.map(made_given), case.gives, "case {name}");
    begins(rt, buffer, case.writes, name);
}

// Each case, in a buffer with room for more than it writes.
pub(crate) fn hold<R: Selectable>(rt: &impl Abort, cases: &[Case]) {
    for (name, case) in cases.iter().enumerate() {
        hold_in::<R>(rt, *case, &mut [0u8; 12], name);
    }
}
