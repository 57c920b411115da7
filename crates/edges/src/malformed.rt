// Operands that are no values: a str that is not UTF-8, and a text of 65,537 bytes. They are refused before all else.
use crate::trial::{Case, Given, NONE, hold};
use fault::Fault;
use operators::{FnAssign, FnBuiltin, Selectable};
use routines::Limits;
use std::process::Abort;
use value::{Op, Value};

// Limits that a sum with any of the operands would be over.
const SHORT: Limits = Limits { string: 1, blob: 1 };

fn case<'a>(
    op: Op,
    left: Value<&'a [u8]>,
    right: Value<&'a [u8]>,
    limits: Limits,
    fault: Fault,
) -> Case<'a> {
    Case {
        op,
        left,
        right,
        limits,
        gives: Err(fault),
        writes: b"",
    }
}

// A malformed operand on the left, on the right and on both sides, of an operator with a row and of two without.
fn refused<R: Selectable>(rt: &impl Abort, bad: Value<&[u8]>, good: Value<&[u8]>) {
    for op in [Op::Plus, Op::Minus, Op::ExclusiveRange] {
        for limits in [NONE, SHORT] {
            hold::<R>(
                rt,
                &[
                    case(op, bad, good, limits, Fault::Malformed),
                    case(op, good, bad, limits, Fault::Malformed),
                    case(op, bad, bad, limits, Fault::Malformed),
                    case(op, bad, Value::Unit, limits, Fault::Malformed),
                    case(op, Value::Unit, bad, limits, Fault::Malformed),
                    case(op, bad, Value::Blob(b"\xff"), limits, Fault::Malformed),
                ],
            );
        }
    }
}

fn refused_by_both(rt: &impl Abort, bad: Value<&[u8]>, good: Value<&[u8]>) {
    refused::<FnBuiltin>(rt, bad, good);
    refused::<FnAssign>(rt, bad, good);
}

// Comparing asks no less of its operands than `+` does: the longest text is taken, and one of a byte more is refused.
#[test]
fn overlong_operand(rt: HostRuntime) {
    let text = [b'a'; 65537];
    let short = Value::Blob(&text[..1]);
    let longest = Case {
        op: Op::EqualsTo,
        left: Value::Blob(&text[..65536]),
        right: short,
        limits: NONE,
        gives: Ok(Given::Bool(false)),
        writes: b"",
    };
    let overlong = case(
        Op::EqualsTo,
        Value::Blob(&text),
        short,
        NONE,
        Fault::Malformed,
    );
    hold::<FnBuiltin>(&rt, &[longest, overlong]);
}

#[test]
fn str_is_no_utf8(rt: HostRuntime) {
    let texts: [&[u8]; 8] = [
        b"\xff",
        b"a\xff",
        // a byte that goes on with nothing before it, and a char that is cut short
        b"\x80",
        b"\xe2\x82",
        // overlong
        b"\xc0\x80",
        b"\xe0\x80\xaf",
        // a surrogate, and a number behind the last scalar
        b"\xed\xa0\x80",
        b"\xf4\x90\x80\x80",
    ];
    for text in texts {
        refused_by_both(&rt, Value::Str(text), Value::Str(b"a"));
    }
}

#[test]
fn text_is_overlong(rt: HostRuntime) {
    let text = [b'a'; 65537];
    refused_by_both(&rt, Value::Str(&text), Value::Str(b"a"));
    refused_by_both(&rt, Value::Blob(&text), Value::Blob(b"a"));
}

// Of operands that are values, the row is missing.
#[test]
fn longest_texts_without_a_row(rt: HostRuntime) {
    let text = [b'a'; 65537];
    let longest = &text[1..];
    for (left, right) in [
        (Value::Str(longest), Value::Str(longest)),
        (Value::Blob(longest), Value::Blob(longest)),
        (Value::Str(b"\xc2\x80"), Value::Str(b"a")),
    ] {
        let cases = [case(Op::Minus, left, right, NONE, Fault::NoRow)];
        hold::<FnBuiltin>(&rt, &cases);
        hold::<FnAssign>(&rt, &cases);
    }
}
