// Room in the buffer of APPLY: a new text that fits exactly, or is short of one byte, and the longest texts.
use crate::trial::{AB, CD, Case, Given, NO_STR, NONE, hold_in, new_blob, new_str, plus};
use fault::Fault;
use operators::{FnAssign, FnBuiltin, Selectable};
use routines::Limits;
use std::process::Abort;
use value::{Op, Value};

const C: Value<&[u8]> = Value::Char('c');

const BYTES: Value<&[u8]> = Value::Blob(b"\xff\x00");

const LEFT: Result<Given, Fault> = Ok(Given::Left);

const SHORT: Result<Given, Fault> = Err(Fault::BufferShort);

fn full_or_short<R: Selectable>(rt: &impl Abort) {
    let fits = plus(AB, CD, NONE, new_str(4), b"abcd");
    let passes = plus(AB, CD, NONE, SHORT, b"");
    hold_in::<R>(rt, fits, &mut [0u8; 4], 0);
    hold_in::<R>(rt, passes, &mut [0u8; 3], 1);
    let fits = plus(AB, C, NONE, new_str(3), b"abc");
    let passes = plus(AB, C, NONE, SHORT, b"");
    hold_in::<R>(rt, fits, &mut [0u8; 3], 2);
    hold_in::<R>(rt, passes, &mut [0u8; 2], 3);
    let fits = plus(BYTES, BYTES, NONE, new_blob(4), b"\xff\x00\xff\x00");
    let passes = plus(BYTES, BYTES, NONE, SHORT, b"");
    hold_in::<R>(rt, fits, &mut [0u8; 4], 4);
    hold_in::<R>(rt, passes, &mut [0u8; 3], 5);
    let fits = plus(BYTES, C, NONE, new_blob(3), b"\xff\x00c");
    let passes = plus(BYTES, C, NONE, SHORT, b"");
    hold_in::<R>(rt, fits, &mut [0u8; 3], 6);
    hold_in::<R>(rt, passes, &mut [0u8; 2], 7);
}

#[test]
fn buffer_exactly_full_or_one_short(rt: HostRuntime) {
    full_or_short::<FnBuiltin>(&rt);
    full_or_short::<FnAssign>(&rt);
}

// Of a buffer with more room, the rest stays.
#[test]
fn rest_of_the_buffer_stays(rt: HostRuntime) {
    let case = plus(AB, C, NONE, new_str(3), b"abc");
    hold_in::<FnAssign>(&rt, case, &mut [0u8; 6], 0);
}

// The limit of size is tested before room.
#[test]
fn limit_before_buffer(rt: HostRuntime) {
    let limits = Limits { string: 3, blob: 0 };
    let case = plus(AB, CD, limits, Err(Fault::OverLimit), b"");
    hold_in::<FnBuiltin>(&rt, case, &mut [0u8; 3], 0);
    hold_in::<FnAssign>(&rt, case, &mut [0u8; 3], 1);
}

// What is given back needs no room; a new str that is one of the two all the same does.
#[test]
fn no_room_for_what_is_given_back(rt: HostRuntime) {
    let back = plus(AB, Value::Unit, NONE, LEFT, b"");
    let left_as_it_was = plus(AB, NO_STR, NONE, LEFT, b"");
    let anew = plus(AB, NO_STR, NONE, SHORT, b"");
    hold_in::<FnBuiltin>(&rt, back, &mut [], 0);
    hold_in::<FnAssign>(&rt, left_as_it_was, &mut [], 1);
    hold_in::<FnBuiltin>(&rt, anew, &mut [0u8; 1], 2);
}

// A new text of 65,536 bytes, in a buffer with room for more, and one of a byte more.
fn longest<R: Selectable>(rt: &impl Abort) {
    let left = [b'a'; 40000];
    let right = [b'a'; 25537];
    let mut buffer = [0u8; 70000];
    let whole = [b'a'; 65536];
    let fits = plus(
        Value::Str(&left),
        Value::Str(&right[1..]),
        NONE,
        new_str(65536),
        &whole,
    );
    let passes = plus(Value::Str(&left), Value::Str(&right), NONE, SHORT, b"");
    let blob = plus(
        Value::Blob(&left),
        Value::Blob(&right[1..]),
        NONE,
        new_blob(65536),
        &whole,
    );
    hold_in::<R>(rt, fits, &mut buffer, 0);
    hold_in::<R>(rt, passes, &mut buffer, 1);
    hold_in::<R>(rt, blob, &mut buffer, 2);
}

#[test]
fn longest_text(rt: HostRuntime) {
    longest::<FnBuiltin>(&rt);
    longest::<FnAssign>(&rt);
}

// A text of 65,536 bytes is a value.
#[test]
fn longest_operand(rt: HostRuntime) {
    let text = [b'a'; 65536];
    let case = Case {
        op: Op::EqualsTo,
        left: Value::Blob(&text),
        right: Value::Blob(b"a"),
        limits: NONE,
        gives: Ok(Given::Bool(false)),
        writes: b"",
    };
    hold_in::<FnBuiltin>(&rt, case, &mut [], 0);
}
