// Limits of size: which rows test them, on which count of bytes, and what is given back without a test.
use crate::trial::{AB, CD, Given, NO_BLOB, NO_STR, hold, new_blob, new_str, plus};
use fault::Fault;
use operators::{FnAssign, FnBuiltin};
use routines::Limits;
use value::Value;

const OVER: Result<Given, Fault> = Err(Fault::OverLimit);

const LEFT: Result<Given, Fault> = Ok(Given::Left);

const RIGHT: Result<Given, Fault> = Ok(Given::Right);

// A limit of strs alone, and one of blobs alone.
fn strs(string: usize) -> Limits {
    Limits { string, blob: 0 }
}

fn blobs(blob: usize) -> Limits {
    Limits { string: 0, blob }
}

// A limit of both, and the same two exchanged.
const SHORT_STRS: Limits = Limits { string: 3, blob: 8 };

const SHORT_BLOBS: Limits = Limits { string: 8, blob: 3 };

const BLOB: Value<&[u8]> = Value::Blob(b"\x00\xff");

const A: Value<&[u8]> = Value::Char('a');

// Three bytes of UTF-8.
const EURO: Value<&[u8]> = Value::Char('\u{20ac}');

#[test]
fn sum_of_letters(rt: HostRuntime) {
    hold::<FnBuiltin>(
        &rt,
        &[
            plus(AB, CD, strs(4), new_str(4), b"abcd"),
            plus(AB, CD, strs(3), OVER, b""),
            plus(AB, EURO, strs(5), new_str(5), b"ab\xe2\x82\xac"),
            plus(AB, EURO, strs(4), OVER, b""),
            plus(EURO, A, strs(4), new_str(4), b"\xe2\x82\xaca"),
            plus(EURO, A, strs(3), OVER, b""),
        ],
    );
}

// Where a side is empty, a new str is made all the same.
#[test]
fn sum_with_an_empty_str(rt: HostRuntime) {
    hold::<FnBuiltin>(
        &rt,
        &[
            plus(AB, NO_STR, strs(2), new_str(2), b"ab"),
            plus(AB, NO_STR, strs(1), OVER, b""),
            plus(NO_STR, AB, strs(2), new_str(2), b"ab"),
            plus(NO_STR, AB, strs(1), OVER, b""),
            plus(NO_STR, NO_STR, strs(1), new_str(0), b""),
        ],
    );
}

#[test]
fn unit_and_str_is_given_back(rt: HostRuntime) {
    hold::<FnBuiltin>(
        &rt,
        &[
            plus(Value::Unit, AB, strs(1), RIGHT, b""),
            plus(AB, Value::Unit, strs(1), LEFT, b""),
            plus(Value::Unit, NO_STR, strs(1), RIGHT, b""),
        ],
    );
}

#[test]
fn sum_of_blobs(rt: HostRuntime) {
    hold::<FnBuiltin>(
        &rt,
        &[
            plus(BLOB, BLOB, blobs(4), new_blob(4), b"\x00\xff\x00\xff"),
            plus(BLOB, BLOB, blobs(3), OVER, b""),
            plus(BLOB, NO_BLOB, blobs(1), LEFT, b""),
            plus(NO_BLOB, BLOB, blobs(1), RIGHT, b""),
            plus(NO_BLOB, NO_BLOB, blobs(1), LEFT, b""),
            plus(BLOB, EURO, blobs(5), new_blob(5), b"\x00\xff\xe2\x82\xac"),
            plus(BLOB, EURO, blobs(4), OVER, b""),
        ],
    );
}

// Of a str assigned to a str, the limit is tested where both have bytes.
#[test]
fn letters_assigned(rt: HostRuntime) {
    hold::<FnAssign>(
        &rt,
        &[
            plus(AB, CD, strs(4), new_str(4), b"abcd"),
            plus(AB, CD, strs(3), OVER, b""),
            plus(AB, NO_STR, strs(1), LEFT, b""),
            plus(NO_STR, AB, strs(1), new_str(2), b"ab"),
            plus(NO_STR, NO_STR, strs(1), LEFT, b""),
            plus(AB, EURO, strs(5), new_str(5), b"ab\xe2\x82\xac"),
            plus(AB, EURO, strs(4), OVER, b""),
            plus(NO_STR, EURO, strs(2), OVER, b""),
            plus(A, A, strs(2), new_str(2), b"aa"),
            plus(A, A, strs(1), OVER, b""),
            plus(A, AB, strs(3), new_str(3), b"aab"),
            plus(A, AB, strs(2), OVER, b""),
            plus(EURO, NO_STR, strs(2), LEFT, b""),
        ],
    );
}

// A char counts the bytes of its UTF-8, and an int one byte.
#[test]
fn blob_assigned(rt: HostRuntime) {
    hold::<FnAssign>(
        &rt,
        &[
            plus(BLOB, BLOB, blobs(4), new_blob(4), b"\x00\xff\x00\xff"),
            plus(BLOB, BLOB, blobs(3), OVER, b""),
            plus(NO_BLOB, BLOB, blobs(2), new_blob(2), b"\x00\xff"),
            plus(NO_BLOB, BLOB, blobs(1), OVER, b""),
            plus(BLOB, NO_BLOB, blobs(2), LEFT, b""),
            plus(BLOB, NO_BLOB, blobs(1), OVER, b""),
            plus(NO_BLOB, NO_BLOB, blobs(1), LEFT, b""),
            plus(BLOB, EURO, blobs(5), new_blob(5), b"\x00\xff\xe2\x82\xac"),
            plus(BLOB, EURO, blobs(4), OVER, b""),
            plus(NO_BLOB, EURO, blobs(3), new_blob(3), b"\xe2\x82\xac"),
            plus(NO_BLOB, EURO, blobs(2), OVER, b""),
            plus(BLOB, Value::Int(-2), blobs(3), new_blob(3), b"\x00\xff\xfe"),
            plus(
                BLOB,
                Value::Int(256),
                blobs(3),
                new_blob(3),
                b"\x00\xff\x00",
            ),
            plus(BLOB, Value::Int(0), blobs(2), OVER, b""),
            plus(BLOB, AB, blobs(4), new_blob(4), b"\x00\xffab"),
            plus(BLOB, AB, blobs(3), OVER, b""),
            plus(BLOB, NO_STR, blobs(1), LEFT, b""),
        ],
    );
}

// A new str has the limit of strs, and a new blob that of blobs, whatever is added.
#[test]
fn limits_are_not_exchanged(rt: HostRuntime) {
    let four = b"\x00\xff\x00\xff";
    hold::<FnBuiltin>(
        &rt,
        &[
            plus(AB, CD, SHORT_STRS, OVER, b""),
            plus(AB, CD, SHORT_BLOBS, new_str(4), b"abcd"),
            plus(BLOB, BLOB, SHORT_STRS, new_blob(4), four),
            plus(BLOB, BLOB, SHORT_BLOBS, OVER, b""),
            plus(BLOB, EURO, SHORT_STRS, new_blob(5), b"\x00\xff\xe2\x82\xac"),
            plus(BLOB, EURO, SHORT_BLOBS, OVER, b""),
        ],
    );
    hold::<FnAssign>(
        &rt,
        &[
            plus(AB, CD, SHORT_STRS, OVER, b""),
            plus(AB, CD, SHORT_BLOBS, new_str(4), b"abcd"),
            plus(EURO, A, SHORT_STRS, OVER, b""),
            plus(EURO, A, SHORT_BLOBS, new_str(4), b"\xe2\x82\xaca"),
            plus(EURO, AB, SHORT_STRS, OVER, b""),
            plus(EURO, AB, SHORT_BLOBS, new_str(5), b"\xe2\x82\xacab"),
            plus(BLOB, BLOB, SHORT_STRS, new_blob(4), four),
            plus(BLOB, BLOB, SHORT_BLOBS, OVER, b""),
            plus(BLOB, AB, SHORT_STRS, new_blob(4), b"\x00\xffab"),
            plus(BLOB, AB, SHORT_BLOBS, OVER, b""),
            plus(BLOB, EURO, SHORT_STRS, new_blob(5), b"\x00\xff\xe2\x82\xac"),
            plus(BLOB, EURO, SHORT_BLOBS, OVER, b""),
        ],
    );
}
