// Runs: every byte of the work buffer, where a run ends well and where it is refused.
use crate::trial::{AB, CD, FILL, Given, NO_BLOB, NO_STR, NONE, as_given, begins, blob_at, str_at};
use desk::{Call, Desk, Reply};
use fault::{Fault, Refusal};
use routines::Limits;
use std::process::Abort;
use steps::Step;
use table::{Record, new_table};
use value::{Op, Value};

const BLOB: Value<&[u8]> = Value::Blob(b"\xff0");

const LONG: Value<&[u8]> = Value::Str(b"abcdefg");

const ADD: Step = Step::Apply(Op::Plus);

const ASSIGN: Step = Step::Assign {
    op: Op::Plus,
    local: 0,
};

const A: Step = Step::Put(Value::Char('a'));

fn as_reply(reply: Reply) -> Given {
    match reply {
        Reply::Value(value) => as_given(value),
        _ => Given::Other,
    }
}

// A run of these steps over two slots with these values.
fn run(
    slots: [Value<&[u8]>; 2],
    steps: &[Step],
    limits: Limits,
    work: &mut [u8],
) -> Result<Given, Refusal> {
    let mut records = [Record { value: Value::Unit }; 2];
    let mut texts = [0u8; 8192];
    let mut desk = Desk::new(new_table(&mut records, &mut texts, 4096));
    for (slot, value) in [0, 1].iter().zip(slots) {
        desk.serve(Call::Post { slot: *slot, value }, work)?;
    }
    for step in steps {
        desk.serve(Call::Add(*step), work)?;
    }
    desk.serve(Call::Check, work)?;
    work.fill(FILL);
    desk.serve(Call::Run(limits), work).map(as_reply)
}

// What a run without limits gives, and what the work buffer begins with afterwards.
fn gives(rt: &impl Abort, slots: [Value<&[u8]>; 2], steps: &[Step], gives: Given, writes: &[u8]) {
    let mut work = [0u8; 12];
    assert_eq!(rt; run(slots, steps, NONE, &mut work), Ok(gives));
    begins(rt, &work, writes, 0);
}

// The same of a run that is refused at a step.
fn refuses(
    rt: &impl Abort,
    slots: [Value<&[u8]>; 2],
    steps: &[Step],
    limits: Limits,
    fault: Fault,
    place: usize,
    writes: &[u8],
) {
    let mut work = [0u8; 12];
    assert_eq!(rt;
        run(slots, steps, limits, &mut work),
        Err(Refusal { fault, place })
    );
    begins(rt, &work, writes, 0);
}

// The first slot is kept, and the second assigned to it.
const BY_SLOT: [Step; 5] = [
    Step::Slot(0),
    Step::Keep(0),
    Step::Slot(1),
    ASSIGN,
    Step::Local(0),
];

// A char is kept, and the second slot assigned to it.
const CHAR_BY_SLOT: [Step; 5] = [A, Step::Keep(0), Step::Slot(1), ASSIGN, Step::Local(0)];

// The first slot is kept, and a char assigned to it.
const BY_CHAR: [Step; 5] = [Step::Slot(0), Step::Keep(0), A, ASSIGN, Step::Local(0)];

// What an assignment makes goes behind the texts that were told, and the load of a local copies none.
#[test]
fn assigned(rt: HostRuntime) {
    gives(&rt, [AB, CD], &BY_SLOT, str_at(4, 4), b"abcdabcd");
    gives(&rt, [AB, CD], &BY_CHAR, str_at(2, 3), b"ababa");
    gives(&rt, [AB, CD], &CHAR_BY_SLOT, str_at(2, 3), b"cdacd");
    gives(&rt, [NO_STR, CD], &BY_SLOT, str_at(2, 2), b"cdcd");
    gives(&rt, [BLOB, CD], &BY_SLOT, blob_at(4, 4), b"\xff0cd\xff0cd");
    gives(&rt, [BLOB, CD], &BY_CHAR, blob_at(2, 3), b"\xff0\xff0a");
    gives(
        &rt,
        [BLOB, BLOB],
        &BY_SLOT,
        blob_at(4, 4),
        b"\xff0\xff0\xff0\xff0",
    );
    gives(
        &rt,
        [BLOB, Value::Int(-2)],
        &BY_SLOT,
        blob_at(2, 3),
        b"\xff0\xff0\xfe",
    );
}

// An assignment that adds nothing writes nothing.
#[test]
fn nothing_added(rt: HostRuntime) {
    gives(&rt, [AB, NO_STR], &BY_SLOT, str_at(0, 2), b"ab");
    gives(&rt, [AB, NO_STR], &CHAR_BY_SLOT, Given::Char('a'), b"");
    gives(&rt, [BLOB, NO_STR], &BY_SLOT, blob_at(0, 2), b"\xff0");
    gives(&rt, [BLOB, NO_BLOB], &BY_SLOT, blob_at(0, 2), b"\xff0");
}

// Each is refused at its step, and the texts of earlier steps stay.
#[test]
fn refused_at_its_step(rt: HostRuntime) {
    let short = Limits { string: 3, blob: 1 };
    let (over, full, zero) = (Fault::OverLimit, Fault::BufferShort, Fault::ZeroDivisor);
    let sum = [Step::Slot(0), Step::Slot(1), ADD];
    let division = [
        Step::Slot(0),
        Step::Slot(1),
        ADD,
        Step::Keep(0),
        Step::Put(Value::Int(1)),
        Step::Put(Value::Int(0)),
        Step::Apply(Op::Divide),
    ];
    refuses(&rt, [AB, CD], &sum, short, over, 2, b"abcd");
    refuses(&rt, [AB, CD], &BY_SLOT, short, over, 3, b"abcd");
    refuses(&rt, [BLOB, NO_BLOB], &BY_SLOT, short, over, 3, b"\xff0");
    refuses(&rt, [AB, CD], &division, NONE, zero, 6, b"abcdabcd");
    refuses(&rt, [LONG, AB], &sum, NONE, full, 2, b"abcdefgab");
    refuses(&rt, [LONG, AB], &BY_SLOT, NONE, full, 3, b"abcdefgab");
    refuses(&rt, [LONG, LONG], &sum, short, full, 1, b"abcdefg");
    // over the limit and without room
    refuses(&rt, [LONG, AB], &sum, short, over, 2, b"abcdefgab");
    refuses(&rt, [LONG, AB], &BY_SLOT, short, over, 3, b"abcdefgab");
}

// Fifteen loads of 4,096 bytes, each kept away, and three more steps. A run has the first 65,536 of 70,000 bytes.
fn after_fifteen(
    rt: &impl Abort,
    second: Value<&[u8]>,
    last: [Step; 3],
    gives: Result<Given, Fault>,
    writes: &[u8],
) {
    let text = [b'a'; 4096];
    let mut steps = [Step::Slot(0); 33];
    for i in 0..15 {
        steps[2 * i + 1] = Step::Keep(0);
    }
    steps[30..].copy_from_slice(&last);
    let mut work = [0u8; 70000];
    let gives = gives.map_err(|fault| Refusal { fault, place: 32 });
    assert_eq!(rt;
        run([Value::Str(&text), second], &steps, NONE, &mut work),
        gives
    );
    begins(rt, &work, writes, 0);
}

#[test]
fn behind_the_last_byte(rt: HostRuntime) {
    let all = [b'a'; 65536];
    let short = Err(Fault::BufferShort);
    let (first, second, local) = (Step::Slot(0), Step::Slot(1), Step::Local(0));
    // the sixteenth load takes the last byte
    let full = [first, Step::Keep(0), second];
    after_fifteen(&rt, AB, [first, Step::Keep(0), first], short, &all);
    after_fifteen(&rt, Value::Str(b"b"), full, short, &all);
    after_fifteen(&rt, Value::Blob(b"b"), full, short, &all);
    after_fifteen(&rt, NO_STR, full, Ok(str_at(65536, 0)), &all);
    after_fifteen(&rt, Value::Int(5), full, Ok(Given::Int(5)), &all);
    // a new text does
    let last = Ok(str_at(61440, 4096));
    after_fifteen(&rt, NO_STR, [local, second, ADD], last, &all);
    after_fifteen(&rt, NO_STR, [local, A, ADD], short, &all[..61440]);
}
