// Lines under a seal, and lines before a table: a rule across each of three seams, and calls on the slots beside and behind them.
use crate::hold::hold;
use crate::{BLANK, LAST, LIMITS};
use desk::Call;
use layers::{Joined, Sealed};
use lines::new_lines;
use shelf::Shelf;
use std::io;
use steps::Step;
use table::new_table;
use value::{Op, Value};

const SEALED_LINES: &[u8] = b"str\t6b67\nint\t30\n";

const PLAIN_LINES: &[u8] = b"int\t4\nstr\t78\n";

fn post(slot: u32, value: Value<&[u8]>) -> Call {
    Call::Post { slot, value }
}

// Calls on the slots of two halves: two open slots and two sealed ones, twice, the second time the other way round.
fn hold_halves<P: Shelf + Drop, Q: Shelf + Drop>(
    rt: &HostRuntime,
    left: P,
    right: Q,
) -> io::Result<()> {
    let calls = [
        Call::Count,
        Call::Mark(1),
        Call::Mark(2),
        Call::Mark(3),
        Call::Mark(4),
        Call::Mark(5),
        Call::Mark(6),
        Call::Mark(8),
        Call::Kind(3),
        Call::Kind(5),
        Call::Kind(6),
        Call::Kind(LAST),
        Call::Capacity(1),
        Call::Capacity(2),
        Call::Capacity(4),
        Call::Capacity(5),
        Call::Capacity(6),
        Call::Capacity(8),
        post(1, Value::Str(b"12 ")),
        post(2, Value::Str(b"t")),
        post(3, Value::Int(5)),
        post(4, Value::Int(5)),
        post(5, Value::Str(b"t")),
        post(5, Value::Str(b"\xff")),
        post(6, Value::Str(b"y")),
        post(7, Value::Str(b"long")),
        post(7, Value::Str(b"z")),
        post(8, Value::Int(5)),
        post(LAST, Value::Int(5)),
        post(LAST, Value::Str(b"\xff")),
        Call::Tell { slot: 2, place: 62 },
        Call::Tell { slot: 2, place: 63 },
        Call::Tell { slot: 5, place: 63 },
        Call::Tell { slot: 5, place: 64 },
        Call::Tell { slot: 7, place: 0 },
        Call::Tell {
            slot: LAST,
            place: 65,
        },
        Call::Add(Step::Slot(1)),
        Call::Add(Step::Slot(2)),
        Call::Add(Step::Apply(Op::Plus)),
        Call::Check,
        Call::Run(LIMITS),
        Call::Clear,
        Call::Add(Step::Slot(3)),
        Call::Add(Step::Slot(4)),
        Call::Add(Step::Apply(Op::Minus)),
        Call::Check,
        Call::Run(LIMITS),
        Call::Clear,
        Call::Add(Step::Slot(5)),
        Call::Add(Step::Slot(6)),
        Call::Add(Step::Apply(Op::Plus)),
        Call::Check,
        Call::Run(LIMITS),
        post(6, Value::Str(b"w")),
        Call::Run(LIMITS),
        post(6, Value::Int(5)),
        Call::Run(LIMITS),
        Call::Clear,
        Call::Add(Step::Slot(7)),
        Call::Add(Step::Slot(8)),
        Call::Check,
        Call::Clear,
        Call::Add(Step::Slot(LAST)),
        Call::Check,
    ];
    hold(rt, Joined::new(left, right), &calls)
}

// A table and sealed lines are joined, and lines and a table.
pub(crate) fn hold_between(rt: &HostRuntime) -> io::Result<()> {
    let mut a = [BLANK; 2];
    let mut d = [BLANK; 2];
    let mut a_texts = [0u8; 8];
    let mut d_texts = [0u8; 6];
    let first = new_table(&mut a, &mut a_texts, 4);
    let last = new_table(&mut d, &mut d_texts, 3);
    hold_halves(
        rt,
        Joined::new(first, Sealed::new(new_lines(SEALED_LINES))),
        Joined::new(new_lines(PLAIN_LINES), last),
    )
}
