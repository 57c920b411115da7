// Lines behind a table: a rule on each side of the seam and across it, and calls on the slots there and behind the last.
use crate::hold::hold;
use crate::{BLANK, LAST, LIMITS};
use desk::Call;
use layers::Joined;
use lines::new_lines;
use std::io;
use steps::Step;
use table::new_table;
use value::{Op, Value};

// The last lacks its line feed.
const LINES: &[u8] = b"str\t206b67\nfloat\t4039800000000000\nint\t40";

// Two open slots, and three lines behind them: slots 2, 3 and 4.
pub(crate) fn hold_lines(rt: &HostRuntime) -> io::Result<()> {
    let mut records = [BLANK; 2];
    let mut texts = [0u8; 8];
    let table = new_table(&mut records, &mut texts, 4);
    let calls = [
        Call::Count,
        Call::Mark(1),
        Call::Mark(2),
        Call::Mark(4),
        Call::Mark(5),
        Call::Kind(4),
        Call::Kind(5),
        Call::Kind(LAST),
        Call::Capacity(1),
        Call::Capacity(2),
        Call::Capacity(4),
        Call::Post {
            slot: 1,
            value: Value::Str(b"12"),
        },
        Call::Post {
            slot: 2,
            value: Value::Str(b"t"),
        },
        Call::Post {
            slot: 4,
            value: Value::Str(b"\xff"),
        },
        Call::Post {
            slot: 5,
            value: Value::Int(1),
        },
        Call::Tell { slot: 2, place: 61 },
        Call::Tell { slot: 2, place: 62 },
        Call::Tell { slot: 3, place: 65 },
        Call::Tell { slot: 5, place: 65 },
        Call::Add(Step::Slot(1)),
        Call::Add(Step::Slot(2)),
        Call::Add(Step::Apply(Op::Plus)),
        Call::Check,
        Call::Run(LIMITS),
        Call::Clear,
        Call::Add(Step::Slot(4)),
        Call::Add(Step::Slot(4)),
        Call::Add(Step::Apply(Op::Plus)),
        Call::Check,
        Call::Run(LIMITS),
        Call::Clear,
        Call::Add(Step::Slot(4)),
        Call::Add(Step::Slot(5)),
        Call::Check,
    ];
    hold(rt, Joined::new(table, new_lines(LINES)), &calls)
}
