// Piles of shelves at a desk: calls on both sides of every seam, behind the last slot, and on sealed slots.
#![tactic(auto)]

mod behind;
mod between;
mod hold;
mod wide;

use behind::hold_lines;
use between::hold_between;
use desk::Call;
use hold::hold;
use layers::{Joined, Sealed};
use routines::Limits;
use shelf::Shelf;
use std::io;
use steps::Step;
use table::{Record, new_table};
use value::{Op, Value};
use wide::hold_wide;

const BLANK: Record = Record { value: Value::Unit };

const LIMITS: Limits = Limits {
    string: 64,
    blob: 64,
};

const LAST: u32 = 4294967295;

// Three open slots, and two sealed ones behind them.
fn hold_two(rt: &HostRuntime) -> io::Result<()> {
    let mut open = [BLANK; 3];
    let mut open_texts = [0u8; 24];
    let mut shut = [BLANK; 2];
    let mut shut_texts = [0u8; 8];
    let mut below = new_table(&mut shut, &mut shut_texts, 4);
    let _ = below.post(0, Value::Str(b"kg"));
    let pile = Joined::new(new_table(&mut open, &mut open_texts, 8), Sealed::new(below));
    let calls = [
        Call::Count,
        Call::Mark(2),
        Call::Mark(3),
        Call::Mark(5),
        Call::Capacity(2),
        Call::Capacity(3),
        Call::Post {
            slot: 2,
            value: Value::Str(b"12 "),
        },
        Call::Post {
            slot: 3,
            value: Value::Str(b"t"),
        },
        Call::Post {
            slot: 3,
            value: Value::Str(b"\xff"),
        },
        Call::Post {
            slot: 5,
            value: Value::Str(b"t"),
        },
        Call::Post {
            slot: LAST,
            value: Value::Str(b"\xff"),
        },
        Call::Add(Step::Slot(2)),
        Call::Add(Step::Slot(3)),
        Call::Add(Step::Apply(Op::Plus)),
        Call::Check,
        Call::Run(LIMITS),
        Call::Clear,
        Call::Add(Step::Slot(5)),
        Call::Check,
    ];
    hold(rt, pile, &calls)
}

// Two open slots, two sealed ones, one open one and two open ones: each pair is joined, and the two pairs are.
fn hold_four(rt: &HostRuntime) -> io::Result<()> {
    let mut a = [BLANK; 2];
    let mut b = [BLANK; 2];
    let mut c = [BLANK; 1];
    let mut d = [BLANK; 2];
    let mut a_texts = [0u8; 2];
    let mut b_texts = [0u8; 2];
    let mut c_texts = [0u8; 1];
    let mut d_texts = [0u8; 2];
    let mut below = new_table(&mut b, &mut b_texts, 1);
    let _ = below.post(0, Value::Str(b"u"));
    let _ = below.post(1, Value::Str(b"v"));
    let left = Joined::new(new_table(&mut a, &mut a_texts, 1), Sealed::new(below));
    let right = Joined::new(
        new_table(&mut c, &mut c_texts, 1),
        new_table(&mut d, &mut d_texts, 1),
    );
    let pile = Joined::new(left, right);
    let calls = [
        Call::Count,
        Call::Post {
            slot: 1,
            value: Value::Str(b"s"),
        },
        Call::Post {
            slot: 2,
            value: Value::Str(b"t"),
        },
        Call::Post {
            slot: 3,
            value: Value::Str(b"t"),
        },
        Call::Post {
            slot: 4,
            value: Value::Str(b"x"),
        },
        Call::Post {
            slot: 5,
            value: Value::Str(b"y"),
        },
        Call::Add(Step::Slot(1)),
        Call::Add(Step::Slot(2)),
        Call::Add(Step::Apply(Op::Plus)),
        Call::Add(Step::Slot(3)),
        Call::Add(Step::Apply(Op::Plus)),
        Call::Add(Step::Slot(4)),
        Call::Add(Step::Apply(Op::Plus)),
        Call::Add(Step::Slot(5)),
        Call::Add(Step::Apply(Op::Plus)),
        Call::Check,
        Call::Run(LIMITS),
        Call::Kind(6),
        Call::Kind(7),
        Call::Kind(65535),
        Call::Kind(65536),
        Call::Clear,
        Call::Add(Step::Slot(6)),
        Call::Add(Step::Slot(LAST)),
        Call::Check,
    ];
    hold(rt, pile, &calls)
}

fn main(rt: HostRuntime) -> io::Result<()> {
    println!(rt; "two shelves:")?;
    hold_two(&rt)?;
    println!(rt; "four shelves:")?;
    hold_four(&rt)?;
    println!(rt; "lines behind a table:")?;
    hold_lines(&rt)?;
    println!(rt; "lines between tables:")?;
    hold_between(&rt)?;
    println!(rt; "seventeen shelves:")?;
    hold_wide(&rt)
}
