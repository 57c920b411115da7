// A pile of more slots than are shown: sixteen tables, joined two by two, and one more behind them.
use crate::hold::hold;
use crate::{BLANK, LIMITS};
use desk::Call;
use layers::Joined;
use shelf::Shelf;
use std::io;
use steps::Step;
use table::{Record, Table, new_table};
use value::{Op, Value};

// A shelf whose tables, without room for texts, share out the records.
pub trait Share<'a>: Shelf + Sized {
    fn share(records: &'a mut [Record]) -> Self;
}

impl<'a> Share<'a> for Table<'a> {
    fn share(records: &'a mut [Record]) -> Self {
        new_table(records, &mut [], 0)
    }
}

impl<'a, P: Share<'a>, Q: Share<'a>> Share<'a> for Joined<P, Q> {
    fn share(records: &'a mut [Record]) -> Self {
        let half = records.len() / 2;
        let (left, right) = records.split_at_mut(half);
        Joined::new(P::share(left), Q::share(right))
    }
}

// Calls on the last slots that any shelf shows, with a seam between them, and behind these.
fn hold_last<S: Shelf + Drop>(rt: &HostRuntime, pile: S) -> io::Result<()> {
    let calls = [
        Call::Count,
        Call::Post {
            slot: 65534,
            value: Value::Int(1),
        },
        Call::Post {
            slot: 65535,
            value: Value::Int(20),
        },
        Call::Post {
            slot: 65536,
            value: Value::Str(b""),
        },
        Call::Add(Step::Slot(65534)),
        Call::Add(Step::Slot(65535)),
        Call::Add(Step::Apply(Op::Plus)),
        Call::Check,
        Call::Run(LIMITS),
        Call::Kind(65536),
        Call::Capacity(65537),
        Call::Mark(65536),
        Call::Tell {
            slot: 65536,
            place: 0,
        },
        Call::Clear,
        Call::Add(Step::Slot(65536)),
        Call::Check,
    ];
    hold(rt, pile, &calls)
}

// A shelf that shares out the many, and a table of the few behind it.
fn hold_shared<'a, S: Share<'a> + Drop>(
    rt: &HostRuntime,
    many: &'a mut [Record],
    few: &'a mut [Record],
) -> io::Result<()> {
    hold_last(rt, Joined::new(S::share(many), Table::share(few)))
}

// Two shelves of one make, joined.
type Two<S> = Joined<S, S>;

// Sixteen tables with 65,535 slots, and one with three.
pub(crate) fn hold_wide(rt: &HostRuntime) -> io::Result<()> {
    let mut many = vec![in rt.alloc(); BLANK; 65535]?;
    let mut few = [BLANK; 3];
    hold_shared::<Two<Two<Two<Two<Table>>>>>(rt, &mut many, &mut few)
}
